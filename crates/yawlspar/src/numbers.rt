// The C bench's functions on numbers. As C gets them, none is 0, or 256 for a place in a page, and yes is 1.
ghost use Rattle.std.specs.Prelude.{◌≡◌};
ghost use Rattle.paper.specs.CBench.{protection_number, protected_first, protected_count, protected_answer, place_answer};

// The bytes of a block, as C counts them.
const BLOCK: u64 = types::BLOCK_BYTES as u64;

// The protection question's number. The address does not matter to it.
pub fn yawlspar_protection_number(code: u64, blocks: u64, address: u64) -> u64
    ensures { result ≡ protection_number code blocks }
{
    let checked = protection::check_question(code, blocks);
    refusals::number_of(checked) as u64
}

// Its first protected block, 0 where there is none and when refused.
pub fn yawlspar_protected_first(code: u64, blocks: u64) -> u64
    ensures { result ≡ protected_first code blocks }
{
    protection::protected_blocks(code, blocks).first as u64
}

// The count of protected blocks from the first on, 0 where there is none and when refused.
pub fn yawlspar_protected_count(code: u64, blocks: u64) -> u64
    ensures { result ≡ protected_count code blocks }
{
    protection::protected_blocks(code, blocks).count as u64
}

// 1 where the address, taken modulo the size, is protected, else 0, also when refused: there is then no protected block. (Where
// there is one, the size is good, and not 0 to divide by.)
pub fn yawlspar_protected(code: u64, blocks: u64, address: u64) -> u64
    ensures { result ≡ protected_answer code blocks address }
{
    let protected = protection::protected_blocks(code, blocks);
    if protected.count == 0 {
        return 0;
    }
    let place = address % (blocks * BLOCK);
    // bit_of, since protected_answer says bit
    words::bit_of(protection::is_among(protected, (place / BLOCK) as usize)) as u64
}

// The place in a page of byte index of bytes that are sent from the place start on; 256 where there is none.
pub fn yawlspar_page_place(start: u64, index: u64) -> u64
    ensures { result ≡ place_answer start index }
{
    if 256 <= start {
        return 256;
    }
    if 4092 <= index {
        return 256;
    }
    pages::page_place(start as u8, index as usize) as u64
}

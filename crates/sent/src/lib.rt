// What a transaction names, and the operation that it begins.
#![tactic(auto)]

ghost use Rattle.std.specs.Prelude.{◌≡◌, cond, ◌+◌, ◌-◌, ◌%◌, eqb, length, get_or};
ghost use Rattle.paper.specs.Sizes.{page_bytes};
ghost use Rattle.paper.specs.Address.{address_count, address_sent, address_in, row_at, fourth_ok, names_row, row_ok, row_base, row_byte, place_in};
ghost use Rattle.paper.specs.Program.{data_sent, kept_count, passed_count, page_data, program_of};
ghost use Rattle.paper.specs.Erase.{erase_of};
ghost use Rattle.paper.specs.Registers.{write_of};
ghost use Rattle.paper.specs.Commands.{begins};

use types::{Addressing, Effect, EraseUnit, Memory, Operation, Register};

// The byte at a place of the input, 0 where none was sent, as the definitions read it.
pub fn byte_at(input: &[u8], place: usize) -> u8
    ensures { result ≡ get_or input.now place 0 }
{
    input.get(place).copied().unwrap_or(0)
}

// The address as it was sent.
fn address_as_sent(form: Addressing, input: &[u8]) -> usize
    ensures { result ≡ address_sent form input.now }
{
    match form {
        Addressing::Three(upper) => {
            let bank = usize::from(upper) * types::BANK_BYTES;
            bank + address::address_sent(input, 3)
        }
        Addressing::Four => address::address_sent(input, 4),
    }
}

// A: the address taken modulo the array size. (A part of no blocks does not exist; there it is the address as sent.) Form,
// size and input are apart here and below, as the definitions take them.
#[tactic(auto, unfolding(paper::specs::Address::address_in))]
pub fn address_in(form: Addressing, blocks: u16, input: &[u8]) -> usize
    ensures { result ≡ address_in form blocks input.now }
{
    let a = address_as_sent(form, input);
    let size = usize::from(blocks) * types::BLOCK_BYTES;
    if size == 0 { a } else { a % size }
}

// The place of a row address: behind the code, or behind a fourth byte.
fn row_at(form: Addressing) -> usize
    ensures { result ≡ row_at form }
{
    match form {
        Addressing::Three(_) => 1,
        Addressing::Four => 2,
    }
}

// Whether a fourth byte, where there is one, is 00h.
fn fourth_ok(form: Addressing, input: &[u8]) -> bool
    ensures { result ≡ fourth_ok form input.now }
{
    match form {
        Addressing::Three(_) => true,
        Addressing::Four => byte_at(input, 1) == 0x00,
    }
}

// Whether a byte names a row.
fn names_row(byte: u8) -> bool
    ensures { result ≡ names_row byte }
{
    matches!(byte, 0x00 | 0x10 | 0x20 | 0x30)
}

// Whether the address that was sent is a row address.
pub fn row_ok(form: Addressing, input: &[u8]) -> bool
    ensures { result ≡ row_ok form input.now }
{
    let at = row_at(form);
    let first = byte_at(input, at) == 0x00;
    fourth_ok(form, input) && first && names_row(byte_at(input, at + 1))
}

// Where the row that was named begins.
pub fn row_base(form: Addressing, input: &[u8]) -> usize
    ensures { result ≡ row_base form input.now }
{
    let named = byte_at(input, row_at(form) + 1);
    usize::from(named) / 16 * types::PAGE_BYTES
}

// The byte address in the row that was named.
pub fn row_byte(form: Addressing, input: &[u8]) -> usize
    ensures { result ≡ row_byte form input.now }
{
    usize::from(byte_at(input, row_at(form) + 2))
}

// The place in a memory that a transaction names.
#[tactic(auto, unfolding(paper::specs::Address::row_place))]
fn place_in(memory: Memory, form: Addressing, blocks: u16, input: &[u8]) -> usize
    ensures { result ≡ place_in memory form blocks input.now }
{
    match memory {
        Memory::Array => address_in(form, blocks, input),
        Memory::Rows => row_base(form, input) + row_byte(form, input),
    }
}

// The place of the first data byte, behind the code and the address bytes.
fn data_place(form: Addressing) -> usize
    ensures { result ≡ 1 + address_count form }
{
    match form {
        Addressing::Three(_) => 4,
        Addressing::Four => 5,
    }
}

// How many data bytes of a program are kept.
fn kept_count(form: Addressing, input: &[u8]) -> usize
    ensures { result ≡ kept_count (data_sent form input.now) }
{
    input
        .len()
        .saturating_sub(data_place(form))
        .min(types::PAGE_BYTES)
}

// How many came before those that are kept.
fn passed_count(form: Addressing, input: &[u8]) -> usize
    ensures { result ≡ passed_count (data_sent form input.now) }
{
    input.len().saturating_sub(data_place(form)) - kept_count(form, input)
}

// The page data of a program, written over a page: the kept bytes in order of arrival, zeros after them. Bytes of another
// length than a page's are left as they are.
pub fn write_page_data(form: Addressing, input: &[u8], page: &mut [u8])
    ensures { page.new ≡ cond (eqb (length page.old) page_bytes) (page_data (data_sent form input.now)) page.old }
{
    if page.len() != types::PAGE_BYTES {
        return;
    }
    page.fill(0);
    let kept = kept_count(form, input);
    page[..kept].copy_from_slice(&input[input.len() - kept..]);
}

// The same, as a page of its own.
pub fn page_data(form: Addressing, input: &[u8]) -> [u8; 256]
    ensures { result ≡ page_data (data_sent form input.now) }
{
    let mut page = [0; 256];
    write_page_data(form, input, &mut page);
    page
}

// The program that a transaction begins.
#[tactic(auto, unfolding(paper::specs::Program::program_of), using(paper::proofs::Pages::place_of))]
fn program_of(memory: Memory, form: Addressing, blocks: u16, input: &[u8]) -> Operation
    ensures { result ≡ program_of memory form blocks input.now }
{
    let place = place_in(memory, form, blocks, input);
    let start = pages::page_place((place % 256) as u8, passed_count(form, input));
    Operation::Program {
        memory,
        start,
        base: place / types::PAGE_BYTES * types::PAGE_BYTES,
        count: kept_count(form, input),
        done: 0,
    }
}

// The erase that a transaction begins.
#[tactic(auto, unfolding(paper::specs::Erase::erase_of))]
fn erase_of(unit: EraseUnit, form: Addressing, blocks: u16, input: &[u8]) -> Operation
    ensures { result ≡ erase_of unit form blocks input.now }
{
    let place = place_in(pages::unit_memory(unit), form, blocks, input);
    let base = pages::unit_base(unit, blocks, place);
    Operation::Erase {
        unit,
        base,
        done: 0,
    }
}

// The register write that a transaction begins.
#[tactic(auto, unfolding(paper::specs::Registers::write_of))]
fn write_of(register: Register, input: &[u8]) -> Operation
    ensures { result ≡ write_of register input.now }
{
    let value = operations::held_byte(register, byte_at(input, 1));
    Operation::Write { register, value }
}

// What a command begins on a part of so many blocks, with its address sent so: an operation with no tick done, or nothing.
pub fn begins(effect: Effect, form: Addressing, blocks: u16, input: &[u8]) -> Option<Operation>
    ensures { result ≡ begins effect form blocks input.now }
{
    match effect {
        Effect::Programs(memory) => Some(program_of(memory, form, blocks, input)),
        Effect::Erases(unit) => Some(erase_of(unit, form, blocks, input)),
        Effect::Writes(register) => Some(write_of(register, input)),
        Effect::Looks
        | Effect::Enables
        | Effect::Disables
        | Effect::Suspends
        | Effect::Resumes
        | Effect::Sleeps
        | Effect::Wakes
        | Effect::Arms
        | Effect::Resets
        | Effect::SetsLive
        | Effect::ClearsErrors
        | Effect::SetsBank
        | Effect::SetsFar(_) => None,
    }
}

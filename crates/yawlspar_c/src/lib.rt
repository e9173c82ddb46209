// What C links of the model, which include/yawlspar.h declares, but for scripts, checks and maps: each function is the
// library's of its name.
// A crate is a library or a static library, so each export is a function of its own. C's types are numbers and buffers.
#![tactic(auto)]

ghost use Rattle.std.specs.Prelude.{◌≡◌, length};
ghost use Rattle.types.specs.declared.Memory.TheVariants.{Array, Rows};
ghost use Rattle.record_bytes.specs.Read.{record_in};
ghost use Rattle.ticks.specs.InBytes.{tick_bytes, tick_memory};
ghost use Rattle.yawlspar.specs.Face.{asked, power_up_answer, power_up_bytes, transact_answer, transact_bytes, transact_output, tick_answer};
ghost use Rattle.yawlspar.specs.Version.{version};
ghost use Rattle.paper.specs.CBench.{protection_number, protected_first, protected_count, protected_answer, place_answer};

// Power-up into a buffer of a record's length. The number is 0, 1 or 5; refused, the buffer is as it was.
#[unsafe(no_mangle)]
pub extern "C" fn yawlspar_power_up(
    bytes: &mut [u8],
    blocks: u64,
    maker: u64,
    kind: u64,
    capacity: u64,
    device: u64,
    status: u64,
    function: u64,
    extended: u64,
) -> u64
    ensures answer { result ≡ power_up_answer (length bytes.old) (asked blocks maker kind capacity device status function extended) }
    ensures bytes { bytes.new ≡ power_up_bytes (asked blocks maker kind capacity device status function extended) bytes.old }
{
    yawlspar::yawlspar_power_up(
        bytes, blocks, maker, kind, capacity, device, status, function, extended,
    )
}

// A transaction. WP# is low for 0 and high for 1. The number and the first driven place; refused, with 1 to 5,
// every buffer is as it was. Where the bytes hold no record, 1 is not judged: there is no size.
#[unsafe(no_mangle)]
pub extern "C" fn yawlspar_transact(
    bytes: &mut [u8],
    array: &[u8],
    rows: &[u8],
    wp: u64,
    input: &[u8],
    output: &mut [u8],
) -> u64
    ensures answer { result ≡ transact_answer (record_in bytes.old) (length array.now) (length rows.now) wp input.now (length output.old) }
    ensures bytes { bytes.new ≡ transact_bytes (record_in bytes.old) (length array.now) (length rows.now) wp input.now (length output.old) bytes.old }
    ensures output { output.new ≡ transact_output (record_in bytes.old) array.now rows.now wp input.now output.old }
{
    yawlspar::yawlspar_transact(bytes, array, rows, wp, input, output)
}

// So many ticks. The number and the ticks that did work; refused, with 1, 2, 5 or 6, every buffer is as it was. Where
// the bytes hold no record, 1 is not judged.
#[unsafe(no_mangle)]
pub extern "C" fn yawlspar_tick(
    bytes: &mut [u8],
    array: &mut [u8],
    rows: &mut [u8],
    count: u64,
) -> u64
    ensures answer { result ≡ tick_answer (record_in bytes.old) (length array.old) (length rows.old) count }
    ensures bytes { bytes.new ≡ tick_bytes (record_in bytes.old) (length array.old) (length rows.old) count bytes.old }
    ensures array { array.new ≡ tick_memory Array (record_in bytes.old) (length array.old) (length rows.old) count array.old }
    ensures rows { rows.new ≡ tick_memory Rows (record_in bytes.old) (length array.old) (length rows.old) count rows.old }
{
    yawlspar::yawlspar_tick(bytes, array, rows, count)
}

// The version that the archive is of, which a program compares with its header's.
#[unsafe(no_mangle)]
pub extern "C" fn yawlspar_version() -> u64
    ensures { result ≡ version }
{
    yawlspar::yawlspar_version()
}

// The protection question's number. The address does not matter to it.
#[unsafe(no_mangle)]
pub extern "C" fn yawlspar_protection_number(code: u64, blocks: u64, address: u64) -> u64
    ensures { result ≡ protection_number code blocks }
{
    yawlspar::numbers::yawlspar_protection_number(code, blocks, address)
}

// Its first protected block, 0 where there is none and when refused.
#[unsafe(no_mangle)]
pub extern "C" fn yawlspar_protected_first(code: u64, blocks: u64) -> u64
    ensures { result ≡ protected_first code blocks }
{
    yawlspar::numbers::yawlspar_protected_first(code, blocks)
}

// The count of protected blocks from the first on, 0 where there is none and when refused.
#[unsafe(no_mangle)]
pub extern "C" fn yawlspar_protected_count(code: u64, blocks: u64) -> u64
    ensures { result ≡ protected_count code blocks }
{
    yawlspar::numbers::yawlspar_protected_count(code, blocks)
}

// 1 where the address, taken modulo the size, is protected, else 0, also when refused: there is then no protected block. (Where
// there is one, the size is good, and not 0 to divide by.)
#[unsafe(no_mangle)]
pub extern "C" fn yawlspar_protected(code: u64, blocks: u64, address: u64) -> u64
    ensures { result ≡ protected_answer code blocks address }
{
    yawlspar::numbers::yawlspar_protected(code, blocks, address)
}

// The place in a page of byte index of bytes that are sent from the place start on; 256 where there is none.
#[unsafe(no_mangle)]
pub extern "C" fn yawlspar_page_place(start: u64, index: u64) -> u64
    ensures { result ≡ place_answer start index }
{
    yawlspar::numbers::yawlspar_page_place(start, index)
}

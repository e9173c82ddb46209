// The model for C, which include/yawlspar.h declares, but for scripts: the three calls on a record that is kept in bytes, and
// the functions on numbers. A call reads part and phase, is made, and writes what it makes of the record over the bytes;
// page data stays where it is. C lends buffers and gives numbers, and gets one number: that of a refusal, or 0, with the answer
// above it.
#![tactic(auto)]

pub mod numbers;

ghost use Rattle.std.specs.Prelude.{◌≡◌, ◌%◌, ◌^◌, length};
ghost use Rattle.types.specs.declared.Memory.TheVariants.{Array, Rows};
ghost use Rattle.paper.specs.Refusals.{number_of};
ghost use Rattle.record_bytes.specs.Read.{record_in};
ghost use Rattle.ticks.specs.InBytes.{tick_bytes, tick_memory};
ghost use Rattle.yawlspar.specs.Face.{packed, asked, given_number, power_up_answer, power_up_bytes, transact_answer, transact_bytes, transact_output, tick_answer};
ghost use Rattle.yawlspar.specs.Version.{version};

use record_bytes::places;
use refusals::ensure;
use types::{Identity, Refusal, Stored};

// A result has 56 bits above its number.
const PLACES: u64 = 72057594037927936;

// The number and the place in one: a first driven place, ticks that did work, a script's step, or a page.
pub fn pack(number: u8, place: usize) -> u64
    ensures { result ≡ packed number (place % 2 ^ 56) }
{
    (number as u64) + 256 * ((place as u64) % PLACES)
}

// Whether power-up can take what it is given: the size, the buffer's length, and the seven bytes. They are the arguments of
// C's call, in its order. The tests are joined as values, as given_number joins them: a u8::try_from would be a branch for each.
fn check_given(
    length: usize,
    blocks: u64,
    maker: u64,
    kind: u64,
    capacity: u64,
    device: u64,
    status: u64,
    function: u64,
    extended: u64,
) -> Result<(), Refusal>
    ensures { number_of result ≡ given_number length (asked blocks maker kind capacity device status function extended) }
{
    let size = sizes::size_ok(blocks);
    let long = length == places::END;
    let m = maker <= 255;
    let t = kind <= 255;
    let c = capacity <= 255;
    let d = device <= 255;
    let s = status <= 255;
    let f = function <= 255;
    let e = extended <= 255;
    let registers = words::both(s, words::both(f, e));
    let bytes = words::both(m, words::both(t, words::both(c, words::both(d, registers))));
    let fits = words::both(long, bytes);
    ensure(size, Refusal::Size)?;
    ensure(fits, Refusal::Record)
}

// Power-up into a buffer of a record's length. The number is 0, 1 or 5; refused, the buffer is as it was.
pub fn yawlspar_power_up(
    bytes: &mut [u8],
    blocks: u64,
    maker: u64,
    kind: u64,
    capacity: u64,
    device: u64,
    status: u64,
    function: u64,
    extended: u64,
) -> u64
    ensures answer { result ≡ power_up_answer (length bytes.old) (asked blocks maker kind capacity device status function extended) }
    ensures bytes { bytes.new ≡ power_up_bytes (asked blocks maker kind capacity device status function extended) bytes.old }
{
    let checked = check_given(
        bytes.len(),
        blocks,
        maker,
        kind,
        capacity,
        device,
        status,
        function,
        extended,
    );
    if let Err(refusal) = checked {
        return refusals::number(refusal) as u64;
    }
    let identity = Identity {
        maker: maker as u8,
        kind: kind as u8,
        capacity: capacity as u8,
        device: device as u8,
    };
    let stored = Stored {
        status: status as u8,
        function: function as u8,
        extended: extended as u8,
    };
    let up = record::power_up(blocks as u16, identity, stored);
    if up.number != 0 {
        return up.number as u64;
    }
    // what it gives is idle and has no page data
    let next = up.next;
    let part = next.part;
    let identity = next.identity;
    record_bytes::writing::write_idle(part, identity, bytes);
    0
}

// A transaction. WP# is low for 0 and high for 1. The number and the first driven place; refused, with 1 to 5,
// every buffer is as it was. Where the bytes hold no record, 1 is not judged: there is no size.
// transact::transact is the same on a record in fields.
pub fn yawlspar_transact(
    bytes: &mut [u8],
    array: &[u8],
    rows: &[u8],
    wp: u64,
    input: &[u8],
    output: &mut [u8],
) -> u64
    ensures answer { result ≡ transact_answer (record_in bytes.old) (length array.now) (length rows.now) wp input.now (length output.old) }
    ensures bytes { bytes.new ≡ transact_bytes (record_in bytes.old) (length array.now) (length rows.now) wp input.now (length output.old) bytes.old }
    ensures output { output.new ≡ transact_output (record_in bytes.old) array.now rows.now wp input.now output.old }
{
    let Some(found) = record_bytes::reading::read(bytes) else {
        let unread = refusals::check_later(false, rows.len(), input.len(), output.len());
        return pack(refusals::number_of(unread), 0);
    };
    let part = found.part;
    let phase = found.phase;
    // all bytes, cut to a length that the compiler knows
    let identity = record_bytes::reading::identity_in(&bytes[0..places::END]);
    let level = wp <= 1;
    let high = wp == 1;
    let fit = words::both(found.sound, level);
    let outcome = transact::transact_part(
        identity, part, phase, fit, array, rows, high, input, output,
    );
    let change = outcome.change;
    record_bytes::writing::write_change(change, input, bytes);
    pack(outcome.number, outcome.first)
}

// So many ticks. The number and the ticks that did work; refused, with 1, 2, 5 or 6, every buffer is as it was. Where
// the bytes hold no record, 1 is not judged.
pub fn yawlspar_tick(bytes: &mut [u8], array: &mut [u8], rows: &mut [u8], count: u64) -> u64
    ensures answer { result ≡ tick_answer (record_in bytes.old) (length array.old) (length rows.old) count }
    ensures bytes { bytes.new ≡ tick_bytes (record_in bytes.old) (length array.old) (length rows.old) count bytes.old }
    ensures array { array.new ≡ tick_memory Array (record_in bytes.old) (length array.old) (length rows.old) count array.old }
    ensures rows { rows.new ≡ tick_memory Rows (record_in bytes.old) (length array.old) (length rows.old) count rows.old }
{
    let worked = ticks::tick_bytes(bytes, array, rows, count as usize);
    pack(worked.number, worked.reached.count)
}

// The version that the archive is of, which a program compares with its header's.
pub fn yawlspar_version() -> u64
    ensures { result ≡ version }
{
    1009
}

// The refusals of the transaction and the tick call, the numbers 1 to 6, in the paper's order.
#![tactic(auto)]

ghost use Rattle.std.specs.Prelude.{◌≡◌};
ghost use Rattle.words.specs.Logic.{◌or_else◌, unless};
ghost use Rattle.paper.specs.Sizes.{tick_limit};
ghost use Rattle.paper.specs.Refusals.{number, number_of};
ghost use Rattle.paper.specs.Numbers.{size_number, rows_number, length_number, output_number, sound_number, ticks_number, later_refusal, transaction_refusal, tick_number};

use types::Refusal;

// The number of a refusal.
pub fn number(refusal: Refusal) -> u8
    ensures { result ≡ number refusal }
{
    refusal as u8
}

// The number of what tests say: 0 where they refuse nothing.
pub fn number_of(checked: Result<(), Refusal>) -> u8
    ensures { result ≡ number_of checked }
{
    match checked {
        Ok(()) => 0,
        Err(refusal) => number(refusal),
    }
}

// Refused where a test fails.
pub fn ensure(passes: bool, refusal: Refusal) -> Result<(), Refusal>
    ensures { number_of result ≡ unless passes (number refusal) }
{
    if passes { Ok(()) } else { Err(refusal) }
}

// 1 where the size is not 1, 4, 8, 16 or 512 blocks, or the array's length is not the size.
pub fn check_size(blocks: u16, array: usize) -> Result<(), Refusal>
    ensures { number_of result ≡ size_number blocks array }
{
    let known = sizes::size_ok(blocks as u64);
    let same = array == (blocks as usize) * types::BLOCK_BYTES;
    ensure(words::both(known, same), Refusal::Size)
}

// 2 where the rows are not 1,024 bytes.
pub fn check_rows(rows: usize) -> Result<(), Refusal>
    ensures { number_of result ≡ rows_number rows }
{
    ensure(rows == types::ROWS_BYTES, Refusal::Rows)
}

// A transaction's 2 to 5, which go by no size: n and o are the lengths of input and output.
pub fn check_later(sound: bool, rows: usize, n: usize, o: usize) -> Result<(), Refusal>
    ensures { number_of result ≡ later_refusal sound rows n o }
{
    let some = 1 <= n;
    let few = n <= types::TRANSACTION_MOST;
    check_rows(rows)?;
    ensure(words::both(some, few), Refusal::Input)?;
    ensure(o == n, Refusal::Output)?;
    ensure(sound, Refusal::Record)
}

// A transaction's 1 to 5: a, r, n and o are the lengths of array, rows, input and output.
pub fn check_transaction(
    blocks: u16,
    sound: bool,
    a: usize,
    r: usize,
    n: usize,
    o: usize,
) -> Result<(), Refusal>
    ensures { number_of result ≡ transaction_refusal blocks sound a r n o }
{
    check_size(blocks, a)?;
    check_later(sound, r, n, o)
}

// The most ticks that a call may ask of a part of so many blocks.
fn tick_limit(blocks: u16) -> usize
    ensures { result ≡ tick_limit blocks }
{
    if sizes::is_large(blocks as u64) {
        types::LARGE_TICKS_MOST
    } else {
        types::TICKS_MOST
    }
}

// A tick call's 1, 2, 5 and 6.
pub fn check_ticks(
    blocks: u16,
    is_sound: bool,
    array: usize,
    rows: usize,
    ticks: usize,
) -> Result<(), Refusal>
    ensures { number_of result ≡ tick_number blocks is_sound array rows ticks }
{
    let few = ticks <= tick_limit(blocks);
    check_size(blocks, array)?;
    check_rows(rows)?;
    ensure(is_sound, Refusal::Record)?;
    ensure(few, Refusal::Ticks)
}

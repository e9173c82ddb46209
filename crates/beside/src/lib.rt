// What a call is lent beside the part's memory, as a map or wear records: judged by the array, whose size 1 judges.
#![tactic(auto)]

ghost use Rattle.std.specs.Prelude.{◌≡◌};
ghost use Rattle.paper.specs.Refusals.{number, number_of};
ghost use Rattle.record_bytes.specs.Read.{record_in};
ghost use Rattle.beside.specs.Beside.{beside_refusal};

use types::Refusal;

// Refused with 1, or with a refusal that comes after it, where what is lent doesn't fit the array; else the plain call judges
// what is left. Where the bytes hold no record there is no size to judge by.
pub fn check(bytes: &[u8], fits: bool, array: usize, refusal: Refusal) -> Result<(), Refusal>
    ensures { number_of result ≡ beside_refusal (record_in bytes.now) fits array (number refusal) }
{
    if fits {
        return Ok(());
    }
    let Some(found) = record_bytes::reading::read(bytes) else {
        return Ok(());
    };
    let part = found.part;
    refusals::check_size(part.blocks, array)?;
    Err(refusal)
}

// The same as a number: 1, or a number that comes after it, which may be any; else 0.
pub fn refusal(bytes: &[u8], fits: bool, array: usize, number: u8) -> u8
    ensures { result ≡ beside_refusal (record_in bytes.now) fits array number }
{
    if fits {
        return 0;
    }
    let Some(held) = record_bytes::reading::read(bytes) else {
        return 0;
    };
    let part = held.part;
    let size = refusals::number_of(refusals::check_size(part.blocks, array));
    words::number_or(size == 0, size, number)
}

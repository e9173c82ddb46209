// Ticks that are lent wear records, on the record that bytes hold: as the plain call, and what they count. The records
// themselves are not lent here: their number is judged, and the tally says what becomes of them.
#![tactic(auto)]

ghost use Rattle.std.specs.Prelude.{◌≡◌, length};
ghost use Rattle.words.specs.Logic.{when_zero};
ghost use Rattle.paper.specs.Refusals.{number_of};
ghost use Rattle.paper.specs.Wear.{no_tally, tally_of};
ghost use Rattle.record_bytes.specs.Read.{record_in};
ghost use Rattle.beside.specs.Beside.{board_bytes};
ghost use Rattle.counted.specs.InBytes.{held_wear_ticked, counted_of, wear_refusal};

use types::{Reached, Refusal, Tally};

// What ticks answer: the number, how many of them did work, and what they count. C reads the number, which counted_of gives it.
#[derive(Clone, Copy)]
pub struct Counted {
    pub number: u8,
    pub done: usize,
    pub tally: Tally,
}

// Refused with 1 or 35, where there isn't one record for each sector of the array; else the plain call judges what is left. Where the
// bytes hold no record there is no size to judge by.
fn check_wear(bytes: &[u8], array: usize, records: usize) -> Result<(), Refusal>
    ensures { number_of result ≡ wear_refusal (record_in bytes.now) array records }
{
    beside::check(
        bytes,
        records == array / types::SECTOR_BYTES,
        array,
        Refusal::Wear,
    )
}

// What ticks count that answered a number: refused, nothing. The number and what was reached are those of `ticks::Worked`, which
// has a number and no Result since C reads it.
fn tally_unless(number: u8, reached: Reached) -> Tally
    ensures { result ≡ when_zero number (tally_of reached) no_tally }
{
    if number == 0 {
        wear_records::tally(reached)
    } else {
        wear_records::nothing()
    }
}

// So many ticks of the record that bytes hold, which is written over them, and what they count for so many wear records.
// Refused, with 1, 35, 2, 5 or 6, every buffer is as it was, and nothing is counted. Where the bytes hold no record, 1 and 35 are
// not judged: there is no size.
pub fn tick<'a>(
    bytes: &'a mut [u8],
    array: &'a mut [u8],
    rows: &'a mut [u8],
    ticks: u64,
    records: usize,
) -> Counted
    ensures answer { result ≡ counted_of (held_wear_ticked (record_in bytes.old) array.old rows.old ticks records) }
    ensures bytes { bytes.new ≡ board_bytes (record_in bytes.old) (held_wear_ticked (record_in bytes.old) array.old rows.old ticks records).board bytes.old }
    ensures array { array.new ≡ (held_wear_ticked (record_in bytes.old) array.old rows.old ticks records).board.array }
    ensures rows { rows.new ≡ (held_wear_ticked (record_in bytes.old) array.old rows.old ticks records).board.rows }
{
    if let Err(refusal) = check_wear(bytes, array.len(), records) {
        return Counted {
            number: refusals::number(refusal),
            done: 0,
            tally: wear_records::nothing(),
        };
    }
    let worked = ticks::tick_bytes(bytes, array, rows, ticks as usize);
    let reached = worked.reached;
    Counted {
        number: worked.number,
        done: reached.count,
        tally: tally_unless(worked.number, reached),
    }
}

// Ticks and scripts that are lent a map of blank pages, on the record that bytes hold: as the plain calls, and the map is kept.
#![tactic(auto)]

ghost use Rattle.std.specs.Prelude.{◌≡◌, length};
ghost use Rattle.paper.specs.Refusals.{number_of};
ghost use Rattle.record_bytes.specs.Read.{record_in};
ghost use Rattle.beside.specs.Beside.{board_bytes};
ghost use Rattle.script.specs.InBytes.{script_of, ran_of};
ghost use Rattle.mapped.specs.InBytes.{held_map_ticked, kept_of, held_map_scripted, map_refusal};

use script::Ran;
use types::Refusal;

// What ticks answer: the number, and how many of them did work. `kept_of` gives both, and C reads them.
#[derive(Clone, Copy)]
pub struct Kept {
    pub number: u8,
    pub done: usize,
}

// A byte of a map has a bit for each of 8 pages.
const MAPPED: usize = 8 * types::PAGE_BYTES;

// Refused with 1 or 36, where the map hasn't one bit for each page of the array; else the plain call judges what is left. Where
// the bytes hold no record there is no size to judge by.
fn check_map(bytes: &[u8], array: usize, map: usize) -> Result<(), Refusal>
    ensures { number_of result ≡ map_refusal (record_in bytes.now) array map }
{
    beside::check(bytes, map == array / MAPPED, array, Refusal::Map)
}

// So many ticks of the record that bytes hold, which is written over them, and the map is kept. Refused, with 1, 36, 2, 5 or 6,
// every buffer is as it was. Where the bytes hold no record, 1 and 36 are not judged: there is no size.
pub fn tick(
    bytes: &mut [u8],
    array: &mut [u8],
    rows: &mut [u8],
    ticks: usize,
    map: &mut [u8],
) -> Kept
    ensures answer { result ≡ kept_of (held_map_ticked (record_in bytes.old) array.old rows.old ticks map.old) }
    ensures bytes { bytes.new ≡ board_bytes (record_in bytes.old) (held_map_ticked (record_in bytes.old) array.old rows.old ticks map.old).board bytes.old }
    ensures array { array.new ≡ (held_map_ticked (record_in bytes.old) array.old rows.old ticks map.old).board.array }
    ensures rows { rows.new ≡ (held_map_ticked (record_in bytes.old) array.old rows.old ticks map.old).board.rows }
    ensures map { map.new ≡ (held_map_ticked (record_in bytes.old) array.old rows.old ticks map.old).map }
{
    if let Err(refusal) = check_map(bytes, array.len(), map.len()) {
        return Kept {
            number: refusals::number(refusal),
            done: 0,
        };
    }
    let worked = ticks::tick_bytes(bytes, array, rows, ticks);
    let reached = worked.reached;
    blank_map::keep(reached, array, map);
    Kept {
        number: worked.number,
        done: reached.count,
    }
}

// A script on the record that bytes hold, of lists that are lent one by one, as C lends them. The record is written over the
// bytes, and the map is kept. Refused, with 1, 36, 2, 7, 4 or 5, every buffer is as it was. Where the bytes hold no record, 1 and 36 are not judged: there is no size.
pub fn script(
    bytes: &mut [u8],
    array: &mut [u8],
    rows: &mut [u8],
    wp: u64,
    input: &[u8],
    lengths: &[u16],
    ticks: &[u16],
    output: &mut [u8],
    answers: &mut [u8],
    done: &mut [u16],
    map: &mut [u8],
) -> Ran
    ensures answer { result ≡ ran_of (held_map_scripted (record_in bytes.old) wp (script_of wp input.now lengths.now ticks.now) array.old rows.old output.old answers.old done.old map.old).run }
    ensures bytes { bytes.new ≡ board_bytes (record_in bytes.old) (held_map_scripted (record_in bytes.old) wp (script_of wp input.now lengths.now ticks.now) array.old rows.old output.old answers.old done.old map.old).run.board bytes.old }
    ensures array { array.new ≡ (held_map_scripted (record_in bytes.old) wp (script_of wp input.now lengths.now ticks.now) array.old rows.old output.old answers.old done.old map.old).run.board.array }
    ensures rows { rows.new ≡ (held_map_scripted (record_in bytes.old) wp (script_of wp input.now lengths.now ticks.now) array.old rows.old output.old answers.old done.old map.old).run.board.rows }
    ensures output { output.new ≡ (held_map_scripted (record_in bytes.old) wp (script_of wp input.now lengths.now ticks.now) array.old rows.old output.old answers.old done.old map.old).run.output }
    ensures answers { answers.new ≡ (held_map_scripted (record_in bytes.old) wp (script_of wp input.now lengths.now ticks.now) array.old rows.old output.old answers.old done.old map.old).run.answers }
    ensures done { done.new ≡ (held_map_scripted (record_in bytes.old) wp (script_of wp input.now lengths.now ticks.now) array.old rows.old output.old answers.old done.old map.old).run.done }
    ensures map { map.new ≡ (held_map_scripted (record_in bytes.old) wp (script_of wp input.now lengths.now ticks.now) array.old rows.old output.old answers.old done.old map.old).map }
{
    if let Err(refusal) = check_map(bytes, array.len(), map.len()) {
        return Ran {
            number: refusals::number(refusal),
            step: 0,
        };
    }
    script::run(
        bytes, array, rows, wp, input, lengths, ticks, output, answers, done, map,
    )
}

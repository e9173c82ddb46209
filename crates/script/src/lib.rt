// A whole script in one call: transactions, and ticks after each, on the record that bytes hold. It is judged once, before
// the first step. The steps leave it in its bytes: each reads what it needs there, and writes what it changes.
#![tactic(auto)]

ghost use Rattle.std.specs.Prelude.{◌≡◌, true, [], ◌+◌, ◌≤◌, ◌<◌, eqb, length};
ghost use Rattle.types.specs.declared.Memory.TheVariants.{Array, Rows};
ghost use Rattle.words.specs.Logic.{when_zero};
ghost use Rattle.words.specs.Lists.{sum_to};
ghost use Rattle.paper.specs.Refusals.{number, number_of};
ghost use Rattle.paper.specs.Numbers.{later_script_refusal};
ghost use Rattle.paper.specs.Calls.{ticked, ticked_memory};
ghost use Rattle.paper.specs.Board.{board_of};
ghost use Rattle.paper.specs.Script.{stopping, step_calls, made, calls_at, after_steps};
ghost use Rattle.paper.specs.Map.{map_steps};
ghost use Rattle.paper.specs.Wear.{wear_steps};
ghost use Rattle.record_bytes.specs.Layout.{change_written};
ghost use Rattle.record_bytes.specs.Read.{held, record_in};
ghost use Rattle.script.specs.Steps.{OnlyRuns, Ready, worked_of, made_of, Marks, Wears, script_in, world, turned, Fit};
ghost use Rattle.script.specs.InBytes.{script_of, held_refusal, held_script, ran_of, refused_by, left_as, script_bytes, held_map, held_wear, held_wear_scripted};

use record_bytes::places;
use types::{Change, Identity, Operation, Reached, Refusal, SECTOR_BYTES, Wear, Worked};

// What a script answers: the number that refuses or stops it, 0 where none does, and the step. It is a number, since
// `ran_of` gives one, and C reads it.
#[derive(Clone, Copy)]
pub struct Ran {
    pub number: u8,
    pub step: usize,
}

// A script as it is lent: the level of WP#, low for 0 and high for 1, the input, and each step's length and ticks: two lists,
// as C lends them. What a script writes is lent beside it: a struct of `&mut` slices would need a clause in each function for
// each of them, that it still holds the slice that the caller lent.
#[derive(Clone, Copy)]
struct Script<'a> {
    wp: u64,
    input: &'a [u8],
    lengths: &'a [u16],
    ticks: &'a [u16],
}

// What a step gives: its transaction's answer, the number that stops the script, or 0, and what its ticks reached.
#[derive(Clone, Copy)]
struct Stepped {
    answer: u8,
    number: u8,
    reached: Reached,
}

// What steps carry: the number that stops the script, or 0, the step, and where the next one begins. The number is the
// definitions' (`stopping`, and `Scripted` of the paper): 0 goes on.
#[derive(Clone, Copy)]
struct State {
    number: u8,
    step: usize,
    at: usize,
}

// What a turn gives: what the steps carry on, and what the step's ticks reached.
#[derive(Clone, Copy)]
struct Turned {
    state: State,
    reached: Reached,
}

// The number of a call that stops a script, 1 to 6; 0 for any other.
fn stopping(number: u8) -> u8
    ensures { result ≡ stopping number }
{
    if number <= 6 { number } else { 0 }
}

// What ticks make of a record, written over its bytes: it stays the same, or something else runs. All that they never make is
// listed, so that a new change is looked at here.
fn write_ran(change: Change, bytes: &mut [u8])
    requires { OnlyRuns change }
    ensures { bytes.new ≡ change_written change [] bytes.old }
{
    match change {
        Change::Same => {}
        Change::Marked(_) => {}
        Change::Live(_) => {}
        Change::Anew(_) => {}
        Change::Runs(part, becomes, work) => {
            let none_sent = [0u8; 0];
            record_bytes::writing::write_runs(part, becomes, work, &none_sent, bytes);
        }
        Change::Halts(_) => {}
        Change::GoesOn(_) => {}
        Change::Clears(_) => {}
    }
}

// So many ticks of a sound record in its bytes, on its own memory.
fn wait(bytes: &mut [u8], array: &mut [u8], rows: &mut [u8], ticks: usize) -> Worked
    requires { Ready bytes.old (length array.old) (length rows.old) }
    ensures waits { result ≡ worked_of (record_in bytes.old).state (length array.old) (length rows.old) ticks }
    ensures held { record_in bytes.new ≡ held (ticked (record_in bytes.old).state (length array.old) (length rows.old) ticks).next }
    ensures array { array.new ≡ ticked_memory Array (record_in bytes.old).state (length array.old) (length rows.old) ticks array.old }
    ensures rows { rows.new ≡ ticked_memory Rows (record_in bytes.old).state (length array.old) (length rows.old) ticks rows.old }
{
    let part = record_bytes::reading::part_again(bytes);
    let phase = record_bytes::reading::phase_again(bytes);
    let work = phases::running(phase);
    let page = &bytes[places::PAGE..places::END];
    let told = ticks::tick_part(part, phase, true, page, array, rows, ticks);
    let change = told.change;
    write_ran(change, bytes);
    Worked {
        number: told.number,
        reached: Reached {
            work,
            count: told.done,
        },
    }
}

// A step of a sound record in its bytes, on its own memory: a transaction, and its ticks after it where it does not stop the
// script. Where it asks for none, none are run.
fn step(
    identity: Identity,
    bytes: &mut [u8],
    array: &mut [u8],
    rows: &mut [u8],
    wp: bool,
    input: &[u8],
    ticks: usize,
    output: &mut [u8],
) -> Stepped
    requires { Ready bytes.old (length array.old) (length rows.old) × (identity ≡ (record_in bytes.old).state.identity) }
    ensures made { made_of result bytes.new array.new rows.new output.new ≡ made wp input.now ticks (board_of (record_in bytes.old).state array.old rows.old) output.old }
    ensures ready { Ready bytes.new (length array.old) (length rows.old) × (identity ≡ (record_in bytes.new).state.identity) × (result.reached.count ≤ ticks) }
    ensures marks { Marks result.reached array.new (step_calls wp input.now (board_of (record_in bytes.old).state array.old rows.old) (length output.old) ticks) (board_of (record_in bytes.old).state array.old rows.old) }
    ensures wears { Wears result.reached (step_calls wp input.now (board_of (record_in bytes.old).state array.old rows.old) (length output.old) ticks) (board_of (record_in bytes.old).state array.old rows.old) }
{
    let part = record_bytes::reading::part_again(bytes);
    let phase = record_bytes::reading::phase_again(bytes);
    let sent = transact::transact_part(identity, part, phase, true, array, rows, wp, input, output);
    let change = sent.change;
    record_bytes::writing::write_change(change, input, bytes);
    let nothing = Reached {
        work: None,
        count: 0,
    };
    let stop = stopping(sent.number);
    if stop != 0 {
        return Stepped {
            answer: sent.number,
            number: stop,
            reached: nothing,
        };
    }
    if ticks == 0 {
        return Stepped {
            answer: sent.number,
            number: 0,
            reached: nothing,
        };
    }
    let waited = wait(bytes, array, rows, ticks);
    let reached = waited.reached;
    Stepped {
        answer: sent.number,
        number: waited.number,
        reached,
    }
}

// The step after step k, or step k itself where it stopped the script.
fn step_after(number: u8, k: usize) -> usize
    requires { k + 1 < 18446744073709551616 }
    ensures { result ≡ when_zero number (k + 1) k }
{
    if number == 0 { k + 1 } else { k }
}

// Step k of a script, with its output and its entries written, and what its ticks reached.
fn turn(
    state: State,
    identity: Identity,
    script: Script<'_>,
    k: usize,
    bytes: &mut [u8],
    array: &mut [u8],
    rows: &mut [u8],
    output: &mut [u8],
    answers: &mut [u8],
    done: &mut [u16],
) -> Turned
    requires fit { Fit (script_in script) (length output.old) (length answers.old) (length done.old) }
    requires k_in_bounds { (k < length script.lengths.now) × (state.at ≡ sum_to script.lengths.now k) }
    requires ready_2 { Ready bytes.old (length array.old) (length rows.old) × (identity ≡ (record_in bytes.old).state.identity) }
    ensures stepped { world result.state bytes.new array.new rows.new output.new answers.new done.new ≡ turned (script_in script.entry) k (world state bytes.old array.old rows.old output.old answers.old done.old) }
    ensures at { result.state.at ≡ sum_to script.entry.lengths.now (k + 1) }
    ensures ready { Ready bytes.new (length array.old) (length rows.old) × (identity ≡ (record_in bytes.new).state.identity) }
    ensures marks { Marks result.reached array.new (calls_at (script_in script.entry) k (world state bytes.old array.old rows.old output.old answers.old done.old)) (world state bytes.old array.old rows.old output.old answers.old done.old).board }
    ensures wears { Wears result.reached (calls_at (script_in script.entry) k (world state bytes.old array.old rows.old output.old answers.old done.old)) (world state bytes.old array.old rows.old output.old answers.old done.old).board }
{
    let at = state.at;
    let end = at + (script.lengths[k] as usize);
    let stepped = step(
        identity,
        bytes,
        array,
        rows,
        script.wp == 1,
        &script.input[at..end],
        script.ticks[k] as usize,
        &mut output[at..end],
    );
    let reached = stepped.reached;
    answers[k] = stepped.answer;
    done[k] = reached.count as u16;
    let number = stepped.number;
    let next = State {
        number,
        step: step_after(number, k),
        at: end,
    };
    Turned {
        state: next,
        reached,
    }
}

// The steps, one after the other, up to and including the one that stops the script. After each, a map of blank pages and wear
// records are kept by what its ticks reached.
fn steps(
    identity: Identity,
    script: Script<'_>,
    bytes: &mut [u8],
    array: &mut [u8],
    rows: &mut [u8],
    output: &mut [u8],
    answers: &mut [u8],
    done: &mut [u16],
    map: &mut [u8],
    wear: &mut [Wear],
) -> State
    requires fit { Fit (script_in script) (length output.old) (length answers.old) (length done.old) }
    requires ready { Ready bytes.old (length array.old) (length rows.old) × (identity ≡ (record_in bytes.old).state.identity) }
    ensures made { world result bytes.new array.new rows.new output.new answers.new done.new ≡ after_steps (script_in script.entry) (length script.entry.lengths.now) (world (record { number = 0; step = 0; at = 0 }) bytes.old array.old rows.old output.old answers.old done.old) }
    ensures held { (record_in bytes.new).ok ≡ true }
    ensures map { map.new ≡ map_steps (script_in script.entry) (length script.entry.lengths.now) (world (record { number = 0; step = 0; at = 0 }) bytes.old array.old rows.old output.old answers.old done.old) map.old }
    ensures wear { wear.new ≡ wear_steps (script_in script.entry) (length script.entry.lengths.now) (world (record { number = 0; step = 0; at = 0 }) bytes.old array.old rows.old output.old answers.old done.old) wear.old }
{
    let mut state = State {
        number: 0,
        step: 0,
        at: 0,
    };
    for k in 0..script.lengths.len() {
        let turned = turn(
            state, identity, script, k, bytes, array, rows, output, answers, done,
        );
        let reached = turned.reached;
        let tally = wear_records::tally(reached);
        blank_map::keep(reached, array, map);
        wear_records::keep(wear, tally);
        state = turned.state;
        if state.number != 0 {
            return state;
        }
    }
    state
}

// Whether lengths add up to a total. It takes them off the total, so that no sum can grow too large.
fn add_up(lengths: &[u16], total: usize) -> bool
    ensures { result ≡ eqb (sum_to lengths.now (length lengths.now)) total }
{
    let mut left = total;
    for n in lengths {
        let Some(rest) = left.checked_sub(*n as usize) else {
            return false;
        };
        left = rest;
    }
    left == 0
}

// A script's 2, 7, 4 and 5, which go by no size: by the lengths of rows, output and the two lists that are written.
fn check_later(
    sound: bool,
    script: Script<'_>,
    rows: usize,
    output: usize,
    answers: usize,
    done: usize,
) -> Result<(), Refusal>
    ensures { number_of result ≡ later_script_refusal sound rows script.entry.lengths.now (length script.entry.ticks.now) answers done (length script.entry.input.now) output }
{
    let count = script.lengths.len();
    let t = script.ticks.len() == count;
    let n = answers == count;
    let d = done == count;
    let sum = add_up(script.lengths, script.input.len());
    let lists = words::both(t, words::both(n, words::both(d, sum)));
    refusals::check_rows(rows)?;
    refusals::ensure(lists, Refusal::Lists)?;
    refusals::ensure(output == script.input.len(), Refusal::Output)?;
    refusals::ensure(sound, Refusal::Record)
}

// A script's 1, 2, 7, 4 and 5, on the record that bytes hold. Where they hold none, 1 is not judged: there is no size. Another
// level of WP# than 0 and 1 counts as an unsound record does.
fn check(
    bytes: &[u8],
    script: Script<'_>,
    array: usize,
    rows: usize,
    output: usize,
    answers: usize,
    done: usize,
) -> Result<(), Refusal>
    ensures { number_of result ≡ held_refusal (record_in bytes.now) script.entry.wp (script_in script.entry) array rows output answers done }
{
    let Some(found) = record_bytes::reading::read(bytes) else {
        return check_later(false, script, rows, output, answers, done);
    };
    let part = found.part;
    let level = script.wp <= 1;
    let sound = words::both(found.sound, level);
    refusals::check_size(part.blocks, array)?;
    check_later(sound, script, rows, output, answers, done)
}

// What a script that is refused answers: it made no step.
fn refused(refusal: Refusal) -> Ran
    ensures { result ≡ refused_by (number refusal) }
{
    Ran {
        number: refusals::number(refusal),
        step: 0,
    }
}

// A script on the record that bytes hold, with a map of blank pages and wear records, which are kept by its ticks. Neither's
// length is judged.
fn run_with(
    script: Script<'_>,
    bytes: &mut [u8],
    array: &mut [u8],
    rows: &mut [u8],
    output: &mut [u8],
    answers: &mut [u8],
    done: &mut [u16],
    map: &mut [u8],
    wear: &mut [Wear],
) -> Ran
    ensures run { left_as result bytes.new array.new rows.new output.new answers.new done.new ≡ held_script (record_in bytes.old) script.entry.wp (script_in script.entry) array.old rows.old output.old answers.old done.old }
    ensures bytes { bytes.new ≡ script_bytes (record_in bytes.old) (held_script (record_in bytes.old) script.entry.wp (script_in script.entry) array.old rows.old output.old answers.old done.old) bytes.old }
    ensures map { map.new ≡ held_map (record_in bytes.old) script.entry.wp (script_in script.entry) array.old rows.old output.old answers.old done.old map.old }
    ensures wear { wear.new ≡ held_wear (record_in bytes.old) script.entry.wp (script_in script.entry) array.old rows.old output.old answers.old done.old wear.old }
{
    let checked = check(
        bytes,
        script,
        array.len(),
        rows.len(),
        output.len(),
        answers.len(),
        done.len(),
    );
    if let Err(refusal) = checked {
        return refused(refusal);
    }
    let identity = record_bytes::reading::identity_in(bytes);
    let end = steps(
        identity, script, bytes, array, rows, output, answers, done, map, wear,
    );
    Ran {
        number: end.number,
        step: end.step,
    }
}

// A script on the record that bytes hold, which is written over them. WP# is low for 0 and high for 1. Each step sends as many
// bytes of input as its length says, into as many bytes of output, and then asks its ticks. It answers the number that stops
// it, and the step; or 0, and the number of steps. Refused, with 1, 2, 7, 4 or 5, every buffer is as it was. Where the bytes
// hold no record, 1 is not judged: there is no size. A map of blank pages is kept, and its length is not judged: a plain script
// lends one of no bytes.
pub fn run(
    bytes: &mut [u8],
    array: &mut [u8],
    rows: &mut [u8],
    wp: u64,
    input: &[u8],
    lengths: &[u16],
    ticks: &[u16],
    output: &mut [u8],
    answers: &mut [u8],
    done: &mut [u16],
    map: &mut [u8],
) -> Ran
    ensures answer { result ≡ ran_of (held_script (record_in bytes.old) wp (script_of wp input.now lengths.now ticks.now) array.old rows.old output.old answers.old done.old) }
    ensures bytes { bytes.new ≡ script_bytes (record_in bytes.old) (held_script (record_in bytes.old) wp (script_of wp input.now lengths.now ticks.now) array.old rows.old output.old answers.old done.old) bytes.old }
    ensures array { array.new ≡ (held_script (record_in bytes.old) wp (script_of wp input.now lengths.now ticks.now) array.old rows.old output.old answers.old done.old).board.array }
    ensures rows { rows.new ≡ (held_script (record_in bytes.old) wp (script_of wp input.now lengths.now ticks.now) array.old rows.old output.old answers.old done.old).board.rows }
    ensures output { output.new ≡ (held_script (record_in bytes.old) wp (script_of wp input.now lengths.now ticks.now) array.old rows.old output.old answers.old done.old).output }
    ensures answers { answers.new ≡ (held_script (record_in bytes.old) wp (script_of wp input.now lengths.now ticks.now) array.old rows.old output.old answers.old done.old).answers }
    ensures done { done.new ≡ (held_script (record_in bytes.old) wp (script_of wp input.now lengths.now ticks.now) array.old rows.old output.old answers.old done.old).done }
    ensures map { map.new ≡ held_map (record_in bytes.old) wp (script_of wp input.now lengths.now ticks.now) array.old rows.old output.old answers.old done.old map.old }
{
    let script = Script {
        wp,
        input,
        lengths,
        ticks,
    };
    let mut none: [Wear; 0] = [];
    run_with(
        script, bytes, array, rows, output, answers, done, map, &mut none,
    )
}

// A script on the record that bytes hold, as `run` makes it, and what its ticks count is kept in wear records, one for each
// sector. Refused, with 1, 35, 2, 7, 4 or 5, every buffer is as it was. Where the bytes hold no record, 1 and 35 are not
// judged: there is no size.
pub fn run_wear<'b>(
    bytes: &mut [u8],
    array: &mut [u8],
    rows: &mut [u8],
    wp: u64,
    input: &'b [u8],
    lengths: &'b [u16],
    ticks: &'b [u16],
    output: &mut [u8],
    answers: &mut [u8],
    done: &mut [u16],
    wear: &mut [Wear],
) -> Ran
    ensures answer { result ≡ ran_of (held_wear_scripted (record_in bytes.old) wp (script_of wp input.now lengths.now ticks.now) array.old rows.old output.old answers.old done.old wear.old).run }
    ensures bytes { bytes.new ≡ script_bytes (record_in bytes.old) (held_wear_scripted (record_in bytes.old) wp (script_of wp input.now lengths.now ticks.now) array.old rows.old output.old answers.old done.old wear.old).run bytes.old }
    ensures array { array.new ≡ (held_wear_scripted (record_in bytes.old) wp (script_of wp input.now lengths.now ticks.now) array.old rows.old output.old answers.old done.old wear.old).run.board.array }
    ensures rows { rows.new ≡ (held_wear_scripted (record_in bytes.old) wp (script_of wp input.now lengths.now ticks.now) array.old rows.old output.old answers.old done.old wear.old).run.board.rows }
    ensures output { output.new ≡ (held_wear_scripted (record_in bytes.old) wp (script_of wp input.now lengths.now ticks.now) array.old rows.old output.old answers.old done.old wear.old).run.output }
    ensures answers { answers.new ≡ (held_wear_scripted (record_in bytes.old) wp (script_of wp input.now lengths.now ticks.now) array.old rows.old output.old answers.old done.old wear.old).run.answers }
    ensures done { done.new ≡ (held_wear_scripted (record_in bytes.old) wp (script_of wp input.now lengths.now ticks.now) array.old rows.old output.old answers.old done.old wear.old).run.done }
    ensures wear { wear.new ≡ (held_wear_scripted (record_in bytes.old) wp (script_of wp input.now lengths.now ticks.now) array.old rows.old output.old answers.old done.old wear.old).wear }
{
    let fits = wear.len() == array.len() / SECTOR_BYTES;
    let lent = beside::check(bytes, fits, array.len(), Refusal::Wear);
    if let Err(unfit) = lent {
        return refused(unfit);
    }
    let script = Script {
        wp,
        input,
        lengths,
        ticks,
    };
    let mut none = [0u8; 0];
    run_with(
        script, bytes, array, rows, output, answers, done, &mut none, wear,
    )
}

// Scripts, with a map of blank pages and without, and checks for C, which include/yawlspar.h declares and yawlspar_script_c exports.
// C lends each list of a script as a buffer of its own, and gets one number: that of a refusal, or 0, with the answer above it.
#![tactic(auto)]

ghost use Rattle.std.specs.Prelude.{◌≡◌, ◌+◌, ◌*◌, ◌%◌, ◌^◌, ◌≤◌};
ghost use Rattle.record_bytes.specs.Read.{record_in};
ghost use Rattle.script.specs.InBytes.{script_of, held_script, script_bytes};
ghost use Rattle.beside.specs.Beside.{board_bytes};
ghost use Rattle.mapped.specs.InBytes.{held_map_scripted};
ghost use Rattle.checker.specs.InBytes.{held_check};
ghost use Rattle.yawlspar.specs.Face.{packed};
ghost use Rattle.yawlspar_script.specs.Face.{script_answer, check_answer};

use types::Verdict;

// A script: transactions, and ticks after each. WP# is low for 0 and high for 1. The number that stops it and the step, or 0 and
// the number of steps; refused, with 1, 2, 7, 4 or 5, every buffer is as it was. Where the bytes hold no record, 1 is not judged.
pub fn yawlspar_script(
    bytes: &mut [u8],
    array: &mut [u8],
    rows: &mut [u8],
    wp: u64,
    input: &[u8],
    lengths: &[u16],
    ticks: &[u16],
    output: &mut [u8],
    answers: &mut [u8],
    done: &mut [u16],
) -> u64
    ensures answer { result ≡ script_answer (held_script (record_in bytes.old) wp (script_of wp input.now lengths.now ticks.now) array.old rows.old output.old answers.old done.old) }
    ensures bytes { bytes.new ≡ script_bytes (record_in bytes.old) (held_script (record_in bytes.old) wp (script_of wp input.now lengths.now ticks.now) array.old rows.old output.old answers.old done.old) bytes.old }
    ensures array { array.new ≡ (held_script (record_in bytes.old) wp (script_of wp input.now lengths.now ticks.now) array.old rows.old output.old answers.old done.old).board.array }
    ensures rows { rows.new ≡ (held_script (record_in bytes.old) wp (script_of wp input.now lengths.now ticks.now) array.old rows.old output.old answers.old done.old).board.rows }
    ensures output { output.new ≡ (held_script (record_in bytes.old) wp (script_of wp input.now lengths.now ticks.now) array.old rows.old output.old answers.old done.old).output }
    ensures answers { answers.new ≡ (held_script (record_in bytes.old) wp (script_of wp input.now lengths.now ticks.now) array.old rows.old output.old answers.old done.old).answers }
    ensures done { done.new ≡ (held_script (record_in bytes.old) wp (script_of wp input.now lengths.now ticks.now) array.old rows.old output.old answers.old done.old).done }
{
    let mut none = [0u8; 0];
    let ran = script::run(
        bytes, array, rows, wp, input, lengths, ticks, output, answers, done, &mut none,
    );
    yawlspar::pack(ran.number, ran.step)
}

// A script, as yawlspar_script makes it, and the map is kept. The number that stops it and the step, or 0 and the number of
// steps; refused, with 1, 36, 2, 7, 4 or 5, every buffer is as it was. Where the bytes hold no record, 1 and 36 are not judged.
pub fn yawlspar_script_map(
    bytes: &mut [u8],
    array: &mut [u8],
    rows: &mut [u8],
    wp: u64,
    input: &[u8],
    lengths: &[u16],
    ticks: &[u16],
    output: &mut [u8],
    answers: &mut [u8],
    done: &mut [u16],
    map: &mut [u8],
) -> u64
    ensures answer { result ≡ script_answer (held_map_scripted (record_in bytes.old) wp (script_of wp input.now lengths.now ticks.now) array.old rows.old output.old answers.old done.old map.old).run }
    ensures bytes { bytes.new ≡ board_bytes (record_in bytes.old) (held_map_scripted (record_in bytes.old) wp (script_of wp input.now lengths.now ticks.now) array.old rows.old output.old answers.old done.old map.old).run.board bytes.old }
    ensures array { array.new ≡ (held_map_scripted (record_in bytes.old) wp (script_of wp input.now lengths.now ticks.now) array.old rows.old output.old answers.old done.old map.old).run.board.array }
    ensures rows { rows.new ≡ (held_map_scripted (record_in bytes.old) wp (script_of wp input.now lengths.now ticks.now) array.old rows.old output.old answers.old done.old map.old).run.board.rows }
    ensures output { output.new ≡ (held_map_scripted (record_in bytes.old) wp (script_of wp input.now lengths.now ticks.now) array.old rows.old output.old answers.old done.old map.old).run.output }
    ensures answers { answers.new ≡ (held_map_scripted (record_in bytes.old) wp (script_of wp input.now lengths.now ticks.now) array.old rows.old output.old answers.old done.old map.old).run.answers }
    ensures done { done.new ≡ (held_map_scripted (record_in bytes.old) wp (script_of wp input.now lengths.now ticks.now) array.old rows.old output.old answers.old done.old map.old).run.done }
    ensures map { map.new ≡ (held_map_scripted (record_in bytes.old) wp (script_of wp input.now lengths.now ticks.now) array.old rows.old output.old answers.old done.old map.old).map }
{
    let kept = mapped::script(
        bytes, array, rows, wp, input, lengths, ticks, output, answers, done, map,
    );
    yawlspar::pack(kept.number, kept.step)
}

// What is said, 1 a step or 2 an address, with the step or the address, above a number of 0.
fn pack(said: u8, place: usize) -> u64
    requires { said ≤ 2 }
    ensures { result ≡ packed 0 (said + 256 * (place % 2 ^ 48)) }
{
    yawlspar::pack(0, yawlspar::pack(said, place) as usize)
}

// The verdict in one number.
fn answer(verdict: Verdict) -> u64
    ensures { result ≡ check_answer verdict }
{
    match verdict {
        Verdict::Yes => 0,
        Verdict::Step(step) => pack(1, step),
        Verdict::Address(address) => pack(2, address),
        Verdict::Refused(number) => number as u64,
    }
}

// A check: a script, as yawlspar_script makes it, and what it leaves is held against the image. Yes; or the first failing step, or
// the number of steps where the part is not idle; or the first differing address. Refused, with 1, 38, 2, 7, 4 or 5, every
// buffer is as it was. Where the bytes hold no record, 1 is not judged.
pub fn yawlspar_check(
    bytes: &mut [u8],
    array: &mut [u8],
    rows: &mut [u8],
    wp: u64,
    input: &[u8],
    lengths: &[u16],
    ticks: &[u16],
    output: &mut [u8],
    answers: &mut [u8],
    done: &mut [u16],
    image: &[u8],
) -> u64
    ensures answer { result ≡ check_answer (held_check (record_in bytes.old) wp (script_of wp input.now lengths.now ticks.now) array.old rows.old output.old answers.old done.old image.now).verdict }
    ensures bytes { bytes.new ≡ script_bytes (record_in bytes.old) (held_check (record_in bytes.old) wp (script_of wp input.now lengths.now ticks.now) array.old rows.old output.old answers.old done.old image.now).run bytes.old }
    ensures array { array.new ≡ (held_check (record_in bytes.old) wp (script_of wp input.now lengths.now ticks.now) array.old rows.old output.old answers.old done.old image.now).run.board.array }
    ensures rows { rows.new ≡ (held_check (record_in bytes.old) wp (script_of wp input.now lengths.now ticks.now) array.old rows.old output.old answers.old done.old image.now).run.board.rows }
    ensures output { output.new ≡ (held_check (record_in bytes.old) wp (script_of wp input.now lengths.now ticks.now) array.old rows.old output.old answers.old done.old image.now).run.output }
    ensures answers { answers.new ≡ (held_check (record_in bytes.old) wp (script_of wp input.now lengths.now ticks.now) array.old rows.old output.old answers.old done.old image.now).run.answers }
    ensures done { done.new ≡ (held_check (record_in bytes.old) wp (script_of wp input.now lengths.now ticks.now) array.old rows.old output.old answers.old done.old image.now).run.done }
{
    let verdict = checker::check(
        bytes, array, rows, wp, input, lengths, ticks, output, answers, done, image,
    );
    answer(verdict)
}

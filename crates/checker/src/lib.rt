// A check of the flasher's script: a whole script in one call, on the record that bytes hold, against a wanted image.
#![tactic(auto)]

ghost use Rattle.std.specs.Prelude.{◌≡◌, length};
ghost use Rattle.paper.specs.Refusals.{number};
ghost use Rattle.paper.specs.Phases.{is_idle};
ghost use Rattle.paper.specs.Check.{verdict_on};
ghost use Rattle.record_bytes.specs.Read.{record_in, phase_again};
ghost use Rattle.script.specs.InBytes.{script_of, script_bytes};
ghost use Rattle.checker.specs.InBytes.{held_check, image_refusal, has_run, first_failing, left_of, Ended};

use script::Ran;
use types::{Refusal, Verdict};

// Why a check is refused whose image is not as long as the array: 1 or 38. Where the bytes hold no record, 1 is not judged: there
// is no size.
fn image_refusal(bytes: &[u8], array: usize) -> Refusal
    ensures { number result ≡ image_refusal (record_in bytes.now) array }
{
    let Some(found) = record_bytes::reading::read(bytes) else {
        return Refusal::Image;
    };
    let part = found.part;
    match refusals::check_size(part.blocks, array) {
        Ok(()) => Refusal::Image,
        Err(refusal) => refusal,
    }
}

// Whether a script with this number ran: 3 and 6 stop it at a step, and any other number refuses it. The tests are joined as in
// the definition; a match on the number would leave a proof for each arm.
fn has_run(number: u8) -> bool
    ensures { result ≡ has_run number }
{
    let stopped = words::either(number == 3, number == 6);
    words::either(number == 0, stopped)
}

// The first step whose transaction does not answer 0; the number of steps where none does.
fn first_failing(answers: &[u8]) -> usize
    ensures { result ≡ first_failing answers.now }
{
    answers
        .iter()
        .position(|answer| *answer != 0)
        .unwrap_or(answers.len())
}

// Whether the part is idle that bytes hold: nothing runs and nothing is suspended.
fn ends_idle(bytes: &[u8]) -> bool
    ensures { result ≡ is_idle (phase_again bytes.now) }
{
    let phase = record_bytes::reading::phase_again(bytes);
    phases::is_idle(phase)
}

// What is said of a run: its first failing step, or the number of steps where the part is not idle, or else the first
// address where the array differs from the image, or yes. The step that stopped it fails, and no step was made after it.
fn verdict_on(ran: Ran, bytes: &[u8], array: &[u8], answers: &[u8], image: &[u8]) -> Verdict
    requires { Ended ran bytes.now (length answers.now) × (length image.now ≡ length array.now) }
    ensures { result ≡ verdict_on (length answers.now) image.now (left_of ran bytes.now array.now answers.now) }
{
    let steps = answers.len();
    let made = ran.step;
    let failing = first_failing(&answers[0..made]);
    if failing < steps {
        return Verdict::Step(failing);
    }
    let idle = ends_idle(bytes);
    if !idle {
        return Verdict::Step(steps);
    }
    let address = runs::first_difference(array, image);
    if address < image.len() {
        return Verdict::Address(address);
    }
    Verdict::Yes
}

// A check, of lists that are lent one by one, as C lends them: the script runs on the array that is lent, as a script does, and what it leaves is held against the image. Refused,
// with 1, 38, 2, 7, 4 or 5, every buffer is as it was.
pub fn check(
    bytes: &mut [u8],
    array: &mut [u8],
    rows: &mut [u8],
    wp: u64,
    input: &[u8],
    lengths: &[u16],
    ticks: &[u16],
    output: &mut [u8],
    answers: &mut [u8],
    done: &mut [u16],
    image: &[u8],
) -> Verdict
    ensures verdict { result ≡ (held_check (record_in bytes.old) wp (script_of wp input.now lengths.now ticks.now) array.old rows.old output.old answers.old done.old image.now).verdict }
    ensures bytes { bytes.new ≡ script_bytes (record_in bytes.old) (held_check (record_in bytes.old) wp (script_of wp input.now lengths.now ticks.now) array.old rows.old output.old answers.old done.old image.now).run bytes.old }
    ensures array { array.new ≡ (held_check (record_in bytes.old) wp (script_of wp input.now lengths.now ticks.now) array.old rows.old output.old answers.old done.old image.now).run.board.array }
    ensures rows { rows.new ≡ (held_check (record_in bytes.old) wp (script_of wp input.now lengths.now ticks.now) array.old rows.old output.old answers.old done.old image.now).run.board.rows }
    ensures output { output.new ≡ (held_check (record_in bytes.old) wp (script_of wp input.now lengths.now ticks.now) array.old rows.old output.old answers.old done.old image.now).run.output }
    ensures answers { answers.new ≡ (held_check (record_in bytes.old) wp (script_of wp input.now lengths.now ticks.now) array.old rows.old output.old answers.old done.old image.now).run.answers }
    ensures done { done.new ≡ (held_check (record_in bytes.old) wp (script_of wp input.now lengths.now ticks.now) array.old rows.old output.old answers.old done.old image.now).run.done }
{
    if image.len() != array.len() {
        let refusal = image_refusal(bytes, array.len());
        return Verdict::Refused(refusals::number(refusal));
    }
    let mut none = [0u8; 0];
    let ran = script::run(
        bytes, array, rows, wp, input, lengths, ticks, output, answers, done, &mut none,
    );
    if !has_run(ran.number) {
        return Verdict::Refused(ran.number);
    }
    verdict_on(ran, bytes, array, answers, image)
}

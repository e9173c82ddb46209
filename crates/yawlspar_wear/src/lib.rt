// Wear records for C, which include/yawlspar.h declares and yawlspar_wear_c exports: kept by ticks and by a script, and their text.
// C lends each list of a script as a buffer of its own, and gets one number: that of a refusal, or 0, with the answer above it.
#![tactic(auto)]

ghost use Rattle.std.specs.Prelude.{◌≡◌, length};
ghost use Rattle.paper.specs.Wear.{worn};
ghost use Rattle.paper.specs.WearText.{wear_written};
ghost use Rattle.record_bytes.specs.Read.{record_in};
ghost use Rattle.beside.specs.Beside.{board_bytes};
ghost use Rattle.counted.specs.InBytes.{held_wear_ticked};
ghost use Rattle.script.specs.InBytes.{script_of, script_bytes, held_wear_scripted};
ghost use Rattle.yawlspar_script.specs.Face.{script_answer};
ghost use Rattle.yawlspar_wear.specs.Face.{wear_tick_answer, text_answer};

use types::Wear;

// So many ticks, as yawlspar_tick makes them, and the wear records are kept. The number and the ticks that did work; refused, with
// 1, 35, 2, 5 or 6, every buffer and every record is as it was. Where the bytes hold no record, 1 and 35 are not judged.
pub fn yawlspar_tick_wear<'a>(
    bytes: &'a mut [u8],
    array: &'a mut [u8],
    rows: &'a mut [u8],
    count: u64,
    wear: &'a mut [Wear],
) -> u64
    ensures answer { result ≡ wear_tick_answer (held_wear_ticked (record_in bytes.old) array.old rows.old count (length wear.old)) }
    ensures bytes { bytes.new ≡ board_bytes (record_in bytes.old) (held_wear_ticked (record_in bytes.old) array.old rows.old count (length wear.old)).board bytes.old }
    ensures array { array.new ≡ (held_wear_ticked (record_in bytes.old) array.old rows.old count (length wear.old)).board.array }
    ensures rows { rows.new ≡ (held_wear_ticked (record_in bytes.old) array.old rows.old count (length wear.old)).board.rows }
    ensures wear { wear.new ≡ worn (held_wear_ticked (record_in bytes.old) array.old rows.old count (length wear.old)).tally wear.old }
{
    let counted = counted::tick(bytes, array, rows, count, wear.len());
    wear_records::keep(wear, counted.tally);
    yawlspar::pack(counted.number, counted.done)
}

// A script, as yawlspar_script makes it, and the wear records are kept. The number that stops it and the step, or 0 and the number
// of steps; refused, with 1, 35, 2, 7, 4 or 5, every buffer and every record is as it was. Where the bytes hold no record, 1 and 35
// are not judged.
pub fn yawlspar_script_wear<'b>(
    bytes: &mut [u8],
    array: &mut [u8],
    rows: &mut [u8],
    wp: u64,
    input: &'b [u8],
    lengths: &'b [u16],
    ticks: &'b [u16],
    output: &mut [u8],
    answers: &mut [u8],
    done: &mut [u16],
    wear: &mut [Wear],
) -> u64
    ensures answer { result ≡ script_answer (held_wear_scripted (record_in bytes.old) wp (script_of wp input.now lengths.now ticks.now) array.old rows.old output.old answers.old done.old wear.old).run }
    ensures bytes { bytes.new ≡ script_bytes (record_in bytes.old) (held_wear_scripted (record_in bytes.old) wp (script_of wp input.now lengths.now ticks.now) array.old rows.old output.old answers.old done.old wear.old).run bytes.old }
    ensures array { array.new ≡ (held_wear_scripted (record_in bytes.old) wp (script_of wp input.now lengths.now ticks.now) array.old rows.old output.old answers.old done.old wear.old).run.board.array }
    ensures rows { rows.new ≡ (held_wear_scripted (record_in bytes.old) wp (script_of wp input.now lengths.now ticks.now) array.old rows.old output.old answers.old done.old wear.old).run.board.rows }
    ensures output { output.new ≡ (held_wear_scripted (record_in bytes.old) wp (script_of wp input.now lengths.now ticks.now) array.old rows.old output.old answers.old done.old wear.old).run.output }
    ensures answers { answers.new ≡ (held_wear_scripted (record_in bytes.old) wp (script_of wp input.now lengths.now ticks.now) array.old rows.old output.old answers.old done.old wear.old).run.answers }
    ensures done { done.new ≡ (held_wear_scripted (record_in bytes.old) wp (script_of wp input.now lengths.now ticks.now) array.old rows.old output.old answers.old done.old wear.old).run.done }
    ensures wear { wear.new ≡ (held_wear_scripted (record_in bytes.old) wp (script_of wp input.now lengths.now ticks.now) array.old rows.old output.old answers.old done.old wear.old).wear }
{
    let ran = script::run_wear(
        bytes, array, rows, wp, input, lengths, ticks, output, answers, done, wear,
    );
    yawlspar::pack(ran.number, ran.step)
}

// The text of the wear records of a part of so many blocks. The number and how many bytes were written, those behind are as they
// were; refused, with 1, 35 or 4, nothing is written.
pub fn yawlspar_wear_text(blocks: u64, wear: &[Wear], text: &mut [u8]) -> u64
    ensures answer { result ≡ text_answer (wear_written blocks wear.now text.old) }
    ensures text { text.new ≡ (wear_written blocks wear.now text.old).text }
{
    let written = wear_text::write(blocks, wear, text);
    yawlspar::pack(written.number, written.bytes)
}

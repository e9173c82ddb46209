// The lines of the program bench, run on a part: what each does with it, and what is printed for it.
#![tactic(auto)]

ghost use Rattle.std.specs.Prelude.{◌≡◌, ◌==◌, [], ◌+◌, ◌*◌, ◌≤◌, length, take, drop, position};
ghost use Rattle.words.specs.Logic.{when_zero};
ghost use Rattle.paper.specs.Sizes.{array_bytes, rows_bytes, transaction_limit};
ghost use Rattle.paper.specs.Refusals.{number_of};
ghost use Rattle.paper.specs.Board.{board_of, sent_to, after_ticks};
ghost use Rattle.paper.specs.Bench.{LF, pairs, line_of, sent_text, waited_text, line_text, line_after, lines_of, text_of, board_after, bench_board, bench_text, bench_after};
ghost use Rattle.printing.specs.Printed.{Prints};
ghost use Rattle.bench_lines.specs.Lent.{lent_number};
ghost use Rattle.bench_lines.specs.LineEnd.{index_of};

use types::{Identity, Line, Record, Refusal};

// Bench reads up to 65,536 bytes, in lines of at most 64 pairs. What it prints is at most four times as long.
pub const INPUT_MOST: usize = 65536;

pub const OUTPUT_MOST: usize = 4 * INPUT_MOST;

const PAIRS_MOST: usize = 64;

// What lines leave: the record, and the place after what was printed.
#[derive(Clone, Copy)]
struct Ran {
    next: Record,
    printed: usize,
}

// What bench answers: the number of a refusal, or 0, as lent_number gives it, and how many bytes it printed.
#[derive(Clone, Copy)]
pub struct Benched {
    pub number: u8,
    pub printed: usize,
}

// The record, the array and the rows are arguments of their own, as they are for transact and tick, which take them apart. So
// are what is sent and what comes back, and the output and the place in it, as printing takes them. The limit of pairs is a
// plain number, as it is for line_of.

// A line that is a transaction. The bytes that are sent and those that are driven are lent room.
fn send(
    state: Record,
    array: &[u8],
    rows: &[u8],
    wp: bool,
    line: &[u8],
    sent: &mut [u8],
    back: &mut [u8],
    output: &mut [u8],
    at: usize,
) -> Ran
    requires { (length line.now ≡ 2 * length sent.old + 2) × (length back.old ≡ length sent.old) }
    ensures next { result.next ≡ (sent_to (board_of state array.now rows.now) wp (pairs (drop 2 line.now))).next }
    ensures output { Prints output.old at (sent_text (board_of state array.now rows.now) wp (pairs (drop 2 line.now))) output.new result.printed }
{
    lines::bytes_of(&line[2..], sent);
    runs::blank(back);
    let answer = transact::transact(state, array, rows, wp, sent, back);
    let next = answer.next;
    let printed = printing::put_answer(output, at, answer.number, answer.first, back);
    Ran { next, printed }
}

// So many ticks. Like send it makes a call and prints what that answers, but each of them its own call and its own line.
fn wait(
    state: Record,
    array: &mut [u8],
    rows: &mut [u8],
    ticks: usize,
    output: &mut [u8],
    at: usize,
) -> Ran
    ensures after { board_of result.next array.new rows.new ≡ after_ticks (board_of state array.old rows.old) ticks }
    ensures output { Prints output.old at (waited_text (board_of state array.old rows.old) ticks) output.new result.printed }
{
    let ticked = ticks::tick(state, array, rows, ticks);
    let next = ticked.next;
    let printed = printing::put_ticks(output, at, ticked.number, ticked.done);
    Ran { next, printed }
}

// One line. Each line that says something makes another call.
fn run_line(
    state: Record,
    array: &mut [u8],
    rows: &mut [u8],
    most: usize,
    line: &[u8],
    sent: &mut [u8],
    back: &mut [u8],
    output: &mut [u8],
    at: usize,
) -> Ran
    requires { (most ≤ length sent.old) × (most ≤ length back.old) }
    ensures after { board_of result.next array.new rows.new ≡ line_after (line_of most line.now) line.now (board_of state array.old rows.old) }
    ensures output { Prints output.old at (line_text (line_of most line.now) line.now (board_of state array.old rows.old)) output.new result.printed }
{
    let said = lines::line_of(most, line);
    match said {
        Line::Transaction(wp) => {
            let n = line.len() / 2 - 1;
            send(
                state,
                array,
                rows,
                wp,
                line,
                &mut sent[0..n],
                &mut back[0..n],
                output,
                at,
            )
        }
        Line::Ticks(ticks) => wait(state, array, rows, ticks, output, at),
        Line::Neither => {
            let printed = printing::put_other(output, at);
            Ran {
                next: state,
                printed,
            }
        }
    }
}

// The place of the first LF of a text.
fn line_end(text: &[u8]) -> Option<usize>
    ensures { result ≡ position (λ c. c == LF) text.now }
{
    text.iter().position(|c| *c == b'\n')
}

// The first line of a text, without its LF, and what follows it.
fn first_line(text: &[u8]) -> (&[u8], &[u8])
    ensures line { result.0.now ≡ take (index_of LF text.now) text.now }
    ensures rest { result.1.now ≡ drop (index_of LF text.now + 1) text.now }
{
    match line_end(text) {
        Some(end) => (&text[..end], &text[end + 1..]),
        None => (text, &[]),
    }
}

// Room for the bytes of a transaction.
fn room() -> [u8; types::TRANSACTION_MOST]
    ensures { transaction_limit ≡ length result }
{
    [0; types::TRANSACTION_MOST]
}

// All lines of an input, of at most so many pairs, on a part and its memory. What is printed goes into the output
// from its start on, as far as the output goes.
fn run(
    state: Record,
    array: &mut [u8],
    rows: &mut [u8],
    most: usize,
    input: &[u8],
    output: &mut [u8],
) -> Ran
    requires { most ≤ transaction_limit }
    ensures after { board_of result.next array.new rows.new ≡ board_after most (lines_of input.now) (board_of state array.old rows.old) }
    ensures output { Prints output.old 0 (text_of most (lines_of input.now) (board_of state array.old rows.old)) output.new result.printed }
{
    let mut sent = room();
    let mut back = room();
    let mut ran = Ran {
        next: state,
        printed: 0,
    };
    let mut rest = input;
    while !rest.is_empty() {
        let (line, others) = first_line(rest);
        let next = ran.next;
        let at = ran.printed;
        ran = run_line(
            next, array, rows, most, line, &mut sent, &mut back, output, at,
        );
        rest = others;
    }
    ran
}

// A part of so many blocks on the bench, with its array and rows set to FFh, and all lines of an input on it. It
// answers how many bytes were printed.
fn on_part(
    blocks: u16,
    array: &mut [u8],
    rows: &mut [u8],
    most: usize,
    input: &[u8],
    output: &mut [u8],
) -> usize
    requires { (length array.old ≡ array_bytes blocks) × (length rows.old ≡ rows_bytes) × (most ≤ transaction_limit) }
    ensures array { array.new ≡ (board_after most (lines_of input.now) (bench_board blocks)).array }
    ensures rows { rows.new ≡ (board_after most (lines_of input.now) (bench_board blocks)).rows }
    ensures output { Prints output.old 0 (text_of most (lines_of input.now) (bench_board blocks)) output.new result }
{
    runs::blank(array);
    runs::blank(rows);
    let identity = Identity {
        maker: 0x11,
        kind: 0x22,
        capacity: 0x33,
        device: 0x44,
    };
    let stored = record::no_stored();
    let powered = record::power_up(blocks, identity, stored);
    let state = powered.next;
    let ran = run(state, array, rows, most, input, output);
    ran.printed
}

// 1 for an array that is not a block, 2 for rows that are not 1,024 bytes.
fn check_lent(array: usize, rows: usize) -> Result<(), Refusal>
    ensures { number_of result ≡ lent_number array rows }
{
    refusals::check_size(1, array)?;
    refusals::check_rows(rows)
}

// The program bench on what it read, with the memory of a 1-block part, which it sets to FFh first. It prints as much
// as the output has room for. Refused, with 1 for an array that is not a block and 2 for rows that are not 1,024
// bytes, it writes and prints nothing.
pub fn bench(array: &mut [u8], rows: &mut [u8], input: &[u8], output: &mut [u8]) -> Benched
    ensures answer { result.number ≡ lent_number (length array.old) (length rows.old) }
    ensures array { array.new ≡ when_zero (lent_number (length array.old) (length rows.old)) (bench_after input.now).array array.old }
    ensures rows { rows.new ≡ when_zero (lent_number (length array.old) (length rows.old)) (bench_after input.now).rows rows.old }
    ensures output { Prints output.old 0 (when_zero (lent_number (length array.old) (length rows.old)) (bench_text input.now) []) output.new result.printed }
{
    if let Err(refusal) = check_lent(array.len(), rows.len()) {
        let number = refusals::number(refusal);
        return Benched { number, printed: 0 };
    }
    let end = input.len().min(INPUT_MOST);
    let printed = on_part(1, array, rows, PAIRS_MOST, &input[..end], output);
    Benched { number: 0, printed }
}

// The program bench: up to 65,536 bytes of standard input, run line by line on the 1-block part. What it prints for
// an input is at most four times as long (proofs/Fits.antt of bench_lines). Nothing is allocated.
#![tactic(auto)]

ghost use Rattle.std.specs.Prelude.{◌≡◌, ◌≢◌, ℕ, ◌≤◌, List, [], length, take, IfSome, IfOk, IfErr, OnOk, OnErr};
ghost use Rattle.std.specs.IoError.{error_kind};
ghost use Rattle.std.specs.Io.KnownBytes.{Appends, Consumes};
ghost use Rattle.words.specs.Logic.{when_zero};
ghost use Rattle.paper.specs.Bench.{input_limit, bench_text};
ghost use Rattle.bench_lines.specs.Lent.{lent_number};

use std::io;
use std::io::{Error, ErrorKind, Read, Write};

// Reads until the buffer is full or a read gives nothing, and answers how many bytes it read. A read that is
// interrupted is tried again; the bound on the tries is there so that the loop ends. (read_exact fails where the input ends
// early, and read_to_end needs a heap.)
fn read_full<R: Read>(reader: &mut R, buffer: &mut [u8]) -> io::Result<usize>
    // At any reader.
    ensures within { IfOk result (λ n. n ≤ length buffer.new) }
    ensures retried { IfErr result (λ e. error_kind e ≢ ErrorKind.Interrupted) }

    // Where the bytes are known.
    ensures whole { IfOk result (λ n. IfSome (R.remaining reader.old)
        (λ input. take n buffer.new ≡ take (length buffer.old) input)) }
    ensures taken { IfOk result (λ n. Consumes (R.remaining reader.old) (R.remaining reader.new) (take n buffer.new)) }
    ensures none_lost { OnErr result ((n : ℕ) × Consumes (R.remaining reader.old) (R.remaining reader.new) (take n buffer.new)) }
{
    let mut at = 0;
    for _ in 0..u64::MAX {
        if at >= buffer.len() {
            return Ok(at);
        }
        match reader.read(&mut buffer[at..]) {
            Ok(0) => return Ok(at),
            Ok(n) => at += n,
            Err(e) => {
                if e.kind() != ErrorKind::Interrupted {
                    return Err(e);
                }
            }
        }
    }
    Err(Error::from(ErrorKind::TimedOut))
}

// Runs what was read, and writes what it prints, as far as the output has room for it. Nothing is allocated, so the output is
// lent, and bench says how much of it is printed.
fn answer<W: Write>(
    input: &[u8],
    array: &mut [u8],
    rows: &mut [u8],
    output: &mut [u8],
    writer: &mut W,
) -> io::Result<()>
    ensures { OnOk result (Appends (W.contents writer.old) (W.contents writer.new)
        (take (length output.old) (when_zero (lent_number (length array.old) (length rows.old)) (bench_text input.now) []))) }
{
    let benched = bench_lines::bench(array, rows, input, output);
    let printed = benched.printed;
    writer.write_all(&output[..printed])
}

// Reads what bench reads and leaves the rest unread, runs it on a new part and writes what bench prints for it.
fn run<R: Read, W: Write>(reader: &mut R, writer: &mut W) -> io::Result<()>
    ensures printed { OnOk result (IfSome (R.remaining reader.old)
        (λ input. Appends (W.contents writer.old) (W.contents writer.new) (bench_text input))) }
    ensures rest { OnOk result (IfSome (R.remaining reader.old)
        (λ input. Consumes (R.remaining reader.old) (R.remaining reader.new) (take input_limit input))) }
    ensures no_more { OnErr result ((taken : List ℕ) × (length taken ≤ input_limit)
        × Consumes (R.remaining reader.old) (R.remaining reader.new) taken) }
{
    let mut input = [0u8; bench_lines::INPUT_MOST];
    let mut array = [0u8; types::BLOCK_BYTES];
    let mut rows = [0u8; types::ROWS_BYTES];
    let mut output = [0u8; bench_lines::OUTPUT_MOST];
    let n = read_full(reader, &mut input)?;
    answer(&input[..n], &mut array, &mut rows, &mut output, writer)
}

fn main(rt: HostRuntime) -> io::Result<()> {
    run(&mut rt.reader(), &mut io::writer(&rt))
}

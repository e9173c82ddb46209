// Bytes in runs: set to one value all over, written from a source that is read round and round, scanned, or compared.
#![tactic(auto)]

ghost use Rattle.std.specs.Prelude.{◌≡◌, ◌≤◌, min, ltb, length, drop, replicate};
ghost use Rattle.words.specs.Lists.{driven, all_zero, first_of, differ_at};

// All of the bytes set to one value.
pub fn fill(bytes: &mut [u8], value: u8)
    ensures { bytes.new ≡ replicate (length bytes.old) value }
{
    // Not `bytes.fill(value)`, which sets the last byte apart: one memset is shorter.
    for i in 0..bytes.len() {
        bytes[i] = value;
    }
}

// All of the bytes set to FFh.
pub fn blank(bytes: &mut [u8])
    ensures { bytes.new ≡ replicate (length bytes.old) 255 }
{
    fill(bytes, 255);
}

// The most bytes that are compared at once.
const CHUNK: usize = 4096;

// The source, read from its place at on and past its end from its start again, into the output from
// the place from to its end. A source of no bytes leaves the output as it is.
pub fn drive(source: &[u8], at: usize, output: &mut [u8], from: usize)
    ensures { output.new ≡ driven source.now at output.old from }
{
    let n = source.len();
    if n == 0 || output.len() <= from {
        return;
    }
    // By places: of what `chunks_mut` lends, no promise says what its bytes become.
    let mut here = at % n;
    let mut there = from;
    while there < output.len() {
        let run = (n - here).min(output.len() - there);
        output[there..there + run].copy_from_slice(&source[here..here + run]);
        here = 0;
        there += run;
    }
}

// Whether all bytes from a place on are 0. It looks at each of them, with no early exit.
pub fn zero_from(bytes: &[u8], from: usize) -> bool
    ensures { result ≡ all_zero (drop from bytes.now) }
{
    let mut any = 0;
    for byte in &bytes[from.min(bytes.len())..] {
        any |= *byte;
    }
    any == 0
}

// The first place where as many bytes differ; their number where none does, as `first_of` has it. By index, since both runs
// are read in step.
fn first_of_chunk(a: &[u8], b: &[u8]) -> usize
    requires { length b.now ≡ length a.now }
    ensures { result ≡ first_of (length a.now) (differ_at a.now b.now) }
{
    for i in 0..a.len() {
        if a[i] != b[i] {
            return i;
        }
    }
    a.len()
}

// The first place where two runs of bytes differ; the length of the shorter where none does. It looks at a chunk at a time,
// since the equality of two chunks is tested many bytes at once, and at each byte of the first two that are not equal.
pub fn first_difference(a: &[u8], b: &[u8]) -> usize
    ensures { result ≡ first_of (min (length a.now) (length b.now)) (differ_at a.now b.now) }
{
    let n = a.len().min(b.len());
    let mut at = 0;
    for (x, y) in a[..n].chunks(CHUNK).zip(b[..n].chunks(CHUNK)) {
        if x != y {
            return at + first_of_chunk(x, y);
        }
        at += x.len();
    }
    n
}

// What the programs print: text put into an output from a place on, as far as the output goes.
#![tactic(auto)]

ghost use Rattle.std.specs.Prelude.{◌≡◌, [], ◌∷◌, ◌++◌, ◌<◌};
ghost use Rattle.paper.specs.Bench.{space, digit, hex_digit, leading, decimal, hex_pairs, place_text, answer_text, ticks_text, other_text};
ghost use Rattle.paper.specs.WearText.{five_digits, wide_decimal, counts_text, is_full, wear_line, sums_text};
ghost use Rattle.printing.specs.Printed.{Prints};

// The output and the place in it are two arguments: a struct that held both would need a clause on each function, that it
// still holds the same output. The text is put together here, since a clause knows what write! prints only for a String, which
// is on the heap.

// One character at a place of the output. It answers the place after it. What does not fit is left out.
#[tactic(auto, using(crate::proofs::Text::prints_one, crate::proofs::Text::prints_past))]
fn put(output: &mut [u8], at: usize, character: u8) -> usize
    ensures { Prints output.old at (character ∷ []) output.new result }
{
    if at < output.len() {
        output[at] = character;
        return at + 1;
    }
    output.len()
}

// The digit of a number that counts d's, where the number reaches d.
#[tactic(auto, using(std::proofs::lemmas::Bool::Decides::nat_tests, crate::proofs::Text::prints_none), unfolding(paper::specs::Bench::leading))]
fn put_leading(output: &mut [u8], at: usize, d: usize, n: usize) -> usize
    requires { 0 < d }
    ensures { Prints output.old at (leading d n) output.new result }
{
    if d <= n {
        return put(output, at, digit(n / d));
    }
    at.min(output.len())
}

// Two characters.
fn put_two(output: &mut [u8], at: usize, first: u8, second: u8) -> usize
    ensures { Prints output.old at (first ∷ second ∷ []) output.new result }
{
    let a = put(output, at, first);
    put(output, a, second)
}

// The character of a digit.
fn digit(v: usize) -> u8
    ensures { result ≡ digit v }
{
    b'0' + (v % 10) as u8
}

// A number in decimal. Of a number with more than five digits these are the last five, so this is no case of
// put_wide_digits.
fn put_digits(output: &mut [u8], at: usize, n: usize) -> usize
    ensures { Prints output.old at (decimal n) output.new result }
{
    let a = put_leading(output, at, 10000, n);
    let b = put_leading(output, a, 1000, n);
    let c = put_leading(output, b, 100, n);
    let d = put_leading(output, c, 10, n);
    put(output, d, digit(n))
}

// A number in decimal, and a character after it. (put_two and put_wide end as this does, but print something else before.)
fn put_decimal(output: &mut [u8], at: usize, n: usize, then: u8) -> usize
    ensures { Prints output.old at (decimal n ++ (then ∷ [])) output.new result }
{
    let a = put_digits(output, at, n);
    put(output, a, then)
}

// The character of a hex digit, which is of two ranges, unlike in digit.
#[tactic(auto, using(std::proofs::lemmas::Bool::Decides::nat_tests), unfolding(paper::specs::Bench::hex_digit))]
fn hex_digit(value: u8) -> u8
    requires { value < 16 }
    ensures { result ≡ hex_digit value }
{
    match value {
        0..=9 => b'0' + value,
        _ => b'A' + (value - 10),
    }
}

// Bytes as hex pairs. (put_text is the same loop with one character.)
fn put_pairs(output: &mut [u8], at: usize, bytes: &[u8]) -> usize
    ensures { Prints output.old at (hex_pairs bytes.now) output.new result }
{
    let mut place = at.min(output.len());
    for byte in bytes {
        place = put_two(output, place, hex_digit(byte / 16), hex_digit(byte % 16));
    }
    place
}

// The first driven place of an output of n bytes, or a dash where it is n, as place_text has it; and a space after it.
#[tactic(auto, using(std::proofs::lemmas::Bool::Decides::nat_tests), unfolding(paper::specs::Bench::place_text))]
fn put_place(output: &mut [u8], at: usize, first: usize, n: usize) -> usize
    ensures { Prints output.old at (place_text first n ++ (space ∷ [])) output.new result }
{
    if first == n {
        return put_two(output, at, b'-', b' ');
    }
    put_decimal(output, at, first, b' ')
}

// What is printed for a transaction, of which the number is that of its answer, 0 for none, as in answer_text.
pub fn put_answer(output: &mut [u8], at: usize, number: u8, first: usize, bytes: &[u8]) -> usize
    ensures { Prints output.old at (answer_text number first bytes.now) output.new result }
{
    let a = put_decimal(output, at, number as usize, b' ');
    let b = put_place(output, a, first, bytes.len());
    let c = put_pairs(output, b, bytes);
    put(output, c, b'\n')
}

// What is printed for ticks, of which the number is that of their answer, likewise. Both numbers are decimal, and those of
// put_counts wide_decimal.
pub fn put_ticks(output: &mut [u8], at: usize, number: u8, done: usize) -> usize
    ensures { Prints output.old at (ticks_text number done) output.new result }
{
    let a = put_decimal(output, at, number as usize, b' ');
    put_decimal(output, a, done, b'\n')
}

// What is printed for a line that is neither.
pub fn put_other(output: &mut [u8], at: usize) -> usize
    ensures { Prints output.old at other_text output.new result }
{
    put_two(output, at, b'?', b'\n')
}

// The last five digits of a number.
fn put_five(output: &mut [u8], at: usize, n: usize) -> usize
    ensures { Prints output.old at (five_digits n) output.new result }
{
    let a = put_two(output, at, digit(n / 10000), digit(n / 1000));
    let b = put_two(output, a, digit(n / 100), digit(n / 10));
    put(output, b, digit(n))
}

// A number below 10 ^ 15 in decimal, five digits at a time.
fn put_wide_digits(output: &mut [u8], at: usize, n: usize) -> usize
    ensures { Prints output.old at (wide_decimal n) output.new result }
{
    if n < 100000 {
        return put_digits(output, at, n);
    }
    if n < 10000000000 {
        let high = put_digits(output, at, n / 100000);
        return put_five(output, high, n);
    }
    let a = put_digits(output, at, n / 10000000000);
    let b = put_five(output, a, n / 100000);
    put_five(output, b, n)
}

// And a character after it.
fn put_wide(output: &mut [u8], at: usize, n: usize, then: u8) -> usize
    ensures { Prints output.old at (wide_decimal n ++ (then ∷ [])) output.new result }
{
    let a = put_wide_digits(output, at, n);
    put(output, a, then)
}

// A text.
fn put_text(output: &mut [u8], at: usize, text: &[u8]) -> usize
    ensures { Prints output.old at text.now output.new result }
{
    let mut place = at.min(output.len());
    for character in text {
        place = put(output, place, *character);
    }
    place
}

// Two counts, with a space between them, and a character after them.
fn put_counts(output: &mut [u8], at: usize, erases: usize, programs: usize, then: u8) -> usize
    ensures { Prints output.old at (counts_text erases programs ++ (then ∷ [])) output.new result }
{
    let a = put_wide(output, at, erases, b' ');
    put_wide(output, a, programs, then)
}

// Whether either count is at its largest value.
#[tactic(auto, using(crate::proofs::Text::tests))]
fn is_full(erases: u32, programs: u32) -> bool
    ensures { result ≡ is_full (record { erases = erases; programs = programs }) }
{
    erases == u32::MAX || programs == u32::MAX
}

// The line of a sector: its number, its erases, its programs, and ` full` where one of them is at its largest value.
pub fn put_wear(output: &mut [u8], at: usize, sector: usize, erases: u32, programs: u32) -> usize
    ensures { Prints output.old at (wear_line sector (record { erases = erases; programs = programs })) output.new result }
{
    let a = put_wide(output, at, sector, b' ');
    if is_full(erases, programs) {
        let b = put_counts(output, a, erases as usize, programs as usize, b' ');
        return put_text(output, b, b"full\n");
    }
    put_counts(output, a, erases as usize, programs as usize, b'\n')
}

// The last two lines: the largest counts of erases and programs, and their totals.
pub fn put_sums(output: &mut [u8], at: usize, le: u32, lp: u32, te: u64, tp: u64) -> usize
    ensures { Prints output.old at (sums_text le lp te tp) output.new result }
{
    let a = put_text(output, at, b"largest ");
    let b = put_counts(output, a, le as usize, lp as usize, b'\n');
    let c = put_text(output, b, b"total ");
    put_counts(output, c, te as usize, tp as usize, b'\n')
}

// What a line of the program bench says: its characters, its digits and its hex pairs.
#![tactic(auto)]

ghost use Rattle.std.specs.Prelude.{◌≡◌, ◌≤◌, length};
ghost use Rattle.std.proofs.lemmas.List.Edits.{sets};
ghost use Rattle.std.specs.List.{list_all};
ghost use Rattle.std.specs.Char.{is_ascii_digit};
ghost use Rattle.paper.specs.Bench.{is_digit, is_hex, digit_value, hex_value, pairs, numeral_from, begins, pairs_ok, digits_ok, line_of};

use types::Line;

// Whether a character is an upper-case hex digit.
#[tactic(auto, using(crate::proofs::Characters::tests), unfolding(paper::specs::Bench::is_hex, paper::specs::Bench::is_digit))]
fn is_hex(x: u8) -> bool
    ensures { result ≡ is_hex x }
{
    matches!(x, b'0'..=b'9' | b'A'..=b'F')
}

// The value of a hex digit. A character that is none has 0.
#[tactic(auto, using(crate::proofs::Characters::tests), unfolding(paper::specs::Bench::hex_value, paper::specs::Bench::is_hex, paper::specs::Bench::is_digit))]
fn hex_value(x: u8) -> u8
    ensures value { result ≡ hex_value x }
    ensures upper_bound { result ≤ 15 }
{
    match x {
        b'0'..=b'9' => x - b'0',
        b'A'..=b'F' => x - b'A' + 10,
        _ => 0,
    }
}

// The value of a decimal digit, likewise. A letter has 0 too, unlike in hex_value.
#[tactic(auto, using(crate::proofs::Characters::tests), unfolding(paper::specs::Bench::digit_value, paper::specs::Bench::is_digit))]
fn digit_value(x: u8) -> u8
    ensures value { result ≡ digit_value x }
    ensures upper_bound { result ≤ 9 }
{
    match x {
        b'0'..=b'9' => x - b'0',
        _ => 0,
    }
}

// The number that one to five digits are: decimal, unlike the bytes of address and the bits of blank_map.
#[tactic(auto, using(crate::proofs::Numerals::tens_most))]
fn number_of(text: &[u8]) -> usize
    requires { length text.now ≤ 5 }
    ensures { result ≡ numeral_from 0 text.now }
{
    let mut n = 0;
    for x in text {
        n = 10 * n + digit_value(*x) as usize;
    }
    n
}

// The bytes that hex pairs are, put into a buffer from its start on. Pairs for which it has no room are left out, and
// what it holds past them stays.
#[tactic(auto, using(crate::proofs::Numerals::pairs_end))]
pub fn bytes_of(text: &[u8], bytes: &mut [u8])
    ensures { bytes.new ≡ sets bytes.old 0 (pairs text.now) }
{
    // An index, since each byte stands at half the place of its pair.
    for i in 0..bytes.len().min(text.len() / 2) {
        bytes[i] = 16 * hex_value(text[2 * i]) + hex_value(text[2 * i + 1]);
    }
}

// Whether all characters are hex digits. It looks at each of them, with no early exit, so that the compiler can take many at
// once: a line may have 128.
fn all_hex(text: &[u8]) -> bool
    ensures { result ≡ list_all is_hex text.now }
{
    let mut all = true;
    for x in text {
        all = words::both(all, is_hex(*x));
    }
    all
}

// And whether all are decimal ones, of which a line has a few.
fn all_digits(text: &[u8]) -> bool
    ensures { result ≡ list_all is_ascii_digit text.now }
{
    text.iter().all(|x| x.is_ascii_digit())
}

// Whether a text is 1 to so many hex pairs.
#[tactic(auto, using(crate::proofs::Characters::tests, crate::proofs::Characters::every_all), unfolding(paper::specs::Bench::pairs_ok))]
fn pairs_ok(most: usize, text: &[u8]) -> bool
    ensures { result ≡ pairs_ok most text.now }
{
    let n = text.len();
    n % 2 == 0 && 2 <= n && n / 2 <= most && all_hex(text)
}

// Whether a text is one to five digits, of which there may be an odd number, unlike in pairs_ok.
#[tactic(auto, using(crate::proofs::Characters::tests, crate::proofs::Characters::every_digit), unfolding(paper::specs::Bench::digits_ok))]
fn digits_ok(text: &[u8]) -> bool
    ensures { result ≡ digits_ok text.now }
{
    let n = text.len();
    1 <= n && n <= 5 && all_digits(text)
}

// What a line says, which may have at most so many pairs.
#[tactic(auto, using(crate::proofs::Characters::tests, crate::proofs::Lines::rest_is, crate::proofs::Lines::begins_short, crate::proofs::Lines::digits_count), unfolding(paper::specs::Bench::line_of, paper::specs::Bench::begins))]
pub fn line_of(most: usize, line: &[u8]) -> Line
    ensures { result ≡ line_of most line.now }
{
    match line {
        [b'T', b' ', pairs @ ..] if pairs_ok(most, pairs) => Line::Transaction(true),
        [b'L', b' ', pairs @ ..] if pairs_ok(most, pairs) => Line::Transaction(false),
        [b'K', b' ', digits @ ..] if digits_ok(digits) => Line::Ticks(number_of(digits)),
        _ => Line::Neither,
    }
}

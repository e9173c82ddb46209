// Tests put together as the definitions put them together. Both tests are values, as in the definitions' `and` and `or`, and
// a decision is straight-line code: `&&` and `||` branch, and each branch is a case to prove.
#![tactic(auto)]

ghost use Rattle.std.specs.Prelude.{◌≡◌, min};
ghost use Rattle.words.specs.Logic.{◌and◌, ◌or◌, bit, unless, ◌or_else◌};

// Both of two tests. Both are evaluated.
pub fn both(a: bool, b: bool) -> bool
    ensures { result ≡ (a and b) }
{
    a && b
}

// One of two tests. Both are evaluated.
pub fn either(a: bool, b: bool) -> bool
    ensures { result ≡ (a or b) }
{
    a || b
}

// 1 for yes, 0 for no, as `bit` has it.
pub fn bit_of(test: bool) -> u8
    ensures { result ≡ bit test }
{
    if test { 1 } else { 0 }
}

// The number where the test fails, else the rest: the number of the tests after it, 0 for none. It takes any byte, where
// `refusals::ensure` takes one of the specification's refusals.
pub fn number_or(ok: bool, number: u8, rest: u8) -> u8
    ensures { result ≡ (unless ok number or_else rest) }
{
    if ok {
        return rest;
    }
    if number == 0 { rest } else { number }
}

// The lesser of two numbers, as the library's `min` gives it.
pub fn lesser(a: usize, b: usize) -> usize
    ensures { result ≡ min a b }
{
    if a < b { a } else { b }
}

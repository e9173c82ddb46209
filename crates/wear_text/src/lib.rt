// The text of wear records: a line for each sector, then the largest and the total of each count.
#![tactic(auto)]

ghost use Rattle.std.specs.Prelude.{◌≡◌};
ghost use Rattle.paper.specs.Refusals.{number_of};
ghost use Rattle.paper.specs.Numbers.{wear_text_number};
ghost use Rattle.paper.specs.WearText.{wear_text, wear_written};
ghost use Rattle.printing.specs.Printed.{Prints};
ghost use Rattle.wear_text.specs.Page.{with, written_of};

use refusals::ensure;
use types::{Refusal, Wear};

// What the call answers: the number, 0 for none, as wear_written gives it, and how many bytes of text there are.
#[derive(Clone, Copy)]
pub struct Written {
    pub number: u8,
    pub bytes: usize,
}

// What is told of one of the two counts of the records so far: the largest, and the total.
#[derive(Clone, Copy)]
struct Sum {
    largest: u32,
    total: u64,
}

impl Sum {
    // Before the first record.
    const NONE: Sum = Sum {
        largest: 0,
        total: 0,
    };

    // The sum with the count of one record more.
    #[tactic(auto, using(std::proofs::lemmas::Bool::Decides::nat_tests), unfolding(crate::specs::Page::with, paper::specs::WearText::larger))]
    fn with(self, count: u32) -> Sum
        ensures { result ≡ with self count }
    {
        let largest = self.largest.max(count);
        Sum {
            largest,
            total: self.total.wrapping_add(count as u64),
        }
    }
}

// The text of all records: the line of each, and the last two. It answers how many bytes of it there are.
fn tell(wear: &[Wear], text: &mut [u8]) -> usize
    ensures { Prints text.old 0 (wear_text wear.now) text.new result }
{
    let mut at = 0;
    let mut erases = Sum::NONE;
    let mut programs = Sum::NONE;
    for (sector, w) in wear.iter().enumerate() {
        at = printing::put_wear(text, at, sector, w.erases, w.programs);
        erases = erases.with(w.erases);
        programs = programs.with(w.programs);
    }
    printing::put_sums(
        text,
        at,
        erases.largest,
        programs.largest,
        erases.total,
        programs.total,
    )
}

// 1 where the size is none; 35 where there isn't one record for each sector; 4 where the buffer hasn't the length that is asked.
fn check_text(blocks: u64, records: usize, room: usize) -> Result<(), Refusal>
    ensures { number_of result ≡ wear_text_number blocks records room }
{
    ensure(sizes::size_ok(blocks), Refusal::Size)?;
    let n = blocks as usize;
    ensure(records == n * 16, Refusal::Wear)?;
    ensure(room == n * 512 + 64, Refusal::Output)
}

// The text of the wear records of a part of so many blocks, into a buffer. Refused, with 1, 35 or 4, the buffer is as it was.
#[tactic(auto, using(std::proofs::lemmas::Bool::Decides::nat_tests), unfolding(paper::specs::WearText::wear_written))]
pub fn write(blocks: u64, wear: &[Wear], text: &mut [u8]) -> Written
    ensures answer { result ≡ written_of (wear_written blocks wear.now text.old) }
    ensures text { text.new ≡ (wear_written blocks wear.now text.old).text }
{
    if let Err(refusal) = check_text(blocks, wear.len(), text.len()) {
        let number = refusals::number(refusal);
        return Written { number, bytes: 0 };
    }
    let bytes = tell(wear, text);
    Written { number: 0, bytes }
}

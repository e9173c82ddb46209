// Wear records that the caller lends, one for each sector: what ticks count, the thin functions that change one field of one
// record, and what a tally makes of the records.
#![tactic(auto)]

ghost use Rattle.std.specs.Prelude.{◌≡◌, true, cond, suc, ◌+◌, ◌-◌, ◌/◌, ◌≤◌, ◌<◌, length};
ghost use Rattle.types.specs.declared.Memory.TheVariants.{Array};
ghost use Rattle.paper.specs.Sizes.{same_memory, from_on, sector_pages};
ghost use Rattle.paper.specs.Wear.{one_more, tally_by, no_tally, tally_of, worn};
ghost use Rattle.wear_records.specs.Thin.{program_at, erased_from, clipped};

use types::{Memory, Operation, Reached, SECTOR_BYTES, SECTOR_PAGES, Tally, Wear};

// An erase takes a tick for each page of a sector.
const SECTOR_TICKS: usize = SECTOR_PAGES;

// Whether a memory is the array: the rows have no records.
fn in_array(memory: Memory) -> bool
    ensures { result ≡ same_memory Array memory }
{
    memory == Memory::Array
}

// The sectors that an erase finishes in so many ticks, after those done.
fn finished(done: usize, ticks: usize) -> usize
    ensures { result ≡ (done + ticks) / sector_pages - done / sector_pages }
{
    ticks / SECTOR_TICKS + (done % SECTOR_TICKS + ticks % SECTOR_TICKS) / SECTOR_TICKS
}

// The sectors that an erase of a memory finishes.
fn erased_in(memory: Memory, done: usize, ticks: usize) -> usize
    ensures { result ≡ cond (same_memory Array memory) ((done + ticks) / sector_pages - done / sector_pages) 0 }
{
    if in_array(memory) {
        finished(done, ticks)
    } else {
        0
    }
}

// Whether the last tick of a program of so many bytes is among so many ticks, after those done. A difference, since a sum could
// overflow.
fn ends(done: usize, ticks: usize, count: usize) -> bool
    ensures { result ≡ from_on (suc done) ticks count }
{
    done < count && count - done <= ticks
}

// The tally of ticks that count nothing: zeros, as the paper's no_tally.
pub fn nothing() -> Tally
    ensures { result ≡ no_tally }
{
    Tally {
        first: 0,
        erases: 0,
        programmed: false,
        at: 0,
    }
}

// What so many ticks of an operation count, which differs with the operation.
fn tally_by(operation: Operation, ticks: usize) -> Tally
    ensures { result ≡ tally_by operation ticks }
{
    match operation {
        Operation::Program {
            memory,
            start,
            base,
            count,
            done,
        } => Tally {
            programmed: in_array(memory) && ends(done, ticks, count),
            at: base / SECTOR_BYTES,
            ..nothing()
        },
        Operation::Erase { unit, base, done } => Tally {
            first: base / SECTOR_BYTES + done / SECTOR_TICKS,
            erases: erased_in(pages::unit_memory(unit), done, ticks),
            ..nothing()
        },
        Operation::Write { register, value } => nothing(),
    }
}

// What ticks that reached this count.
pub fn tally(reached: Reached) -> Tally
    ensures { result ≡ tally_of reached }
{
    let work = reached.work;
    match work {
        None => nothing(),
        Some(operation) => tally_by(operation, reached.count),
    }
}

// One erase more for a sector: one field of its record changes. A full count stays.
fn add_erase(sector: &mut Wear)
    ensures erases { sector.new.erases ≡ one_more sector.old.erases }
    ensures programs { sector.new.programs ≡ sector.old.programs }
{
    sector.erases = sector.erases.saturating_add(1);
}

// One program more for a sector: one field of one record changes. A full count stays.
fn add_program(wear: &mut [Wear], sector: usize)
    requires { sector < length wear.old }
    ensures { wear.new ≡ program_at sector wear.old }
{
    wear[sector].programs = wear[sector].programs.saturating_add(1);
}

// One erase more for each of so many sectors.
fn erase_each(wear: &mut [Wear], first: usize, count: usize)
    requires { first + count ≤ length wear.old }
    ensures { wear.new ≡ erased_from first count wear.old }
{
    for sector in &mut wear[first..first + count] {
        add_erase(sector);
    }
}

// A tally of the first n sectors alone.
fn within(tally: Tally, n: usize) -> Tally
    ensures { result ≡ clipped tally n }
{
    let first = tally.first.min(n);
    Tally {
        first,
        erases: tally.erases.min(n - first),
        programmed: tally.programmed && tally.at < n,
        at: tally.at,
    }
}

// The records with a tally: one erase more for each sector that it counts, and one program more for its sector, where it
// counts one. A sector that has no record is left out.
pub fn keep(wear: &mut [Wear], tally: Tally)
    ensures { wear.new ≡ worn tally wear.old }
{
    let t = within(tally, wear.len());
    erase_each(wear, t.first, t.erases);
    if t.programmed {
        add_program(wear, t.at);
    }
}

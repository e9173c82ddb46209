// Ticks. A call works out how many of its ticks find something to do, does those in one run over the
// memory that the operation is of, and tells once what becomes of the record.
#![tactic(auto)]

ghost use Rattle.std.specs.Prelude.{◌≡◌, cond, ◌+◌, ◌*◌, ◌^◌, ◌≤◌, ◌<◌, length, Some};
ghost use Rattle.types.specs.declared.Memory.TheVariants.{Array, Rows};
ghost use Rattle.paper.specs.Registers.{register_written, stored_after};
ghost use Rattle.words.specs.Logic.{◌or_else◌};
ghost use Rattle.paper.specs.Refusals.{number_of};
ghost use Rattle.paper.specs.Numbers.{rows_number};
ghost use Rattle.paper.specs.Phases.{running};
ghost use Rattle.paper.specs.Operations.{ticks_done, ticks_left, advanced_by};
ghost use Rattle.paper.specs.Ticks.{finished_part};
ghost use Rattle.paper.specs.Calls.{ticked, ticked_memory};
ghost use Rattle.record_bytes.specs.Read.{record_in};
ghost use Rattle.ticks.specs.OneMemory.{pages_erased, bytes_narrowed, program_within, erase_within, ran_within};
ghost use Rattle.ticks.specs.Waited.{ticks_reached, memory_reached, change_after, tick_change, waited_of, waited_memory};
ghost use Rattle.ticks.specs.InBytes.{held_worked, tick_bytes, tick_memory};

use record_bytes::places;
use types::{
    Change, Data, Memory, Operation, Part, Phase, Reached, Record, Refusal, Register, Stored,
    Ticked, Waited, Worked,
};

// So many pages from a place on set to FFh, lowest first. Page by page, since `pages::erase_page` is what a tick of an erase does.
fn erase_pages(memory: &mut [u8], from: usize, count: usize)
    requires { from + count * 256 ≤ length memory.old }
    ensures { memory.new ≡ pages_erased count from memory.old }
{
    for i in 0..count {
        pages::erase_page(memory, from + i * types::PAGE_BYTES);
    }
}

// So many kept bytes, from byte done on, written in order of arrival to their places in a page. By an index, since page_place
// gives the place of each, which goes round at the end of the page.
fn narrow_page(page: &mut [u8], start: u8, done: usize, kept: &[u8], count: usize)
    requires { (done + count ≤ length kept.now) × (length page.old ≡ 256) }
    ensures { page.new ≡ bytes_narrowed count 0 start done kept.now page.old }
{
    for i in 0..count {
        let k = done + i;
        let place = usize::from(pages::page_place(start, k));
        page[place] &= kept[k];
    }
}

// Whether so many ticks of a program lie within kept bytes of page data, and its page within a memory of all bytes. The lengths are
// judged before anything is lent, so a memory is as long as a page by a clause, and not by its type.
fn program_within(base: usize, done: usize, count: usize, kept: usize, all: usize) -> bool
    requires { (done + count < 2 ^ 64) × (256 ≤ all) }
    ensures { result ≡ program_within base done count kept all }
{
    words::both(done + count <= kept, base <= all - types::PAGE_BYTES)
}

// Whether so many ticks of an erase lie within a memory of all bytes.
fn erase_within(base: usize, done: usize, count: usize, all: usize) -> bool
    requires { done + count < 2 ^ 64 }
    ensures { result ≡ erase_within base done count all }
{
    if all < base {
        return false;
    }
    done + count <= (all - base) / types::PAGE_BYTES
}

// So many ticks of a program of a memory, if they lie within it and the page data. A memory with a base, here and below: only the
// test says whether the page can be lent.
fn program(memory: &mut [u8], base: usize, start: u8, done: usize, kept: &[u8], count: usize)
    requires { (done + count < 2 ^ 64) × (256 ≤ length memory.old) }
    ensures { memory.new ≡ cond (program_within base done count (length kept.now) (length memory.old)) (bytes_narrowed count base start done kept.now memory.old) memory.old }
{
    let within = program_within(base, done, count, kept.len(), memory.len());
    if within {
        let page = &mut memory[base..base + types::PAGE_BYTES];
        narrow_page(page, start, done, kept, count);
    }
}

// So many ticks of an erase of a memory, if they lie within it.
fn erase(memory: &mut [u8], base: usize, done: usize, count: usize)
    requires { done + count < 2 ^ 64 }
    ensures { memory.new ≡ cond (erase_within base done count (length memory.old)) (pages_erased count (base + done * 256) memory.old) memory.old }
{
    let within = erase_within(base, done, count, memory.len());
    if within {
        erase_pages(memory, base + done * types::PAGE_BYTES, count);
    }
}

// So many ticks of an operation, on the memory that it is of, if they lie within it. Each arm lends its memory: to choose one of
// the two borrows would take a function more, with a contract on what both become.
fn touch(op: Operation, count: usize, kept: &[u8], array: &mut [u8], rows: &mut [u8])
    requires { (ticks_done op + count < 2 ^ 64) × (256 ≤ length array.old) × (256 ≤ length rows.old) }
    ensures { (array.new ≡ ran_within Array count op kept.now (length array.old) (length rows.old) array.old) × (rows.new ≡ ran_within Rows count op kept.now (length array.old) (length rows.old) rows.old) }
{
    match op {
        Operation::Program {
            memory,
            base,
            start,
            done,
            ..
        } => match memory {
            Memory::Array => program(array, base, start, done, kept, count),
            Memory::Rows => program(rows, base, start, done, kept, count),
        },
        Operation::Erase { unit, base, done } => {
            let memory = pages::unit_memory(unit);
            match memory {
                Memory::Array => erase(array, base, done, count),
                Memory::Rows => erase(rows, base, done, count),
            }
        }
        Operation::Write { .. } => {}
    }
}

fn register_written(register: Register, value: u8, stored: Stored) -> Stored
    ensures { result ≡ register_written register value stored }
{
    match register {
        Register::Status => Stored {
            status: value,
            ..stored
        },
        Register::Function => {
            let tbs = 2 * (stored.function / 2 % 2);
            let function = (stored.function / 16 | value / 16) * 16 + tbs;
            Stored { function, ..stored }
        }
        Register::Extended => Stored {
            extended: value,
            ..stored
        },
    }
}

// The registers after an operation's last tick.
fn stored_after(op: Operation, stored: Stored) -> Stored
    ensures { result ≡ stored_after op stored }
{
    match op {
        Operation::Program { .. } | Operation::Erase { .. } => stored,
        Operation::Write { register, value } => register_written(register, value, stored),
    }
}

// The part after an operation's last tick. Part, phase and operation are three here and below, as the paper's finished_part takes them.
fn finish(part: Part, phase: Phase, op: Operation) -> Part
    ensures { result ≡ finished_part part phase op }
{
    let stored = part.stored;
    record::make(
        part,
        stored_after(op, stored),
        phases::rest_of(phase),
        false,
    )
}

// The operation with so many ticks more done.
fn advance(op: Operation, count: usize) -> Operation
    requires { ticks_done op + count < 2 ^ 64 }
    ensures { result ≡ advanced_by count op }
{
    match op {
        Operation::Program {
            memory,
            base,
            start,
            count: kept,
            done,
        } => Operation::Program {
            memory,
            base,
            start,
            count: kept,
            done: done + count,
        },
        Operation::Erase { unit, base, done } => Operation::Erase {
            unit,
            base,
            done: done + count,
        },
        Operation::Write { .. } => op,
    }
}

// What so many ticks of an operation change, of those that are left.
fn change_after(count: usize, left: usize, op: Operation, part: Part, phase: Phase) -> Change
    requires { (ticks_done op + count < 2 ^ 64) × (left ≡ ticks_left op part.blocks) }
    ensures { result ≡ change_after count op part phase }
{
    if count == left {
        let last = finish(part, phase, op);
        return Change::Runs(last, Data::Zero, None);
    }
    Change::Runs(part, Data::Kept, Some(advance(op, count)))
}

// Ticks of a part on which an operation runs.
fn work(
    op: Operation,
    part: Part,
    phase: Phase,
    page: &[u8],
    array: &mut [u8],
    rows: &mut [u8],
    ticks: usize,
) -> Waited
    requires { (256 ≤ length array.old) × (256 ≤ length rows.old) }
    ensures { (result ≡ record { change = tick_change ticks (Some op) part phase; number = 0; done = ticks_reached ticks (Some op) part.blocks }) × (array.new ≡ memory_reached Array ticks (Some op) part.blocks page.now (length array.old) (length rows.old) array.old) × (rows.new ≡ memory_reached Rows ticks (Some op) part.blocks page.now (length array.old) (length rows.old) rows.old) }
{
    let all = operations::ticks_in_all(op, part.blocks);
    let left = all.saturating_sub(operations::ticks_done(op));
    let count = ticks.min(left);
    touch(op, count, page, array, rows);
    let change = change_after(count, left, op, part, phase);
    Waited {
        change,
        number: 0,
        done: count,
    }
}

// Ticks of a part.
fn run(
    part: Part,
    phase: Phase,
    page: &[u8],
    array: &mut [u8],
    rows: &mut [u8],
    ticks: usize,
) -> Waited
    requires { (256 ≤ length array.old) × (256 ≤ length rows.old) }
    ensures { (result ≡ record { change = tick_change ticks (running phase) part phase; number = 0; done = ticks_reached ticks (running phase) part.blocks }) × (array.new ≡ memory_reached Array ticks (running phase) part.blocks page.now (length array.old) (length rows.old) array.old) × (rows.new ≡ memory_reached Rows ticks (running phase) part.blocks page.now (length array.old) (length rows.old) rows.old) }
{
    let running = phases::running(phase);
    match running {
        None => Waited {
            change: Change::Same,
            number: 0,
            done: 0,
        },
        Some(op) => work(op, part, phase, page, array, rows, ticks),
    }
}

// So many ticks of a part in a phase with page data, of a record that is sound or is not, as the caller says. It answers what
// becomes of the record, the number, and how many ticks did work; refused, with 1, 2, 5 or 6, it writes nothing and the record
// stays the same. Ticks that do not lie within the memory or the page data that is lent write nothing; all ticks
// of a sound record lie within. What is lent goes on as parameters: a struct that held it would need a clause for each field here
// and in `run` and `work`. Whether the record is sound stands beside part and phase, as waited_of takes it.
pub fn tick_part(
    part: Part,
    phase: Phase,
    sound: bool,
    page: &[u8],
    array: &mut [u8],
    rows: &mut [u8],
    ticks: usize,
) -> Waited
    ensures answer { result ≡ waited_of part phase sound (length array.old) (length rows.old) ticks }
    ensures array { array.new ≡ waited_memory Array part phase sound page.now (length array.old) (length rows.old) ticks array.old }
    ensures rows { rows.new ≡ waited_memory Rows part phase sound page.now (length array.old) (length rows.old) ticks rows.old }
{
    if let Err(refusal) = refusals::check_ticks(
        part.blocks,
        sound,
        array.len(),
        rows.len(),
        ticks,
    ) {
        return Waited {
            change: Change::Same,
            number: refusals::number(refusal),
            done: 0,
        };
    }
    run(part, phase, page, array, rows, ticks)
}

// So many ticks. It answers the next record, the number, and how many ticks did work; refused, with 1, 2, 5
// or 6, it writes nothing and gives the record back with 0 ticks.
pub fn tick(state: Record, array: &mut [u8], rows: &mut [u8], ticks: usize) -> Ticked
    ensures answer { result ≡ ticked state (length array.old) (length rows.old) ticks }
    ensures array { array.new ≡ ticked_memory Array state (length array.old) (length rows.old) ticks array.old }
    ensures rows { rows.new ≡ ticked_memory Rows state (length array.old) (length rows.old) ticks rows.old }
{
    let part = state.part;
    let phase = state.phase;
    let page = state.page;
    let sound = soundness::is_sound_of(part, phase, &page);
    let waited = tick_part(part, phase, sound, &page, array, rows, ticks);
    let next = effects::apply(waited.change, &[], state);
    Ticked {
        next,
        number: waited.number,
        done: waited.done,
    }
}

// The refusal of ticks where the bytes hold no record: there is no size to judge.
fn check_unread(rows: usize) -> Result<(), Refusal>
    ensures { number_of result ≡ (rows_number rows or_else 5) }
{
    refusals::check_rows(rows)?;
    Err(Refusal::Record)
}

// So many ticks of the record that bytes hold, which is written over them. It answers the number, and what the ticks reached;
// refused, with 1, 2, 5 or 6, every buffer is as it was. Where the bytes hold no record, 1 is not judged: there is no size.
pub fn tick_bytes(bytes: &mut [u8], array: &mut [u8], rows: &mut [u8], ticks: usize) -> Worked
    ensures answer { result ≡ held_worked (record_in bytes.old) (length array.old) (length rows.old) ticks }
    ensures bytes { bytes.new ≡ tick_bytes (record_in bytes.old) (length array.old) (length rows.old) ticks bytes.old }
    ensures array { array.new ≡ tick_memory Array (record_in bytes.old) (length array.old) (length rows.old) ticks array.old }
    ensures rows { rows.new ≡ tick_memory Rows (record_in bytes.old) (length array.old) (length rows.old) ticks rows.old }
{
    let Some(found) = record_bytes::reading::read(bytes) else {
        let unread = check_unread(rows.len());
        return Worked {
            number: refusals::number_of(unread),
            reached: Reached {
                work: None,
                count: 0,
            },
        };
    };
    let part = found.part;
    let phase = found.phase;
    let work = phases::running(phase);
    let page = &bytes[places::PAGE..places::END];
    let told = tick_part(part, phase, found.sound, page, array, rows, ticks);
    record_bytes::writing::write_change(told.change, &[], bytes);
    Worked {
        number: told.number,
        reached: Reached {
            work,
            count: told.done,
        },
    }
}

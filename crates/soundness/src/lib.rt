// When a record is sound.
#![tactic(auto)]

ghost use Rattle.std.specs.Prelude.{◌≡◌};
ghost use Rattle.types.specs.declared.Phase.TheVariants.{Idle};
ghost use Rattle.words.specs.Logic.{◌and◌};
ghost use Rattle.paper.specs.Soundness.{latch_ok, nest_ok, phase_ok, bits_ok, large_ok, kept_in, part_sound, sound, sound_of};

use types::{Operation, Part, Phase, Record, Stored};

fn latch_ok(phase: Phase, wel: bool) -> bool
    ensures { result ≡ latch_ok phase wel }
{
    match phase {
        Phase::Idle => true,
        Phase::Busy(_) | Phase::Nested(..) => wel,
        Phase::Suspended(op) => words::either(phases::is_erase(op), !wel),
    }
}

// Whether a program may run within a suspended erase.
fn nest_ok(outer: Operation, inner: Operation, blocks: u16) -> bool
    ensures { result ≡ nest_ok outer inner blocks }
{
    let erases = phases::is_erase(outer);
    let halts = operations::can_suspend(outer);
    let programs = phases::is_program(inner);
    let page = operations::can_suspend(inner);
    let apart = operations::outside_of(Some(outer), blocks, inner);
    words::both(
        erases,
        words::both(halts, words::both(programs, words::both(page, apart))),
    )
}

// Whether a part can be in a phase: what it is busy with or suspended from is in order.
fn phase_ok(phase: Phase, blocks: u16, stored: Stored) -> bool
    ensures { result ≡ phase_ok phase blocks stored }
{
    match phase {
        Phase::Idle => true,
        Phase::Busy(op) => operations::operation_ok(op, blocks, stored),
        Phase::Suspended(op) => {
            let halts = operations::can_suspend(op);
            words::both(halts, operations::operation_ok(op, blocks, stored))
        }
        Phase::Nested(inner, outer) => {
            let nests = nest_ok(outer, inner, blocks);
            let beneath = operations::operation_ok(outer, blocks, stored);
            let within = operations::operation_ok(inner, blocks, stored);
            words::both(nests, words::both(beneath, within))
        }
    }
}

fn kept_in(phase: Phase) -> usize
    ensures { result ≡ kept_in phase }
{
    match phase {
        Phase::Idle => 0,
        Phase::Busy(op) | Phase::Suspended(op) | Phase::Nested(op, _) => operations::kept_by(op),
    }
}

// Whether a part's registers can stand in a phase, and on a part of its size.
fn registers_ok(part: Part, phase: Phase) -> bool
    ensures { result ≡ (bits_ok phase part.wel part.stored and large_ok part.blocks part.stored.function part.bank) }
{
    let stored = part.stored;
    let bits = record::bits_ok(phase, part.wel, stored);
    let large = record::large_ok(part.blocks, stored.function, part.bank);
    words::both(bits, large)
}

// Whether an idle part is sound, which is told whether it has no page data: the tests that are not met by being idle. It
// reads no page, unlike `is_sound_of`.
pub fn is_sound_idle(part: Part, empty: bool) -> bool
    ensures { result ≡ (part_sound part Idle and empty) }
{
    let size = sizes::size_ok(part.blocks as u64);
    let registers = registers_ok(part, Phase::Idle);
    words::both(size, words::both(registers, empty))
}

// Whether a part in a phase with page data is sound.
pub fn is_sound_of(part: Part, phase: Phase, page: &[u8]) -> bool
    ensures { result ≡ sound_of part phase page.now }
{
    let stored = part.stored;
    let size = sizes::size_ok(part.blocks as u64);
    let rested = words::either(phases::is_idle(phase), !part.asleep);
    let latch = latch_ok(phase, part.wel);
    let operation = phase_ok(phase, part.blocks, stored);
    let registers = registers_ok(part, phase);
    let part_sound = words::both(
        size,
        words::both(
            rested,
            words::both(latch, words::both(operation, registers)),
        ),
    );
    let zero_after = runs::zero_from(page, kept_in(phase));
    words::both(part_sound, zero_after)
}

// Whether a record is sound.
pub fn is_sound(state: Record) -> bool
    ensures { result ≡ sound state }
{
    let part = state.part;
    let phase = state.phase;
    let page = state.page;
    is_sound_of(part, phase, &page)
}

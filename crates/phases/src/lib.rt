// What a part does: what runs, what is suspended, and the phases that follow.
#![tactic(auto)]

ghost use Rattle.std.specs.Prelude.{◌≡◌};
ghost use Rattle.paper.specs.Phases.{running, halted, is_program, is_erase, erase_halted, is_busy, is_suspended, is_idle, phase_of, running_in, working_on, rest_of, suspended_in, resumed_in};

use types::{Operation, Phase};

// What runs: the operation that ticks go on with.
pub fn running(phase: Phase) -> Option<Operation>
    ensures { result ≡ running phase }
{
    match phase {
        Phase::Busy(op) | Phase::Nested(op, _) => Some(op),
        Phase::Idle | Phase::Suspended(_) => None,
    }
}

// What is suspended, also while a program runs within it.
pub fn halted(phase: Phase) -> Option<Operation>
    ensures { result ≡ halted phase }
{
    match phase {
        Phase::Suspended(op) | Phase::Nested(_, op) => Some(op),
        Phase::Idle | Phase::Busy(_) => None,
    }
}

pub fn is_program(op: Operation) -> bool
    ensures { result ≡ is_program op }
{
    matches!(op, Operation::Program { .. })
}

pub fn is_erase(op: Operation) -> bool
    ensures { result ≡ is_erase op }
{
    matches!(op, Operation::Erase { .. })
}

// Whether an erase is suspended, also while a program runs within it.
pub fn erase_halted(phase: Phase) -> bool
    ensures { result ≡ erase_halted phase }
{
    halted(phase).is_some_and(is_erase)
}

pub fn is_busy(phase: Phase) -> bool
    ensures { result ≡ is_busy phase }
{
    running(phase).is_some()
}

pub fn is_suspended(phase: Phase) -> bool
    ensures { result ≡ is_suspended phase }
{
    matches!(phase, Phase::Suspended(_))
}

pub fn is_idle(phase: Phase) -> bool
    ensures { result ≡ is_idle phase }
{
    matches!(phase, Phase::Idle)
}

// The phase of a part where one thing runs, or nothing, and another is suspended, or nothing.
pub fn phase_of(runs: Option<Operation>, halted: Option<Operation>) -> Phase
    ensures { result ≡ phase_of runs halted }
{
    match (runs, halted) {
        (None, None) => Phase::Idle,
        (Some(op), None) => Phase::Busy(op),
        (None, Some(outer)) => Phase::Suspended(outer),
        (Some(op), Some(outer)) => Phase::Nested(op, outer),
    }
}

// The phase with other work running, or none: what is suspended stays so.
pub fn running_in(phase: Phase, work: Option<Operation>) -> Phase
    ensures { result ≡ running_in phase work }
{
    phase_of(work, halted(phase))
}

// The phase of a part that begins an operation: what is suspended stays so, and it runs within.
pub fn working_on(phase: Phase, op: Operation) -> Phase
    ensures { result ≡ working_on phase op }
{
    running_in(phase, Some(op))
}

// The phase when what runs has ended: within a suspended erase, the part is suspended from it again.
pub fn rest_of(phase: Phase) -> Phase
    ensures { result ≡ rest_of phase }
{
    running_in(phase, None)
}

// The phase when what runs is suspended. What was suspended is gone.
pub fn suspended_in(phase: Phase) -> Phase
    ensures { result ≡ suspended_in phase }
{
    phase_of(None, running(phase))
}

// The phase when what is suspended goes on. What ran is gone.
pub fn resumed_in(phase: Phase) -> Phase
    ensures { result ≡ resumed_in phase }
{
    phase_of(halted(phase), None)
}

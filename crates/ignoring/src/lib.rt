// Why a command is ignored: the numbers 21 to 28, in the paper's order.
#![tactic(auto)]

ghost use Rattle.std.specs.Prelude.{◌≡◌, not};
ghost use Rattle.words.specs.Logic.{◌or◌};
ghost use Rattle.paper.specs.Phases.{erase_halted, is_suspended};
ghost use Rattle.paper.specs.Table.{taken_suspended};
ghost use Rattle.paper.specs.Suspend.{suspendable};
ghost use Rattle.paper.specs.Refusals.{number_of};
ghost use Rattle.paper.specs.Numbers.{state_ok, address_ok, pin_ok, write_ok, free_ok, command_number};

use refusals::ensure;
use types::{
    Addressing, Columns, Named, Operation, Part, Phase, Refusal, Register, Stored, Taken, Wanted,
};

// Something runs that can be suspended, and nothing is suspended already.
fn suspendable(phase: Phase) -> bool
    ensures { result ≡ suspendable phase }
{
    match phase {
        Phase::Idle => false,
        Phase::Busy(op) => operations::can_suspend(op),
        Phase::Suspended(_) => false,
        Phase::Nested(..) => false,
    }
}

// 25: something runs that can be suspended, something can be resumed, the reset is armed.
fn state_ok(wanted: Wanted, part: Part, phase: Phase) -> bool
    ensures { result ≡ state_ok wanted part phase }
{
    match wanted {
        Wanted::Any => true,
        Wanted::Running => suspendable(phase),
        Wanted::Halted => phases::is_suspended(phase),
        Wanted::Armed => part.armed,
    }
}

// 27: a row address is valid.
fn address_ok(named: Named, form: Addressing, input: &[u8]) -> bool
    ensures { result ≡ address_ok named form input.now }
{
    match named {
        Named::Bare => true,
        Named::Place => true,
        Named::Far => true,
        Named::InRow => sent::row_ok(form, input),
    }
}

fn pin_ok(register: Register, stored: Stored, wp: bool) -> bool
    ensures { result ≡ pin_ok register stored wp }
{
    match register {
        Register::Status => !protection::is_barred(stored.status, wp),
        Register::Function => true,
        Register::Extended => true,
    }
}

// A status write is not barred by the pin.
fn write_ok(op: Operation, stored: Stored, wp: bool) -> bool
    ensures { result ≡ write_ok op stored wp }
{
    match op {
        Operation::Program { .. } => true,
        Operation::Erase { .. } => true,
        Operation::Write { register, .. } => pin_ok(register, stored, wp),
    }
}

// 28: what a command begins is not protected or locked, no program into the suspended unit, and not barred.
fn free_ok(work: Option<Operation>, part: Part, phase: Phase, wp: bool) -> bool
    ensures { result ≡ free_ok work part phase wp }
{
    let stored = part.stored;
    match work {
        None => true,
        Some(op) => {
            let free = operations::target_free(op, part.blocks, stored);
            let apart = operations::outside_of(phases::halted(phase), part.blocks, op);
            words::both(free, words::both(apart, write_ok(op, stored, wp)))
        }
    }
}

// 23: the part is not suspended, or the command is taken then. What it is suspended from is looked at only where it is.
fn suspended_ok(taken: Taken, phase: Phase) -> bool
    ensures { result ≡ (taken_suspended taken (erase_halted phase) or not (is_suspended phase)) }
{
    if !phases::is_suspended(phase) {
        return true;
    }
    table::taken_suspended(taken, phases::erase_halted(phase))
}

// Why a known command is ignored, 21 to 28, whose address is sent so and which begins the work. WP# is high where wp is
// true.
pub fn check_command(
    k: Columns,
    form: Addressing,
    work: Option<Operation>,
    part: Part,
    phase: Phase,
    input: &[u8],
    wp: bool,
) -> Result<(), Refusal>
    ensures { number_of result ≡ command_number k form work part phase input.now wp }
{
    let awake = words::either(table::taken_asleep(k.taken), !part.asleep);
    let at_rest = words::either(table::taken_busy(k.taken), !phases::is_busy(phase));
    let latch = words::either(!k.wel, part.wel);
    ensure(awake, Refusal::Asleep)?;
    ensure(at_rest, Refusal::Busy)?;
    ensure(suspended_ok(k.taken, phase), Refusal::Suspended)?;
    ensure(table::length_ok(k.length, input.len()), Refusal::Length)?;
    ensure(state_ok(k.wanted, part, phase), Refusal::OutOfTurn)?;
    ensure(latch, Refusal::NotEnabled)?;
    ensure(address_ok(k.named, form, input), Refusal::NoSuchRow)?;
    ensure(free_ok(work, part, phase, wp), Refusal::Protected)
}

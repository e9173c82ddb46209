// The record: how a part is made, and power-up.
#![tactic(auto)]

ghost use Rattle.std.specs.Prelude.{◌≡◌, ◌+◌, ◌*◌};
ghost use Rattle.words.specs.Logic.{bit};
ghost use Rattle.paper.specs.Program.{no_data};
ghost use Rattle.paper.specs.Phases.{is_erase, is_program};
ghost use Rattle.paper.specs.Records.{status_low, function_low, registers_in, made, settled, fresh_part, fresh};
ghost use Rattle.paper.specs.Soundness.{bits_ok, large_ok};
ghost use Rattle.paper.specs.Refusals.{number_of};
ghost use Rattle.paper.specs.Numbers.{power_up_number};
ghost use Rattle.paper.specs.Calls.{no_stored, zero_record, powered_up};

use refusals::ensure;
use types::{Identity, Operation, Part, Phase, PoweredUp, Record, Refusal, Register, Stored};

// Page data of no program: all zero.
pub fn no_data() -> [u8; 256]
    ensures { result ≡ no_data }
{
    [0u8; 256]
}

// WEL and WIP at bits 1 and 0.
fn status_low(phase: Phase, wel: bool) -> u8
    ensures { result ≡ status_low phase wel }
{
    2 * words::bit_of(wel) + words::bit_of(phases::is_busy(phase))
}

fn suspended_bits(op: Operation) -> u8
    ensures { result ≡ 8 * bit (is_erase op) + 4 * bit (is_program op) }
{
    match op {
        Operation::Program { .. } => 4,
        Operation::Erase { .. } => 8,
        Operation::Write { .. } => 0,
    }
}

// ESUS and PSUS at bits 3 and 2.
fn function_low(phase: Phase) -> u8
    ensures { result ≡ function_low phase }
{
    phases::halted(phase).map_or(0, suspended_bits)
}

// The registers with their stored bits. The bits that phase and latch define go by these, which `made` and `bits_ok` take
// apart too.
fn registers_in(phase: Phase, wel: bool, stored: Stored) -> Stored
    ensures { result ≡ registers_in phase wel stored }
{
    let status = operations::held_byte(Register::Status, stored.status);
    let low_status = status_low(phase, wel);
    let function = operations::held_byte(Register::Function, stored.function);
    let low_function = function_low(phase);
    let extended = operations::held_byte(Register::Extended, stored.extended);
    Stored {
        status: status + low_status,
        function: function + 2 * (stored.function / 2 % 2) + low_function,
        extended: extended,
    }
}

// A part in a phase, with the stored bits of some registers and with a latch. Size, marks, live byte and bank register
// stay.
pub fn make(part: Part, stored: Stored, phase: Phase, wel: bool) -> Part
    ensures { result ≡ made part stored phase wel }
{
    Part {
        stored: registers_in(phase, wel, stored),
        wel: wel,
        ..part
    }
}

// A part in a phase with a latch.
pub fn settle(part: Part, phase: Phase, wel: bool) -> Part
    ensures { result ≡ settled part phase wel }
{
    make(part, part.stored, phase, wel)
}

// An awake, unarmed part with WEL 0, the live byte loaded and the bank register 00h, for an idle phase.
pub fn fresh_part(blocks: u16, stored: Stored) -> Part
    ensures { result ≡ fresh_part blocks stored }
{
    let registers = registers_in(Phase::Idle, false, stored);
    Part {
        blocks,
        stored: registers,
        wel: false,
        armed: false,
        asleep: false,
        live: registers.extended,
        bank: 0,
    }
}

fn make_fresh(blocks: u16, identity: Identity, stored: Stored) -> Record
    ensures { result ≡ fresh blocks identity stored }
{
    Record {
        part: fresh_part(blocks, stored),
        phase: Phase::Idle,
        identity,
        page: no_data(),
    }
}

// The registers of zeros.
pub fn no_stored() -> Stored
    ensures { result ≡ no_stored }
{
    Stored::default()
}

// The record of a refused power-up: an idle 1-block record, all else zero.
pub fn zero_record() -> Record
    ensures { result ≡ zero_record }
{
    make_fresh(1, Identity::default(), no_stored())
}

// Whether what the large part alone has can stand in a part of so many blocks: bits 6..1 of its bank register are zero;
// other parts have neither TBS nor a bank register.
pub fn large_ok(blocks: u16, function: u8, bank: u8) -> bool
    ensures { result ≡ large_ok blocks function bank }
{
    if sizes::is_large(u64::from(blocks)) {
        return bank / 2 % 64 == 0;
    }
    let top = function / 2 % 2 == 0;
    let none = bank == 0;
    words::both(top, none)
}

// Whether WIP, WEL, ESUS and PSUS in the registers are those that phase and latch define, and function bit 0 and bits 4..0 of
// the extended read register's stored byte zero.
pub fn bits_ok(phase: Phase, wel: bool, stored: Stored) -> bool
    ensures { result ≡ bits_ok phase wel stored }
{
    let latches = stored.status % 4 == status_low(phase, wel);
    let tbs = 2 * (stored.function / 2 % 2);
    let marks = stored.function % 16 == function_low(phase) + tbs;
    let extended = stored.extended % 32 == 0;
    words::both(latches, words::both(marks, extended))
}

// Whether a part of so many blocks can be powered up with these registers: 1 or 5 where it cannot.
fn check_given(blocks: u16, stored: Stored) -> Result<(), Refusal>
    ensures { number_of result ≡ power_up_number blocks stored }
{
    let size = sizes::size_ok(u64::from(blocks));
    let bits = bits_ok(Phase::Idle, false, stored);
    let registers = words::both(bits, large_ok(blocks, stored.function, 0));
    ensure(size, Refusal::Size)?;
    ensure(registers, Refusal::Record)
}

// Power-up: an idle, awake, unarmed record with WEL 0 and page data zero; refused, with 1 or 5, an idle
// 1-block record, all else zero.
pub fn power_up(blocks: u16, identity: Identity, stored: Stored) -> PoweredUp
    ensures { result ≡ powered_up blocks identity stored }
{
    if let Err(refusal) = check_given(blocks, stored) {
        return PoweredUp {
            next: zero_record(),
            number: refusals::number(refusal),
        };
    }
    PoweredUp {
        next: make_fresh(blocks, identity, stored),
        number: 0,
    }
}

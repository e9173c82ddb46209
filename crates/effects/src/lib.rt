// What a command that is executed, or barred with 28, makes of the record, and the record after a change.
#![tactic(auto)]

ghost use Rattle.std.specs.Prelude.{◌≡◌};
ghost use Rattle.paper.specs.Records.{marked, resting, with_live, with_bank};
ghost use Rattle.paper.specs.Registers.{bank_turned};
ghost use Rattle.paper.specs.Commands.{page_after, part_after, phase_after, data_after, changed, unarmed, starts, change_by, errors_of, change_barred};

use types::{Addressing, Change, Data, Effect, Operation, Part, Phase, Record, Register};

// The error bits of the extended read register.
const E_ERR: u8 = 8;

const P_ERR: u8 = 4;

const PROT_E: u8 = 2;

fn mark(part: Part, armed: bool) -> Part
    ensures { result ≡ marked part armed }
{
    Part { armed, ..part }
}

fn set_live(part: Part, live: u8) -> Part
    ensures { result ≡ with_live part live }
{
    Part { live, ..part }
}

fn set_bank(part: Part, bank: u8) -> Part
    ensures { result ≡ with_bank part bank }
{
    Part { bank, ..part }
}

// A bank register with EXTADD set or cleared, and the bank bit of a byte.
fn turn_bank(far: bool, bank: u8) -> u8
    ensures { result ≡ bank_turned far bank }
{
    128 * u8::from(far) + bank % 2
}

fn rest(part: Part, asleep: bool) -> Part
    ensures { result ≡ resting part asleep }
{
    Part { asleep, ..part }
}

// The part, unarmed.
fn unarm(part: Part) -> Part
    ensures { result ≡ unarmed part }
{
    mark(part, false)
}

// The part busy with what a command begins.
fn start(work: Option<Operation>, part: Part, phase: Phase, page: Data) -> Change
    ensures { result ≡ starts work part phase page }
{
    match work {
        None => Change::Marked(false),
        Some(op) => {
            let next = unarm(record::settle(part, phases::working_on(phase, op), true));
            Change::Runs(next, page, Some(op))
        }
    }
}

// What an executed command changes, of a part in a phase, where it begins the work, with its address sent so. Only an
// arming one leaves the armed mark set. Each effect has an arm, as in the definition `change_by`.
pub fn change_by(
    effect: Effect,
    form: Addressing,
    work: Option<Operation>,
    part: Part,
    phase: Phase,
    input: &[u8],
) -> Change
    ensures { result ≡ change_by effect form work part phase input.now }
{
    match effect {
        Effect::Looks => Change::Marked(false),
        Effect::Enables => Change::Anew(unarm(record::settle(part, phase, true))),
        Effect::Disables => Change::Anew(unarm(record::settle(part, phase, false))),
        Effect::Programs(_) => start(work, part, phase, Data::Sent(form)),
        Effect::Erases(_) | Effect::Writes(_) => start(work, part, phase, Data::Kept),
        Effect::Suspends => {
            let next = phases::suspended_in(phase);
            Change::Halts(unarm(record::settle(part, next, false)))
        }
        Effect::Resumes => {
            let next = phases::resumed_in(phase);
            Change::GoesOn(unarm(record::settle(part, next, true)))
        }
        Effect::Sleeps => Change::Anew(unarm(rest(part, true))),
        Effect::Wakes => Change::Anew(unarm(rest(part, false))),
        Effect::Arms => Change::Marked(true),
        Effect::Resets => Change::Clears(record::fresh_part(part.blocks, part.stored)),
        Effect::SetsLive => {
            let set = operations::held_byte(Register::Extended, sent::byte_at(input, 1));
            Change::Live(set + part.live % 32)
        }
        Effect::ClearsErrors => Change::Live(operations::held_byte(Register::Extended, part.live)),
        Effect::SetsBank => {
            let byte = sent::byte_at(input, 1);
            let bank = turn_bank(byte / 128 % 2 == 1, byte);
            Change::Anew(unarm(set_bank(part, bank)))
        }
        Effect::SetsFar(far) => Change::Anew(unarm(set_bank(part, turn_bank(far, part.bank)))),
    }
}

// The error bits that a command sets when it answers 28.
fn errors_of(effect: Effect) -> u8
    ensures { result ≡ errors_of effect }
{
    match effect {
        Effect::Programs(_) => P_ERR + PROT_E,
        Effect::Erases(_) => E_ERR + PROT_E,
        Effect::Looks
        | Effect::Enables
        | Effect::Disables
        | Effect::Writes(_)
        | Effect::Suspends
        | Effect::Resumes
        | Effect::Sleeps
        | Effect::Wakes
        | Effect::Arms
        | Effect::Resets
        | Effect::SetsLive
        | Effect::ClearsErrors
        | Effect::SetsBank
        | Effect::SetsFar(_) => 0,
    }
}

// What a command changes that answers 28.
pub fn change_barred(effect: Effect, part: Part) -> Change
    ensures { result ≡ change_barred effect part }
{
    Change::Live(part.live | errors_of(effect))
}

// Page data after a call with an input.
fn page_after(becomes: Data, input: &[u8], page: [u8; 256]) -> [u8; 256]
    ensures { result ≡ page_after becomes input.now page }
{
    match becomes {
        Data::Kept => page,
        Data::Sent(form) => sent::page_data(form, input),
        Data::Zero => record::no_data(),
    }
}

// What a change makes of a part.
fn part_after(change: Change, part: Part) -> Part
    ensures { result ≡ part_after change part }
{
    match change {
        Change::Same => part,
        Change::Marked(armed) => mark(part, armed),
        Change::Live(live) => set_live(mark(part, false), live),
        Change::Anew(next)
        | Change::Runs(next, _, _)
        | Change::Halts(next)
        | Change::GoesOn(next)
        | Change::Clears(next) => next,
    }
}

// What it makes of the phase.
fn phase_after(change: Change, phase: Phase) -> Phase
    ensures { result ≡ phase_after change phase }
{
    match change {
        Change::Same | Change::Marked(_) | Change::Live(_) | Change::Anew(_) => phase,
        Change::Runs(_, _, work) => phases::running_in(phase, work),
        Change::Halts(_) => phases::suspended_in(phase),
        Change::GoesOn(_) => phases::resumed_in(phase),
        Change::Clears(_) => Phase::Idle,
    }
}

// What becomes of page data by it.
fn data_after(change: Change) -> Data
    ensures { result ≡ data_after change }
{
    match change {
        Change::Runs(_, becomes, _) => becomes,
        Change::Clears(_) => Data::Zero,
        Change::Same
        | Change::Marked(_)
        | Change::Live(_)
        | Change::Anew(_)
        | Change::Halts(_)
        | Change::GoesOn(_) => Data::Kept,
    }
}

// The record after a change by a call with an input.
pub fn apply(change: Change, input: &[u8], state: Record) -> Record
    ensures { result ≡ changed change input.now state }
{
    Record {
        part: part_after(change, state.part),
        phase: phase_after(change, state.phase),
        page: page_after(data_after(change), input, state.page),
        ..state
    }
}

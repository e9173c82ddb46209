// A transaction: array and rows are lent shared, so that it cannot write them.
#![tactic(auto)]

ghost use Rattle.std.specs.Prelude.{◌≡◌, true, false, [], ◌∷◌, ◌<◌, length, take, drop, Some};
ghost use Rattle.types.specs.declared.Change.TheVariants.{Marked};
ghost use Rattle.paper.specs.Sizes.{size_ok, array_bytes, rows_bytes};
ghost use Rattle.paper.specs.Address.{row_base, row_byte};
ghost use Rattle.paper.specs.Registers.{extended_read};
ghost use Rattle.paper.specs.Table.{addressing_on};
ghost use Rattle.paper.specs.Refusals.{number};
ghost use Rattle.paper.specs.Reads.{undriven, output_of};
ghost use Rattle.paper.specs.Commands.{change_barred};
ghost use Rattle.paper.specs.Calls.{outcome_to, outcome_of, transacted, output_to, output_after, transacted_output};
ghost use Rattle.transact.specs.Shown.{shown, HasBytes};

use types::{
    Addressing, Answer, Change, Columns, Command, Effect, Identity, Outcome, Part, Phase, Record,
    Refusal, Source,
};

// A source of some bytes, read round and round from a place on, into an output from its place from on.
// The places before hold FFh.
fn drive_from(source: &[u8], at: usize, output: &mut [u8], from: usize)
    requires { 0 < length source.now }
    ensures { output.new ≡ shown source.now at from (length output.old) }
{
    let first = from.min(output.len());
    runs::blank(&mut output[0..first]);
    runs::drive(source, at, output, from);
}

// One byte, repeated into an output from its place from on. The places before hold FFh. It is set all at once, where a source
// of one byte would be copied byte after byte.
fn repeat_from(byte: u8, output: &mut [u8], from: usize)
    ensures { output.new ≡ shown (byte ∷ []) 0 from (length output.old) }
{
    let end = output.len();
    let first = from.min(end);
    runs::blank(&mut output[0..first]);
    runs::fill(&mut output[first..end], byte);
}

// The extended read register as it is read: bits 7..5 and the error bits of the live byte, bit 4 1, and bit 0 WIP.
fn extended_read(part: Part) -> u8
    ensures { result ≡ extended_read part.live part.stored.status }
{
    let live = part.live;
    live / 32 * 32 + 16 + live / 2 % 8 * 2 + part.stored.status % 2
}

// The row that was named, from the byte that was named on.
fn drive_row(form: Addressing, rows: &[u8], input: &[u8], output: &mut [u8], from: usize)
    requires { row_base form input.now < length rows.now }
    ensures { output.new ≡ shown (take 256 (drop (row_base form input.now) rows.now)) (row_byte form input.now) from (length output.old) }
{
    let base = sent::row_base(form, input);
    let end = (base + types::PAGE_BYTES).min(rows.len());
    let at = sent::row_byte(form, input);
    drive_from(&rows[base..end], at, output, from);
}

// What a command drives, at every place of the output, with its address sent so. Each source has an arm, as in the
// definition `output_of`.
fn show(
    k: Columns,
    form: Addressing,
    identity: Identity,
    part: Part,
    array: &[u8],
    rows: &[u8],
    input: &[u8],
    output: &mut [u8],
)
    requires { HasBytes k identity part array.now rows.now input.now × (length output.old ≡ length input.now) × (form ≡ addressing_on k part) }
    ensures { output.new ≡ output_of k identity part array.now rows.now input.now }
{
    let source = k.source;
    let from = k.from;
    match source {
        Source::Void => runs::blank(output),
        Source::ArrayBytes => {
            let at = sent::address_in(form, part.blocks, input);
            drive_from(array, at, output, from);
        }
        Source::RowBytes => drive_row(form, rows, input, output, from),
        Source::StatusByte => repeat_from(part.stored.status, output, from),
        Source::FunctionByte => repeat_from(part.stored.function, output, from),
        Source::IdentityBytes => {
            let bytes = [identity.maker, identity.kind, identity.capacity];
            drive_from(&bytes, 0, output, from);
        }
        Source::MakerPair => {
            let bytes = [identity.maker, identity.device];
            let at = (sent::byte_at(input, 3) % 2) as usize;
            drive_from(&bytes, at, output, from);
        }
        Source::DeviceByte => repeat_from(identity.device, output, from),
        Source::ExtendedByte => repeat_from(extended_read(part), output, from),
        Source::BankByte => repeat_from(part.bank, output, from),
    }
}

// The part ignores a transaction of n bytes: nothing is driven, and all that changes is the armed mark.
fn ignore(refusal: Refusal, n: usize, output: &mut [u8]) -> Outcome
    ensures { (result ≡ record { change = Marked false; number = number refusal; first = n }) × (output.new ≡ undriven (length output.old)) }
{
    runs::blank(output);
    Outcome {
        change: Change::Marked(false),
        number: refusals::number(refusal),
        first: n,
    }
}

// It ignores one that sets the error bits of the command, if it has any: the change is another than that of `ignore`.
fn bar(effect: Effect, refusal: Refusal, part: Part, n: usize, output: &mut [u8]) -> Outcome
    ensures { (result ≡ record { change = change_barred effect part; number = number refusal; first = n }) × (output.new ≡ undriven (length output.old)) }
{
    runs::blank(output);
    let change = effects::change_barred(effect, part);
    Outcome {
        change: change,
        number: refusals::number(refusal),
        first: n,
    }
}

// A known command: executed, or ignored with its number.
fn answer_to(
    command: Command,
    identity: Identity,
    part: Part,
    phase: Phase,
    array: &[u8],
    rows: &[u8],
    wp: bool,
    input: &[u8],
    output: &mut [u8],
) -> Outcome
    requires { (size_ok part.blocks ≡ true) × (length array.now ≡ array_bytes part.blocks) × (length rows.now ≡ rows_bytes) × (length output.old ≡ length input.now) }
    ensures { (result ≡ outcome_to (Some command) part phase wp input.now) × (output.new ≡ output_to (Some command) identity part phase array.now rows.now wp input.now) }
{
    let k = table::columns_of(command);
    let n = input.len();
    let effect = k.effect;
    let form = table::addressing(k.named, part.bank);
    let work = sent::begins(effect, form, part.blocks, input);
    match ignoring::check_command(k, form, work, part, phase, input, wp) {
        Err(Refusal::Protected) => bar(effect, Refusal::Protected, part, n, output),
        Err(refusal) => ignore(refusal, n, output),
        Ok(()) => {
            show(k, form, identity, part, array, rows, input, output);
            let change = effects::change_by(effect, form, work, part, phase, input);
            let first = table::first_driven(k, n);
            Outcome {
                change: change,
                number: 0,
                first: first,
            }
        }
    }
}

// A transaction on a part with an identity in a phase, of a record that is sound or is not, as the caller says: fields and
// judgement are apart, as `outcome_of` takes them, since C keeps the record in bytes and has it judged there. WP# is
// high where wp is true. It answers what becomes of the record, the number and the first driven place, and fills the
// output; refused, with 1 to 5, it writes nothing and the record stays the same.
pub fn transact_part(
    identity: Identity,
    part: Part,
    phase: Phase,
    sound: bool,
    array: &[u8],
    rows: &[u8],
    wp: bool,
    input: &[u8],
    output: &mut [u8],
) -> Outcome
    ensures answer { result ≡ outcome_of part phase sound (length array.now) (length rows.now) wp input.now (length output.old) }
    ensures output { output.new ≡ output_after identity part phase sound array.now rows.now wp input.now output.old }
{
    let n = input.len();
    let checked = refusals::check_transaction(
        part.blocks,
        sound,
        array.len(),
        rows.len(),
        n,
        output.len(),
    );
    if let Err(refusal) = checked {
        return Outcome {
            change: Change::Same,
            number: refusals::number(refusal),
            first: 0,
        };
    }
    let decoded = decode::decode(part.blocks, part.bank, sent::byte_at(input, 0));
    let Some(command) = decoded else {
        return ignore(Refusal::Unknown, n, output);
    };
    answer_to(
        command, identity, part, phase, array, rows, wp, input, output,
    )
}

// A transaction. WP# is high where wp is true. It answers the next record, the number and the first driven
// place, and fills the output; refused, with 1 to 5, it writes nothing and gives the record back.
pub fn transact(
    state: Record,
    array: &[u8],
    rows: &[u8],
    wp: bool,
    input: &[u8],
    output: &mut [u8],
) -> Answer
    ensures answer { result ≡ transacted state (length array.now) (length rows.now) wp input.now (length output.old) }
    ensures output { output.new ≡ transacted_output state array.now rows.now wp input.now output.old }
{
    let identity = state.identity;
    let part = state.part;
    let phase = state.phase;
    let sound = soundness::is_sound(state);
    let outcome = transact_part(identity, part, phase, sound, array, rows, wp, input, output);
    let change = outcome.change;
    let next = effects::apply(change, input, state);
    Answer {
        next: next,
        number: outcome.number,
        first: outcome.first,
    }
}

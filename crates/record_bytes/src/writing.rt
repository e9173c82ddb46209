// What power-up gives, and what a call makes of a record, written as bytes.
ghost use Rattle.std.specs.Prelude.{◌≡◌, ◌++◌, length, drop};
ghost use Rattle.types.specs.declared.Phase.TheVariants.{Idle};
ghost use Rattle.types.specs.declared.Change.TheVariants.{Runs};
ghost use Rattle.paper.specs.Sizes.{page_bytes};
ghost use Rattle.paper.specs.Program.{no_data};
ghost use Rattle.paper.specs.Commands.{page_after};
ghost use Rattle.paper.proofs.Soundness.{record_of};
ghost use Rattle.address.specs.Bytes.{high_first_bytes};
ghost use Rattle.cells.specs.Operations.{cells_of, work_cells};
ghost use Rattle.record_bytes.specs.Layout.{part_length, operation_length, header_length, record_length, part_bytes, operation_bytes, header_running, written, works_laid, bytes_halted, bytes_resumed, bytes_cleared, change_written};

use crate::places;
use types::{Change, Data, Identity, Operation, Part};

// What a part is, in bytes.
fn part_bytes(part: Part) -> [u8; places::RUNNING]
    ensures { result ≡ part_bytes part }
{
    let [high, low] = part.blocks.to_be_bytes();
    let stored = part.stored;
    let wel = words::bit_of(part.wel);
    let armed = words::bit_of(part.armed);
    let asleep = words::bit_of(part.asleep);
    [
        high,
        low,
        stored.status,
        stored.function,
        stored.extended,
        wel,
        armed,
        asleep,
        part.live,
        part.bank,
    ]
}

// What a part is, written over the first of a record's bytes.
fn write_part(part: Part, bytes: &mut [u8; places::END])
    ensures { bytes.new ≡ part_bytes part ++ drop part_length bytes.old }
{
    let front = part_bytes(part);
    bytes[..places::RUNNING].copy_from_slice(&front);
}

// The bytes of an operation's cells.
fn operation_bytes(op: Operation) -> [u8; places::OPERATION_BYTES]
    ensures { result ≡ operation_bytes (cells_of op) }
{
    let cells = cells::cells_of(op);
    let mut bytes = [0; places::OPERATION_BYTES];
    bytes[places::OPERATION] = cells.kind;
    bytes[places::VALUE] = cells.value;
    bytes[places::BASE..places::COUNT].copy_from_slice(&address::high_first_bytes(cells.base));
    bytes[places::COUNT..places::DONE].copy_from_slice(&address::high_first_bytes(cells.count));
    bytes[places::DONE..].copy_from_slice(&address::high_first_bytes(cells.done));
    bytes
}

// Those of what runs or is suspended: zeros where that is nothing.
fn work_bytes(work: Option<Operation>) -> [u8; places::OPERATION_BYTES]
    ensures { result ≡ operation_bytes (work_cells work) }
{
    match work {
        None => [0; places::OPERATION_BYTES],
        Some(op) => operation_bytes(op),
    }
}

// The header of a part with other work running: what is suspended stays.
fn write_running(part: Part, work: Option<Operation>, bytes: &mut [u8; places::END])
    ensures { bytes.new ≡ header_running part work bytes.old ++ drop header_length bytes.old }
{
    bytes[places::RUNNING..places::HALTED].copy_from_slice(&work_bytes(work));
    write_part(part, bytes);
}

// A part written over a record's first bytes, with the bytes of what runs and of what is suspended.
fn write_works(
    part: Part,
    running: [u8; places::OPERATION_BYTES],
    halted: [u8; places::OPERATION_BYTES],
    bytes: &mut [u8; places::END],
)
    ensures { bytes.new ≡ works_laid part running halted bytes.old }
{
    bytes[places::RUNNING..places::HALTED].copy_from_slice(&running);
    bytes[places::HALTED..places::MAKER].copy_from_slice(&halted);
    write_part(part, bytes);
}

// A part whose running operation is suspended: its bytes are moved.
fn write_halted(part: Part, bytes: &mut [u8; places::END])
    ensures { bytes.new ≡ bytes_halted part bytes.old }
{
    let ran = *bytes[places::RUNNING..places::HALTED].as_array().unwrap();
    let none = [0u8; places::OPERATION_BYTES];
    write_works(part, none, ran, bytes);
}

// A part whose suspended operation goes on: its bytes are moved back.
fn write_resumed(part: Part, bytes: &mut [u8; places::END])
    ensures { bytes.new ≡ bytes_resumed part bytes.old }
{
    let stood = *bytes[places::HALTED..places::MAKER].as_array().unwrap();
    let none = [0u8; places::OPERATION_BYTES];
    write_works(part, stood, none, bytes);
}

// A part that does nothing and has no page data. The identity stays.
fn write_cleared(part: Part, bytes: &mut [u8; places::END])
    ensures { bytes.new ≡ bytes_cleared part bytes.old }
{
    runs::fill(&mut bytes[places::RUNNING..places::MAKER], 0);
    write_part(part, bytes);
    runs::fill(&mut bytes[places::PAGE..places::END], 0);
}

// The record of an idle part with no page data and with an identity, written as its bytes. A buffer of another length is left
// as it is.
pub fn write_idle(part: Part, identity: Identity, bytes: &mut [u8])
    ensures { bytes.new ≡ written (record_of identity part Idle no_data) bytes.old }
{
    let Some(bytes) = bytes.as_mut_array() else {
        return;
    };
    bytes[places::MAKER] = identity.maker;
    bytes[places::KIND] = identity.kind;
    bytes[places::CAPACITY] = identity.capacity;
    bytes[places::DEVICE] = identity.device;
    write_cleared(part, bytes);
}

// Page data after a call with an input, where it stands. A slice: what is written through `as_mut_array` and `unwrap` is not known
// of the bytes that it is a part of.
fn write_page(becomes: Data, input: &[u8], page: &mut [u8])
    requires { length page.old ≡ page_bytes }
    ensures { page.new ≡ page_after becomes input.now page.old }
{
    match becomes {
        Data::Kept => {}
        Data::Sent(form) => {
            sent::write_page_data(form, input, page);
        }
        Data::Zero => runs::fill(page, 0),
    }
}

// A part with other work running, and page data after a call with an input, written over a record's bytes. What is suspended
// stays. A buffer of another length is left as it is.
pub fn write_runs(
    part: Part,
    becomes: Data,
    work: Option<Operation>,
    input: &[u8],
    bytes: &mut [u8],
)
    ensures { bytes.new ≡ change_written (Runs part becomes work) input.now bytes.old }
{
    let Some(bytes) = bytes.as_mut_array() else {
        return;
    };
    write_running(part, work, bytes);
    write_page(becomes, input, &mut bytes[places::PAGE..places::END]);
}

// What a call with an input makes of a record, written over the record's bytes. A buffer of another length is left as it is. Each
// change is written at places of its own.
pub fn write_change(change: Change, input: &[u8], bytes: &mut [u8])
    ensures { bytes.new ≡ change_written change input.now bytes.old }
{
    let Some(bytes) = bytes.as_mut_array() else {
        return;
    };
    match change {
        Change::Same => {}
        Change::Marked(armed) => {
            bytes[places::ARMED] = words::bit_of(armed);
        }
        Change::Live(live) => {
            bytes[places::ARMED] = 0;
            bytes[places::LIVE] = live;
        }
        Change::Anew(part) => write_part(part, bytes),
        Change::Runs(part, becomes, work) => write_runs(part, becomes, work, input, bytes),
        Change::Halts(part) => write_halted(part, bytes),
        Change::GoesOn(part) => write_resumed(part, bytes),
        Change::Clears(part) => write_cleared(part, bytes),
    }
}

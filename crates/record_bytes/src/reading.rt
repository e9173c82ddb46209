// The record that bytes hold.
ghost use Rattle.std.specs.Prelude.{◌≡◌, eqb, get_or, None};
ghost use Rattle.paper.specs.Address.{high_first};
ghost use Rattle.cells.specs.Operations.{work_cells, same_cells};
ghost use Rattle.words.specs.Logic.{◌and◌};
ghost use Rattle.record_bytes.specs.Layout.{operation_at, running_at, halted_at};
ghost use Rattle.record_bytes.specs.Read.{marks_in, cells_in, stored_of, part_in, identity_in, doing_in, record_in, found, part_again, phase_again};

use crate::{Doing, Found, places};
use cells::Cells;
use types::{Identity, Part, Phase, Stored};

// The number that eight bytes are, high byte first. It is one load.
fn number_in(bytes: &[u8; 8]) -> usize
    ensures { result ≡ high_first bytes.now }
{
    usize::from_be_bytes(*bytes)
}

// The cells of an operation in its bytes, whatever stands there.
fn cells_in(bytes: &[u8; places::OPERATION_BYTES]) -> Cells
    ensures { result ≡ cells_in bytes.now }
{
    let base = number_in(bytes[places::BASE..places::COUNT].as_array().unwrap());
    let count = number_in(bytes[places::COUNT..places::DONE].as_array().unwrap());
    let done = number_in(bytes[places::DONE..].as_array().unwrap());
    Cells {
        kind: bytes[places::OPERATION],
        value: bytes[places::VALUE],
        base,
        count,
        done,
    }
}

// Those of what runs.
fn running_in(bytes: &[u8; places::END]) -> Cells
    ensures { result ≡ cells_in (operation_at bytes.now running_at) }
{
    cells_in(bytes[places::RUNNING..places::HALTED].as_array().unwrap())
}

// Those of what is suspended.
fn halted_in(bytes: &[u8; places::END]) -> Cells
    ensures { result ≡ cells_in (operation_at bytes.now halted_at) }
{
    cells_in(bytes[places::HALTED..places::MAKER].as_array().unwrap())
}

// The registers at their places.
fn stored_in(bytes: &[u8; places::END]) -> Stored
    ensures { result ≡ stored_of (λ j. get_or bytes.now j 0) }
{
    Stored {
        status: bytes[places::STATUS],
        function: bytes[places::FUNCTION],
        extended: bytes[places::EXTENDED],
    }
}

// The fields of a part at their places, whatever stands there.
fn part_in(bytes: &[u8; places::END]) -> Part
    ensures { result ≡ part_in bytes.now }
{
    Part {
        blocks: u16::from_be_bytes([bytes[places::BLOCKS], bytes[places::BLOCKS + 1]]),
        stored: stored_in(bytes),
        wel: bytes[places::WEL] == 1,
        armed: bytes[places::ARMED] == 1,
        asleep: bytes[places::ASLEEP] == 1,
        live: bytes[places::LIVE],
        bank: bytes[places::BANK],
    }
}

// The identity at its place. A byte past the end counts as 0.
pub fn identity_in(bytes: &[u8]) -> Identity
    ensures { result ≡ identity_in bytes.now }
{
    Identity {
        maker: sent::byte_at(bytes, places::MAKER),
        kind: sent::byte_at(bytes, places::KIND),
        capacity: sent::byte_at(bytes, places::CAPACITY),
        device: sent::byte_at(bytes, places::DEVICE),
    }
}

// Whether WEL and the marks are 0 or 1.
fn marks_in(bytes: &[u8; places::END]) -> bool
    ensures { result ≡ marks_in bytes.now }
{
    let wel = bytes[places::WEL] <= 1;
    let armed = bytes[places::ARMED] <= 1;
    let asleep = bytes[places::ASLEEP] <= 1;
    words::both(wel, words::both(armed, asleep))
}

// Whether cells are those of no operation: all are 0.
fn is_none(cells: Cells) -> bool
    ensures { result ≡ same_cells (work_cells None) cells }
{
    cells
        == Cells {
            kind: 0,
            value: 0,
            base: 0,
            count: 0,
            done: 0,
        }
}

// Whether nothing runs and nothing is suspended, as the kinds say. A kind is a byte here, and 0 is none: so the layout has it.
fn rests(bytes: &[u8; places::END]) -> bool
    ensures { result ≡ (eqb (get_or bytes.now running_at 0) 0 and eqb (get_or bytes.now halted_at 0) 0) }
{
    words::both(bytes[places::RUNNING] == 0, bytes[places::HALTED] == 0)
}

// What the bytes say that a part does: what runs and what is suspended, each an operation or none, as the kinds say; and
// whether the cells are those of the operations that they are read as.
fn doing_in(bytes: &[u8; places::END]) -> Doing
    ensures { result ≡ doing_in bytes.now }
{
    let running = running_in(bytes);
    let halted = halted_in(bytes);
    let runs = running.kind != 0;
    let stands = halted.kind != 0;
    if words::both(!runs, !stands) {
        return Doing {
            ok: words::both(is_none(running), is_none(halted)),
            phase: Phase::Idle,
        };
    }
    if !stands {
        let op = cells::operation_in(running);
        let kept = cells::is_own(running);
        return Doing {
            ok: words::both(kept, is_none(halted)),
            phase: Phase::Busy(op),
        };
    }
    let outer = cells::operation_in(halted);
    let beneath = cells::is_own(halted);
    if !runs {
        return Doing {
            ok: words::both(is_none(running), beneath),
            phase: Phase::Suspended(outer),
        };
    }
    let op = cells::operation_in(running);
    let kept = cells::is_own(running);
    Doing {
        ok: words::both(kept, beneath),
        phase: Phase::Nested(op, outer),
    }
}

// The part and the phase of the record that bytes hold, and whether it is sound; or none. Identity and page data stay where
// they are. Bytes hold a record where the marks are marks and the cells are those of the operations that they are read as.
// Most calls find the part idle, and are told so by fewer tests.
pub fn read(bytes: &[u8]) -> Option<Found>
    ensures { result ≡ found (record_in bytes.now) }
{
    let bytes: &[u8; places::END] = bytes.as_array()?;
    if !marks_in(bytes) {
        return None;
    }
    if rests(bytes) {
        let running = is_none(running_in(bytes));
        let halted = is_none(halted_in(bytes));
        if !words::both(running, halted) {
            return None;
        }
        let empty = runs::zero_from(&bytes[places::PAGE..places::END], 0);
        let part = part_in(bytes);
        let sound = soundness::is_sound_idle(part, empty);
        return Some(Found {
            sound,
            part,
            phase: Phase::Idle,
        });
    }
    let doing = doing_in(bytes);
    if !doing.ok {
        return None;
    }
    let phase = doing.phase;
    let part = part_in(bytes);
    let sound = soundness::is_sound_of(part, phase, &bytes[places::PAGE..places::END]);
    Some(Found { sound, part, phase })
}

// The part that bytes hold, read again without judging it: of bytes that held a record when they were read, and that only
// changes were written over since. Bytes of another length give that of a refused power-up.
pub fn part_again(bytes: &[u8]) -> Part
    ensures { result ≡ part_again bytes.now }
{
    match bytes.as_array() {
        Some(bytes) => part_in(bytes),
        None => record::fresh_part(1, record::no_stored()),
    }
}

// The phase that they hold, in the same way. An idle part is told by its two kinds alone. Bytes of another length give that of
// an idle part.
pub fn phase_again(bytes: &[u8]) -> Phase
    ensures { result ≡ phase_again bytes.now }
{
    let Some(bytes) = bytes.as_array() else {
        return Phase::Idle;
    };
    if !rests(bytes) {
        return doing_in(bytes).phase;
    }
    Phase::Idle
}

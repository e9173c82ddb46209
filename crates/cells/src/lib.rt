// An operation in plain numbers, its cells, and the operation of cells. One that is made into cells comes back.
#![tactic(auto)]

ghost use Rattle.std.specs.Prelude.{◌≡◌};
ghost use Rattle.cells.specs.Kinds.{kind_byte, ReadsKind};
ghost use Rattle.cells.specs.Operations.{cells_of, operation_in, own};

use types::{EraseUnit, Memory, Operation, Register};

// What an operation does, and with what: a cell has a number for it.
#[derive(Clone, Copy)]
enum Kind {
    Program(Memory),
    Erase(EraseUnit),
    Write(Register),
}

// A number that stands for no kind.
#[derive(Clone, Copy)]
struct NoKind;

impl From<Kind> for u8 {
    ghost from_gives = { λ kind number. number ≡ kind_byte kind };

    fn from(kind: Kind) -> u8 {
        match kind {
            Kind::Program(Memory::Array) => 1,
            Kind::Program(Memory::Rows) => 2,
            Kind::Erase(EraseUnit::Sector) => 3,
            Kind::Erase(EraseUnit::Block32) => 4,
            Kind::Erase(EraseUnit::Block64) => 5,
            Kind::Erase(EraseUnit::Chip) => 6,
            Kind::Erase(EraseUnit::Row) => 7,
            Kind::Write(Register::Status) => 8,
            Kind::Write(Register::Function) => 9,
            Kind::Write(Register::Extended) => 10,
        }
    }
}

impl TryFrom<u8> for Kind {
    type Error = NoKind;

    ghost try_from_gives = { ReadsKind };

    fn try_from(number: u8) -> Result<Kind, NoKind> {
        match number {
            1 => Ok(Kind::Program(Memory::Array)),
            2 => Ok(Kind::Program(Memory::Rows)),
            3 => Ok(Kind::Erase(EraseUnit::Sector)),
            4 => Ok(Kind::Erase(EraseUnit::Block32)),
            5 => Ok(Kind::Erase(EraseUnit::Block64)),
            6 => Ok(Kind::Erase(EraseUnit::Chip)),
            7 => Ok(Kind::Erase(EraseUnit::Row)),
            8 => Ok(Kind::Write(Register::Status)),
            9 => Ok(Kind::Write(Register::Function)),
            10 => Ok(Kind::Write(Register::Extended)),
            _ => Err(NoKind),
        }
    }
}

// The number of the kind of an operation, and its cells, as a record in bytes has them and the definition `cells_of` gives
// them: what an operation does not have is 0.
#[derive(Clone, Copy, PartialEq, Eq)]
pub struct Cells {
    pub kind: u8,
    pub value: u8,
    pub base: usize,
    pub count: usize,
    pub done: usize,
}

// The cells of an operation.
pub fn cells_of(op: Operation) -> Cells
    ensures { result ≡ cells_of op }
{
    match op {
        Operation::Program {
            memory,
            base,
            start,
            count,
            done,
        } => Cells {
            kind: Kind::Program(memory).into(),
            value: start,
            base,
            count,
            done,
        },
        Operation::Erase { unit, base, done } => Cells {
            kind: Kind::Erase(unit).into(),
            value: 0,
            base,
            count: 0,
            done,
        },
        Operation::Write { register, value } => Cells {
            kind: Kind::Write(register).into(),
            value,
            base: 0,
            count: 0,
            done: 0,
        },
    }
}

// The operation of cells, whatever stands there: a number that is no kind's is a write of the extended read register.
pub fn operation_in(cells: Cells) -> Operation
    ensures { result ≡ operation_in cells }
{
    let kind = Kind::try_from(cells.kind).unwrap_or(Kind::Write(Register::Extended));
    match kind {
        Kind::Program(memory) => Operation::Program {
            memory,
            base: cells.base,
            start: cells.value,
            count: cells.count,
            done: cells.done,
        },
        Kind::Erase(unit) => Operation::Erase {
            unit,
            base: cells.base,
            done: cells.done,
        },
        Kind::Write(register) => Operation::Write {
            register,
            value: cells.value,
        },
    }
}

// Whether cells are those of the operation that they are read as: the number is a kind's, and what the operation does not have
// is 0.
pub fn is_own(cells: Cells) -> bool
    ensures { result ≡ own cells }
{
    match Kind::try_from(cells.kind) {
        Ok(Kind::Program(_)) => true,
        Ok(Kind::Erase(_)) => (cells.value, cells.count) == (0, 0),
        Ok(Kind::Write(_)) => (cells.base, cells.count, cells.done) == (0, 0, 0),
        Err(NoKind) => false,
    }
}

// The values of the model, named as in the specification: the record of a part with its phase and
// operation, the rows of the command table, and what the calls answer.
#![tactic(auto)]

// A page, and a row, have 256 bytes, a sector 4,096, a block 65,536, the rows 1,024.
pub const PAGE_BYTES: usize = 256;

pub const SECTOR_BYTES: usize = 4096;

pub const BLOCK_BYTES: usize = 65536;

pub const ROWS_BYTES: usize = 1024;

// A sector has 16 pages, a block 256.
pub const SECTOR_PAGES: usize = 16;

pub const BLOCK_PAGES: usize = 256;

// A transaction has at most 4,096 bytes, and a tick call asks at most 4,096 ticks, on the large part at most 131,072.
pub const TRANSACTION_MOST: usize = 4096;

pub const TICKS_MOST: usize = 4096;

pub const LARGE_TICKS_MOST: usize = 131072;

// The large part has two banks of 16,777,216 bytes.
pub const BANK_BYTES: usize = 16777216;

// The two memories of a part: the array of blocks, and the four information rows.
#[derive(Clone, Copy, PartialEq, Eq)]
pub enum Memory {
    Array,
    Rows,
}

// So many blocks of the array, from the first of them on. A range is said by its first number and a count, here and below, as
// the paper's definitions say it and C gets it.
#[derive(Clone, Copy)]
pub struct Blocks {
    pub first: u16,
    pub count: u16,
}

// A cell of the block table: the first protected block, and how many there are from it. The paper's blocks_of makes blocks of it.
#[derive(Clone, Copy)]
pub struct Cell(pub u16, pub u16);

// A row of the block table, its cells in the order in which the sizes are printed: 8, 4 and 2 Mbit, and then 1 block.
#[derive(Clone, Copy)]
pub struct BlockRow(pub Cell, pub Cell, pub Cell, pub Cell);

// A row of the block table of the large part: with the top or bottom bit 0, and 1. Each table has a type of row, as the paper's
// block_table and large_table have.
#[derive(Clone, Copy)]
pub struct LargeRow(pub Cell, pub Cell);

// What an erase takes: SER, BER32, BER64, CER or the row erase.
#[derive(Clone, Copy)]
pub enum EraseUnit {
    Sector,
    Block32,
    Block64,
    Chip,
    Row,
}

// The registers that a command writes.
#[derive(Clone, Copy)]
pub enum Register {
    Status,
    Function,
    Extended,
}

// What a part is busy with or suspended from. A base is the place in its memory of the unit's or
// the page's first byte; done counts the ticks done.
#[derive(Clone, Copy)]
pub enum Operation {
    // PP or the row program: count bytes of page data, the first of which goes to the page's place start.
    Program {
        memory: Memory,
        start: u8,
        base: usize,
        count: usize,
        done: usize,
    },
    Erase {
        unit: EraseUnit,
        base: usize,
        done: usize,
    },
    // A register write, with the byte that it holds. It takes one tick.
    Write {
        register: Register,
        value: u8,
    },
}

// A part is idle, busy with one operation, or suspended from one; or it is busy with the first of two, the inner program,
// and suspended from the second, an erase. What ticks go on with stands at one place so, whichever it is.
#[derive(Clone, Copy)]
pub enum Phase {
    Idle,
    Busy(Operation),
    Suspended(Operation),
    Nested(Operation, Operation),
}

// The identity bytes M (maker), T (type), C (capacity) and D (device).
#[derive(Clone, Copy, Default)]
pub struct Identity {
    pub maker: u8,
    pub kind: u8,
    pub capacity: u8,
    pub device: u8,
}

// The registers of a part: their stored bits, which power-up takes and reset keeps, and among them those that
// other fields define (WIP, WEL, ESUS and PSUS). Of the extended read register it is the stored byte.
#[derive(Clone, Copy, Default)]
pub struct Stored {
    pub status: u8,
    pub function: u8,
    pub extended: u8,
}

// What a part is, whatever it does. The live byte of the extended read register has its bits 7..5 and the error bits:
// 3 E_ERR, 2 P_ERR, 1 PROT_E. The bank address register has bit 7 EXTADD and bit 0, the bank bit.
#[derive(Clone, Copy)]
pub struct Part {
    pub blocks: u16,
    pub stored: Stored,
    pub wel: bool,
    pub armed: bool,
    pub asleep: bool,
    pub live: u8,
    pub bank: u8,
}

// The record of a part: what it is, what it does, its identity, which no call changes, and the 256 bytes of page data. All of
// them stand there, however many a program keeps: a record has one length.
#[derive(Clone, Copy)]
pub struct Record {
    pub part: Part,
    pub phase: Phase,
    pub identity: Identity,
    pub page: [u8; 256],
}

// How an address is sent after the code: three bytes, which are an address in the upper bank where it is true; or four.
#[derive(Clone, Copy)]
pub enum Addressing {
    Three(bool),
    Four,
}

// What becomes of page data: it is as it was; what was sent, behind an address that was sent so; or zero.
#[derive(Clone, Copy)]
pub enum Data {
    Kept,
    Sent(Addressing),
    Zero,
}

// What a call makes of a record.
#[derive(Clone, Copy)]
pub enum Change {
    // The record stays as it was.
    Same,
    // The armed mark becomes so; all else stays.
    Marked(bool),
    // The part is unarmed, and the live byte becomes so; all else stays.
    Live(u8),
    // The part becomes this one; what runs, what is suspended and page data stay.
    Anew(Part),
    // The part becomes this one, page data what is said of it, and what runs this work; what is suspended stays.
    Runs(Part, Data, Option<Operation>),
    // The part becomes this one, and what runs is suspended; page data stays.
    Halts(Part),
    // The part becomes this one, and what is suspended goes on; page data stays.
    GoesOn(Part),
    // The part becomes this one, what runs and what is suspended are dropped, and page data becomes zero.
    Clears(Part),
}

// The commands, in the order of the command table; then those of the extended read register; then those of the large
// part: with four address bytes, the program of which 12h is taken at rest alone, and of the bank address register.
#[derive(Clone, Copy)]
pub enum Command {
    Read,
    FastRead,
    ReadStatus,
    ReadFunction,
    ReadIdentity,
    ReadMakerDevice,
    Wake,
    ReadRow,
    WriteEnable,
    WriteDisable,
    WriteStatus,
    WriteFunction,
    PageProgram,
    SectorErase,
    BlockErase32,
    BlockErase64,
    ChipErase,
    Suspend,
    Resume,
    Sleep,
    ArmReset,
    Reset,
    RowErase,
    RowProgram,
    ReadExtended,
    SetStored,
    SetLive,
    ClearErrors,
    FarRead,
    FarFastRead,
    FarPageProgram,
    FarPageProgramAtRest,
    FarSectorErase,
    FarBlockErase32,
    FarBlockErase64,
    ReadBank,
    WriteBank,
    EnterFar,
    LeaveFar,
}

// A command's length, the code counted.
#[derive(Clone, Copy)]
pub enum Length {
    Exactly(usize),
    AtLeast(usize),
}

// What a command drives. Void has a name of its own, since the table has a source in each row.
#[derive(Clone, Copy)]
pub enum Source {
    Void,
    ArrayBytes,
    RowBytes,
    StatusByte,
    FunctionByte,
    IdentityBytes,
    MakerPair,
    DeviceByte,
    ExtendedByte,
    BankByte,
}

// What an executed command does with the record.
#[derive(Clone, Copy)]
pub enum Effect {
    Looks,
    Enables,
    Disables,
    Programs(Memory),
    Erases(EraseUnit),
    Writes(Register),
    Suspends,
    Resumes,
    Sleeps,
    Wakes,
    Arms,
    Resets,
    SetsLive,
    ClearsErrors,
    SetsBank,
    SetsFar(bool),
}

// When a command is taken: at rest, awake and idle; also while an erase is suspended, ESUS 1; also while suspended; also
// while busy; whenever the part is awake; or also while suspended or asleep.
#[derive(Clone, Copy)]
pub enum Taken {
    Rest,
    Esus,
    OrHalted,
    OrBusy,
    Awake,
    OrAsleep,
}

// What the address bytes of a command name: nothing, also where it has none; a place of the array, with three bytes; a
// far place of the array, with four; a byte in a row.
#[derive(Clone, Copy)]
pub enum Named {
    Bare,
    Place,
    Far,
    InRow,
}

// What a command wants of the state: nothing, something running that can be suspended, something to resume, or the
// reset armed.
#[derive(Clone, Copy)]
pub enum Wanted {
    Any,
    Running,
    Halted,
    Armed,
}

// A row of the command table: the length, whether WEL is needed, when the command is taken, what its address names,
// what it wants of the state, what it drives and from which place, and what it does. The place stands in each row, and is 0
// where nothing is driven, as in the paper's table.
#[derive(Clone, Copy)]
pub struct Columns {
    pub length: Length,
    pub wel: bool,
    pub taken: Taken,
    pub named: Named,
    pub wanted: Wanted,
    pub source: Source,
    pub from: usize,
    pub effect: Effect,
}

// What the calls answer. Each answer has its number, 0 for none, which the paper's powered_up, outcome_of, transacted and
// ticked and the definitions waited_of and held_worked give it, and which C reads. Each call has a type of its own, since they
// name what is answered: the first driven place, or how many ticks did work.

// What power-up answers.
#[derive(Clone, Copy)]
pub struct PoweredUp {
    pub next: Record,
    pub number: u8,
}

// What a transaction answers: the record after it, its number, and the first driven place.
#[derive(Clone, Copy)]
pub struct Answer {
    pub next: Record,
    pub number: u8,
    pub first: usize,
}

// What a transaction answers, with what it makes of the record and not the record.
#[derive(Clone, Copy)]
pub struct Outcome {
    pub change: Change,
    pub number: u8,
    pub first: usize,
}

// What a tick call answers: the record after it, its number, and how many ticks did work.
#[derive(Clone, Copy)]
pub struct Ticked {
    pub next: Record,
    pub number: u8,
    pub done: usize,
}

// What a tick call answers, with what it makes of the record and not the record.
#[derive(Clone, Copy)]
pub struct Waited {
    pub change: Change,
    pub number: u8,
    pub done: usize,
}

// What a tick call reached: what ran before it, if anything did, and how many ticks of that did work. The count is 0 where
// nothing ran, as in the paper's reached.
#[derive(Clone, Copy)]
pub struct Reached {
    pub work: Option<Operation>,
    pub count: usize,
}

// What a tick call answers, but for the record, which is kept in bytes: its number, and what it reached.
#[derive(Clone, Copy)]
pub struct Worked {
    pub number: u8,
    pub reached: Reached,
}

// What a sector has gone through: its erases, and the programs of its pages.
#[repr(C)]
#[derive(Clone, Copy)]
pub struct Wear {
    pub erases: u32,
    pub programs: u32,
}

// What the ticks of a call count: an erase for each of so many sectors, from the first on, and, where it is true, a program
// for the sector at. That stands there also where no program ended, as the paper's tally_by has it.
#[derive(Clone, Copy)]
pub struct Tally {
    pub first: usize,
    pub erases: usize,
    pub programmed: bool,
    pub at: usize,
}

// Why a call is refused, or a command ignored, each with the number that the call answers.
#[derive(Clone, Copy)]
pub enum Refusal {
    // There is no part of that size, or the array is not as long as the part is large.
    Size = 1,
    // The rows are not 1,024 bytes.
    Rows = 2,
    // No byte is sent, or more than 4,096.
    Input = 3,
    // The output has not the length that is asked.
    Output = 4,
    // No record, or one that is not sound, or another argument is out of range.
    Record = 5,
    // More ticks than one call runs.
    Ticks = 6,
    // A script's lists differ in length, or its lengths do not add up to the input's.
    Lists = 7,
    // The first byte is not a command of the part.
    Unknown = 20,
    // A sleeping part takes only ABh.
    Asleep = 21,
    // A busy part does not take the command.
    Busy = 22,
    // A suspended part does not take it.
    Suspended = 23,
    // More or fewer bytes than the command has.
    Length = 24,
    // Nothing to suspend, nothing to resume, or 99h without 66h right before it.
    OutOfTurn = 25,
    // WEL is 0.
    NotEnabled = 26,
    // The address is not that of an information row.
    NoSuchRow = 27,
    // Protected, locked, in the unit of a suspended erase, or barred by WP#.
    Protected = 28,
    // There is not one wear record for each sector.
    Wear = 35,
    // The map has not one bit for each page.
    Map = 36,
    // The part has no page of that number.
    Page = 37,
    // The image is not as long as the array.
    Image = 38,
}

// What a check of a script says: yes; a step, the first that fails, or the number of steps where none does but the part is
// not idle; the first address that differs; or the number that refuses it, which is C's and the paper's unchecked_by's.
#[derive(Clone, Copy)]
pub enum Verdict {
    Yes,
    Step(usize),
    Address(usize),
    Refused(u8),
}

// What a line of the bench says: a transaction, with WP# high where it is true; so many ticks; or neither, which has a text of
// its own in the paper's line_text.
#[derive(Clone, Copy)]
pub enum Line {
    Transaction(bool),
    Ticks(usize),
    Neither,
}

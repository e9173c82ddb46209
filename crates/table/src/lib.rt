// The command table.
#![tactic(auto)]

ghost use Rattle.std.specs.Prelude.{◌≡◌};
ghost use Rattle.paper.specs.Table.{line, columns, addressing, taken_asleep, taken_busy, taken_suspended, length_ok, drives};
ghost use Rattle.paper.specs.Reads.{first_driven};

use types::Effect::*;
use types::EraseUnit::*;
use types::Length::*;
use types::Memory::*;
use types::Named::*;
use types::Register::*;
use types::Source::*;
use types::Taken::*;
use types::Wanted::*;
use types::{Addressing, Columns, Command, Effect, Length, Named, Source, Taken, Wanted};

// The entries of the column for WEL.
const WEL: bool = true;

const NO: bool = false;

// A line of the table: the length, whether WEL is needed, when the command is taken, what its address names, what it
// wants of the state, what it drives and from which place, and what it does. With it a line is a line of the source too.
fn line(
    length: Length,
    wel: bool,
    taken: Taken,
    named: Named,
    wanted: Wanted,
    source: Source,
    from: usize,
    effect: Effect,
) -> Columns
    ensures { result ≡ line length wel taken named wanted source from effect }
{
    Columns {
        length,
        wel,
        taken,
        named,
        wanted,
        source,
        from,
        effect,
    }
}

// A command's line of the table.
pub fn columns_of(command: Command) -> Columns
    ensures { result ≡ columns command }
{
    // command => line(length, WEL, taken, address, wants, drives, from, does)
    match command {
        Command::Read => line(AtLeast(4), NO, OrHalted, Place, Any, ArrayBytes, 4, Looks),
        Command::FastRead => line(AtLeast(5), NO, OrHalted, Place, Any, ArrayBytes, 5, Looks),
        Command::ReadStatus => line(AtLeast(1), NO, Awake, Bare, Any, StatusByte, 1, Looks),
        Command::ReadFunction => line(AtLeast(1), NO, Awake, Bare, Any, FunctionByte, 1, Looks),
        Command::ReadIdentity => line(AtLeast(1), NO, OrHalted, Bare, Any, IdentityBytes, 1, Looks),
        Command::ReadMakerDevice => line(AtLeast(4), NO, OrHalted, Bare, Any, MakerPair, 4, Looks),
        Command::Wake => line(AtLeast(1), NO, OrAsleep, Bare, Any, DeviceByte, 4, Wakes),
        Command::ReadRow => line(AtLeast(5), NO, OrHalted, InRow, Any, RowBytes, 5, Looks),
        Command::WriteEnable => line(Exactly(1), NO, Esus, Bare, Any, Void, 0, Enables),
        Command::WriteDisable => line(Exactly(1), NO, Esus, Bare, Any, Void, 0, Disables),
        Command::WriteStatus => line(Exactly(2), WEL, Rest, Bare, Any, Void, 0, Writes(Status)),
        Command::WriteFunction => line(Exactly(2), WEL, Rest, Bare, Any, Void, 0, Writes(Function)),
        Command::PageProgram => line(AtLeast(5), WEL, Esus, Place, Any, Void, 0, Programs(Array)),
        Command::SectorErase => line(Exactly(4), WEL, Rest, Place, Any, Void, 0, Erases(Sector)),
        Command::BlockErase32 => line(Exactly(4), WEL, Rest, Place, Any, Void, 0, Erases(Block32)),
        Command::BlockErase64 => line(Exactly(4), WEL, Rest, Place, Any, Void, 0, Erases(Block64)),
        Command::ChipErase => line(Exactly(1), WEL, Rest, Bare, Any, Void, 0, Erases(Chip)),
        Command::Suspend => line(Exactly(1), NO, OrBusy, Bare, Running, Void, 0, Suspends),
        Command::Resume => line(Exactly(1), NO, OrHalted, Bare, Halted, Void, 0, Resumes),
        Command::Sleep => line(Exactly(1), NO, Rest, Bare, Any, Void, 0, Sleeps),
        Command::ArmReset => line(Exactly(1), NO, Awake, Bare, Any, Void, 0, Arms),
        Command::Reset => line(Exactly(1), NO, Awake, Bare, Armed, Void, 0, Resets),
        Command::RowErase => line(Exactly(4), WEL, Rest, InRow, Any, Void, 0, Erases(Row)),
        Command::RowProgram => line(AtLeast(5), WEL, Rest, InRow, Any, Void, 0, Programs(Rows)),
        Command::ReadExtended => line(AtLeast(1), NO, Awake, Bare, Any, ExtendedByte, 1, Looks),
        Command::SetStored => line(Exactly(2), WEL, Rest, Bare, Any, Void, 0, Writes(Extended)),
        Command::SetLive => line(Exactly(2), NO, Rest, Bare, Any, Void, 0, SetsLive),
        Command::ClearErrors => line(Exactly(1), NO, Rest, Bare, Any, Void, 0, ClearsErrors),
        Command::FarRead => line(AtLeast(5), NO, OrHalted, Far, Any, ArrayBytes, 5, Looks),
        Command::FarFastRead => line(AtLeast(6), NO, OrHalted, Far, Any, ArrayBytes, 6, Looks),
        Command::FarPageProgram => line(AtLeast(6), WEL, Esus, Far, Any, Void, 0, Programs(Array)),
        Command::FarPageProgramAtRest => {
            line(AtLeast(6), WEL, Rest, Far, Any, Void, 0, Programs(Array))
        }
        Command::FarSectorErase => line(Exactly(5), WEL, Rest, Far, Any, Void, 0, Erases(Sector)),
        Command::FarBlockErase32 => line(Exactly(5), WEL, Rest, Far, Any, Void, 0, Erases(Block32)),
        Command::FarBlockErase64 => line(Exactly(5), WEL, Rest, Far, Any, Void, 0, Erases(Block64)),
        Command::ReadBank => line(AtLeast(1), NO, OrHalted, Bare, Any, BankByte, 1, Looks),
        Command::WriteBank => line(Exactly(2), NO, Rest, Bare, Any, Void, 0, SetsBank),
        Command::EnterFar => line(Exactly(1), NO, Rest, Bare, Any, Void, 0, SetsFar(true)),
        Command::LeaveFar => line(Exactly(1), NO, Rest, Bare, Any, Void, 0, SetsFar(false)),
    }
}

// How the address of a command is sent under a bank register.
pub fn addressing(named: Named, bank: u8) -> Addressing
    ensures { result ≡ addressing named bank }
{
    match named {
        Named::Bare | Named::InRow => Addressing::Three(false),
        Named::Place => Addressing::Three(bank % 2 == 1),
        Named::Far => Addressing::Four,
    }
}

// Whether a command is taken while the part is asleep.
pub fn taken_asleep(taken: Taken) -> bool
    ensures { result ≡ taken_asleep taken }
{
    matches!(taken, Taken::OrAsleep)
}

// Whether it is taken while the part is busy.
pub fn taken_busy(taken: Taken) -> bool
    ensures { result ≡ taken_busy taken }
{
    matches!(taken, Taken::OrBusy | Taken::Awake)
}

// Whether it is taken while the part is suspended, from an erase or from a program.
pub fn taken_suspended(taken: Taken, erase: bool) -> bool
    ensures { result ≡ taken_suspended taken erase }
{
    match taken {
        Taken::Rest | Taken::OrBusy => false,
        Taken::Esus => erase,
        Taken::OrHalted | Taken::Awake | Taken::OrAsleep => true,
    }
}

// Whether a transaction of n bytes has the length that the table asks for.
pub fn length_ok(length: Length, n: usize) -> bool
    ensures { result ≡ length_ok length n }
{
    match length {
        Length::Exactly(l) => n == l,
        Length::AtLeast(l) => l <= n,
    }
}

// Whether a command drives something.
pub fn drives_any(source: Source) -> bool
    ensures { result ≡ drives source }
{
    !matches!(source, Source::Void)
}

// The first driven place of n output places: n where nothing is driven, as the call answers it.
pub fn first_driven(k: Columns, n: usize) -> usize
    ensures { result ≡ first_driven k n }
{
    if drives_any(k.source) {
        k.from.min(n)
    } else {
        n
    }
}

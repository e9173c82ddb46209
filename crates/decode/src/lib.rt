// The command table's first column: one match over all codes.
#![tactic(auto)]

ghost use Rattle.std.specs.Prelude.{◌≡◌, cond, None, Some};
ghost use Rattle.paper.specs.Table.{decoded};

use types::Command;

// A command of the large part, which is known there alone.
fn known_if(large: bool, command: Command) -> Option<Command>
    ensures { result ≡ cond large (Some command) None }
{
    large.then_some(command)
}

// A command that the large part has with four address bytes too.
fn known_far(far: bool, command: Command, other: Command) -> Option<Command>
    ensures { result ≡ cond far (Some other) (Some command) }
{
    Some(if far { other } else { command })
}

// The command that a code is on a part of so many blocks under a bank register, or None where the code is in no row of
// the table. It takes three numbers, so it is no `TryFrom<u8>`.
#[tactic(auto, using(crate::proofs::Codes::decoded_at))]
pub fn decode(blocks: u16, bank: u8, code: u8) -> Option<Command>
    ensures { result ≡ decoded blocks bank code }
{
    let large = sizes::is_large(u64::from(blocks));
    let far = bank / 128 % 2 == 1;
    match code {
        0x03 => known_far(far, Command::Read, Command::FarRead),
        0x0B => known_far(far, Command::FastRead, Command::FarFastRead),
        0x05 => Some(Command::ReadStatus),
        0x48 => Some(Command::ReadFunction),
        0x9F => Some(Command::ReadIdentity),
        0x90 => Some(Command::ReadMakerDevice),
        0xAB => Some(Command::Wake),
        0x68 => Some(Command::ReadRow),
        0x06 => Some(Command::WriteEnable),
        0x04 => Some(Command::WriteDisable),
        0x01 => Some(Command::WriteStatus),
        0x42 => Some(Command::WriteFunction),
        0x02 => known_far(far, Command::PageProgram, Command::FarPageProgram),
        0xD7 | 0x20 => known_far(far, Command::SectorErase, Command::FarSectorErase),
        0x52 => known_far(far, Command::BlockErase32, Command::FarBlockErase32),
        0xD8 => known_far(far, Command::BlockErase64, Command::FarBlockErase64),
        0xC7 | 0x60 => Some(Command::ChipErase),
        0x75 | 0xB0 => Some(Command::Suspend),
        0x7A | 0x30 => Some(Command::Resume),
        0xB9 => Some(Command::Sleep),
        0x66 => Some(Command::ArmReset),
        0x99 => Some(Command::Reset),
        0x64 => Some(Command::RowErase),
        0x62 => Some(Command::RowProgram),
        0x81 => Some(Command::ReadExtended),
        0x85 => Some(Command::SetStored),
        0x83 => Some(Command::SetLive),
        0x82 => Some(Command::ClearErrors),
        0x13 => known_if(large, Command::FarRead),
        0x0C => known_if(large, Command::FarFastRead),
        0x12 => known_if(large, Command::FarPageProgramAtRest),
        0x21 => known_if(large, Command::FarSectorErase),
        0x5C => known_if(large, Command::FarBlockErase32),
        0xDC => known_if(large, Command::FarBlockErase64),
        0x16 | 0xC8 => known_if(large, Command::ReadBank),
        0x17 | 0xC5 => known_if(large, Command::WriteBank),
        0xB7 => known_if(large, Command::EnterFar),
        0x29 => known_if(large, Command::LeaveFar),
        // In no row: each of them is listed, and no arm takes what is left.
        0x00
        | 0x07..=0x0A
        | 0x0D..=0x11
        | 0x14..=0x15
        | 0x18..=0x1F
        | 0x22..=0x28
        | 0x2A..=0x2F
        | 0x31..=0x41
        | 0x43..=0x47
        | 0x49..=0x51
        | 0x53..=0x5B
        | 0x5D..=0x5F
        | 0x61
        | 0x63
        | 0x65
        | 0x67
        | 0x69..=0x74
        | 0x76..=0x79
        | 0x7B..=0x80
        | 0x84
        | 0x86..=0x8F
        | 0x91..=0x98
        | 0x9A..=0x9E
        | 0xA0..=0xAA
        | 0xAC..=0xAF
        | 0xB1..=0xB6
        | 0xB8
        | 0xBA..=0xC4
        | 0xC6
        | 0xC9..=0xD6
        | 0xD9..=0xDB
        | 0xDD..=0xFF => None,
    }
}

// A record in bytes: a header, every field at its place, and the 256 bytes of page data.
// The bytes are a record's own: no two strings of bytes hold one record.
// `writing` and `reading` are the two ways; `places` says where each field stands. They are functions and no impls of From, since
// the types are of another crate.
#![tactic(auto)]

pub mod places;
pub mod reading;
pub mod writing;

use types::{Part, Phase};

// What bytes hold, but for identity and page data, which stay where they are: the part and the phase of a record, and whether
// the record is sound.
#[derive(Clone, Copy)]
pub struct Found {
    pub sound: bool,
    pub part: Part,
    pub phase: Phase,
}

// What bytes say that a part does, and whether they are the bytes of that.
// A phase beside a flag, and not one or none: `reading::phase_again` reads the phase and asks for no judgement.
#[derive(Clone, Copy)]
pub struct Doing {
    pub ok: bool,
    pub phase: Phase,
}

// The places of a record's fields in its bytes. Numbers stand high byte first. Each place is given by the one before it.

// What the part is: two bytes of blocks, the stored registers, WEL, the marks, the live byte of the extended read register, and
// the bank register.
pub const BLOCKS: usize = 0;

pub const STATUS: usize = BLOCKS + 2;

pub const FUNCTION: usize = STATUS + 1;

pub const EXTENDED: usize = FUNCTION + 1;

pub const WEL: usize = EXTENDED + 1;

pub const ARMED: usize = WEL + 1;

pub const ASLEEP: usize = ARMED + 1;

pub const LIVE: usize = ASLEEP + 1;

pub const BANK: usize = LIVE + 1;

// What it does, in cells: what runs, and what is suspended.
pub const RUNNING: usize = BANK + 1;

pub const HALTED: usize = RUNNING + OPERATION_BYTES;

// The identity M, T, C, D.
pub const MAKER: usize = HALTED + OPERATION_BYTES;

pub const KIND: usize = MAKER + 1;

pub const CAPACITY: usize = KIND + 1;

pub const DEVICE: usize = CAPACITY + 1;

// Page data, and the end of the record.
pub const PAGE: usize = DEVICE + 1;

pub const END: usize = PAGE + types::PAGE_BYTES;

// The places of an operation's cells among its own bytes: its kind, its start or value, and in eight bytes each its
// base, its count and its ticks done.
pub const OPERATION: usize = 0;

pub const VALUE: usize = OPERATION + 1;

pub const BASE: usize = VALUE + 1;

pub const COUNT: usize = BASE + 8;

pub const DONE: usize = COUNT + 8;

pub const OPERATION_BYTES: usize = DONE + 8;

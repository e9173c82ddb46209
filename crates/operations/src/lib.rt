// An operation: its ticks, its target, and what it keeps.
#![tactic(auto)]

ghost use Rattle.std.specs.Prelude.{◌≡◌, ◌+◌, leb};
ghost use Rattle.types.specs.declared.Operation.TheVariants.{Program, Erase};
ghost use Rattle.words.specs.Logic.{◌and◌};
ghost use Rattle.paper.specs.Sizes.{memory_bytes, same_memory, from_on};
ghost use Rattle.paper.specs.Protection.{code_of, whole_code};
ghost use Rattle.paper.specs.Registers.{held_byte};
ghost use Rattle.paper.specs.Operations.{ticks_in_all, ticks_done, free, unit_free, target_free, memory_suspends, unit_suspends, can_suspend, in_unit, outside, outside_of, kept_by};
ghost use Rattle.paper.specs.Soundness.{operation_ok};

use types::{EraseUnit, Memory, Operation, Register, Stored};

// The ticks that an operation takes in all on a part of so many blocks.
pub fn ticks_in_all(op: Operation, blocks: u16) -> usize
    ensures { result ≡ ticks_in_all op blocks }
{
    match op {
        Operation::Program { count, .. } => count,
        Operation::Erase { unit, .. } => pages::unit_pages(unit, blocks),
        Operation::Write { .. } => 1,
    }
}

// Its ticks done.
pub fn ticks_done(op: Operation) -> usize
    ensures { result ≡ ticks_done op }
{
    match op {
        Operation::Program { done, .. } | Operation::Erase { done, .. } => done,
        Operation::Write { .. } => 0,
    }
}

// How many bytes of page data it keeps.
pub fn kept_by(op: Operation) -> usize
    ensures { result ≡ kept_by op }
{
    match op {
        Operation::Program { count: kept, .. } => kept,
        Operation::Erase { .. } | Operation::Write { .. } => 0,
    }
}

fn memory_suspends(memory: Memory) -> bool
    ensures { result ≡ memory_suspends memory }
{
    memory == Memory::Array
}

fn unit_suspends(unit: EraseUnit) -> bool
    ensures { result ≡ unit_suspends unit }
{
    matches!(
        unit,
        EraseUnit::Sector | EraseUnit::Block32 | EraseUnit::Block64
    )
}

// Whether it can be suspended: PP, SER, BER32 and BER64 can.
pub fn can_suspend(op: Operation) -> bool
    ensures { result ≡ can_suspend op }
{
    match op {
        Operation::Program { memory, .. } => memory_suspends(memory),
        Operation::Erase { unit, .. } => unit_suspends(unit),
        Operation::Write { .. } => false,
    }
}

// The byte that a write of a register holds: the bits that it does not store are zero.
pub fn held_byte(register: Register, byte: u8) -> u8
    ensures { result ≡ held_byte register byte }
{
    match register {
        Register::Status => byte / 4 * 4,
        Register::Function => byte / 16 * 16,
        Register::Extended => byte / 32 * 32,
    }
}

fn memory_bytes(memory: Memory, blocks: u16) -> usize
    ensures { result ≡ memory_bytes memory blocks }
{
    match memory {
        Memory::Array => usize::from(blocks) * types::BLOCK_BYTES,
        Memory::Rows => types::ROWS_BYTES,
    }
}

// Whether size bytes from a base on end within all. It subtracts, since a sum could be more than a usize holds.
fn ends_within(base: usize, size: usize, all: usize) -> bool
    ensures { result ≡ leb (base + size) all }
{
    size <= all && base <= all - size
}

// The code BP3..BP0 of a status register.
fn code_of(status: u8) -> u8
    ensures { result ≡ code_of status }
{
    status / 4 % 16
}

// The code with TBS above it, of which the protection question is asked.
fn whole_code(stored: Stored) -> u8
    ensures { result ≡ whole_code stored }
{
    code_of(stored.status) + 16 * (stored.function / 2 % 2)
}

// Whether a place of a memory is unprotected or unlocked: the block of an array's place is none of those that the
// protection question answers. Place, size and registers are apart, as `free` and `unit_free` take them.
fn is_free(memory: Memory, base: usize, blocks: u16, stored: Stored) -> bool
    ensures { result ≡ free memory base blocks stored }
{
    match memory {
        Memory::Array => {
            let code = whole_code(stored);
            let shut = protection::protected_blocks(code as u64, blocks as u64);
            !protection::is_among(shut, base / types::BLOCK_BYTES)
        }
        Memory::Rows => !protection::is_locked(stored.function, base / types::PAGE_BYTES),
    }
}

// Whether a unit is: CER needs all four BP bits 0, whichever blocks they protect.
fn is_unit_free(unit: EraseUnit, base: usize, blocks: u16, stored: Stored) -> bool
    ensures { result ≡ unit_free unit base blocks stored }
{
    match unit {
        EraseUnit::Sector | EraseUnit::Block32 | EraseUnit::Block64 => {
            is_free(Memory::Array, base, blocks, stored)
        }
        EraseUnit::Chip => code_of(stored.status) == 0,
        EraseUnit::Row => is_free(Memory::Rows, base, blocks, stored),
    }
}

// Whether its target is unprotected or unlocked under the registers.
pub fn target_free(op: Operation, blocks: u16, stored: Stored) -> bool
    ensures { result ≡ target_free op blocks stored }
{
    match op {
        Operation::Program { memory, base, .. } => is_free(memory, base, blocks, stored),
        Operation::Erase { unit, base, .. } => is_unit_free(unit, base, blocks, stored),
        Operation::Write { .. } => true,
    }
}

// Whether a place is one of size bytes from a base on.
fn lies_within(place: usize, base: usize, size: usize) -> bool
    ensures { result ≡ from_on base size place }
{
    base <= place && place - base < size
}

// Whether a place of a memory lies in its unit, if it is an erase.
fn in_unit(op: Operation, blocks: u16, memory: Memory, place: usize) -> bool
    ensures { result ≡ in_unit op blocks memory place }
{
    match op {
        Operation::Erase { unit, base, .. } => {
            let size = pages::unit_pages(unit, blocks) * types::PAGE_BYTES;
            let same = memory == pages::unit_memory(unit);
            words::both(same, lies_within(place, base, size))
        }
        Operation::Program { .. } | Operation::Write { .. } => false,
    }
}

// Whether an operation lies outside the unit of another: the page of a program does.
fn is_outside(outer: Operation, blocks: u16, op: Operation) -> bool
    ensures { result ≡ outside outer blocks op }
{
    match op {
        Operation::Program { memory, base, .. } => !in_unit(outer, blocks, memory, base),
        Operation::Erase { .. } | Operation::Write { .. } => true,
    }
}

// Whether it lies outside the suspended unit, where one is suspended.
pub fn outside_of(halted: Option<Operation>, blocks: u16, op: Operation) -> bool
    ensures { result ≡ outside_of halted blocks op }
{
    match halted {
        None => true,
        Some(outer) => is_outside(outer, blocks, op),
    }
}

// Whether it can be at an erase of a unit.
fn erase_ok(unit: EraseUnit, base: usize, done: usize, blocks: u16, stored: Stored) -> bool
    ensures { result ≡ operation_ok (Erase unit base done) blocks stored }
{
    let pages = pages::unit_pages(unit, blocks);
    let begins = pages::unit_base(unit, blocks, base) == base;
    let within = ends_within(
        base,
        pages * types::PAGE_BYTES,
        memory_bytes(pages::unit_memory(unit), blocks),
    );
    let open = is_unit_free(unit, base, blocks, stored);
    let going = done < pages;
    words::both(begins, words::both(within, words::both(open, going)))
}

// Whether a part of so many blocks with these registers can be at an operation: its target is aligned,
// inside the part and free, its ticks done are fewer than all, and what it holds is in order.
pub fn operation_ok(op: Operation, blocks: u16, stored: Stored) -> bool
    ensures { result ≡ operation_ok op blocks stored }
{
    match op {
        Operation::Program {
            memory,
            start,
            base,
            count,
            done,
        } => {
            let begins = base / types::PAGE_BYTES * types::PAGE_BYTES == base;
            let within = ends_within(base, types::PAGE_BYTES, memory_bytes(memory, blocks));
            let open = is_free(memory, base, blocks, stored);
            let going = done < count;
            let few = count <= types::PAGE_BYTES;
            words::both(
                begins,
                words::both(within, words::both(open, words::both(going, few))),
            )
        }
        Operation::Erase { unit, base, done } => erase_ok(unit, base, done, blocks, stored),
        Operation::Write { register, value } => held_byte(register, value) == value,
    }
}

// Pages: the place of a byte in its page, the units of erases, and a page that is erased.
#![tactic(auto)]

ghost use Rattle.std.specs.Prelude.{◌≡◌};
ghost use Rattle.paper.specs.Program.{page_place};
ghost use Rattle.paper.specs.Erase.{memory_of, unit_pages, unit_base, page_erased};

use types::{EraseUnit, Memory};

// The place in the page of byte index of bytes that start at a place of the page.
pub fn page_place(start: u8, index: usize) -> u8
    ensures { result ≡ page_place start index }
{
    start.wrapping_add((index % 256) as u8)
}

// The memory that a unit is a part of.
pub fn unit_memory(unit: EraseUnit) -> Memory
    ensures { result ≡ memory_of unit }
{
    match unit {
        EraseUnit::Sector => Memory::Array,
        EraseUnit::Block32 => Memory::Array,
        EraseUnit::Block64 => Memory::Array,
        EraseUnit::Chip => Memory::Array,
        EraseUnit::Row => Memory::Rows,
    }
}

// The pages of a unit of a part, each of which takes one tick.
pub fn unit_pages(unit: EraseUnit, blocks: u16) -> usize
    ensures { result ≡ unit_pages unit blocks }
{
    match unit {
        EraseUnit::Sector => types::SECTOR_PAGES,
        EraseUnit::Block32 => types::BLOCK_PAGES / 2,
        EraseUnit::Block64 => types::BLOCK_PAGES,
        EraseUnit::Chip => usize::from(blocks) * types::BLOCK_PAGES,
        EraseUnit::Row => 1,
    }
}

// Where the unit of a part that holds a place begins.
pub fn unit_base(unit: EraseUnit, blocks: u16, place: usize) -> usize
    ensures { result ≡ unit_base unit blocks place }
{
    let size = unit_pages(unit, blocks) * types::PAGE_BYTES;
    if size == 0 {
        return 0;
    }
    place / size * size
}

// The page of 256 bytes from base on, a place of the whole memory as in `page_erased`, set to FFh. A page that does not
// fit leaves the bytes as they are.
pub fn erase_page(memory: &mut [u8], base: usize)
    ensures { memory.new ≡ page_erased memory.old base }
{
    let n = memory.len();
    if n < types::PAGE_BYTES || n - types::PAGE_BYTES < base {
        return;
    }
    let end = base + types::PAGE_BYTES;
    runs::blank(&mut memory[base..end]);
}

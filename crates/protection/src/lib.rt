// Protection: which blocks a code protects, which rows are locked, and when the pin bars a status write.
#![tactic(auto)]

ghost use Rattle.std.specs.Prelude.{◌≡◌, ◌%◌, leb};
ghost use Rattle.paper.specs.BlockTable.{block_row, large_row, cell_of, large_cell_of};
ghost use Rattle.paper.specs.Refusals.{number_of};
ghost use Rattle.paper.specs.Protection.{blocks_of, code_most, question, among, locked, barred};

use refusals::ensure;
use types::{BlockRow, Blocks, Cell, LargeRow, Refusal};

// The highest code, and that of the large part.
const CODE_MOST: u64 = 15;

const LARGE_CODE_MOST: u64 = 31;

// The sixteen rows of the block table, BP3 BP2 BP1 BP0 = 0000 downward to 1111, in the layout of table 6.4 of source
// document 000: a column for each size in the printed order, and then that of the 1-block size, which no source prints.
// A cell is the first protected block and how many there are from it; Cell(00, 00) is printed as None. Where print and
// table differ the cell is named behind its row, and 01's rule decides it: blank (nothing is printed), shifted (printed
// one column to the left), garbled ("All Blocks" can be guessed), stray (a mark that is no cell).
fn block_row(code: u8) -> BlockRow
    ensures { result ≡ block_row code }
{
    match code {
        //                 8 Mbit        4 Mbit        2 Mbit        1 block
        0b0000 => BlockRow(Cell(00, 00), Cell(00, 00), Cell(00, 00), Cell(00, 00)),
        0b0001 => BlockRow(Cell(15, 01), Cell(07, 01), Cell(03, 01), Cell(00, 01)), // 4 Mbit blank, 2 Mbit shifted
        0b0010 => BlockRow(Cell(14, 02), Cell(06, 02), Cell(02, 02), Cell(00, 01)),
        0b0011 => BlockRow(Cell(12, 04), Cell(04, 04), Cell(00, 04), Cell(00, 01)), // 4 Mbit blank, 2 Mbit blank
        0b0100 => BlockRow(Cell(08, 08), Cell(00, 08), Cell(00, 04), Cell(00, 01)), // 4 Mbit blank, 2 Mbit blank
        0b0101 => BlockRow(Cell(00, 16), Cell(00, 08), Cell(00, 04), Cell(00, 01)), // 8 Mbit blank, 4 Mbit blank, 2 Mbit blank
        0b0110 => BlockRow(Cell(00, 16), Cell(00, 08), Cell(00, 04), Cell(00, 01)), // 8 Mbit blank, 4 Mbit blank, 2 Mbit blank
        0b0111 => BlockRow(Cell(00, 16), Cell(00, 08), Cell(00, 04), Cell(00, 01)), // 8 Mbit blank, 4 Mbit blank, 2 Mbit blank
        0b1000 => BlockRow(Cell(00, 16), Cell(00, 08), Cell(00, 04), Cell(00, 01)), // 8 Mbit garbled, 4 Mbit garbled, 2 Mbit garbled
        0b1001 => BlockRow(Cell(00, 16), Cell(00, 08), Cell(00, 04), Cell(00, 01)), // 8 Mbit stray, 4 Mbit blank, 2 Mbit blank
        0b1010 => BlockRow(Cell(00, 16), Cell(00, 08), Cell(00, 04), Cell(00, 01)), // 8 Mbit blank, 4 Mbit blank, 2 Mbit blank
        0b1011 => BlockRow(Cell(00, 08), Cell(00, 08), Cell(00, 04), Cell(00, 01)), // 4 Mbit blank, 2 Mbit blank
        0b1100 => BlockRow(Cell(00, 04), Cell(00, 04), Cell(00, 04), Cell(00, 01)), // 2 Mbit blank
        0b1101 => BlockRow(Cell(00, 02), Cell(00, 02), Cell(00, 02), Cell(00, 01)),
        0b1110 => BlockRow(Cell(00, 01), Cell(00, 01), Cell(00, 01), Cell(00, 01)),
        0b1111 => BlockRow(Cell(00, 00), Cell(00, 00), Cell(00, 00), Cell(00, 00)),
        _ => BlockRow(Cell(00, 00), Cell(00, 00), Cell(00, 00), Cell(00, 00)), // no code
    }
}

// The cell of a row in the column of a size, which the definition takes as its number of blocks. A number of blocks that is no
// size has none.
fn cell_of(blocks: u64, row: BlockRow) -> Cell
    ensures { result ≡ cell_of blocks row }
{
    match blocks {
        16 => row.0,
        8 => row.1,
        4 => row.2,
        1 => row.3,
        _ => Cell(0, 0),
    }
}

// The sixteen rows of the block table of the large part, that of source document 004, with a column for each value of the top
// or bottom bit. Rows that are printed as one (101x, 11xx) are two and four here. It is a table of its own, since its columns are
// chosen by a bit of the code and not by the size.
fn large_row(code: u8) -> LargeRow
    ensures { result ≡ large_row code }
{
    match code {
        //                 TBS 0, top      TBS 1, bottom
        0b0000 => LargeRow(Cell(000, 000), Cell(000, 000)),
        0b0001 => LargeRow(Cell(511, 001), Cell(000, 001)),
        0b0010 => LargeRow(Cell(510, 002), Cell(000, 002)),
        0b0011 => LargeRow(Cell(508, 004), Cell(000, 004)),
        0b0100 => LargeRow(Cell(504, 008), Cell(000, 008)),
        0b0101 => LargeRow(Cell(496, 016), Cell(000, 016)),
        0b0110 => LargeRow(Cell(480, 032), Cell(000, 032)),
        0b0111 => LargeRow(Cell(448, 064), Cell(000, 064)),
        0b1000 => LargeRow(Cell(384, 128), Cell(000, 128)),
        0b1001 => LargeRow(Cell(256, 256), Cell(000, 256)),
        0b1010 => LargeRow(Cell(000, 512), Cell(000, 512)),
        0b1011 => LargeRow(Cell(000, 512), Cell(000, 512)),
        0b1100 => LargeRow(Cell(000, 512), Cell(000, 512)),
        0b1101 => LargeRow(Cell(000, 512), Cell(000, 512)),
        0b1110 => LargeRow(Cell(000, 512), Cell(000, 512)),
        0b1111 => LargeRow(Cell(000, 512), Cell(000, 512)),
        _ => LargeRow(Cell(000, 000), Cell(000, 000)), // no code
    }
}

// The cell of a code of the large part: bit 4 is the top or bottom bit.
fn large_cell(code: u8) -> Cell
    ensures { result ≡ large_cell_of (leb 16 code) (large_row (code % 16)) }
{
    let row = large_row(code % 16);
    if 16 <= code { row.1 } else { row.0 }
}

// A cell as the answer has it: the fields have names there, and in the table a cell is as short as it is printed.
fn blocks_of(cell: Cell) -> Blocks
    ensures { result ≡ blocks_of cell }
{
    Blocks {
        first: cell.0,
        count: cell.1,
    }
}

// The highest code on a part of so many blocks.
fn code_most(blocks: u64) -> u64
    ensures { result ≡ code_most blocks }
{
    if sizes::is_large(blocks) {
        LARGE_CODE_MOST
    } else {
        CODE_MOST
    }
}

// Whether the protection question is answered, of a code and a size: 1 for a bad size; 5 for a number that is no code; the
// lower first.
pub fn check_question(code: u64, blocks: u64) -> Result<(), Refusal>
    ensures { number_of result ≡ (question code blocks).number }
{
    let known = code <= code_most(blocks);
    ensure(sizes::size_ok(blocks), Refusal::Size)?;
    ensure(known, Refusal::Record)
}

// Its answer, which everything that asks reads: the first protected block and the count of protected blocks from it, all of
// them blocks of the part; 0 and 0, the definition's `no_blocks`, for none, and where the number is not 0.
pub fn protected_blocks(code: u64, blocks: u64) -> Blocks
    ensures { result ≡ (question code blocks).blocks }
{
    if sizes::is_large(blocks) {
        if LARGE_CODE_MOST < code {
            return Blocks { first: 0, count: 0 };
        }
        return blocks_of(large_cell(code as u8));
    }
    if CODE_MOST < code {
        return Blocks { first: 0, count: 0 };
    }
    blocks_of(cell_of(blocks, block_row(code as u8)))
}

// Whether a block is one of these blocks.
#[tactic(auto, unfolding(paper::specs::Protection::among))]
pub fn is_among(blocks: Blocks, block: usize) -> bool
    ensures { result ≡ among blocks block }
{
    let first = usize::from(blocks.first);
    let from = first <= block;
    let before = block < first + usize::from(blocks.count);
    words::both(from, before)
}

// Whether a row is locked under a function register. A row that the part does not have is not.
pub fn is_locked(function: u8, row: usize) -> bool
    ensures { result ≡ locked function row }
{
    match row {
        0 => function / 16 % 2 == 1,
        1 => function / 32 % 2 == 1,
        2 => function / 64 % 2 == 1,
        3 => function / 128 % 2 == 1,
        _ => false,
    }
}

// Whether a status write is barred: SRWD is 1, QE is 0 and WP# is low.
pub fn is_barred(status: u8, wp: bool) -> bool
    ensures { result ≡ barred status wp }
{
    let srwd = status / 128 % 2 == 1;
    let not_qe = status / 64 % 2 == 0;
    words::both(srwd, words::both(not_qe, !wp))
}

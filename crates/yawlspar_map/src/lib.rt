// A map of blank pages for C, which include/yawlspar.h declares and yawlspar_map_c exports: made from the array, searched, and kept
// by ticks. A script with a map stands beside the other scripts. C gets one number: that of a refusal, or 0, with the answer
// above it.
#![tactic(auto)]

ghost use Rattle.std.specs.Prelude.{◌≡◌, length};
ghost use Rattle.paper.specs.Numbers.{rebuild_number};
ghost use Rattle.paper.specs.Map.{rebuilt, queried};
ghost use Rattle.record_bytes.specs.Read.{record_in};
ghost use Rattle.beside.specs.Beside.{board_bytes};
ghost use Rattle.mapped.specs.InBytes.{held_map_ticked};
ghost use Rattle.yawlspar_map.specs.Face.{blank_answer, map_tick_answer};

// The pages of a block.
const BLOCK_PAGES: usize = types::BLOCK_BYTES / types::PAGE_BYTES;

// A rebuild: the map is made from the array. The number; refused, with 1 or 36, the map is as it was.
pub fn yawlspar_map_rebuild(blocks: u64, array: &[u8], map: &mut [u8]) -> u64
    ensures number { result ≡ rebuild_number blocks (length array.now) (length map.old) }
    ensures map { map.new ≡ rebuilt blocks array.now map.old }
{
    blank_map::rebuild(blocks, array, map) as u64
}

// A query: the first page at or after a page that the map has as blank, or the number of pages where there is none. It may be
// refused, with 1, 36 or 37.
pub fn yawlspar_map_next(blocks: u64, map: &[u8], page: u64) -> u64
    ensures { result ≡ blank_answer blocks (queried blocks map.now page) }
{
    let next = match blank_map::next(blocks, map, page) {
        Ok(next) => next,
        Err(refusal) => return refusals::number(refusal) as u64,
    };
    match next {
        Some(found) => yawlspar::pack(0, found),
        None => yawlspar::pack(0, (blocks as usize) * BLOCK_PAGES),
    }
}

// So many ticks, as yawlspar_tick makes them, and the map is kept. The number and the ticks that did work; refused, with 1, 36, 2,
// 5 or 6, every buffer is as it was. Where the bytes hold no record, 1 and 36 are not judged.
pub fn yawlspar_tick_map(
    bytes: &mut [u8],
    array: &mut [u8],
    rows: &mut [u8],
    count: u64,
    map: &mut [u8],
) -> u64
    ensures answer { result ≡ map_tick_answer (held_map_ticked (record_in bytes.old) array.old rows.old count map.old) }
    ensures bytes { bytes.new ≡ board_bytes (record_in bytes.old) (held_map_ticked (record_in bytes.old) array.old rows.old count map.old).board bytes.old }
    ensures array { array.new ≡ (held_map_ticked (record_in bytes.old) array.old rows.old count map.old).board.array }
    ensures rows { rows.new ≡ (held_map_ticked (record_in bytes.old) array.old rows.old count map.old).board.rows }
    ensures map { map.new ≡ (held_map_ticked (record_in bytes.old) array.old rows.old count map.old).map }
{
    let kept = mapped::tick(bytes, array, rows, count as usize, map);
    yawlspar::pack(kept.number, kept.done)
}

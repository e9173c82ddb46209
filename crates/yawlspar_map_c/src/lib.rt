// What C links of the calls that keep a map of blank pages: each function is the library's of its name. A static library of its
// own, for the speed of calls without a map (docs/SPEED.md).
// A crate is a library or a static library, so each export is a function of its own. C's types are numbers and buffers.
#![tactic(auto)]

ghost use Rattle.std.specs.Prelude.{◌≡◌, length};
ghost use Rattle.paper.specs.Numbers.{rebuild_number};
ghost use Rattle.paper.specs.Map.{rebuilt, queried};
ghost use Rattle.record_bytes.specs.Read.{record_in};
ghost use Rattle.beside.specs.Beside.{board_bytes};
ghost use Rattle.mapped.specs.InBytes.{held_map_ticked};
ghost use Rattle.yawlspar_map.specs.Face.{blank_answer, map_tick_answer};

// A rebuild: the map is made from the array. The number; refused, with 1 or 36, the map is as it was.
#[unsafe(no_mangle)]
pub extern "C" fn yawlspar_map_rebuild(blocks: u64, array: &[u8], map: &mut [u8]) -> u64
    ensures number { result ≡ rebuild_number blocks (length array.now) (length map.old) }
    ensures map { map.new ≡ rebuilt blocks array.now map.old }
{
    yawlspar_map::yawlspar_map_rebuild(blocks, array, map)
}

// A query: the first page at or after a page that the map has as blank, or the number of pages where there is none. It may be
// refused, with 1, 36 or 37.
#[unsafe(no_mangle)]
pub extern "C" fn yawlspar_map_next(blocks: u64, map: &[u8], page: u64) -> u64
    ensures { result ≡ blank_answer blocks (queried blocks map.now page) }
{
    yawlspar_map::yawlspar_map_next(blocks, map, page)
}

// So many ticks, as yawlspar_tick makes them, and the map is kept. The number and the ticks that did work; refused, with 1, 36, 2,
// 5 or 6, every buffer is as it was. Where the bytes hold no record, 1 and 36 are not judged.
#[unsafe(no_mangle)]
pub extern "C" fn yawlspar_tick_map(
    bytes: &mut [u8],
    array: &mut [u8],
    rows: &mut [u8],
    count: u64,
    map: &mut [u8],
) -> u64
    ensures answer { result ≡ map_tick_answer (held_map_ticked (record_in bytes.old) array.old rows.old count map.old) }
    ensures bytes { bytes.new ≡ board_bytes (record_in bytes.old) (held_map_ticked (record_in bytes.old) array.old rows.old count map.old).board bytes.old }
    ensures array { array.new ≡ (held_map_ticked (record_in bytes.old) array.old rows.old count map.old).board.array }
    ensures rows { rows.new ≡ (held_map_ticked (record_in bytes.old) array.old rows.old count map.old).board.rows }
    ensures map { map.new ≡ (held_map_ticked (record_in bytes.old) array.old rows.old count map.old).map }
{
    yawlspar_map::yawlspar_tick_map(bytes, array, rows, count, map)
}

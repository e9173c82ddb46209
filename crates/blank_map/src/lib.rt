// A map of blank pages: one bit per page, low bit first. It is made from the array, searched, and kept after ticks.
#![tactic(auto)]

ghost use Rattle.std.specs.Prelude.{◌≡◌, true, cond, ◌+◌, ◌*◌, ◌/◌, ◌%◌, ◌^◌, ◌<◌, ◌≤◌, min, eqb, leb, length, get_or};
ghost use Rattle.words.specs.Logic.{◌and◌};
ghost use Rattle.words.specs.Lists.{all_below, first_of, up_to};
ghost use Rattle.words.specs.Bits.{bit_in, byte_of, put_bit, put_bits};
ghost use Rattle.paper.specs.Numbers.{rebuild_number, query_number};
ghost use Rattle.types.specs.declared.Memory.TheVariants.{Array};
ghost use Rattle.paper.specs.Sizes.{same_memory};
ghost use Rattle.paper.specs.Map.{blank_page, rebuilt, blank_of, queried};
ghost use Rattle.paper.specs.Refusals.{number_of};
ghost use Rattle.blank_map.specs.Marked.{with_bit, zero_group, clear_from, marked_by, marked};

use types::{Memory, Operation, Reached, Refusal};

// A block has 256 pages, and a byte of a map for eight of them.
const BLOCK_PAGES: usize = types::BLOCK_BYTES / types::PAGE_BYTES;

const MAP_BYTES: usize = BLOCK_PAGES / 8;

// How many bytes of a page are looked at at once.
const CHUNK: usize = 64;

// Whether all bytes are FFh. It looks at each of them, with no early exit.
fn all_blank(bytes: &[u8]) -> bool
    ensures { result ≡ all_below (length bytes.now) (λ i. eqb (get_or bytes.now i 0) 255) }
{
    let mut all = 255;
    for byte in bytes {
        all &= *byte;
    }
    all == 255
}

// Whether a page of the array is all FFh. It looks at a chunk at a time. A page beyond the array is not.
// The array and a page's number, as the paper's blank_page takes them: a page that is not there cannot be lent.
fn blank_page(array: &[u8], page: usize) -> bool
    ensures { result ≡ blank_page array.now page }
{
    if array.len() / types::PAGE_BYTES <= page {
        return false;
    }
    // A range over the four chunks of a page.
    let base = page * types::PAGE_BYTES;
    for k in 0..types::PAGE_BYTES / CHUNK {
        let at = base + k * CHUNK;
        if !all_blank(&array[at..at + CHUNK]) {
            return false;
        }
    }
    true
}

// The byte of a map for the eight pages of its bits, of which the last is looked at first. Nothing in std makes a byte of bits.
fn byte_of(array: &[u8], j: usize) -> u8
    requires { j * 8 + 8 < 2 ^ 64 }
    ensures { result ≡ byte_of (blank_page array.now) j }
{
    let mut byte = 0;
    for k in (0..8).rev() {
        byte = byte * 2 + words::bit_of(blank_page(array, j * 8 + k));
    }
    byte
}

// A map made from the array, one byte after the other. The array is not cut in step: the last pages of a map may lie beyond it.
fn build(array: &[u8], map: &mut [u8])
    requires { length map.old * 8 < 2 ^ 63 }
    ensures { map.new ≡ up_to (length map.old) (byte_of (blank_page array.now)) }
{
    for (j, byte) in map.iter_mut().enumerate() {
        *byte = byte_of(array, j);
    }
}

// A rebuild's 1 and 36: array and map are their lengths.
fn check_rebuild(blocks: u64, array: usize, map: usize) -> Result<(), Refusal>
    ensures { number_of result ≡ rebuild_number blocks array map }
{
    refusals::ensure(sizes::size_ok(blocks), Refusal::Size)?;
    let size = blocks as usize;
    refusals::ensure(array == size * types::BLOCK_BYTES, Refusal::Size)?;
    refusals::ensure(map == size * MAP_BYTES, Refusal::Map)
}

// The map made from the array. Refused, with 1 or 36, it is as it was. It answers the number, as the paper's rebuild_number.
pub fn rebuild(blocks: u64, array: &[u8], map: &mut [u8]) -> u8
    ensures number { result ≡ rebuild_number blocks (length array.now) (length map.old) }
    ensures map { map.new ≡ rebuilt blocks array.now map.old }
{
    let checked = check_rebuild(blocks, array.len(), map.len());
    if checked.is_ok() {
        build(array, map);
    }
    refusals::number_of(checked)
}

// Whether eight bytes from byte j on are all 0. It looks at each of them, with no early exit.
fn zero_group(map: &[u8], j: usize) -> bool
    requires { j < length map.now }
    ensures { result ≡ zero_group map.now j }
{
    8 <= map.len() - j && runs::zero_from(&map[j..j + 8], 0)
}

// How many bits from a bit on are seen at once to be 0: up to the next one of its byte, or all that are left of its byte, or those
// of eight bytes.
fn clear_from(map: &[u8], bit: usize) -> usize
    requires { bit < length map.now * 8 }
    ensures { result ≡ clear_from map.now bit }
{
    let j = bit / 8;
    let place = bit % 8;
    let rest = map[j] >> place;
    if rest != 0 {
        return rest.trailing_zeros() as usize;
    }
    if place != 0 {
        return 8 - place;
    }
    if zero_group(map, j) {
        return 64;
    }
    8
}

// The first bit at or after a bit that is 1; the number of bits where none is, as the definition of first_of has it.
fn first_set(map: &[u8], from: usize) -> usize
    requires { (from < length map.now * 8) × (length map.now * 8 < 2 ^ 63) }
    ensures { result ≡ first_of (length map.now * 8) (λ i. leb from i and bit_in map.now i) }
{
    let end = map.len() * 8;
    let mut at = from;
    // A step is as long as what is seen at once, so no range or iterator has these places.
    while at < end {
        let clear = clear_from(map, at);
        if clear == 0 {
            return at;
        }
        at += clear;
    }
    at
}

// A query's 1, 36 and 37: map is its length.
fn check_query(blocks: u64, map: usize, page: u64) -> Result<(), Refusal>
    ensures { number_of result ≡ query_number blocks map page }
{
    let known = sizes::size_ok(blocks);
    refusals::ensure(known, Refusal::Size)?;
    let size = blocks as usize;
    refusals::ensure(map == size * MAP_BYTES, Refusal::Map)?;
    refusals::ensure((page as usize) < size * BLOCK_PAGES, Refusal::Page)
}

// The first page at or after a page that the map has as blank, if there is one. It may be refused, with 1, 36 or 37.
pub fn next(blocks: u64, map: &[u8], page: u64) -> Result<Option<usize>, Refusal>
    ensures { blank_of result ≡ queried blocks map.now page }
{
    check_query(blocks, map.len(), page)?;
    let found = first_set(map, page as usize);
    if found < map.len() * 8 {
        Ok(Some(found))
    } else {
        Ok(None)
    }
}

// A byte with one of its bits as said: its weight is added or taken away, as in the definition of with_bit.
fn with_bit(byte: u8, place: usize, value: bool) -> u8
    requires { place < 8 }
    ensures { result ≡ with_bit byte place value }
{
    let weight = 1u8 << place;
    let was = (byte >> place) % 2;
    let will = words::bit_of(value);
    if was < will {
        return byte + weight;
    }
    if will < was {
        return byte - weight;
    }
    byte
}

// The bit at a place of byte j put as said. A byte beyond the map is none, so the map is lent whole, here and below, and bits are
// numbered as in the definitions of put_bit and put_bits.
fn put_bit(map: &mut [u8], j: usize, place: usize, value: bool)
    requires { place < 8 }
    ensures { map.new ≡ put_bit map.old (j * 8 + place) value }
{
    if j < map.len() {
        map[j] = with_bit(map[j], place, value);
    }
}

// A few bits of byte j, from a place on, set.
fn mark_bits(map: &mut [u8], j: usize, place: usize, count: usize)
    requires { place + count ≤ 8 }
    ensures { map.new ≡ put_bits count (j * 8 + place) (λ q. true) map.old }
{
    for i in 0..count {
        put_bit(map, j, place + i, true);
    }
}

// All bits of so many bytes, from byte j on, set, as far as the map goes.
fn mark_bytes(map: &mut [u8], j: usize, count: usize)
    ensures { map.new ≡ put_bits (count * 8) (j * 8) (λ q. true) map.old }
{
    let n = map.len();
    if n <= j {
        return;
    }
    let some = count.min(n - j);
    map[j..j + some].fill(0xFF);
}

// So many bits from a place of byte j on set: up to the next byte one by one, then whole bytes, then the rest.
fn mark(map: &mut [u8], j: usize, place: usize, count: usize)
    requires { place < 8 }
    ensures { map.new ≡ put_bits count (j * 8 + place) (λ q. true) map.old }
{
    let n = map.len();
    if n <= j {
        return;
    }
    let head = ((8 - place) % 8).min(count);
    mark_bits(map, j, place, head);
    let first = j + (place + 7) / 8;
    let rest = count - head;
    mark_bytes(map, first, rest / 8);
    if rest / 8 < n - first {
        mark_bits(map, first + rest / 8, 0, rest % 8);
    }
}

// A page's bit put as the page is. A page beyond the map is not looked at.
fn look_again(array: &[u8], map: &mut [u8], page: usize)
    ensures { map.new ≡ put_bit map.old page (blank_page array.now page) }
{
    let j = page / 8;
    if j < map.len() {
        let blank = blank_page(array, page);
        put_bit(map, j, page % 8, blank);
    }
}

// The bits of so many pages set, from a page on that lies done pages after a page.
fn mark_pages(map: &mut [u8], page: usize, done: usize, count: usize)
    requires { page < 2 ^ 56 }
    ensures { map.new ≡ put_bits count (page + done) (λ q. true) map.old }
{
    let low = page % 8 + done % 8;
    mark(map, page / 8 + done / 8 + low / 8, low % 8, count);
}

// A program's page is looked at again, if a tick of it did work.
fn keep_program(memory: Memory, base: usize, count: usize, array: &[u8], map: &mut [u8])
    ensures { map.new ≡ put_bits (cond (same_memory Array memory) (min count 1) 0) (base / 256) (blank_page array.now) map.old }
{
    if memory == Memory::Array && 0 < count {
        look_again(array, map, base / types::PAGE_BYTES);
    }
}

// The pages of an erase are blank.
fn keep_erase(memory: Memory, base: usize, done: usize, count: usize, map: &mut [u8])
    ensures { map.new ≡ put_bits (cond (same_memory Array memory) count 0) (base / 256 + done) (λ q. true) map.old }
{
    if memory == Memory::Array {
        mark_pages(map, base / types::PAGE_BYTES, done, count);
    }
}

// The map kept after so many ticks of an operation, which left the array so. What is kept differs with the operation.
fn keep_of(operation: Operation, count: usize, array: &[u8], map: &mut [u8])
    ensures { map.new ≡ marked_by operation count array.now map.old }
{
    match operation {
        Operation::Program {
            memory,
            start,
            base,
            count: bytes,
            done,
        } => { keep_program(memory, base, count, array, map) }
        Operation::Erase { unit, base, done } => {
            keep_erase(pages::unit_memory(unit), base, done, count, map)
        }
        Operation::Write { register, value } => {}
    }
}

// The map kept after ticks that reached this and left the array so.
pub fn keep(reached: Reached, array: &[u8], map: &mut [u8])
    ensures { map.new ≡ marked reached array.now map.old }
{
    if let Some(operation) = reached.work {
        keep_of(operation, reached.count, array, map);
    }
}

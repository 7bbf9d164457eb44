// What is kept beside the account, in one block of bytes: five rings, the four lists, the addresses and packet memory, all little-endian. A host in C
// lends the block (docs/DECISIONS.md, D35), so that the arrays are parts of it.
use replay_lines::{Fault, Head, begin, show};
use replay_records::{Array, Number, Part, mixed, store, value_of};
use std::io::Write;
use std::ops::Range;

// The bytes of a ring, and the places of each list and of the addresses: more than a u16 can ask for, so that each length it can is lent.
pub const ROOM: usize = 0x1_0000;

// Where the lists, the addresses and packet memory begin.
const POOLS: usize = 5 * ROOM;

const IDS: usize = 9 * ROOM;

const OFFSETS: usize = 11 * ROOM;

const LENGTHS: usize = 13 * ROOM;

const ADDRESSES: usize = 15 * ROOM;

pub const KEPT: usize = 23 * ROOM;

// ---- which places

// Where an array begins.
fn first_of(array: Array) -> usize {
    match array {
        Array::Ring(number) => usize::from(number) * ROOM,
        Array::Pools => POOLS,
        Array::Ids => IDS,
        Array::Offsets => OFFSETS,
        Array::Lengths => LENGTHS,
        Array::Addresses => ADDRESSES,
        Array::Memory => KEPT,
    }
}

// How many places an array has, where so many bytes are kept. A host that lends fewer than stand before packet memory is not refused: what is not there is
// read as 0, and not written.
fn places_of(array: Array, bytes: usize) -> usize {
    match array {
        Array::Memory => bytes.wrapping_sub(KEPT),
        _ => ROOM,
    }
}

// Where the bytes of a part begin and end, as far as they are there. None if the array has no such places.
fn range_of(part: Part, bytes: usize) -> Option<Range<usize>> {
    let Part { array, at, count } = part;
    let places = places_of(array, bytes);
    if places.checked_sub(at)? < count {
        return None;
    }
    let width = array.width();
    let start = at.saturating_mul(width).saturating_add(first_of(array));
    let end = count.saturating_mul(width).saturating_add(start);
    Some(start.min(bytes)..end.min(bytes))
}

// The bytes of a part, as far as they are there. A record that names places that the array has not is bad.
pub fn part_of(part: Part, bytes: &[u8]) -> Result<&[u8], Fault> {
    let range = range_of(part, bytes.len()).ok_or(Fault::Bad)?;
    bytes.get(range).ok_or(Fault::Bad)
}

// The same, to be written: a function is over a `&` or a `&mut`, as `get` and `get_mut` are.
pub fn part_mut(part: Part, bytes: &mut [u8]) -> Result<&mut [u8], Fault> {
    let count = bytes.len();
    let range = range_of(part, count).ok_or(Fault::Bad)?;
    bytes.get_mut(range).ok_or(Fault::Bad)
}

// ---- lists out of the bytes, and back

// The first places of an array. The places of each width are read as arrays of so many bytes: by a width known only when it runs, calls with whole lists
// took 15 to 24 times as long (docs/LOOK-BACK.md).
pub fn unpack<N: Number>(array: Array, list: &mut [N], bytes: &[u8]) -> Result<(), Fault> {
    let part = Part {
        array,
        at: 0,
        count: list.len(),
    };
    let held = part_of(part, bytes)?;
    match array.width() {
        2 => {
            let (places, _) = held.as_chunks::<2>();
            for (n, place) in list.iter_mut().zip(places) {
                *n = N::cut(u64::from(u16::from_le_bytes(*place)));
            }
        }
        4 => {
            let (places, _) = held.as_chunks::<4>();
            for (n, place) in list.iter_mut().zip(places) {
                *n = N::cut(u64::from(u32::from_le_bytes(*place)));
            }
        }
        8 => {
            let (places, _) = held.as_chunks::<8>();
            for (n, place) in list.iter_mut().zip(places) {
                *n = N::cut(u64::from_le_bytes(*place));
            }
        }
        _ => {
            for (n, byte) in list.iter_mut().zip(held) {
                *n = N::cut(u64::from(*byte));
            }
        }
    }
    Ok(())
}

pub fn pack<N: Number>(array: Array, list: &[N], bytes: &mut [u8]) -> Result<(), Fault> {
    let part = Part {
        array,
        at: 0,
        count: list.len(),
    };
    let held = part_mut(part, bytes)?;
    match array.width() {
        2 => {
            let (places, _) = held.as_chunks_mut::<2>();
            for (place, n) in places.iter_mut().zip(list) {
                *place = u16::cut(n.wide()).to_le_bytes();
            }
        }
        4 => {
            let (places, _) = held.as_chunks_mut::<4>();
            for (place, n) in places.iter_mut().zip(list) {
                *place = u32::cut(n.wide()).to_le_bytes();
            }
        }
        8 => {
            let (places, _) = held.as_chunks_mut::<8>();
            for (place, n) in places.iter_mut().zip(list) {
                *place = n.wide().to_le_bytes();
            }
        }
        _ => {
            for (byte, n) in held.iter_mut().zip(list) {
                *byte = u8::cut(n.wide());
            }
        }
    }
    Ok(())
}

// ---- what is set and shown

// Sets places to the values of a record, and says how many. The line is begun first: where that write fails, nothing is set.
pub fn set<W: Write>(
    output: &mut W,
    head: Head,
    part: Part,
    values: &[u8],
    bytes: &mut [u8],
) -> Result<(), Fault> {
    let array = part.array;
    let places = part_mut(part, bytes)?.chunks_exact_mut(array.width());
    begin(output, head)?;
    for (place, value) in places.zip(values.chunks_exact(array.value_width())) {
        store(value_of(value), place);
    }
    show(output, part.count)?;
    Ok(())
}

pub fn show_places<W: Write>(
    output: &mut W,
    head: Head,
    part: Part,
    bytes: &[u8],
) -> Result<(), Fault> {
    let width = part.array.width();
    let held = part_of(part, bytes)?;
    begin(output, head)?;
    for place in held.chunks_exact(width) {
        show(output, value_of(place))?;
    }
    for _ in held.len() / width..part.count {
        show(output, 0)?;
    }
    Ok(())
}

pub fn show_digest<W: Write>(
    output: &mut W,
    head: Head,
    part: Part,
    bytes: &[u8],
) -> Result<(), Fault> {
    let width = part.array.width();
    let held = part_of(part, bytes)?;
    begin(output, head)?;
    let there = held
        .chunks_exact(width)
        .fold(0, |digest, place| mixed(digest, value_of(place)));
    let digest = (held.len() / width..part.count).fold(there, |digest, _| mixed(digest, 0));
    show(output, digest)?;
    Ok(())
}

// What a call is lent. A list of handles is four parallel lists of numbers: room for so many, the handle at a place, a handle put at a place.
// Four slices and none of handles: document 01 has the lists "first written over parallel number lists", and a slice of handles in functions over these that are
// still to come. A struct of the four is no plainer: each function that is lent
// one would owe a clause more, that its slices are still the caller's.
// A ring is whole, and has one address for each entry beside it; a send ring has so many slots pending.

#![tactic(auto)]

ghost use Rattle.std.specs.Prelude.{◌≡◌, ◌+◌, ◌<◌};
ghost use Rattle.limits.specs.Limits.{SLOTS};
ghost use Rattle.rules.specs.Account.{waiting};
ghost use Rattle.rules.specs.Handles.{handles, handle_at, put_handle, has_room, Room};
ghost use Rattle.rules.specs.Refusals.{rings_fit};

use limits::{SLOT_BYTES, SLOTS};
use pool::Handle;

// How many slots of a queue wait to be cleaned.
pub fn pending(tx: usize, clean: usize) -> usize
    requires { (tx < SLOTS) × (clean < SLOTS) }
    ensures { result ≡ waiting tx clean }
{
    (tx + SLOTS - clean) % SLOTS
}

// Whether each list has room for n.
#[tactic(auto, unfolding(rules::specs::Handles::has_room))]
pub fn has_room(n: usize, pools: &[u32], ids: &[u16], offsets: &[u16], lengths: &[u16]) -> bool
    ensures { result ≡ has_room n (handles pools.now ids.now offsets.now lengths.now) }
{
    n <= pools.len() && n <= ids.len() && n <= offsets.len() && n <= lengths.len()
}

// The handle at a place.
pub fn at(pools: &[u32], ids: &[u16], offsets: &[u16], lengths: &[u16], i: usize) -> Handle
    requires { Room (i + 1) (handles pools.now ids.now offsets.now lengths.now) }
    ensures { result ≡ handle_at (handles pools.now ids.now offsets.now lengths.now) i }
{
    Handle {
        pool: pools[i],
        id: ids[i],
        offset: offsets[i],
        length: lengths[i],
    }
}

// Puts a handle at a place.
pub fn put(
    pools: &mut [u32],
    ids: &mut [u16],
    offsets: &mut [u16],
    lengths: &mut [u16],
    i: usize,
    handle: Handle,
)
    requires { Room (i + 1) (handles pools.old ids.old offsets.old lengths.old) }
    ensures { handles pools.new ids.new offsets.new lengths.new ≡ put_handle (handles pools.old ids.old offsets.old lengths.old) i handle }
{
    pools[i] = handle.pool;
    ids[i] = handle.id;
    offsets[i] = handle.offset;
    lengths[i] = handle.length;
}

// Whether a ring is whole, and there is one address for each entry.
pub fn rings_fit(entries: usize, ring: &[u8], addresses: &[u64]) -> bool
    ensures { result ≡ rings_fit entries ring.now addresses.now }
{
    ring.len() == SLOTS * SLOT_BYTES && addresses.len() == entries
}

// The loops over the receive ring, on lent arrays and numbers: start and receive. They take arrays and numbers, and no account, since docs/PROMISES.md names
// `fill` and `receive` with contracts on those. Lists of handles stay parallel slices of numbers: document 01, "Form by location", has the covered functions on those.
// Ported from start_rx_queue and rx_batch of src/ixgbe.rs.

#![tactic(auto)]

ghost use Rattle.std.specs.Prelude.{◌≡◌, ◌+◌, ◌-◌, ◌<◌, get_or, set};
ghost use Rattle.limits.specs.Limits.{ENTRIES, SLOTS};
ghost use Rattle.words.specs.Slots.{InRing};
ghost use Rattle.pool.specs.Hands.{HAND-RECEIVE, HAND-OUT};
ghost use Rattle.rules.specs.Handles.{handles, Room};
ghost use Rattle.rules.specs.Account.{next_slot};
ghost use Rattle.rules.specs.Results.{found_as};
ghost use Rattle.rules.specs.Receive.{frame_of, filled, fill_rule, judged, found, received, receive_rule};
ghost use Rattle.rings.specs.Lent.{Stacked, filling_as, Fillable, receiving_as, stopped_as, Receivable};

use limits::{ENTRIES, SLOTS};
use pool::{HAND_OUT, HAND_RECEIVE, Handle};
use rules::Stop;

// ---- the start

// A slot gets the buffer at the top of the stack.
#[tactic(auto, unfolding(rules::specs::Receive::filled))]
fn fill_slot(
    ring: &mut [u8],
    addresses: &[u64],
    stack: &[u16; ENTRIES],
    depth: usize,
    hands: &mut [u8; ENTRIES],
    slots: &mut [u16; SLOTS],
    slot: usize,
)
    requires { Stacked stack.now depth addresses.now × (0 < depth) × InRing slot ring.old }
    ensures { filling_as stack.now (depth - 1) hands.new slots.new ring.new ≡ filled addresses.now slot (filling_as stack.now depth hands.old slots.old ring.old) }
{
    let id = stack[depth - 1];
    words::offer(ring, slot, addresses[id as usize]);
    slots[slot] = id;
    hands[id as usize] = HAND_RECEIVE;
}

// Every slot of the ring gets a buffer from the top of the stack. Answers the stack's new depth.
// The loop goes over slot numbers: each is a place of the ring and of the slots, so that an iterator over one would be counted too, and is no plainer.
pub fn fill(
    ring: &mut [u8],
    addresses: &[u64],
    stack: &[u16; ENTRIES],
    depth: usize,
    hands: &mut [u8; ENTRIES],
    slots: &mut [u16; SLOTS],
) -> usize
    requires { Fillable stack.now depth addresses.now ring.old }
    ensures { filling_as stack.now result hands.new slots.new ring.new ≡ fill_rule addresses.now 0 SLOTS (filling_as stack.now depth hands.old slots.old ring.old) }
{
    let mut left = depth;
    for slot in 0..SLOTS {
        fill_slot(ring, addresses, stack, left, hands, slots, slot);
        left -= 1;
    }
    left
}

// ---- a receive

// How a receive came to its end: frames taken, why it stopped, the slot that is next, and the stack's new depth.
#[derive(Clone, Copy)]
pub struct Run {
    pub count: usize,
    pub stop: Stop,
    pub rx: usize,
    pub depth: usize,
}

// What a slot's status and length say.
fn judge(size: usize, depth: usize, status: u32, len: u16) -> Result<u16, Stop>
    ensures { found_as result ≡ judged size depth status len }
{
    if status % 2 != 1 {
        return Err(Stop::NotDone);
    }
    if status / 2 % 2 != 1 {
        return Err(Stop::Split);
    }
    if size < len as usize {
        return Err(Stop::TooLong);
    }
    if depth == 0 {
        return Err(Stop::NoBuffer);
    }
    Ok(len)
}

// What stands at a slot.
#[tactic(auto, unfolding(rules::specs::Receive::found))]
fn look(ring: &[u8], slot: usize, size: usize, depth: usize) -> Result<u16, Stop>
    requires { InRing slot ring.now }
    ensures { found_as result ≡ found size depth slot ring.now }
{
    let status = words::status(ring, slot);
    let len = words::frame_length(ring, slot);
    judge(size, depth, status, len)
}

// A slot's buffer goes out, and another takes its place.
fn swap(slots: &mut [u16; SLOTS], hands: &mut [u8; ENTRIES], slot: usize, fresh: u16) -> u16
    requires { (slot < SLOTS) × (get_or slots.old slot 0 < ENTRIES) × (fresh < ENTRIES) }
    ensures gives { result ≡ get_or slots.old slot 0 }
    ensures slot { slots.new ≡ set slots.old slot fresh }
    ensures hands { hands.new ≡ set (set hands.old (get_or slots.old slot 0) HAND-OUT) fresh HAND-RECEIVE }
{
    let old = std::mem::replace(&mut slots[slot], fresh);
    hands[old as usize] = HAND_OUT;
    hands[fresh as usize] = HAND_RECEIVE;
    old
}

// The packet of a received frame, which starts its entry.
fn frame_of(pool: u32, id: u16, len: u16) -> Handle
    ensures { result ≡ frame_of pool id len }
{
    Handle {
        pool,
        id,
        offset: 0,
        length: len,
    }
}

// A frame's buffer goes to the list, and the buffer at the top of the stack to the card.
fn take_frame(
    pool: u32,
    len: u16,
    ring: &mut [u8],
    addresses: &[u64],
    stack: &[u16; ENTRIES],
    depth: usize,
    hands: &mut [u8; ENTRIES],
    slots: &mut [u16; SLOTS],
    slot: usize,
    pools: &mut [u32],
    ids: &mut [u16],
    offsets: &mut [u16],
    lengths: &mut [u16],
    count: usize,
)
    requires { Stacked stack.now depth addresses.now × (0 < depth) × InRing slot ring.old × (get_or slots.old slot 0 < ENTRIES) × Room (count + 1) (handles pools.old ids.old offsets.old lengths.old) }
    ensures { receiving_as stack.now (depth - 1) hands.new slots.new (next_slot slot) ring.new (handles pools.new ids.new offsets.new lengths.new) (count + 1) ≡ received pool addresses.now len (receiving_as stack.now depth hands.old slots.old slot ring.old (handles pools.old ids.old offsets.old lengths.old) count) }
{
    let fresh = stack[depth - 1];
    words::offer(ring, slot, addresses[fresh as usize]);
    let old = swap(slots, hands, slot, fresh);
    lists::put(
        pools,
        ids,
        offsets,
        lengths,
        count,
        frame_of(pool, old, len),
    );
}

// Takes up to n frames from the ring into the lists, and gives the card a free buffer for each.
// A loop that breaks with its stop reason, as document 01, "Form by location", has it.
pub fn receive(
    pool: u32,
    size: usize,
    n: usize,
    ring: &mut [u8],
    addresses: &[u64],
    stack: &[u16; ENTRIES],
    depth: usize,
    hands: &mut [u8; ENTRIES],
    slots: &mut [u16; SLOTS],
    rx: usize,
    pools: &mut [u32],
    ids: &mut [u16],
    offsets: &mut [u16],
    lengths: &mut [u16],
) -> Run
    requires { Receivable n stack.now depth addresses.now slots.old rx ring.old (handles pools.old ids.old offsets.old lengths.old) }
    ensures { stopped_as result stack.now hands.new slots.new ring.new (handles pools.new ids.new offsets.new lengths.new) ≡ receive_rule pool size addresses.now n (receiving_as stack.now depth hands.old slots.old rx ring.old (handles pools.old ids.old offsets.old lengths.old) 0) }
{
    let mut left = depth;
    let mut index = rx;
    let mut count = 0;
    let stop = loop {
        if count == n {
            break Stop::Asked;
        }
        match look(ring, index, size, left) {
            Err(reason) => {
                break reason;
            }
            Ok(len) => {
                take_frame(
                    pool, len, ring, addresses, stack, left, hands, slots, index, pools, ids,
                    offsets, lengths, count,
                );
                left -= 1;
                count += 1;
                index = (index + 1) % SLOTS;
            }
        }
    };
    Run {
        count,
        stop,
        rx: index,
        depth: left,
    }
}

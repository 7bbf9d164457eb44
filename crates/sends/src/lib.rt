// The loops over send rings, on lent arrays and numbers: cleaning, the test of a list of handles, and sending. They take arrays
// and numbers, and no account, since docs/PROMISES.md names `clean`, `good_run` and `send` with contracts on those. Ported from clean_tx_queue and tx_batch of src/ixgbe.rs.

#![tactic(auto)]

ghost use Rattle.std.specs.Prelude.{◌≡◌, ℕ, ◌+◌, ◌<◌, ◌≤◌, length, get_or};
ghost use Rattle.limits.specs.Limits.{ENTRIES, SENDS};
ghost use Rattle.words.specs.Slots.{InRing};
ghost use Rattle.pool.specs.Hands.{HAND-OUT};
ghost use Rattle.rules.specs.Handles.{handles, Room};
ghost use Rattle.rules.specs.Account.{waiting, next_slot};
ghost use Rattle.rules.specs.Send.{give_back, clean_rule, packet_sent, send_rule};
ghost use Rattle.sends.specs.Lent.{cleaning_as, Givable, Cleanable, marked_in, unmarked_in, GoodRun, sending_as, Described, Writable};

use limits::{ENTRIES, HEADROOM, SENDS, SLOTS};
use pool::{HAND_FREE, HAND_OUT, HAND_SEND, Handle};

// ---- cleaning

// The n oldest ids of a queue go onto the free stack, in order. Answers the new clean index.
fn give_back(
    sent: &[u16; SENDS * SLOTS],
    q: usize,
    clean: usize,
    n: usize,
    stack: &mut [u16; ENTRIES],
    depth: usize,
    hands: &mut [u8; ENTRIES],
) -> usize
    requires { Givable n sent.now q clean depth }
    ensures { cleaning_as stack.new (depth + n) hands.new result ≡ give_back sent.now q n (cleaning_as stack.old depth hands.old clean) }
{
    // By number: it is a place of the slots, round the ring, and one of the stack, so that an iterator over one would be counted too, and is no plainer.
    for i in 0..n {
        let id = sent[q * SLOTS + (clean + i) % SLOTS];
        stack[depth + i] = id;
        hands[id as usize] = HAND_FREE;
    }
    (clean + n) % SLOTS
}

// Where a cleaning ended: the new clean index, and the stack's new depth.
#[derive(Clone, Copy, PartialEq, Eq, Debug)]
pub struct Cleaned {
    pub clean: usize,
    pub depth: usize,
}

// Batch after batch is given back, while the card has sent the last of a whole one.
pub fn clean(
    batch: usize,
    ring: &[u8],
    sent: &[u16; SENDS * SLOTS],
    q: usize,
    tx: usize,
    clean: usize,
    stack: &mut [u16; ENTRIES],
    depth: usize,
    hands: &mut [u8; ENTRIES],
) -> Cleaned
    requires { Cleanable batch ring.now sent.now q tx clean depth }
    ensures { cleaning_as stack.new result.depth hands.new result.clean ≡ clean_rule batch sent.now q tx ring.now (waiting tx clean) (cleaning_as stack.old depth hands.old clean) }
{
    let mut first = clean;
    let mut deep = depth;
    // A loop that breaks with the new clean index, as document 01, "Form by location", has it.
    let end = loop {
        if lists::pending(tx, first) < batch {
            break first;
        }
        let last = (first + (batch - 1)) % SLOTS;
        if !words::is_sent(ring, last) {
            break first;
        }
        first = give_back(sent, q, first, batch, stack, deep, hands);
        deep += batch;
    };
    Cleaned {
        clean: end,
        depth: deep,
    }
}

// ---- the test of a list

// Marks the id of each handle that can be sent, up to the first that can't: one that is not good, or whose id has its mark already.
fn mark_good(
    pool: u32,
    entries: usize,
    size: usize,
    mark: u8,
    hands: &mut [u8; ENTRIES],
    pools: &[u32],
    ids: &[u16],
    offsets: &[u16],
    lengths: &[u16],
) -> usize
    requires { (entries ≤ ENTRIES) × (mark ≡ HAND-OUT → ⊥) × Room (length ids.now) (handles pools.now ids.now offsets.now lengths.now) }
    ensures run { GoodRun pool entries size hands.old (handles pools.now ids.now offsets.now lengths.now) (length ids.now) result }
    ensures marks { hands.new ≡ marked_in mark hands.old ids.now result }
{
    for (i, id) in ids.iter().enumerate() {
        let handle = lists::at(pools, ids, offsets, lengths, i);
        if !handle.is_good(pool, entries, size, hands) {
            return i;
        }
        hands[*id as usize] = mark;
    }
    ids.len()
}

// Takes the marks of the first n ids away again, the last one first.
fn unmark(hands: &mut [u8; ENTRIES], ids: &[u16], n: usize)
    requires { (n ≤ length ids.now) × ((k : ℕ) → k < n → get_or ids.now k 0 < ENTRIES) }
    ensures { hands.new ≡ unmarked_in hands.old ids.now n }
{
    for id in ids[..n].iter().rev() {
        hands[*id as usize] = HAND_OUT;
    }
}

// How many handles of a list, from its start, can be sent: each is good, and no id stands twice. The record of hands is as it was.
pub fn good_run(
    pool: u32,
    entries: usize,
    size: usize,
    hands: &mut [u8; ENTRIES],
    pools: &[u32],
    ids: &[u16],
    offsets: &[u16],
    lengths: &[u16],
) -> usize
    requires { (entries ≤ ENTRIES) × Room (length ids.now) (handles pools.now ids.now offsets.now lengths.now) }
    ensures run { GoodRun pool entries size hands.old (handles pools.now ids.now offsets.now lengths.now) (length ids.now) result }
    ensures leaves { hands.new ≡ hands.old }
{
    let run = mark_good(
        pool, entries, size, HAND_SEND, hands, pools, ids, offsets, lengths,
    );
    unmark(hands, ids, run);
    run
}

// ---- a send

// A packet's descriptor is written, its id stands at its slot, and is recorded with the queue.
#[tactic(auto, unfolding(rules::specs::Send::packet_sent))]
fn put_packet(
    q: usize,
    slot: usize,
    handle: Handle,
    ring: &mut [u8],
    addresses: &[u64],
    hands: &mut [u8; ENTRIES],
    sent: &mut [u16; SENDS * SLOTS],
)
    requires { (q < SENDS) × InRing slot ring.old × (length addresses.now ≤ ENTRIES) × Described addresses.now handle }
    ensures { (count : ℕ) → sending_as hands.new sent.new (next_slot slot) ring.new (count + 1) ≡ packet_sent q addresses.now handle (sending_as hands.old sent.old slot ring.old count) }
{
    let id = handle.id as usize;
    let address = words::address_plus(addresses[id], handle.offset as u64);
    words::describe(ring, slot, address, handle.length as u32);
    sent[q * SLOTS + slot] = handle.id;
    hands[id] = HAND_SEND + q as u8;
}

// Sends the first n packets of a list. Answers the new tx index.
pub fn send(
    q: usize,
    n: usize,
    ring: &mut [u8],
    addresses: &[u64],
    hands: &mut [u8; ENTRIES],
    sent: &mut [u16; SENDS * SLOTS],
    tx: usize,
    pools: &[u32],
    ids: &[u16],
    offsets: &[u16],
    lengths: &[u16],
) -> usize
    requires { Writable n q tx addresses.now ring.old (handles pools.now ids.now offsets.now lengths.now) }
    ensures { sending_as hands.new sent.new result ring.new n ≡ send_rule q addresses.now (handles pools.now ids.now offsets.now lengths.now) n (sending_as hands.old sent.old tx ring.old 0) }
{
    // By number: it is the handle's place in four lists, and the slot follows from it, so that an iterator over one would be counted too, and is no plainer.
    for count in 0..n {
        let handle = lists::at(pools, ids, offsets, lengths, count);
        let slot = (tx + count) % SLOTS;
        put_packet(q, slot, handle, ring, addresses, hands, sent);
    }
    (tx + n) % SLOTS
}

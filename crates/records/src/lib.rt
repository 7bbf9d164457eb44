// Which bytes mean which of the bench's records, and what the card's records do to the rings. Document 01, "The bench program".

#![tactic(auto)]

ghost use Rattle.std.specs.Prelude.{◌≡◌, ◌+◌, ◌≤◌, ◌<◌, length, Some};
ghost use Rattle.limits.specs.Limits.{SENDS, SLOTS, RING-BYTES};
ghost use Rattle.words.specs.Slots.{InRing};
ghost use Rattle.records.specs.Records.{slot_of, done_of, frame_of, send_of, record_of, end_of, Ends, kind_of, admitted, shape, way_of};
ghost use Rattle.records.specs.Card.{SEND-BYTES, frame_rule, done_rule, card_as, event_rule};

use limits::{SENDS, SLOT_BYTES, SLOTS};

// The bytes of a ring, and of all send rings.
pub const RING_BYTES: usize = SLOTS * SLOT_BYTES;

pub const SEND_BYTES: usize = SENDS * RING_BYTES;

// The most ids of a record.
pub const MOST: usize = 32764;

// A record: a fresh account, what the card does, or a call on the account.
#[derive(Clone, Copy)]
pub enum Record {
    Fresh {
        entries: usize,
        size: usize,
        sends: usize,
    },
    Card(Event),
    Call(Call),
}

// What the card does: it sets the done bit of a slot, or puts a frame into one.
#[derive(Clone, Copy)]
pub enum Event {
    Done {
        queue: usize,
        slot: usize,
    },
    Frame {
        slot: usize,
        status: u32,
        length: u16,
    },
}

// A call on the account. The ids of a send stand in the record's bytes.
#[derive(Clone, Copy)]
pub enum Call {
    Start,
    Take(usize),
    Release(u16),
    Receive(usize),
    Send { queue: usize, count: usize },
}

// ---- bytes: a record's kind and body

// The slot at a place, if there is one of that number.
fn slot_at(rest: &[u8], at: usize) -> Option<usize>
    requires { at + 2 ≤ length rest.now }
    ensures { result ≡ slot_of at rest.now }
{
    let slot = words::read(rest, at, 2) as usize;
    if SLOTS <= slot {
        return None;
    }
    Some(slot)
}

// Three functions for three kinds: their fields differ in number and in width, so that one over all three would be a match again.
fn done_record(rest: &[u8]) -> Option<Record>
    requires { length rest.now ≡ 6 }
    ensures { result ≡ done_of rest.now }
{
    let slot = slot_at(rest, 4)?;
    let queue = words::read(rest, 2, 2) as usize;
    Some(Record::Card(Event::Done { queue, slot }))
}

fn frame_record(rest: &[u8]) -> Option<Record>
    requires { length rest.now ≡ 10 }
    ensures { result ≡ frame_of rest.now }
{
    let slot = slot_at(rest, 2)?;
    let status = words::read(rest, 4, 4) as u32;
    let length = words::read(rest, 8, 2) as u16;
    Some(Record::Card(Event::Frame {
        slot,
        status,
        length,
    }))
}

fn send_record(rest: &[u8]) -> Option<Record>
    ensures { result ≡ send_of rest.now }
{
    if rest.len() < 6 {
        return None;
    }
    let queue = words::read(rest, 2, 2) as usize;
    let count = words::read(rest, 4, 2) as usize;
    if rest.len() != 6 + 2 * count {
        return None;
    }
    Some(Record::Call(Call::Send { queue, count }))
}

// What the bytes of a record mean, its length taken off: the kind and the body. None if they mean no record.
#[tactic(auto, unfolding(crate::specs::Records::record_of))]
pub fn decode(rest: &[u8]) -> Option<Record>
    ensures { result ≡ record_of rest.now }
{
    if rest.len() < 2 {
        return None;
    }
    match (words::read(rest, 0, 2), rest.len()) {
        (1, 10) => Some(Record::Fresh {
            entries: words::read(rest, 2, 2) as usize,
            size: words::read(rest, 4, 4) as usize,
            sends: words::read(rest, 8, 2) as usize,
        }),
        (2, 2) => Some(Record::Call(Call::Start)),
        (3, 6) => Some(Record::Call(Call::Take(words::read(rest, 2, 4) as usize))),
        (4, 4) => Some(Record::Call(Call::Release(words::read(rest, 2, 2) as u16))),
        (5, 6) => done_record(rest),
        (6, 10) => frame_record(rest),
        (7, 6) => Some(Record::Call(Call::Receive(words::read(rest, 2, 4) as usize))),
        (8, _) => send_record(rest),
        _ => None,
    }
}

// Where the record at a place ends. None if it is cut short. The end of the bytes stands beside them: the definition `end_of` has both.
#[tactic(auto, unfolding(crate::specs::Records::end_of))]
pub fn end_of(bytes: &[u8], from: usize, to: usize) -> Option<usize>
    requires { (from ≤ to) × (to ≤ length bytes.now) }
    ensures end { result ≡ end_of from to bytes.now }
    ensures bounds { Ends from to result }
{
    if to - from < 2 {
        return None;
    }
    let end = from + 2 + words::read(bytes, from, 2) as usize;
    if to < end {
        return None;
    }
    Some(end)
}

// The number of a record's kind, which the line prints: document 01's, so that no derive gives it.
pub fn kind(what: Record) -> u64
    ensures { result ≡ kind_of (Some what) }
{
    match what {
        Record::Fresh { .. } => 1,
        Record::Call(Call::Start) => 2,
        Record::Call(Call::Take(_)) => 3,
        Record::Call(Call::Release(_)) => 4,
        Record::Card(Event::Done { .. }) => 5,
        Record::Card(Event::Frame { .. }) => 6,
        Record::Call(Call::Receive(_)) => 7,
        Record::Call(Call::Send { .. }) => 8,
    }
}

// The record, if it may come. Begun: a fresh account has answered 0, with so many send queues. What is done with it is its shape.
#[tactic(auto, unfolding(crate::specs::Records::way_of))]
pub fn admit(what: Option<Record>, begun: bool, sends: usize) -> Option<Record>
    ensures admitted { result ≡ admitted begun sends what }
    ensures way { shape result ≡ way_of begun sends what }
{
    match what? {
        Record::Fresh { .. } if begun => None,
        Record::Card(Event::Done { queue, .. }) if sends <= queue => None,
        Record::Card(_) | Record::Call(_) if !begun => None,
        _ => what,
    }
}

// ---- the card

// The card puts a frame into a slot of the receive ring.
#[tactic(auto, unfolding(crate::specs::Card::frame_rule))]
fn put_frame(ring: &mut [u8], slot: usize, status: u32, length: u16)
    requires { InRing slot ring.old }
    ensures { ring.new ≡ frame_rule slot status length ring.old }
{
    let at = slot * SLOT_BYTES;
    words::write(ring, at + 8, 4, u64::from(status));
    words::write(ring, at + 12, 2, u64::from(length));
}

// The card sets the done bit of a slot of a send ring.
#[tactic(auto, unfolding(crate::specs::Card::done_rule))]
fn set_done(rings: &mut [u8], queue: usize, slot: usize)
    requires { (length rings.old ≡ SEND-BYTES) × (queue < SENDS) × (slot < SLOTS) }
    ensures { rings.new ≡ done_rule queue slot rings.old }
{
    let at = queue * RING_BYTES + slot * SLOT_BYTES + 12;
    rings[at] = rings[at] / 2 * 2 + 1;
}

// What the card does: a frame or a done bit, at a slot and a queue that there are. Anything else leaves the rings.
pub fn on_card(event: Event, rx: &mut [u8], tx: &mut [u8])
    requires { (length rx.old ≡ RING-BYTES) × (length tx.old ≡ SEND-BYTES) }
    ensures { card_as rx.new tx.new ≡ event_rule event (card_as rx.old tx.old) }
{
    match event {
        Event::Done { queue, slot } if queue < SENDS && slot < SLOTS => set_done(tx, queue, slot),
        Event::Frame {
            slot,
            status,
            length,
        } if slot < SLOTS => put_frame(rx, slot, status, length),
        _ => {}
    }
}

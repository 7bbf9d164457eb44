// The account, and what a call that is done answers of itself. specs/ has document 01's rules over them; there are no functions here.

#![tactic(auto)]

use limits::{ENTRIES, SENDS, SLOTS};
use pool::FreeStack;

// Why a receive that was not refused came to its end.
#[derive(Clone, Copy, PartialEq, Eq, Debug)]
pub enum Stop {
    Asked,
    NotDone,
    Split,
    TooLong,
    NoBuffer,
}

// The account: where each buffer of a pool is. It has no invariant of its own, since a caller may hand in any numbers: every call tests it first.
#[derive(Clone, Copy)]
pub struct Account {
    pub pool: u32,
    pub entries: usize,
    pub size: usize,
    pub receives: usize,
    pub sends: usize,
    pub free: FreeStack,
    // The hand that has each id.
    pub hands: [u8; ENTRIES],
    // The receive ring: the slot that is looked at next, and the id at each slot. A flag and no Option of both: an account that is handed in has any numbers here,
    // also before its start, and `ring_placed` judges them.
    pub started: bool,
    pub rx: usize,
    pub slots: [u16; SLOTS],
    // The send queues: the id at each slot, queue after queue, and each queue's two indices.
    pub sent: [u16; SENDS * SLOTS],
    pub clean: [usize; SENDS],
    pub tx: [usize; SENDS],
}

// How many buffers each hand has.
#[derive(Clone, Copy)]
pub struct Counts {
    pub free: usize,
    pub receive: usize,
    pub send: [usize; SENDS],
    pub out: usize,
}

// What a receive gave: how many frames, why it stopped, and the tail that the host writes to the card, if any.
#[derive(Clone, Copy)]
pub struct Received {
    pub stop: Stop,
    pub count: usize,
    pub tail: Option<usize>,
}

// What a send gave: how many packets went to the card, and the tail that the host writes to it.
#[derive(Clone, Copy)]
pub struct Sent {
    pub count: usize,
    pub tail: usize,
}

// Packet buffers by id: the free stack, the handle that stands for a packet, and the hands that can have a buffer.
// Ported from `Mempool` and `Packet` of src/memory.rs.

#![tactic(auto)]

ghost use Rattle.std.specs.Prelude.{◌≡◌, ◌<◌, ◌≤◌, length};
ghost use Rattle.limits.specs.Limits.{ENTRIES};
ghost use Rattle.pool.specs.Stack.{top, popped, pushed};
ghost use Rattle.pool.specs.Good.{good_in};

use limits::{ENTRIES, HEADROOM};

// The hands that can have a buffer. Send queue q is hand HAND_SEND + q. They are bytes and no enum: an account that `sound::is_sound` refuses may hold any.
pub const HAND_FREE: u8 = 0;

pub const HAND_RECEIVE: u8 = 1;

pub const HAND_OUT: u8 = 2;

pub const HAND_SEND: u8 = 3;

// A packet: the pool that it is of, its buffer's id, and where in the buffer its bytes are.
#[derive(Clone, Copy)]
pub struct Handle {
    pub pool: u32,
    pub id: u16,
    pub offset: u16,
    pub length: u16,
}

impl Handle {
    // Whether a handle is good for a pool of so many entries of a size, by the record of hands.
    #[tactic(auto, unfolding(crate::specs::Good::good_in))]
    pub fn is_good(self, pool: u32, entries: usize, size: usize, hands: &[u8; ENTRIES]) -> bool
        requires { entries ≤ ENTRIES }
        ensures { result ≡ good_in pool entries size hands.now self }
    {
        let id = self.id as usize;
        let offset = self.offset as usize;
        self.pool == pool
            && id < entries
            && hands[id] == HAND_OUT
            && (offset == 0 || offset == HEADROOM)
            && offset + self.length as usize <= size
    }
}

// The ids of the buffers that nobody has, the top last: an array beside its count, popped and pushed by value, as document 01 says.
#[derive(Clone, Copy)]
pub struct FreeStack {
    pub ids: [u16; ENTRIES],
    pub depth: usize,
}

// An id that left the stack, and the stack without it.
#[derive(Clone, Copy)]
pub struct Popped {
    pub id: u16,
    pub stack: FreeStack,
}

impl FreeStack {
    pub fn pop(mut self) -> Popped
        requires { (0 < self.depth) × (self.depth ≤ ENTRIES) }
        ensures { result ≡ record { id = top self; stack = popped self } }
    {
        let at = self.depth - 1;
        let id = self.ids[at];
        self.depth = at;
        Popped { id, stack: self }
    }

    // The array has all its places, whoever asks: a caller need only show room where it has.
    pub fn push(mut self, id: u16) -> Self
        requires { length self.ids ≡ ENTRIES → self.depth < ENTRIES }
        ensures { result ≡ pushed self id }
    {
        let at = self.depth;
        self.ids[at] = id;
        self.depth = at + 1;
        self
    }
}

// Document 01's numbers, each named once. specs/Limits.antt has the number of the same name, and `all` ties the two.

#![tactic(auto)]

ghost use Rattle.std.specs.Prelude.{◌≡◌};
ghost use Rattle.limits.specs.Limits.{limits};

// The most buffers an account has.
pub const ENTRIES: usize = 4096;

// An entry's size is the smallest, doubled up to so many times; a given 0 means the usual one.
pub const SMALLEST_SIZE: usize = 64;

pub const SIZE_DOUBLINGS: usize = 8;

pub const USUAL_SIZE: usize = 2048;

// The most receive queues and send queues of an account.
pub const RECEIVES: usize = 1;

pub const SENDS: usize = 4;

// The slots of a ring, and the bytes of a slot.
pub const SLOTS: usize = 512;

pub const SLOT_BYTES: usize = 16;

// The bytes kept free before a taken packet.
pub const HEADROOM: usize = 32;

// The sent buffers that are given back together.
pub const BATCH: usize = 32;

// The most queues each way of a start-up sequence, and the most reads of a wait.
pub const QUEUES: usize = 64;

pub const TRIES: usize = 10000;

// The fewest and the most rates of an interrupt window.
pub const FEWEST_RATES: usize = 2;

pub const MOST_RATES: usize = 64;

// The receive calls to one look at the clock.
pub const CLOCK_CALLS: usize = 4096;

// Every limit, in the order above: the constants are the numbers of specs/.
fn all() -> [usize; 15]
    ensures { result ≡ limits }
{
    [
        ENTRIES,
        SMALLEST_SIZE,
        SIZE_DOUBLINGS,
        USUAL_SIZE,
        RECEIVES,
        SENDS,
        SLOTS,
        SLOT_BYTES,
        HEADROOM,
        BATCH,
        QUEUES,
        TRIES,
        FEWEST_RATES,
        MOST_RATES,
        CLOCK_CALLS,
    ]
}

// The calls on account, rings and packet memory, kinds 1 to 14, and what is set and shown of them, kinds 20 to 35.
ghost use Rattle.std.specs.Prelude.{◌<◌};

use crate::body::Body;
use crate::forge::Forge;
use crate::{Call, Record};
use limits::SLOT_BYTES;
use pool::Handle;

// What is kept beside the account: a ring by its number, the four lists, the addresses, packet memory.
#[derive(Clone, Copy)]
pub enum Array {
    Ring(u16),
    Pools,
    Ids,
    Offsets,
    Lengths,
    Addresses,
    Memory,
}

impl Array {
    fn ring(number: u16) -> Option<Array> {
        if number < 5 {
            Some(Array::Ring(number))
        } else {
            None
        }
    }

    fn list(number: u16) -> Option<Array> {
        match number {
            0 => Some(Array::Pools),
            1 => Some(Array::Ids),
            2 => Some(Array::Offsets),
            3 => Some(Array::Lengths),
            _ => None,
        }
    }

    // An array by the number that a digest names it by.
    fn any(number: u16) -> Option<Array> {
        match number {
            0..=4 => Array::ring(number),
            5..=8 => Array::list(number - 5),
            9 => Some(Array::Memory),
            _ => None,
        }
    }

    // The bytes of a place.
    pub fn width(self) -> usize
        ensures { 0 < result }
    {
        match self {
            Array::Ring(_) | Array::Memory => 1,
            Array::Ids | Array::Offsets | Array::Lengths => 2,
            Array::Pools => 4,
            Array::Addresses => 8,
        }
    }

    // The bytes that a record has for each place that it sets.
    pub fn value_width(self) -> usize
        ensures { 0 < result }
    {
        match self {
            Array::Ring(_) | Array::Memory => 1,
            Array::Pools | Array::Ids | Array::Offsets | Array::Lengths => 4,
            Array::Addresses => 8,
        }
    }
}

// So many places of an array from one on.
#[derive(Clone, Copy)]
pub struct Part {
    pub array: Array,
    pub at: usize,
    pub count: usize,
}

// What a fresh account is made of.
#[derive(Clone, Copy)]
pub struct Shape {
    pub entries: usize,
    pub size: usize,
    pub receives: usize,
    pub sends: usize,
}

// How many places of each list are lent.
#[derive(Clone, Copy, Default)]
pub struct Lent {
    pub pools: u16,
    pub ids: u16,
    pub offsets: u16,
    pub lengths: u16,
}

// What a call is lent beside the account.
#[derive(Clone, Copy)]
pub struct Loan {
    pub ring: Part,
    pub addresses: u16,
    pub lists: Lent,
}

// A call that is lent nothing.
#[derive(Clone, Copy)]
pub enum PacketCall {
    Fresh { pool: u32, shape: Shape },
    Counts,
    Take { size: usize },
    Release { handle: Handle },
    Truncate { handle: Handle, size: usize },
    Sound,
    InRange { shape: Shape },
}

// A call on a packet that is lent packet memory.
#[derive(Clone, Copy)]
pub enum MemoryCall {
    Clone,
    View,
    Headroom { asked: usize, fill: u8 },
}

// A call that is lent lists or a ring.
#[derive(Clone, Copy)]
pub enum ListCall {
    Batch { n: usize, size: usize },
    Start { queue: usize },
    Receive { queue: usize, n: usize },
    Send { queue: usize },
}

// A record of the account, or of what is kept beside it.
#[derive(Clone, Copy)]
pub enum AccountCall<'a> {
    Packet(PacketCall),
    InMemory {
        handle: Handle,
        memory: Part,
        call: MemoryCall,
    },
    OnLists {
        loan: Loan,
        call: ListCall,
    },
    // The values stand one after the other.
    Set {
        part: Part,
        values: &'a [u8],
    },
    Show(Part),
    Digest(Part),
    Forge(Forge),
    Fields,
    // The field by its number: only `replay_calls` knows which an account has.
    Places {
        field: u16,
        at: u16,
        count: u16,
    },
}

// ---- bodies

impl Part {
    // The first places of an array.
    fn first(array: Array, count: usize) -> Part {
        Part {
            array,
            at: 0,
            count,
        }
    }
}

impl Shape {
    fn of(body: &mut Body<'_>) -> Option<Shape> {
        Some(Shape {
            entries: body.take()?,
            size: body.take()?,
            receives: body.take()?,
            sends: body.take()?,
        })
    }
}

impl Lent {
    fn of(body: &mut Body<'_>) -> Option<Lent> {
        Some(Lent {
            pools: body.take()?,
            ids: body.take()?,
            offsets: body.take()?,
            lengths: body.take()?,
        })
    }
}

fn handle(body: &mut Body<'_>) -> Option<Handle> {
    Some(Handle {
        pool: body.take()?,
        id: body.take()?,
        offset: body.take()?,
        length: body.take()?,
    })
}

// The first bytes of packet memory.
fn memory(body: &mut Body<'_>) -> Option<Part> {
    Some(Part::first(Array::Memory, body.index::<u32>()?))
}

// The first bytes of a ring.
fn ring(body: &mut Body<'_>) -> Option<Part> {
    let ring = Array::ring(body.take()?)?;
    Some(Part::first(ring, body.index::<u16>()?))
}

// A ring and addresses, and no lists.
fn ring_loan(body: &mut Body<'_>) -> Option<Loan> {
    Some(Loan {
        ring: ring(body)?,
        addresses: body.take()?,
        lists: Lent::default(),
    })
}

fn fresh(body: &mut Body<'_>) -> Option<PacketCall> {
    Some(PacketCall::Fresh {
        pool: body.take()?,
        shape: Shape::of(body)?,
    })
}

fn truncate(body: &mut Body<'_>) -> Option<PacketCall> {
    Some(PacketCall::Truncate {
        handle: handle(body)?,
        size: body.take()?,
    })
}

fn headroom<'a>(body: &mut Body<'a>) -> Option<AccountCall<'a>> {
    let handle = handle(body)?;
    let asked = body.take()?;
    let memory = memory(body)?;
    let fill = body.take()?;
    Some(AccountCall::InMemory {
        handle,
        memory,
        call: MemoryCall::Headroom { asked, fill },
    })
}

// A clone or a view.
fn on_packet<'a>(body: &mut Body<'a>, call: MemoryCall) -> Option<AccountCall<'a>> {
    Some(AccountCall::InMemory {
        handle: handle(body)?,
        memory: memory(body)?,
        call,
    })
}

fn batch<'a>(body: &mut Body<'a>) -> Option<AccountCall<'a>> {
    let n = body.take()?;
    let size = body.take()?;
    Some(AccountCall::OnLists {
        loan: Loan {
            ring: Part::first(Array::Ring(0), 0),
            addresses: 0,
            lists: Lent::of(body)?,
        },
        call: ListCall::Batch { n, size },
    })
}

fn start<'a>(body: &mut Body<'a>) -> Option<AccountCall<'a>> {
    let queue = body.take()?;
    Some(AccountCall::OnLists {
        loan: ring_loan(body)?,
        call: ListCall::Start { queue },
    })
}

fn receive<'a>(body: &mut Body<'a>) -> Option<AccountCall<'a>> {
    let queue = body.take()?;
    let mut loan = ring_loan(body)?;
    let n = body.take()?;
    loan.lists = Lent::of(body)?;
    Some(AccountCall::OnLists {
        loan,
        call: ListCall::Receive { queue, n },
    })
}

fn send<'a>(body: &mut Body<'a>) -> Option<AccountCall<'a>> {
    let queue = body.take()?;
    let mut loan = ring_loan(body)?;
    loan.lists = Lent::of(body)?;
    Some(AccountCall::OnLists {
        loan,
        call: ListCall::Send { queue },
    })
}

// The call of a kind from 1 to 14.
pub fn call<'a>(kind: u16, body: &mut Body<'a>) -> Option<Record<'a>> {
    let (word, call) = match kind {
        1 => ("fresh", AccountCall::Packet(fresh(body)?)),
        2 => ("counts", AccountCall::Packet(PacketCall::Counts)),
        3 => (
            "take",
            AccountCall::Packet(PacketCall::Take { size: body.take()? }),
        ),
        4 => ("batch", batch(body)?),
        5 => (
            "release",
            AccountCall::Packet(PacketCall::Release {
                handle: handle(body)?,
            }),
        ),
        6 => ("truncate", AccountCall::Packet(truncate(body)?)),
        7 => ("clone", on_packet(body, MemoryCall::Clone)?),
        8 => ("view", on_packet(body, MemoryCall::View)?),
        9 => ("headroom", headroom(body)?),
        10 => ("start", start(body)?),
        11 => ("receive", receive(body)?),
        12 => ("send", send(body)?),
        13 => ("sound", AccountCall::Packet(PacketCall::Sound)),
        14 => (
            "in-range",
            AccountCall::Packet(PacketCall::InRange {
                shape: Shape::of(body)?,
            }),
        ),
        _ => return None,
    };
    Some(Record {
        word,
        call: Call::Account(call),
    })
}

// Places from one on, which are set to the rest of the body.
fn set<'a>(array: Array, at: usize, body: &mut Body<'a>) -> Option<AccountCall<'a>> {
    let values = body.rest();
    let width = array.value_width();
    if values.len() % width != 0 {
        return None;
    }
    let count = values.len() / width;
    Some(AccountCall::Set {
        part: Part { array, at, count },
        values,
    })
}

fn set_ring<'a>(body: &mut Body<'a>) -> Option<AccountCall<'a>> {
    let ring = Array::ring(body.take()?)?;
    let at = body.index::<u16>()?;
    set(ring, at, body)
}

fn set_list<'a>(body: &mut Body<'a>) -> Option<AccountCall<'a>> {
    let list = Array::list(body.take()?)?;
    let at = body.index::<u16>()?;
    set(list, at, body)
}

fn set_addresses<'a>(body: &mut Body<'a>) -> Option<AccountCall<'a>> {
    let at = body.index::<u16>()?;
    set(Array::Addresses, at, body)
}

fn set_memory<'a>(body: &mut Body<'a>) -> Option<AccountCall<'a>> {
    let at = body.index::<u32>()?;
    set(Array::Memory, at, body)
}

fn slot(body: &mut Body<'_>) -> Option<Part> {
    let array = Array::ring(body.take()?)?;
    let slot: u16 = body.take()?;
    Some(Part {
        array,
        at: usize::from(slot) * SLOT_BYTES,
        count: SLOT_BYTES,
    })
}

fn places(body: &mut Body<'_>) -> Option<Part> {
    Some(Part {
        array: Array::list(body.take()?)?,
        at: body.index::<u16>()?,
        count: body.index::<u16>()?,
    })
}

fn bytes(body: &mut Body<'_>) -> Option<Part> {
    Some(Part {
        array: Array::Memory,
        at: body.index::<u32>()?,
        count: body.index::<u16>()?,
    })
}

// The first places of an array that a number names.
fn first_places(body: &mut Body<'_>) -> Option<Part> {
    let array = Array::any(body.take()?)?;
    Some(Part::first(array, body.index::<u32>()?))
}

fn field_places<'a>(body: &mut Body<'a>) -> Option<AccountCall<'a>> {
    Some(AccountCall::Places {
        field: body.take()?,
        at: body.take()?,
        count: body.take()?,
    })
}

// What is set or shown by a kind from 20 to 35.
pub fn access<'a>(kind: u16, body: &mut Body<'a>) -> Option<Record<'a>> {
    let (word, call) = match kind {
        20 => ("ring", set_ring(body)?),
        21 => ("list", set_list(body)?),
        22 => ("addresses", set_addresses(body)?),
        23 => ("memory", set_memory(body)?),
        24 => ("forge", AccountCall::Forge(Forge::of(body)?)),
        30 => ("slot", AccountCall::Show(slot(body)?)),
        31 => ("places", AccountCall::Show(places(body)?)),
        32 => ("bytes", AccountCall::Show(bytes(body)?)),
        33 => ("account", AccountCall::Fields),
        34 => ("array", field_places(body)?),
        35 => ("digest", AccountCall::Digest(first_places(body)?)),
        _ => return None,
    };
    Some(Record {
        word,
        call: Call::Account(call),
    })
}

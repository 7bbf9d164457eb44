// The start-up as data: item k of the sequence is found from numbers, with no list at run time.

#![tactic(auto)]

ghost use Rattle.std.specs.Prelude.{◌≡◌, ◌/◌, ◌%◌, ◌^◌, ◌<◌, ◌≤◌, eqb, length, get_or};
ghost use Rattle.limits.specs.Limits.{QUEUES};
ghost use Rattle.laws.specs.Test.{pick};
ghost use Rattle.plan.specs.Sequence.{Ranged, by_kind, times_for, value_of, filled, sequence, ITEMS};

use card::Direction;
use parts::{PARTS, Part, Template, Times, Value, part_at, template_at};

// The most rings: a receive ring and a send ring for each queue.
pub const RINGS: usize = 2 * limits::QUEUES;

// The interrupt kinds by their numbers, as VFIO has them. A kind stays a number, and no enum of the two: document 01 refuses with 12 each kind
// that is neither MSI nor MSI-X, so callers hand in any number.
pub const MSI: u64 = 1;

pub const MSIX: u64 = 2;

// The packet buffers each way.
pub const BUFFERS: usize = 8;

// The place of the wait for EEC, the card's highest register.
pub const HIGHEST_PLACE: usize = 11;

// The numbers of a set-up: the map's length, the queues each way, the reads of a wait, the kind of interrupt that is asked for (None: no
// interrupts), their throttle rate, and a ring's address for each queue, receive first, in as much room as the most queues need: the core's
// memory is fixed. `Ranged` is asked for and is no invariant of the type: a caller's state holds any numbers, and a step refuses it with 1.
#[derive(Clone, Copy)]
pub struct Setup {
    pub map: u64,
    pub receives: usize,
    pub sends: usize,
    pub tries: usize,
    pub interrupts: Option<u64>,
    pub rate: u32,
    pub rings: [u64; RINGS],
}

// An item of the sequence: registers are addresses. A type beside parts::Template, since an item has numbers where a template has a register and a Value; one
// type over both kinds of field would name every field's type at each use, so it is no plainer. End is an item, as the definitions have it.
#[derive(Clone, Copy, PartialEq, Eq, Debug)]
pub enum Item {
    End,
    Write(u32, u32),
    Read(u32),
    Change(u32, u32, u32),
    WaitSet(u32, u32),
    WaitClear(u32, u32),
    Pause(u32),
    Link(u32),
}

// ---- how often a part is made

// The queues that are signalled by a kind of interrupt.
fn by_kind(interrupts: Option<u64>, receives: usize, kind: u64) -> usize
    ensures { result ≡ by_kind kind interrupts receives }
{
    match interrupts {
        Some(k) if k == kind => receives,
        _ => 0,
    }
}

fn how_often(setup: &Setup, times: Times) -> usize
    ensures { result ≡ times_for setup.now times }
{
    match times {
        Times::Once => 1,
        Times::Buffer => BUFFERS,
        Times::Receive => setup.receives,
        Times::Send => setup.sends,
        Times::MsiQueue => by_kind(setup.interrupts, setup.receives, MSI),
        Times::MsixQueue => by_kind(setup.interrupts, setup.receives, MSIX),
    }
}

// ---- a template for a queue

// A ring's address, low word and high.
fn halves(x: u64) -> (u32, u32)
    ensures { (result.0 ≡ x % 2 ^ 32) × (result.1 ≡ x / 2 ^ 32) }
{
    ((x % 0x1_0000_0000) as u32, (x / 0x1_0000_0000) as u32)
}

// A template's word, for a queue.
fn word(setup: &Setup, queue: usize, v: Value) -> u32
    requires { (Ranged setup.now) × (queue < QUEUES) }
    ensures { result ≡ value_of setup.now queue v }
{
    match v {
        Value::Is(x) => x,
        Value::FirstOnly(x) if queue == 0 => x,
        Value::FirstOnly(_) => 0,
        Value::ReceiveLow => halves(setup.rings[queue]).0,
        Value::ReceiveHigh => halves(setup.rings[queue]).1,
        Value::SendLow => halves(setup.rings[setup.receives + queue]).0,
        Value::SendHigh => halves(setup.rings[setup.receives + queue]).1,
        Value::Rate => setup.rate,
        Value::QueueBit => card::queue_bit(queue),
        Value::VectorClear => card::vector_clear(Direction::Receive, queue),
        Value::VectorZero => card::vector_set(Direction::Receive, queue, 0),
        Value::VectorQueue => card::vector_set(Direction::Receive, queue, queue as u32),
    }
}

// A template's item, for a queue.
fn fill(setup: &Setup, queue: usize, t: Template) -> Item
    requires { (Ranged setup.now) × (queue < QUEUES) }
    ensures { result ≡ filled setup.now queue t }
{
    match t {
        Template::Write(register, v) => Item::Write(register.address(queue), word(setup, queue, v)),
        Template::Read(register) => Item::Read(register.address(queue)),
        Template::Change(register, clear, set) => Item::Change(
            register.address(queue),
            word(setup, queue, clear),
            word(setup, queue, set),
        ),
        Template::WaitSet(register, mask) => Item::WaitSet(register.address(queue), mask),
        Template::WaitClear(register, mask) => Item::WaitClear(register.address(queue), mask),
        Template::Pause(ms) => Item::Pause(ms),
        Template::Link(register) => Item::Link(register.address(queue)),
    }
}

// ---- the sequence

// The item at a place of the sequence, or the end.
pub fn item_at(setup: Setup, place: usize) -> Item
    requires { Ranged setup }
    ensures { result ≡ get_or (sequence setup) place Item.End }
{
    let mut left = place;
    // By number: the part's number is what `template_at` takes, so that an iterator over parts would be counted too, and is no plainer.
    for i in 0..PARTS {
        let Part { times, len } = part_at(i);
        let n = how_often(&setup, times) * len;
        if left < n {
            return fill(&setup, left / len, template_at(i, left % len));
        }
        left -= n;
    }
    Item::End
}

// How many items the sequence has.
pub fn count(setup: Setup) -> usize
    requires { Ranged setup }
    ensures { (result ≡ length (sequence setup)) × (result ≤ ITEMS) }
{
    let mut sum = 0;
    // By number, as in `item_at`: a sum over `(0..PARTS).map(part_at)` counts the parts too, and asks for the bounds of the products besides.
    for i in 0..PARTS {
        let Part { times, len } = part_at(i);
        sum += how_often(&setup, times) * len;
    }
    sum
}

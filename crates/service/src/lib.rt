// What the host does with the registers while the card runs: counters, link, MAC address, promiscuous mode, and a queue's interrupts. Each is
// a short list of actions. The host asks for one after the other, with how many it has made and the value last read, until the answer is Done.
// Ported from get_mac_addr, set_mac_addr, read_stats, reset_stats, get_link_speed, set_promisc, enable_interrupt and disable_interrupt of
// src/ixgbe.rs. The number that the host hands in picks the action, so each call is a match on it: the
// definitions that docs/PROMISES.md names, `counters_call` to `disable_call` of specs/Actions.antt, take that number.

#![tactic(auto)]

ghost use Rattle.std.specs.Prelude.{◌≡◌, ◌↔◌, ◌≤◌, ◌<◌, get_or, IsNone, IfSome};
ghost use Rattle.card.specs.Registers.{address, register_row, EIMS, IVAR};
ghost use Rattle.card.specs.Masks.{changed, queue_bit, vector_clear, vector_set};
ghost use Rattle.startup.specs.declared.Action.TheVariants as action;
ghost use Rattle.startup.specs.Machine.{SIGNALLED};
ghost use Rattle.service.specs.Mac.{mac_of, low_word, high_word};
ghost use Rattle.service.specs.Actions.{guarded, counters_call, link_call, mac_call, set_mac_call, promisc_call, msi_actions, msix_actions, disable_actions, enable_call, disable_call};

use card::{Direction, Register};
use refusals::Refusal;
use startup::Action;

// The counters in the order in which they are read.
const COUNTERS: [Register; 6] = [
    Register::GPRC,
    Register::GPTC,
    Register::GORCL,
    Register::GORCH,
    Register::GOTCL,
    Register::GOTCH,
];

// ---- an action

// An action on a register that the map holds, or 11.
fn guard(map: u64, action: Action) -> Action
    ensures { result ≡ guarded map action }
{
    match action {
        Action::Read(register) | Action::Write(register, _) if !startup::in_map(map, register) => {
            Action::Refused(Refusal::OutsideMap(register))
        }
        _ => action,
    }
}

// A register that no queue has is read, or written.
fn read(register: Register) -> Action
    ensures { result ≡ action.Read (address (register_row register) 0) }
{
    Action::Read(register.address(0))
}

fn write(register: Register, word: u32) -> Action
    ensures { result ≡ action.Write (address (register_row register) 0) word }
{
    Action::Write(register.address(0), word)
}

// ---- counters, link, MAC address, promiscuous mode

// The reads of the six counters, which clear them: to add them up, or to begin anew.
#[tactic(auto, unfolding(crate::specs::Actions::counters_call))]
pub fn read_counters(map: u64, made: usize) -> Action
    ensures { result ≡ counters_call map made }
{
    match COUNTERS.get(made) {
        Some(&register) => guard(map, read(register)),
        None => Action::Done,
    }
}

// The read of the link's state, whose speed is `card::link_speed`.
#[tactic(auto, unfolding(crate::specs::Actions::link_call))]
pub fn read_link(map: u64, made: usize) -> Action
    ensures { result ≡ link_call map made }
{
    match made {
        0 => guard(map, read(Register::LINKS)),
        _ => Action::Done,
    }
}

// The reads of the MAC address.
#[tactic(auto, unfolding(crate::specs::Actions::mac_call))]
pub fn read_mac(map: u64, made: usize) -> Action
    ensures { result ≡ mac_call map made }
{
    match made {
        0 => guard(map, read(Register::RAL)),
        1 => guard(map, read(Register::RAH)),
        _ => Action::Done,
    }
}

// The MAC address from the two words read.
#[tactic(auto, unfolding(crate::specs::Mac::mac_of))]
pub fn mac(low: u32, high: u32) -> [u8; 6]
    ensures { result ≡ mac_of low high }
{
    let [a, b, c, d] = low.to_le_bytes();
    let [e, f, _, _] = high.to_le_bytes();
    [a, b, c, d, e, f]
}

#[tactic(auto, unfolding(crate::specs::Mac::low_word))]
fn low_word(mac: [u8; 6]) -> u32
    ensures { result ≡ low_word mac }
{
    u32::from_le_bytes([mac[0], mac[1], mac[2], mac[3]])
}

#[tactic(auto, unfolding(crate::specs::Mac::high_word))]
fn high_word(mac: [u8; 6]) -> u32
    ensures { result ≡ high_word mac }
{
    u32::from_le_bytes([mac[4], mac[5], 0, 0])
}

// The writes of a MAC address.
#[tactic(auto, unfolding(crate::specs::Actions::set_mac_call))]
pub fn write_mac(map: u64, mac: [u8; 6], made: usize) -> Action
    ensures { result ≡ set_mac_call map mac made }
{
    match made {
        0 => guard(map, write(Register::RAL, low_word(mac))),
        1 => guard(map, write(Register::RAH, high_word(mac))),
        _ => Action::Done,
    }
}

// Promiscuous mode on or off: the filter control is read, and written with its two bits set or cleared.
#[tactic(auto, unfolding(crate::specs::Actions::promisc_call))]
pub fn promiscuous(map: u64, on: bool, made: usize, value: u32) -> Action
    ensures { result ≡ promisc_call map on made value }
{
    match made {
        0 => guard(map, read(Register::FCTRL)),
        1 => {
            let word = if on {
                card::changed_word(value, 0, card::FCTRL_PROMISC)
            } else {
                card::changed_word(value, card::FCTRL_PROMISC, 0)
            };
            guard(map, write(Register::FCTRL, word))
        }
        _ => Action::Done,
    }
}

// ---- a queue's interrupts

// A queue that can be signalled: it has a bit in the interrupt masks.
#[derive(Clone, Copy)]
struct Signalled {
    queue: usize,
    ghost low: { queue < SIGNALLED },
}

impl Signalled {
    // The queue, if it is one.
    fn new(queue: usize) -> Option<Signalled>
        ensures none { IsNone result ↔ (SIGNALLED ≤ queue) }
        ensures some { IfSome result (λ s. s.queue ≡ queue) }
    {
        if queue >= startup::SIGNALLED {
            return None;
        }
        Some(Signalled { queue })
    }
}

// The mask of enabled causes with a queue's bit.
fn enable_bit(queue: usize, value: u32) -> Action
    ensures { result ≡ action.Write (address EIMS 0) (changed value 0 (queue_bit queue)) }
{
    let word = card::changed_word(value, 0, card::queue_bit(queue));
    write(Register::EIMS, word)
}

// A queue's IVAR with its vector.
fn set_vector(at: Signalled, vector: u32, value: u32) -> Action
    ensures { result ≡ action.Write (address IVAR at.queue) (changed value (vector_clear 0 at.queue) (vector_set 0 at.queue vector)) }
{
    let clear = card::vector_clear(Direction::Receive, at.queue);
    let set = card::vector_set(Direction::Receive, at.queue, vector);
    let word = card::changed_word(value, clear, set);
    Action::Write(Register::IVAR.address(at.queue), word)
}

// The actions that enable a queue's MSI.
fn msi(at: Signalled, rate: u32, made: usize, value: u32) -> Action
    ensures { result ≡ get_or (msi_actions at.queue rate value) made action.Done }
{
    match made {
        0 => Action::Read(Register::IVAR.address(at.queue)),
        1 => set_vector(at, 0, value),
        2 => write(Register::EIAC, 0),
        3 => Action::Write(Register::EITR.address(at.queue), rate),
        4 => write(Register::EIMC, card::IRQ_ALL),
        5 => read(Register::EICR),
        6 => read(Register::EIMS),
        7 => enable_bit(at.queue, value),
        _ => Action::Done,
    }
}

// The actions that enable a queue's MSI-X.
fn msix(at: Signalled, rate: u32, made: usize, value: u32) -> Action
    ensures { result ≡ get_or (msix_actions at.queue rate value) made action.Done }
{
    match made {
        0 => read(Register::GPIE),
        1 => {
            let word = card::changed_word(value, 0, card::GPIE_MSIX);
            write(Register::GPIE, word)
        }
        2 => Action::Read(Register::IVAR.address(at.queue)),
        3 => set_vector(at, at.queue as u32, value),
        4 => write(Register::EIAC, card::IRQ_QUEUES),
        5 => Action::Write(Register::EITR.address(at.queue), rate),
        6 => read(Register::EIMS),
        7 => enable_bit(at.queue, value),
        _ => Action::Done,
    }
}

// The actions that enable a queue's interrupts, of a kind and at a throttle rate. 12 for a queue above 15, or a kind that is neither MSI nor
// MSI-X: so the kind is any number (document 01, the table's 12), as in a set-up.
#[tactic(auto, unfolding(crate::specs::Actions::enable_call))]
pub fn enable(map: u64, kind: u64, queue: usize, rate: u32, made: usize, value: u32) -> Action
    ensures { result ≡ enable_call map kind queue rate made value }
{
    let Some(at) = Signalled::new(queue) else {
        return Action::Refused(Refusal::NoInterrupt);
    };
    match kind {
        plan::MSI => guard(map, msi(at, rate, made, value)),
        plan::MSIX => guard(map, msix(at, rate, made, value)),
        _ => Action::Refused(Refusal::NoInterrupt),
    }
}

// The actions that disable them.
fn off(queue: usize, made: usize, value: u32) -> Action
    ensures { result ≡ get_or (disable_actions queue value) made action.Done }
{
    let bit = card::queue_bit(queue);
    match made {
        0 => read(Register::EIMS),
        1 => {
            let word = card::changed_word(value, bit, 0);
            write(Register::EIMS, word)
        }
        2 => write(Register::EIMC, bit),
        3 => read(Register::EICR),
        _ => Action::Done,
    }
}

// The actions that disable a queue's interrupts. 12 for a queue above 15.
#[tactic(auto, unfolding(crate::specs::Actions::disable_call))]
pub fn disable(map: u64, queue: usize, made: usize, value: u32) -> Action
    ensures { result ≡ disable_call map queue made value }
{
    match Signalled::new(queue) {
        Some(at) => guard(map, off(at.queue, made, value)),
        None => Action::Refused(Refusal::NoInterrupt),
    }
}

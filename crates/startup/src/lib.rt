// The start-up: the set-up call, and a machine that makes one action of the sequence at each step.
// The machine knows items, and nothing of the card; specs/Machine.antt is what a step does.

#![tactic(auto)]

ghost use Rattle.std.specs.Prelude.{◌≡◌, ◌*◌, ◌≤◌, ◌<◌, length};
ghost use Rattle.limits.specs.Limits.{TRIES};
ghost use Rattle.plan.specs.Sequence.{RINGS, Ranged};
ghost use Rattle.startup.specs.Machine.{link_up, seen, in_map, waiting, cost, over, changing, looking, intended, answer, named, kept_refusal, settled, Good, step_of, in_range, kind_ok, setup_ok, waits, is_end, reachable, all_passed, kept_ok, sound_of, start, stepped};
ghost use Rattle.startup.specs.SetUp.{set_up_number, number_as, copied, no_state, begun_as, begun};

use plan::{Item, Setup};
use refusals::Refusal;

// The pause between two reads of a wait, in milliseconds.
pub const WAIT_MS: u32 = 100;

// The actions of the link wait: 101 reads and 100 pauses.
pub const LINK_ACTIONS: usize = 201;

// The receive queues that have a bit in the interrupt masks.
pub const SIGNALLED: usize = 16;

// What the host does next. Document 01 ("Registers") counts a refusal among the actions, so a step answers no Result.
#[derive(Clone, Copy, PartialEq, Eq, Debug)]
pub enum Action {
    Read(u32),
    Write(u32, u32),
    Pause(u32),
    Done,
    Refused(Refusal),
}

// A start-up: its set-up, the item that it is at, how many of the item's actions were made, and the number of a kept refusal. That stays a
// number, in a sound state 0, 10 or 11: document 01 has forged states refused with 1 (`is_sound`), and one may hold any number.
#[derive(Clone, Copy)]
pub struct State {
    pub setup: Setup,
    pub place: usize,
    pub made: usize,
    pub kept: u32,
}

// What a step answers: the action, which document 01 ("Form by location") puts inside the answer, and the state to give the next step.
#[derive(Clone, Copy)]
pub struct Stepped {
    pub action: Action,
    pub state: State,
}

// ---- an item

// Is the link up, at some speed?
#[tactic(auto, unfolding(crate::specs::Machine::link_up))]
fn link_up(value: u32) -> bool
    ensures { result ≡ link_up value }
{
    card::link_speed(value) != 0
}

// A test of what was read, which only counts after a read.
#[tactic(auto, unfolding(crate::specs::Machine::seen))]
fn seen_now(made: usize, test: bool) -> bool
    ensures { result ≡ seen made test }
{
    made % 2 == 1 && test
}

// The most actions that an item has, with so many reads to a wait.
fn cost_of(tries: usize, item: Item) -> usize
    requires { (0 < tries) × (tries ≤ TRIES) }
    ensures { result ≡ cost tries item }
{
    match item {
        Item::End => 0,
        Item::Write(_, _) | Item::Read(_) | Item::Pause(_) => 1,
        Item::Change(_, _, _) => 2,
        Item::WaitSet(_, _) | Item::WaitClear(_, _) => 2 * tries - 1,
        Item::Link(_) => LINK_ACTIONS,
    }
}

// Is an item over, so many of its actions made, and the value the last read?
fn is_over(item: Item, made: usize, value: u32) -> bool
    ensures { result ≡ over item made value }
{
    match item {
        Item::End => false,
        Item::Write(_, _) | Item::Read(_) | Item::Pause(_) => made >= 1,
        Item::Change(_, _, _) => made >= 2,
        Item::WaitSet(_, mask) => seen_now(made, value & mask == mask),
        Item::WaitClear(_, mask) => seen_now(made, value & mask == 0),
        Item::Link(_) => made >= LINK_ACTIONS || seen_now(made, link_up(value)),
    }
}

// The link wait's next action: a read or a pause.
#[tactic(auto, unfolding(crate::specs::Machine::looking))]
fn next_look(register: u32, made: usize) -> Action
    ensures { result ≡ looking register made }
{
    if made % 2 == 0 {
        return Action::Read(register);
    }
    Action::Pause(WAIT_MS)
}

// A wait's: a read or a pause, or 10 after its last read.
#[tactic(auto, unfolding(crate::specs::Machine::waiting, crate::specs::Machine::looking))]
fn next_wait(tries: usize, register: u32, made: usize) -> Action
    ensures { result ≡ waiting tries register made }
{
    let reads = made / 2 + 1;
    if made % 2 == 1 && reads == tries {
        return Action::Refused(Refusal::Waited(register));
    }
    next_look(register, made)
}

// A change's: the read, then the write of what was read, changed.
#[tactic(auto, unfolding(crate::specs::Machine::changing))]
fn next_change(register: u32, clear: u32, set: u32, made: usize, value: u32) -> Action
    ensures { result ≡ changing register clear set made value }
{
    if made == 0 {
        return Action::Read(register);
    }
    Action::Write(register, card::changed_word(value, clear, set))
}

// An item's next action, if its register is in the map.
fn next_action(tries: usize, item: Item, made: usize, value: u32) -> Action
    ensures { result ≡ intended tries item made value }
{
    match item {
        Item::End => Action::Done,
        Item::Write(register, x) => Action::Write(register, x),
        Item::Read(register) => Action::Read(register),
        Item::Change(register, clear, set) => next_change(register, clear, set, made, value),
        Item::WaitSet(register, _) | Item::WaitClear(register, _) => {
            next_wait(tries, register, made)
        }
        Item::Pause(ms) => Action::Pause(ms),
        Item::Link(register) => next_look(register, made),
    }
}

// The register that an item names, if it names one.
fn register_of(item: Item) -> Option<u32>
    ensures { result ≡ named item }
{
    match item {
        Item::End | Item::Pause(_) => None,
        Item::Write(register, _)
        | Item::Read(register)
        | Item::Change(register, _, _)
        | Item::WaitSet(register, _)
        | Item::WaitClear(register, _)
        | Item::Link(register) => Some(register),
    }
}

// ---- the map

// A register is in the map.
#[tactic(auto, unfolding(crate::specs::Machine::in_map))]
pub fn in_map(map: u64, register: u32) -> bool
    ensures { result ≡ in_map map register }
{
    map >= 4 && register as u64 <= map - 4
}

// An item's register, if it has one, is in the map.
#[tactic(auto, unfolding(crate::specs::Machine::reachable))]
fn reaches(map: u64, item: Item) -> bool
    ensures { result ≡ reachable map item }
{
    match register_of(item) {
        Some(register) => in_map(map, register),
        None => true,
    }
}

// The registers of the items before a place are in the map. The highest of all comes early: past it none need be looked at.
fn passed(setup: Setup, place: usize) -> bool
    requires { Ranged setup }
    ensures { result ≡ all_passed setup place }
{
    let most = place.min(plan::HIGHEST_PLACE + 1);
    (0..most).all(|k| reaches(setup.map, plan::item_at(setup, k)))
}

// An item's next action, or 11 if its register is not in the map.
#[tactic(auto, unfolding(crate::specs::Machine::answer, crate::specs::Machine::reachable))]
fn answer_of(setup: &Setup, item: Item, made: usize, value: u32) -> Action
    ensures { result ≡ answer setup.now.map setup.now.tries item made value }
{
    match register_of(item) {
        Some(register) if !in_map(setup.map, register) => {
            Action::Refused(Refusal::OutsideMap(register))
        }
        _ => next_action(setup.tries, item, made, value),
    }
}

// ---- a step of a sound state

// An action and the state after it: one more action of the item is made, or a refusal is kept.
fn settle(state: State, action: Action) -> Stepped
    requires { state.made < 2 * TRIES }
    ensures { result ≡ settled state.setup state.place state.made action }
{
    let (made, kept) = match action {
        Action::Read(_) | Action::Write(_, _) | Action::Pause(_) => (state.made + 1, 0),
        Action::Done => (state.made, 0),
        Action::Refused(why) => (state.made, why.number() as u32),
    };
    Stepped {
        action,
        state: State {
            made,
            kept,
            ..state
        },
    }
}

// The refusal that a kept number stands for, of an item's register: 11 it is outside the map, else 10 its wait failed.
fn kept_refusal(kept: u32, register: u32) -> Refusal
    ensures { result ≡ kept_refusal kept register }
{
    match kept {
        11 => Refusal::OutsideMap(register),
        _ => Refusal::Waited(register),
    }
}

fn advance(state: State, value: u32) -> Stepped
    requires { Good state }
    ensures { result ≡ step_of state value }
{
    let item = plan::item_at(state.setup, state.place);
    if state.kept != 0 {
        let why = kept_refusal(state.kept, register_of(item).unwrap_or(0));
        return Stepped {
            action: Action::Refused(why),
            state,
        };
    }
    if is_over(item, state.made, value) {
        let next = State {
            place: state.place + 1,
            made: 0,
            ..state
        };
        let first = plan::item_at(next.setup, next.place);
        return settle(next, answer_of(&next.setup, first, 0, value));
    }
    settle(state, answer_of(&state.setup, item, state.made, value))
}

// ---- soundness

// The queue counts and the reads of a wait are in range.
#[tactic(auto, unfolding(crate::specs::Machine::in_range))]
fn in_range(receives: usize, sends: usize, tries: usize) -> bool
    ensures { result ≡ in_range receives sends tries }
{
    receives <= limits::QUEUES && sends <= limits::QUEUES && tries != 0 && tries <= limits::TRIES
}

// The interrupts can be had: none, or a known kind and a bit in the masks for each receive queue.
fn kind_ok(interrupts: Option<u64>, receives: usize) -> bool
    ensures { result ≡ kind_ok interrupts receives }
{
    match interrupts {
        None => true,
        Some(kind) => (kind == plan::MSI || kind == plan::MSIX) && receives <= SIGNALLED,
    }
}

// The set-up numbers pass.
#[tactic(auto, unfolding(crate::specs::Machine::setup_ok))]
fn setup_ok(setup: Setup) -> bool
    ensures { result ≡ setup_ok setup }
{
    in_range(setup.receives, setup.sends, setup.tries) && kind_ok(setup.interrupts, setup.receives)
}

fn is_wait(item: Item) -> bool
    ensures { result ≡ waits item }
{
    matches!(item, Item::WaitSet(_, _) | Item::WaitClear(_, _))
}

fn is_end(item: Item) -> bool
    ensures { result ≡ is_end item }
{
    matches!(item, Item::End)
}

// The actions made and the kept refusal's number are those of the item at a place: 10 a wait that failed, 11 a register outside the map.
#[tactic(auto, unfolding(crate::specs::Machine::kept_ok))]
fn kept_ok(state: &State, item: Item) -> bool
    requires { (0 < state.now.setup.tries) × (state.now.setup.tries ≤ TRIES) }
    ensures { result ≡ kept_ok state.now.setup.map state.now.setup.tries item state.now.place state.now.made state.now.kept }
{
    let map = state.setup.map;
    let tries = state.setup.tries;
    let made = state.made;
    match state.kept {
        0 if made == 0 => state.place == 0 || is_end(item),
        0 => reaches(map, item) && made <= cost_of(tries, item),
        10 => is_wait(item) && reaches(map, item) && made == cost_of(tries, item),
        11 => made == 0 && !reaches(map, item),
        _ => false,
    }
}

// A state is sound: its set-up numbers pass, and its place and kept refusal are its sequence's.
#[tactic(auto, unfolding(crate::specs::Machine::sound_of, crate::specs::Machine::setup_ok, crate::specs::Machine::in_range))]
pub fn is_sound(state: State) -> bool
    ensures { result ≡ sound_of state }
{
    setup_ok(state.setup)
        && state.place <= plan::count(state.setup)
        && passed(state.setup, state.place)
        && kept_ok(&state, plan::item_at(state.setup, state.place))
}

// ---- the calls

// A step: the next action, for the value last read. A state that is not sound gets 1 and stays; a refusal is repeated; after Done comes Done.
#[tactic(auto, unfolding(crate::specs::Machine::stepped))]
pub fn step(state: State, value: u32) -> Stepped
    ensures { result ≡ stepped state value }
{
    if is_sound(state) {
        return advance(state, value);
    }
    Stepped {
        action: Action::Refused(Refusal::Unsound),
        state,
    }
}

// The tests of a set-up: 9, 2 and 12, in that order.
#[tactic(auto, unfolding(crate::specs::SetUp::set_up_number, crate::specs::Machine::in_range))]
fn checked(
    receives: usize,
    sends: usize,
    tries: usize,
    interrupts: Option<u64>,
    count: usize,
) -> Result<(), Refusal>
    ensures { number_as result ≡ set_up_number receives sends tries interrupts count }
{
    if !in_range(receives, sends, tries) {
        return Err(Refusal::OutOfRange);
    }
    if count < receives + sends {
        return Err(Refusal::WrongSize);
    }
    if !kind_ok(interrupts, receives) {
        return Err(Refusal::NoInterrupt);
    }
    Ok(())
}

// The first addresses of a list, in an array of zeros.
fn copy(addresses: &[u64], count: usize) -> [u64; plan::RINGS]
    requires { (count ≤ RINGS) × (count ≤ length addresses.now) }
    ensures { result ≡ copied addresses.now count }
{
    let mut rings = [0; plan::RINGS];
    rings[..count].copy_from_slice(&addresses[..count]);
    rings
}

// The first state of a set-up.
fn start(setup: Setup) -> State
    ensures { result ≡ start setup }
{
    State {
        setup,
        place: 0,
        made: 0,
        kept: 0,
    }
}

// The state of a caller that has had none from a set-up: no reads to a wait, so it is not sound.
#[tactic(auto, unfolding(crate::specs::SetUp::no_state))]
pub fn no_state() -> State
    ensures { result ≡ no_state }
{
    start(Setup {
        map: 0,
        receives: 0,
        sends: 0,
        tries: 0,
        interrupts: None,
        rate: 0,
        rings: [0; plan::RINGS],
    })
}

// A set-up: 9 for a number out of range, 2 for fewer addresses than queues, 12 for interrupts that can't be had; else the first state.
// The addresses are copied. Map length and throttle rate are taken as they are. The numbers come one by one, as docs/PROMISES.md (`begun`) has
// them, and not as a `Setup`, whose array of rings is this call's to fill.
#[tactic(auto, unfolding(crate::specs::SetUp::begun, crate::specs::SetUp::set_up_number, crate::specs::Machine::in_range))]
pub fn set_up(
    map: u64,
    receives: usize,
    sends: usize,
    tries: usize,
    interrupts: Option<u64>,
    rate: u32,
    addresses: &[u64],
) -> Result<State, Refusal>
    ensures { begun_as result ≡ begun map receives sends tries interrupts rate addresses.now }
{
    checked(receives, sends, tries, interrupts, addresses.len())?;
    let rings = copy(addresses, receives + sends);
    Ok(start(Setup {
        map,
        receives,
        sends,
        tries,
        interrupts,
        rate,
        rings,
    }))
}

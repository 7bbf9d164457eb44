// The calls on one packet and the counts, for an account that is known to be sound: they make every test but that one. Ported from src/memory.rs.
// Beside each stands its verdict. The calls of crate `calls` make the soundness test first, and then call these. A batch is in crate `batches`.

#![tactic(auto)]

ghost use Rattle.std.specs.Prelude.{◌≡◌, true, ◌≤◌, ◌<◌, take, Ok};
ghost use Rattle.limits.specs.Limits.{ENTRIES};
ghost use Rattle.laws.specs.Occurs.{occurs, up_from};
ghost use Rattle.pool.specs.Stack.{top};
ghost use Rattle.pool.specs.Hands.{HAND-OUT};
ghost use Rattle.rules.specs.Results.{says, counts_as, taken_as, kept_as, truncated_as};
ghost use Rattle.rules.specs.Account.{opened};
ghost use Rattle.rules.specs.Sound.{is_good, queues_placed, sound};
ghost use Rattle.rules.specs.Refusals.{take_verdict, handle_verdict};
ghost use Rattle.rules.specs.Packets.{packet_of, taken, take_call, counts_of, counts_call, released, release_call, shortened, truncate_call};

use limits::{ENTRIES, HEADROOM, SENDS, SLOTS};
use pool::{FreeStack, HAND_FREE, HAND_OUT, Handle, Popped};
use refusals::Refusal;
use rules::{Account, Counts};

// ---- a new account

// The ids from 0 up.
fn count_up() -> [u16; ENTRIES]
    ensures { result ≡ up_from 0 ENTRIES }
{
    std::array::from_fn(|id| id as u16)
}

// An account with its first ids free, and nothing started or sent.
pub fn open(pool: u32, entries: usize, size: usize, receives: usize, sends: usize) -> Account
    ensures { result ≡ opened pool entries size receives sends }
{
    let ids = count_up();
    Account {
        pool,
        entries,
        size,
        receives,
        sends,
        free: FreeStack {
            ids,
            depth: entries,
        },
        hands: [HAND_FREE; ENTRIES],
        started: false,
        rx: 0,
        slots: [0; SLOTS],
        sent: [0; SENDS * SLOTS],
        clean: [0; SENDS],
        tx: [0; SENDS],
    }
}

// ---- one packet

// Whether a packet of so many bytes can be taken.
pub fn take_verdict(account: &Account, len: usize) -> Result<(), Refusal>
    requires { sound account.now ≡ true }
    ensures { says result ≡ take_verdict account.now len }
{
    if account.size - HEADROOM < len {
        return Err(Refusal::TooLarge);
    }
    if account.free.depth == 0 {
        return Err(Refusal::NoneFree);
    }
    Ok(())
}

// The top of the free stack goes to the application, as a packet of so many bytes.
pub fn take_top(account: &mut Account, len: u16) -> Handle
    requires { (0 < account.old.free.depth) × (account.old.free.depth ≤ ENTRIES) × (top account.old.free < ENTRIES) }
    ensures handle { result ≡ packet_of account.old.pool (top account.old.free) len }
    ensures leaves { account.new ≡ taken account.old }
{
    let Popped { id, stack } = account.free.pop();
    account.free = stack;
    account.hands[id as usize] = HAND_OUT;
    Handle {
        pool: account.pool,
        id,
        offset: HEADROOM as u16,
        length: len,
    }
}

// One packet.
pub fn take(account: &mut Account, len: usize) -> Result<Handle, Refusal>
    requires { sound account.old ≡ true }
    ensures { taken_as result account.new ≡ take_call account.old len }
{
    take_verdict(account, len)?;
    Ok(take_top(account, len as u16))
}

// ---- release and truncate

// Whether a handle is good. It stands beside `Handle::is_good`: docs/PROMISES.md names it, of an account.
pub fn is_good(account: &Account, handle: Handle) -> bool
    requires { sound account.now ≡ true }
    ensures { result ≡ is_good account.now handle }
{
    handle.is_good(account.pool, account.entries, account.size, &account.hands)
}

// Whether a handle can be released or truncated.
pub fn handle_verdict(account: &Account, handle: Handle) -> Result<(), Refusal>
    requires { sound account.now ≡ true }
    ensures { says result ≡ handle_verdict account.now handle }
{
    if is_good(account, handle) {
        Ok(())
    } else {
        Err(Refusal::BadHandle(0))
    }
}

// The buffer of a good handle goes onto the free stack.
fn push_back(account: &mut Account, handle: Handle)
    requires { (sound account.old ≡ true) × (is_good account.old handle ≡ true) }
    ensures { account.new ≡ released account.old handle.id }
{
    account.free = account.free.push(handle.id);
    account.hands[handle.id as usize] = HAND_FREE;
}

// A packet's buffer is free again.
pub fn release(account: &mut Account, handle: Handle) -> Result<(), Refusal>
    requires { sound account.old ≡ true }
    ensures { kept_as result account.new ≡ release_call account.old handle }
{
    handle_verdict(account, handle)?;
    push_back(account, handle);
    Ok(())
}

// A packet at most so many bytes long.
pub fn truncate(account: &Account, handle: Handle, len: usize) -> Result<Handle, Refusal>
    requires { sound account.now ≡ true }
    ensures { truncated_as result handle ≡ truncate_call account.now handle len }
{
    handle_verdict(account, handle)?;
    Ok(shorten(handle, len))
}

// A handle at most so many bytes long.
fn shorten(handle: Handle, len: usize) -> Handle
    ensures { result ≡ shortened handle len }
{
    Handle {
        length: len.min(handle.length as usize) as u16,
        ..handle
    }
}

// ---- the counts

// How many of the first ids are recorded as out.
#[tactic(auto, using(crate::proofs::Counted::counts_occur))]
fn count_out(entries: usize, hands: &[u8; ENTRIES]) -> usize
    requires { entries ≤ ENTRIES }
    ensures { result ≡ occurs HAND-OUT (take entries hands.now) }
{
    hands[..entries]
        .iter()
        .filter(|hand| **hand == HAND_OUT)
        .count()
}

// How many slots wait to be cleaned, for each queue that there is.
fn send_counts(sends: usize, clean: &[usize; SENDS], tx: &[usize; SENDS]) -> [usize; SENDS]
    requires { queues_placed sends clean.now tx.now ≡ true }
    ensures { result ≡ counts_of sends clean.now tx.now }
{
    std::array::from_fn(|q| {
        if q < sends {
            lists::pending(tx[q], clean[q])
        } else {
            0
        }
    })
}

// How many buffers each hand has.
pub fn counts(account: &Account) -> Counts
    requires { sound account.now ≡ true }
    ensures { counts_as (Ok result) ≡ counts_call account.now }
{
    Counts {
        free: account.free.depth,
        receive: if account.started { SLOTS } else { 0 },
        send: send_counts(account.sends, &account.clean, &account.tx),
        out: count_out(account.entries, &account.hands),
    }
}

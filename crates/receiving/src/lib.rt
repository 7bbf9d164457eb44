// The calls on the receive ring, for an account that is known to be sound: they make every test but that one. Beside each stands its verdict.
// The calls of crate `calls` make the soundness test first, and then call these. Ported from IxgbeDevice of src/ixgbe.rs.

#![tactic(auto)]

ghost use Rattle.std.specs.Prelude.{◌≡◌, true, ◌<◌};
ghost use Rattle.limits.specs.Limits.{SLOTS};
ghost use Rattle.rules.specs.Handles.{handles};
ghost use Rattle.rules.specs.Results.{says, tail_as, start_as, receive_as};
ghost use Rattle.rules.specs.Sound.{sound};
ghost use Rattle.rules.specs.Refusals.{start_verdict, receive_verdict};
ghost use Rattle.rules.specs.Receive.{started_as, start_call, tail_after, received_as, receive_call};

use limits::SLOTS;
use refusals::Refusal;
use rules::{Account, Received};

// ---- start

// Whether the receive ring can start.
#[tactic(auto, unfolding(rules::specs::Refusals::start_verdict))]
pub fn start_verdict(
    account: &Account,
    q: usize,
    ring: &[u8],
    addresses: &[u64],
) -> Result<(), Refusal>
    requires { sound account.now ≡ true }
    ensures { says result ≡ start_verdict account.now q ring.now addresses.now }
{
    if !lists::rings_fit(account.entries, ring, addresses) {
        return Err(Refusal::WrongSize);
    }
    if account.receives <= q {
        return Err(Refusal::NoQueue);
    }
    if account.started {
        return Err(Refusal::NotNow);
    }
    if account.free.depth < SLOTS {
        return Err(Refusal::NoneFree);
    }
    Ok(())
}

// Fills the receive ring with buffers, and answers the tail.
#[tactic(auto, unfolding(rules::specs::Receive::start_call))]
pub fn start(
    account: &mut Account,
    q: usize,
    ring: &mut [u8],
    addresses: &[u64],
) -> Result<usize, Refusal>
    requires { sound account.old ≡ true }
    ensures { started_as (start_as result account.new) ring.new ≡ start_call account.old q ring.old addresses.now }
{
    start_verdict(account, q, ring, addresses)?;
    account.free.depth = rings::fill(
        ring,
        addresses,
        &account.free.ids,
        account.free.depth,
        &mut account.hands,
        &mut account.slots,
    );
    account.started = true;
    account.rx = 0;
    Ok(SLOTS - 1)
}

// ---- receive

// Whether frames can be received.
#[tactic(auto, unfolding(rules::specs::Refusals::receive_verdict))]
pub fn receive_verdict(
    account: &Account,
    q: usize,
    ring: &[u8],
    addresses: &[u64],
    n: usize,
    pools: &[u32],
    ids: &[u16],
    offsets: &[u16],
    lengths: &[u16],
) -> Result<(), Refusal>
    requires { sound account.now ≡ true }
    ensures { says result ≡ receive_verdict account.now q ring.now addresses.now n (handles pools.now ids.now offsets.now lengths.now) }
{
    if !(lists::rings_fit(account.entries, ring, addresses)
        && lists::has_room(n.min(SLOTS), pools, ids, offsets, lengths))
    {
        return Err(Refusal::WrongSize);
    }
    if account.receives <= q {
        return Err(Refusal::NoQueue);
    }
    if !account.started {
        return Err(Refusal::NotNow);
    }
    Ok(())
}

// The tail after a receive: the last slot taken, if any.
fn tail_after(count: usize, rx: usize) -> Option<usize>
    requires { rx < SLOTS }
    ensures { tail_as result ≡ tail_after count rx }
{
    if count == 0 {
        return None;
    }
    Some((rx + (SLOTS - 1)) % SLOTS)
}

// Takes up to n frames off the receive ring, into the lists.
#[tactic(auto, unfolding(rules::specs::Receive::receive_call))]
pub fn receive(
    account: &mut Account,
    q: usize,
    ring: &mut [u8],
    addresses: &[u64],
    n: usize,
    pools: &mut [u32],
    ids: &mut [u16],
    offsets: &mut [u16],
    lengths: &mut [u16],
) -> Result<Received, Refusal>
    requires { sound account.old ≡ true }
    ensures { received_as (receive_as result account.new) ring.new (handles pools.new ids.new offsets.new lengths.new) ≡ receive_call account.old q ring.old addresses.now n (handles pools.old ids.old offsets.old lengths.old) }
{
    receive_verdict(account, q, ring, addresses, n, pools, ids, offsets, lengths)?;
    let run = rings::receive(
        account.pool,
        account.size,
        n,
        ring,
        addresses,
        &account.free.ids,
        account.free.depth,
        &mut account.hands,
        &mut account.slots,
        account.rx,
        pools,
        ids,
        offsets,
        lengths,
    );
    account.free.depth = run.depth;
    account.rx = run.rx;
    Ok(Received {
        stop: run.stop,
        count: run.count,
        tail: tail_after(run.count, run.rx),
    })
}

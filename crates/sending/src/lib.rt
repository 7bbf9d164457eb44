// The send call, for an account that is known to be sound: it makes every test but that one. Beside it stands its verdict. The call of crate
// `calls` makes the soundness test first, and then calls this. Ported from tx_batch of src/ixgbe.rs.

#![tactic(auto)]

ghost use Rattle.std.specs.Prelude.{◌≡◌, true, get_or, length, ◌<◌, min, Ok};
ghost use Rattle.limits.specs.Limits.{SENDS, SLOTS};
ghost use Rattle.rules.specs.Verdict.{Done};
ghost use Rattle.rules.specs.Handles.{handles};
ghost use Rattle.rules.specs.Account.{waiting};
ghost use Rattle.rules.specs.Sound.{sound};
ghost use Rattle.rules.specs.Refusals.{send_verdict};
ghost use Rattle.rules.specs.Send.{cleaned, room_for, sent_after, sent_as, send_end, send_call};
ghost use Rattle.rules.specs.Results.{says, send_as};

use limits::{BATCH, SLOTS};
use refusals::Refusal;
use rules::{Account, Sent};

// Whether a list of packets can be sent. Its ids are marked in the account's own record of hands, and the marks are taken away again.
#[tactic(auto, unfolding(rules::specs::Refusals::send_verdict))]
pub fn send_verdict(
    account: &mut Account,
    q: usize,
    ring: &[u8],
    addresses: &[u64],
    pools: &[u32],
    ids: &[u16],
    offsets: &[u16],
    lengths: &[u16],
) -> Result<(), Refusal>
    requires { sound account.old ≡ true }
    ensures says { says result ≡ send_verdict account.old q ring.now addresses.now (handles pools.now ids.now offsets.now lengths.now) }
    ensures leaves { account.new ≡ account.old }
{
    if !lists::rings_fit(account.entries, ring, addresses)
        || !lists::has_room(ids.len(), pools, ids, offsets, lengths)
    {
        return Err(Refusal::WrongSize);
    }
    if account.sends <= q {
        return Err(Refusal::NoQueue);
    }
    let run = sends::good_run(
        account.pool,
        account.entries,
        account.size,
        &mut account.hands,
        pools,
        ids,
        offsets,
        lengths,
    );
    if run < ids.len() {
        return Err(Refusal::BadHandle(run));
    }
    Ok(())
}

// How many of n packets are sent: as many as a ring with these indices has room for.
fn fitting(n: usize, tx: usize, clean: usize) -> usize
    requires { (tx < SLOTS) × (clean < SLOTS) }
    ensures { result ≡ min n (room_for (waiting tx clean)) }
{
    let room = SLOTS - 1 - lists::pending(tx, clean);
    n.min(room)
}

// A send that is not refused: cleaning, then as many packets as fit.
fn run_send(
    account: &mut Account,
    q: usize,
    ring: &mut [u8],
    addresses: &[u64],
    pools: &[u32],
    ids: &[u16],
    offsets: &[u16],
    lengths: &[u16],
) -> Sent
    requires { (q < SENDS) × (send_verdict account.old q ring.old addresses.now (handles pools.now ids.now offsets.now lengths.now) ≡ Done) }
    ensures { sent_as (send_as (Ok result) account.new) ring.new ≡ send_end account.old q (cleaned account.old q ring.old) (sent_after account.old q ring.old addresses.now (handles pools.now ids.now offsets.now lengths.now) (cleaned account.old q ring.old)) }
{
    let tx = account.tx[q];
    let end = sends::clean(
        BATCH,
        ring,
        &account.sent,
        q,
        tx,
        account.clean[q],
        &mut account.free.ids,
        account.free.depth,
        &mut account.hands,
    );
    let count = fitting(ids.len(), tx, end.clean);
    let tail = sends::send(
        q,
        count,
        ring,
        addresses,
        &mut account.hands,
        &mut account.sent,
        tx,
        pools,
        ids,
        offsets,
        lengths,
    );
    account.free.depth = end.depth;
    account.clean[q] = end.clean;
    account.tx[q] = tail;
    Sent { count, tail }
}

// Sends the packets of a list that fit, after cleaning. A refused call leaves the account and the ring as they were.
#[tactic(auto, unfolding(rules::specs::Send::send_call))]
pub fn send(
    account: &mut Account,
    q: usize,
    ring: &mut [u8],
    addresses: &[u64],
    pools: &[u32],
    ids: &[u16],
    offsets: &[u16],
    lengths: &[u16],
) -> Result<Sent, Refusal>
    requires { sound account.old ≡ true }
    ensures { sent_as (send_as result account.new) ring.new ≡ send_call account.old q ring.old addresses.now (handles pools.now ids.now offsets.now lengths.now) }
{
    send_verdict(account, q, ring, addresses, pools, ids, offsets, lengths)?;
    Ok(run_send(account, q, ring, addresses, pools, ids, offsets, lengths))
}

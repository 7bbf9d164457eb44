// A batch of packets, for an account that is known to be sound: it makes every test but that one. Ported from src/memory.rs.
// The call of crate `calls` makes the soundness test first, and then calls this.

#![tactic(auto)]

ghost use Rattle.std.specs.Prelude.{◌≡◌, true, ◌<◌, ◌≤◌, Ok};
ghost use Rattle.limits.specs.Limits.{ENTRIES};
ghost use Rattle.pool.specs.Stack.{top};
ghost use Rattle.rules.specs.Handles.{handles};
ghost use Rattle.rules.specs.Sound.{sound};
ghost use Rattle.rules.specs.Refusals.{batch_of};
ghost use Rattle.rules.specs.Results.{batch_as};
ghost use Rattle.rules.specs.Packets.{packet_of, taken, take_many, taking_of, batched, batch_end, batch_call};
ghost use Rattle.batches.specs.Takable.{Takable};

use limits::HEADROOM;
use pool::{HAND_OUT, Handle};
use refusals::Refusal;
use rules::Account;

// The packet at the top of the stack, taken in place: `packets::take_top` pops the stack by value, which a batch would pay for each of its packets.
#[tactic(auto, unfolding(rules::specs::Packets::taken))]
fn take_next(account: &mut Account, len: u16) -> Handle
    requires { (0 < account.old.free.depth) × (account.old.free.depth ≤ ENTRIES) × (top account.old.free < ENTRIES) }
    ensures handle { result ≡ packet_of account.old.pool (top account.old.free) len }
    ensures leaves { account.new ≡ taken account.old }
{
    let at = account.free.depth - 1;
    let id = account.free.ids[at];
    account.free.depth = at;
    account.hands[id as usize] = HAND_OUT;
    Handle {
        pool: account.pool,
        id,
        offset: HEADROOM as u16,
        length: len,
    }
}

// As many packets as asked for, off the top of the stack, into the lists.
fn take_many(
    account: &mut Account,
    len: u16,
    most: usize,
    pools: &mut [u32],
    ids: &mut [u16],
    offsets: &mut [u16],
    lengths: &mut [u16],
)
    requires { Takable most account.old.free.ids account.old.free.depth (handles pools.old ids.old offsets.old lengths.old) }
    ensures { batch_end account.old (take_many account.old.pool len most (taking_of account.old (handles pools.old ids.old offsets.old lengths.old))) ≡ batched (batch_as (Ok most) account.new) (handles pools.new ids.new offsets.new lengths.new) }
{
    // By number: it is a place of the four lists, so that an iterator over one would be counted too, and is no plainer.
    for count in 0..most {
        let handle = take_next(account, len);
        lists::put(pools, ids, offsets, lengths, count, handle);
    }
}

// A batch of 0 takes one.
fn batch_of(n: usize) -> usize
    ensures { result ≡ batch_of n }
{
    n.max(1)
}

// A batch of packets, as many as there are. An oversize batch takes none. Answers how many there were.
pub fn batch(
    account: &mut Account,
    n: usize,
    len: usize,
    pools: &mut [u32],
    ids: &mut [u16],
    offsets: &mut [u16],
    lengths: &mut [u16],
) -> Result<usize, Refusal>
    requires { sound account.old ≡ true }
    ensures { batched (batch_as result account.new) (handles pools.new ids.new offsets.new lengths.new) ≡ batch_call account.old n len (handles pools.old ids.old offsets.old lengths.old) }
{
    let asked = batch_of(n);
    let room = asked.min(account.entries);
    if !lists::has_room(room, pools, ids, offsets, lengths) {
        return Err(Refusal::WrongSize);
    }
    if account.size - HEADROOM < len {
        return Ok(0);
    }
    let most = asked.min(account.free.depth);
    take_many(account, len as u16, most, pools, ids, offsets, lengths);
    Ok(most)
}

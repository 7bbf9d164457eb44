// The public calls of the account. None asks anything of its caller: each tests the account first, refuses by document 01's table, and
// leaves everything as it was where it refuses. Lists of handles are parallel slices of numbers, and a refused view or headroom is a part with its number
// beside it, as document 01 has them ("first written over parallel number lists"; "its number comes from a call beside it").

#![tactic(auto)]

ghost use Rattle.std.specs.Prelude.{◌≡◌, true, false, IfOk, IfErr};
ghost use denote.MutBor.{as_bor};
ghost use Rattle.refusals.specs.declared.Refusal.TheVariants.{Unsound};
ghost use Rattle.rules.specs.Numbers.{number as number_of};
ghost use Rattle.rules.specs.Results.{says, fresh_as, counts_as, taken_as, batch_as, kept_as, truncated_as, start_as, receive_as, send_as};
ghost use Rattle.rules.specs.Handles.{handles};
ghost use Rattle.rules.specs.Account.{no_account};
ghost use Rattle.rules.specs.Sound.{sound};
ghost use Rattle.rules.specs.Refusals.{size_given, view_verdict, headroom_verdict};
ghost use Rattle.rules.specs.Packets.{fresh_call, counts_call, take_call, batched, batch_call, release_call, truncate_call, cloned_as, clone_call, lent, view_call, headroom_call};
ghost use Rattle.rules.specs.Receive.{started_as, start_call, received_as, receive_call};
ghost use Rattle.rules.specs.Send.{sent_as, send_call};

use limits::USUAL_SIZE;
use pool::Handle;
use refusals::Refusal;
use rules::{Account, Counts, Received, Sent};

// Document 01's number of an answer: 0 is done. That of a refusal is its own method.
pub fn number<T>(answer: &Result<T, Refusal>) -> u64
    ensures { result ≡ number_of (says answer.now) }
{
    match answer {
        Ok(_) => 0,
        Err(why) => why.number(),
    }
}

// The test that every call makes first.
fn tested(account: &Account) -> Result<(), Refusal>
    ensures done { IfOk result (λ _. sound account.now ≡ true) }
    ensures refused { IfErr result (λ why. (why ≡ Unsound) × (sound account.now ≡ false)) }
{
    if sound::is_sound(account) {
        Ok(())
    } else {
        Err(Refusal::Unsound)
    }
}

// The entry size that is meant: a given 0 means the usual one.
fn size_given(size: usize) -> usize
    ensures { result ≡ size_given size }
{
    if size == 0 { USUAL_SIZE } else { size }
}

// The account that a host has before a fresh one is done: every call refuses it.
pub fn no_account() -> Account
    ensures { result ≡ no_account }
{
    packets::open(0, 0, 0, 0, 0)
}

// A fresh account.
pub fn fresh(
    pool: u32,
    entries: usize,
    size: usize,
    receives: usize,
    sends: usize,
) -> Result<Account, Refusal>
    ensures { fresh_as result ≡ fresh_call pool entries size receives sends }
{
    let given = size_given(size);
    if !sound::in_range(entries, given, receives, sends) {
        return Err(Refusal::OutOfRange);
    }
    Ok(packets::open(pool, entries, given, receives, sends))
}

// How many buffers each hand has.
#[tactic(auto, unfolding(rules::specs::Refusals::counts_verdict, rules::specs::Packets::counts_call))]
pub fn counts(account: &Account) -> Result<Counts, Refusal>
    ensures { counts_as result ≡ counts_call account.now }
{
    tested(account)?;
    Ok(packets::counts(account))
}

// One packet.
#[tactic(auto, unfolding(rules::specs::Refusals::take_verdict, rules::specs::Packets::take_call))]
pub fn take(account: &mut Account, len: usize) -> Result<Handle, Refusal>
    ensures { taken_as result account.new ≡ take_call account.old len }
{
    tested(account)?;
    packets::take(account, len)
}

// A batch of packets, into the lists. Answers how many there were.
#[tactic(auto, unfolding(rules::specs::Refusals::batch_verdict, rules::specs::Packets::batch_call))]
pub fn batch(
    account: &mut Account,
    n: usize,
    len: usize,
    pools: &mut [u32],
    ids: &mut [u16],
    offsets: &mut [u16],
    lengths: &mut [u16],
) -> Result<usize, Refusal>
    ensures { batched (batch_as result account.new) (handles pools.new ids.new offsets.new lengths.new) ≡ batch_call account.old n len (handles pools.old ids.old offsets.old lengths.old) }
{
    tested(account)?;
    batches::batch(account, n, len, pools, ids, offsets, lengths)
}

// A packet's buffer is free again.
#[tactic(auto, unfolding(rules::specs::Refusals::handle_verdict, rules::specs::Packets::release_call))]
pub fn release(account: &mut Account, handle: Handle) -> Result<(), Refusal>
    ensures { kept_as result account.new ≡ release_call account.old handle }
{
    tested(account)?;
    packets::release(account, handle)
}

// A packet at most so many bytes long.
#[tactic(auto, unfolding(rules::specs::Refusals::handle_verdict, rules::specs::Packets::truncate_call))]
pub fn truncate(account: &Account, handle: Handle, len: usize) -> Result<Handle, Refusal>
    ensures { truncated_as result handle ≡ truncate_call account.now handle len }
{
    tested(account)?;
    packets::truncate(account, handle, len)
}

// A packet of the same length, with its bytes copied.
#[tactic(auto, unfolding(rules::specs::Refusals::clone_verdict, rules::specs::Packets::clone_call))]
pub fn clone(account: &mut Account, handle: Handle, memory: &mut [u8]) -> Result<Handle, Refusal>
    ensures { cloned_as (taken_as result account.new) memory.new ≡ clone_call account.old handle memory.old }
{
    tested(account)?;
    memory::clone(account, handle, memory)
}

// Whether a packet's part can be viewed.
#[tactic(auto, unfolding(rules::specs::Refusals::view_verdict))]
pub fn view_verdict(account: &Account, handle: Handle, bytes: usize) -> Result<(), Refusal>
    ensures { says result ≡ view_verdict account.now handle bytes }
{
    tested(account)?;
    memory::view_verdict(account, handle, bytes)
}

// A packet's own part of packet memory. A refusal is the empty part at its start.
#[tactic(auto, unfolding(rules::specs::Refusals::view_verdict, rules::specs::Packets::view_call))]
pub fn view<'a>(account: &Account, handle: Handle, memory: &'a [u8]) -> &'a [u8]
    ensures { lent result ≡ view_call account.now handle (lent memory.entry) }
{
    if !sound::is_sound(account) {
        return &memory[0..0];
    }
    memory::view(account, handle, memory)
}

// Whether so much headroom can be lent.
#[tactic(auto, unfolding(rules::specs::Refusals::headroom_verdict))]
pub fn headroom_verdict(
    account: &Account,
    handle: Handle,
    asked: usize,
    bytes: usize,
) -> Result<(), Refusal>
    ensures { says result ≡ headroom_verdict account.now handle asked bytes }
{
    tested(account)?;
    memory::headroom_verdict(account, handle, asked, bytes)
}

// The part just before a packet, for writing. A refusal is the empty part at the start of packet memory.
#[tactic(auto, unfolding(rules::specs::Refusals::headroom_verdict, rules::specs::Packets::headroom_call))]
pub fn headroom<'a>(
    account: &Account,
    handle: Handle,
    asked: usize,
    memory: &'a mut [u8],
) -> &'a mut [u8]
    ensures { lent (as_bor result) ≡ headroom_call account.now handle asked (lent (as_bor memory.entry)) }
{
    if !sound::is_sound(account) {
        return &mut memory[0..0];
    }
    memory::headroom(account, handle, asked, memory)
}

// Fills the receive ring with buffers. Answers the tail.
#[tactic(auto, unfolding(rules::specs::Refusals::start_verdict, rules::specs::Receive::start_call))]
pub fn start(
    account: &mut Account,
    q: usize,
    ring: &mut [u8],
    addresses: &[u64],
) -> Result<usize, Refusal>
    ensures { started_as (start_as result account.new) ring.new ≡ start_call account.old q ring.old addresses.now }
{
    tested(account)?;
    receiving::start(account, q, ring, addresses)
}

// Takes up to n frames off the receive ring, into the lists.
#[tactic(auto, unfolding(rules::specs::Refusals::receive_verdict, rules::specs::Receive::receive_call))]
pub fn receive(
    account: &mut Account,
    q: usize,
    ring: &mut [u8],
    addresses: &[u64],
    n: usize,
    pools: &mut [u32],
    ids: &mut [u16],
    offsets: &mut [u16],
    lengths: &mut [u16],
) -> Result<Received, Refusal>
    ensures { received_as (receive_as result account.new) ring.new (handles pools.new ids.new offsets.new lengths.new) ≡ receive_call account.old q ring.old addresses.now n (handles pools.old ids.old offsets.old lengths.old) }
{
    tested(account)?;
    receiving::receive(account, q, ring, addresses, n, pools, ids, offsets, lengths)
}

// Sends the packets of a list that fit, after cleaning.
#[tactic(auto, unfolding(rules::specs::Refusals::send_verdict, rules::specs::Send::send_call))]
pub fn send(
    account: &mut Account,
    q: usize,
    ring: &mut [u8],
    addresses: &[u64],
    pools: &[u32],
    ids: &[u16],
    offsets: &[u16],
    lengths: &[u16],
) -> Result<Sent, Refusal>
    ensures { sent_as (send_as result account.new) ring.new ≡ send_call account.old q ring.old addresses.now (handles pools.now ids.now offsets.now lengths.now) }
{
    tested(account)?;
    sending::send(account, q, ring, addresses, pools, ids, offsets, lengths)
}

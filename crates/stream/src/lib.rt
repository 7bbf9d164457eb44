// What the bench program's records answer and leave on the bench's state. The account is known to be sound, so no record pays a test of it. What
// their bytes mean, and what the card's records do to the rings, stands in `records`; what each hand has, the last handle of each id, and what the
// records that need no ring answer stand in `tally`. Document 01, "The bench program". What the bench lends travels as slices: out of a struct of them a part
// of one can't be lent beside parts of others, which the language's proofs do not cover.

#![tactic(auto)]

ghost use Rattle.std.specs.Prelude.{◌≡◌, Some, true, ◌+◌, ◌*◌, ◌≤◌, ◌<◌, length, take};
ghost use Rattle.limits.specs.Limits.{ENTRIES, SLOTS};
ghost use Rattle.rules.specs.Handles.{handles, Room};
ghost use Rattle.rules.specs.Sound.{sound};
ghost use Rattle.records.specs.declared.Record.TheVariants as Record;
ghost use Rattle.records.specs.Records.{record_of};
ghost use Rattle.records.specs.Card.{SEND-BYTES};
ghost use Rattle.tally.specs.Tally.{memory_as, answer_as};
ghost use Rattle.stream.specs.Bench.{send_lists, remember_all, start_answered, start_answer, receive_answered, receive_answer, send_answered, send_answer, bench_as, Bench, outcome_as, call_rule};

use limits::ENTRIES;
use records::{Call, RING_BYTES};
use refusals::Refusal;
use rules::Account;
use tally::Answer;

// ---- remembered handles

// The first handles of a list are remembered.
fn remember(
    count: usize,
    ids: &[u16],
    froms: &[u16],
    sizes: &[u16],
    offsets: &mut [u16],
    lengths: &mut [u16],
)
    requires { (length offsets.old ≡ ENTRIES) × (length lengths.old ≡ ENTRIES) × (count ≤ length ids.now) × (count ≤ length froms.now) × (count ≤ length sizes.now) }
    ensures { memory_as offsets.new lengths.new ≡ remember_all ids.now froms.now sizes.now 0 count (memory_as offsets.old lengths.old) }
{
    for ((&id, &from), &size) in ids[..count].iter().zip(froms).zip(sizes) {
        let at = id as usize;
        if at < ENTRIES {
            offsets[at] = from;
            lengths[at] = size;
        }
    }
}

// The ids of a send with their last handles, as lists.
fn gather(
    rest: &[u8],
    count: usize,
    offsets: &[u16],
    lengths: &[u16],
    pools: &mut [u32],
    ids: &mut [u16],
    froms: &mut [u16],
    sizes: &mut [u16],
)
    requires { (6 + 2 * count ≤ length rest.now) × (length offsets.now ≡ ENTRIES) × (length lengths.now ≡ ENTRIES) × Room count (handles pools.old ids.old froms.old sizes.old) }
    ensures { handles (take count pools.new) (take count ids.new) (take count froms.new) (take count sizes.new) ≡ send_lists rest.now count (memory_as offsets.now lengths.now) }
{
    // By number: it is the place of the id's bytes too, and a zip of the four lists and the bytes is four pairs deep.
    for i in 0..count {
        let id = words::read(rest, 6 + 2 * i, 2) as u16;
        let handle = tally::last_handle(id, offsets, lengths);
        pools[i] = handle.pool;
        ids[i] = handle.id;
        froms[i] = handle.offset;
        sizes[i] = handle.length;
    }
}

// ---- records on a sound account

// The receive ring starts; the value is the tail.
fn start(account: &mut Account, rx: &mut [u8], addresses: &[u64]) -> Answer
    requires { sound account.old ≡ true }
    ensures { start_answered (answer_as result account.new) rx.new ≡ start_answer account.old rx.old addresses.now }
{
    tally::whole(account);
    let outcome = receiving::start(account, 0, rx, addresses);
    tally::answered(outcome, account)
}

// Frames are received into the lists, and their handles remembered; the value is their count.
fn receive(
    account: &mut Account,
    n: usize,
    rx: &mut [u8],
    addresses: &[u64],
    offsets: &mut [u16],
    lengths: &mut [u16],
    pools: &mut [u32],
    ids: &mut [u16],
    froms: &mut [u16],
    sizes: &mut [u16],
) -> Answer
    requires { (sound account.old ≡ true) × (length offsets.old ≡ ENTRIES) × (length lengths.old ≡ ENTRIES) × Room SLOTS (handles pools.old ids.old froms.old sizes.old) }
    ensures { receive_answered (answer_as result account.new) rx.new (memory_as offsets.new lengths.new) ≡ receive_answer account.old n rx.old addresses.now (memory_as offsets.old lengths.old) }
{
    tally::whole(account);
    match receiving::receive(account, 0, rx, addresses, n, pools, ids, froms, sizes) {
        Err(why) => tally::answered(Err(why), account),
        Ok(received) => {
            remember(received.count, ids, froms, sizes, offsets, lengths);
            tally::answered(Ok(received.count), account)
        }
    }
}

// The listed ids are sent by their last handles; the value is how many were.
fn send(
    account: &mut Account,
    queue: usize,
    count: usize,
    rest: &[u8],
    tx: &mut [u8],
    addresses: &[u64],
    offsets: &[u16],
    lengths: &[u16],
    pools: &mut [u32],
    ids: &mut [u16],
    froms: &mut [u16],
    sizes: &mut [u16],
) -> Answer
    requires { (sound account.old ≡ true) × (length tx.old ≡ SEND-BYTES) × (6 + 2 * count ≤ length rest.now) × (length addresses.now ≡ account.old.entries) × (length offsets.now ≡ ENTRIES) × (length lengths.now ≡ ENTRIES) × Room count (handles pools.old ids.old froms.old sizes.old) }
    ensures { send_answered (answer_as result account.new) tx.new ≡ send_answer account.old queue (send_lists rest.now count (memory_as offsets.now lengths.now)) addresses.now tx.old }
{
    if account.sends <= queue {
        return tally::answered(Err(Refusal::NoQueue), account);
    }
    tally::whole(account);
    gather(rest, count, offsets, lengths, pools, ids, froms, sizes);
    let from = queue * RING_BYTES;
    match sending::send(
        account,
        queue,
        &mut tx[from..from + RING_BYTES],
        addresses,
        &pools[..count],
        &ids[..count],
        &froms[..count],
        &sizes[..count],
    ) {
        Err(why) => tally::answered(Err(why), account),
        Ok(sent) => tally::answered(Ok(sent.count), account),
    }
}

// What a call answers and leaves.
pub fn on_call(
    call: Call,
    rest: &[u8],
    account: &mut Account,
    rx: &mut [u8],
    tx: &mut [u8],
    addresses: &[u64],
    offsets: &mut [u16],
    lengths: &mut [u16],
    pools: &mut [u32],
    ids: &mut [u16],
    froms: &mut [u16],
    sizes: &mut [u16],
) -> Answer
    requires { (sound account.old ≡ true) × (record_of rest.now ≡ Some (Record.Call call)) × (length rest.now < 65536) × Bench (bench_as account.old rx.old tx.old (memory_as offsets.old lengths.old)) addresses.now (handles pools.old ids.old froms.old sizes.old) }
    ensures answer { outcome_as (answer_as result account.new) rx.new tx.new (memory_as offsets.new lengths.new) ≡ call_rule call rest.now addresses.now (bench_as account.old rx.old tx.old (memory_as offsets.old lengths.old)) }
    ensures keeps { sound account.new ≡ true }
{
    tally::whole(account);
    let known = &addresses[..account.entries];
    match call {
        Call::Start => start(account, rx, known),
        Call::Take(size) => tally::take(account, size, offsets, lengths),
        Call::Release(id) => tally::release(account, id, offsets, lengths),
        Call::Receive(n) => receive(
            account, n, rx, known, offsets, lengths, pools, ids, froms, sizes,
        ),
        Call::Send { queue, count } => send(
            account, queue, count, rest, tx, known, offsets, lengths, pools, ids, froms, sizes,
        ),
    }
}

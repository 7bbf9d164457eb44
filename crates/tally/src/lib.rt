// What the bench's lines say: what each hand has, the last handle of each id, and what the records that need no ring answer. The account of a take
// or a release is known to be sound, so neither pays a test of it. Document 01, "The bench program". Offsets and lengths are two lists: the bench's turns,
// which docs/PROMISES.md names, are lent them so.

#![tactic(auto)]

ghost use Rattle.std.specs.Prelude.{◌≡◌, true, ◌*◌, ◌≤◌, length, eqb};
ghost use Rattle.limits.specs.Limits.{ENTRIES, SENDS, SLOTS};
ghost use Rattle.laws.specs.Test.{pick};
ghost use Rattle.rules.specs.Sound.{sound, queues_placed, Full};
ghost use Rattle.tally.specs.Tally.{memory_as, last_handle, pending_of, tally_of, told, answer_as, fresh_answer, take_answered, take_answer, release_answer};

use limits::{ENTRIES, SENDS, SLOTS};
use pool::Handle;
use refusals::Refusal;
use rules::Account;

// The pool number of the bench's account.
pub const POOL: u32 = 0;

// What each hand has.
#[derive(Clone, Copy, PartialEq, Eq, Debug, Default)]
pub struct Tally {
    pub free: usize,
    pub receive: usize,
    pub send: usize,
    pub out: usize,
}

// What a record answers: its value or why it was refused, and what each hand has then.
#[derive(Clone, Copy)]
pub struct Answer {
    pub outcome: Result<usize, Refusal>,
    pub tally: Tally,
}

// ---- what each hand has

// What the type of an account says, also of one behind a reference: its arrays have their lengths. It does nothing when it runs.
pub fn whole(account: &Account)
    ensures { Full account.now }
{
    let _first = account.free.ids[0];
}

// All that the first queues have pending.
fn all_pending(sends: usize, clean: &[usize; SENDS], tx: &[usize; SENDS]) -> usize
    requires { (sends ≤ SENDS) × (queues_placed sends clean.now tx.now ≡ true) }
    ensures { (result ≡ pending_of sends clean.now tx.now) × (result ≤ sends * SLOTS) }
{
    let mut all = 0;
    for (&tx, &clean) in tx[..sends].iter().zip(clean) {
        all += lists::pending(tx, clean);
    }
    all
}

// What a receive ring has.
fn ring_count(started: bool) -> usize
    ensures { result ≡ pick started SLOTS 0 }
{
    if started { SLOTS } else { 0 }
}

// What each hand of an account has, by its numbers alone.
pub fn counted(account: &Account) -> Tally
    requires { sound account.now ≡ true }
    ensures { result ≡ tally_of account.now }
{
    let free = account.free.depth;
    let send = all_pending(account.sends, &account.clean, &account.tx);
    let receive = ring_count(account.started);
    Tally {
        free,
        receive,
        send,
        out: account.entries - (free + receive + send),
    }
}

// An answer with what each hand of the account has.
pub fn answered(outcome: Result<usize, Refusal>, account: &Account) -> Answer
    requires { sound account.now ≡ true }
    ensures { answer_as result account.now ≡ told outcome account.now }
{
    Answer {
        outcome,
        tally: counted(account),
    }
}

// ---- a fresh account

// A fresh account with one receive queue takes the account's place. A refused one leaves it, and has nothing in any hand.
pub fn fresh(account: &mut Account, entries: usize, size: usize, sends: usize) -> Answer
    ensures answer { answer_as result (fresh_answer entries size sends).account ≡ fresh_answer entries size sends }
    ensures leaves { account.new ≡ pick (eqb (fresh_answer entries size sends).number 0) (fresh_answer entries size sends).account account.old }
    ensures keeps { (fresh_answer entries size sends).number ≡ 0 → sound account.new ≡ true }
{
    match calls::fresh(POOL, entries, size, 1, sends) {
        Err(why) => Answer {
            outcome: Err(why),
            tally: Tally::default(),
        },
        Ok(opened) => {
            *account = opened;
            answered(Ok(0), account)
        }
    }
}

// ---- the last handle of each id

// The last handle of an id; one never seen has offset 0 and length 0.
pub fn last_handle(id: u16, offsets: &[u16], lengths: &[u16]) -> Handle
    requires { (length offsets.now ≡ ENTRIES) × (length lengths.now ≡ ENTRIES) }
    ensures { result ≡ last_handle (memory_as offsets.now lengths.now) id }
{
    let at = id as usize;
    let (offset, length) = if at < ENTRIES {
        (offsets[at], lengths[at])
    } else {
        (0, 0)
    };
    Handle {
        pool: POOL,
        id,
        offset,
        length,
    }
}

// ---- records on a sound account

// One packet is taken, and its handle remembered; the value is its id.
pub fn take(account: &mut Account, size: usize, offsets: &mut [u16], lengths: &mut [u16]) -> Answer
    requires { (sound account.old ≡ true) × (length offsets.old ≡ ENTRIES) × (length lengths.old ≡ ENTRIES) }
    ensures { take_answered (answer_as result account.new) (memory_as offsets.new lengths.new) ≡ take_answer account.old size (memory_as offsets.old lengths.old) }
{
    whole(account);
    match packets::take(account, size) {
        Err(why) => answered(Err(why), account),
        Ok(handle) => {
            let at = handle.id as usize;
            offsets[at] = handle.offset;
            lengths[at] = handle.length;
            answered(Ok(at), account)
        }
    }
}

// An id is released by its last handle; the value is the id.
pub fn release(account: &mut Account, id: u16, offsets: &[u16], lengths: &[u16]) -> Answer
    requires { (sound account.old ≡ true) × (length offsets.now ≡ ENTRIES) × (length lengths.now ≡ ENTRIES) }
    ensures { answer_as result account.new ≡ release_answer account.old id (memory_as offsets.now lengths.now) }
{
    whole(account);
    match packets::release(account, last_handle(id, offsets, lengths)) {
        Err(why) => answered(Err(why), account),
        Ok(()) => answered(Ok(id as usize), account),
    }
}

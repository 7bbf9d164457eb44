// The test that an account is sound, which every public call makes first. Its scratch is one byte for each id.

#![tactic(auto)]

ghost use Rattle.std.specs.Prelude.{◌≡◌, ◌+◌, ◌≤◌, ◌<◌, get_or, set, take};
ghost use Rattle.limits.specs.Limits.{ENTRIES, SENDS, SLOTS};
ghost use Rattle.laws.specs.Test.{pick};
ghost use Rattle.pool.specs.Hands.{HAND-SEND};
ghost use Rattle.rules.specs.Account.{send_list};
ghost use Rattle.rules.specs.Sound.{is_size, in_range, Indices, indices, ring_placed, queues_placed, sound};
ghost use Rattle.sound.specs.Marks.{markable, mark_all, settled, numbered, Numbered, in_places};

use limits::{BATCH, ENTRIES, RECEIVES, SENDS, SIZE_DOUBLINGS, SLOTS, SMALLEST_SIZE};
use pool::{FreeStack, HAND_FREE, HAND_OUT, HAND_RECEIVE, HAND_SEND};
use rules::Account;

// Whether a number is an entry size.
fn is_size(size: usize) -> bool
    ensures { result ≡ is_size size }
{
    (0..SIZE_DOUBLINGS + 1).any(|k| size == SMALLEST_SIZE << k)
}

// Whether the numbers that an account is made with are in their ranges.
#[tactic(auto, unfolding(rules::specs::Sound::in_range))]
pub fn in_range(entries: usize, size: usize, receives: usize, sends: usize) -> bool
    ensures { result ≡ in_range entries size receives sends }
{
    0 < entries && entries <= ENTRIES && is_size(size) && receives <= RECEIVES && sends <= SENDS
}

// Whether the receive ring's index fits its being started or not.
#[tactic(auto, unfolding(rules::specs::Sound::ring_placed))]
fn ring_placed(started: bool, rx: usize, receives: usize) -> bool
    ensures { result ≡ ring_placed started rx receives }
{
    rx < SLOTS && if started { 0 < receives } else { rx == 0 }
}

// Whether a queue's two indices are in the ring, and the clean index at a whole batch.
#[tactic(auto, unfolding(rules::specs::Sound::indices))]
fn index_pair(clean: usize, tx: usize) -> bool
    ensures { result ≡ indices clean tx }
{
    clean < SLOTS && tx < SLOTS && clean % BATCH == 0
}

// Whether every queue's indices are. By the queue's number, since it is a place of both arrays, of which no more than `sends` are looked at.
fn queues_placed(account: &Account) -> bool
    requires { account.now.sends ≤ SENDS }
    ensures { result ≡ queues_placed account.now.sends account.now.clean account.now.tx }
{
    (0..account.sends).all(|q| index_pair(account.clean[q], account.tx[q]))
}

// An account and its marks are lent apart: of a struct of both each call would have to promise that the account stays, which `&` says.

// Marks an id of a hand's list, if it may stand there. A mark is 1, and none 0: numbers, as `mark_all` of specs/Marks.antt has them.
fn mark(account: &Account, seen: &mut [u8; ENTRIES], id: u16, hand: u8) -> bool
    requires { account.now.entries ≤ ENTRIES }
    ensures says { result ≡ markable account.now.entries account.now.hands hand seen.old id }
    ensures leaves { seen.new ≡ pick result (set seen.old id 1) seen.old }
{
    let at = usize::from(id);
    let may = at < account.entries && account.hands[at] == hand && seen[at] == 0;
    if may {
        seen[at] = 1;
    }
    may
}

// Marks the ids of a hand's list, up to the first that may not stand there.
fn mark_all(account: &Account, seen: &mut [u8; ENTRIES], ids: &[u16], hand: u8) -> bool
    requires { account.now.entries ≤ ENTRIES }
    ensures { record { ok = result; seen = seen.new } ≡ mark_all account.now.entries account.now.hands hand ids.now seen.old }
{
    for &id in ids {
        if !mark(account, seen, id, hand) {
            return false;
        }
    }
    true
}

// Marks a send queue's ids, oldest first, round its ring.
fn mark_queue(account: &Account, seen: &mut [u8; ENTRIES], q: usize) -> bool
    requires { (q < SENDS) × Indices (get_or account.now.clean q 0) (get_or account.now.tx q 0) × (account.now.entries ≤ ENTRIES) }
    ensures { record { ok = result; seen = seen.new } ≡ mark_all account.now.entries account.now.hands (HAND-SEND + q) (send_list account.now q) seen.old }
{
    let hand = HAND_SEND + q as u8;
    let ring = &account.sent[q * SLOTS..(q + 1) * SLOTS];
    let first = account.clean[q];
    let end = account.tx[q];
    if first <= end {
        return mark_all(account, seen, &ring[first..end], hand);
    }
    mark_all(account, seen, &ring[first..], hand) && mark_all(account, seen, &ring[..end], hand)
}

// Whether every id is out or has its mark.
fn all_settled(account: &Account, seen: &[u8; ENTRIES]) -> bool
    requires { account.now.entries ≤ ENTRIES }
    ensures { result ≡ settled account.now.entries account.now.hands seen.now }
{
    (0..account.entries).all(|id| account.hands[id] == HAND_OUT || seen[id] == 1)
}

// The ids on a stack.
fn stacked(stack: &FreeStack) -> &[u16]
    requires { stack.now.depth ≤ ENTRIES }
    ensures { result.now ≡ take stack.now.depth stack.now.ids }
{
    &stack.ids[..stack.depth]
}

// Whether every id stands in its hand's list and nowhere else, in an account whose numbers and indices are right.
fn in_places(account: &Account) -> bool
    requires { Numbered account.now }
    ensures { result ≡ in_places account.now }
{
    let mut seen = [0; ENTRIES];
    if !mark_all(account, &mut seen, stacked(&account.free), HAND_FREE) {
        return false;
    }
    if account.started && !mark_all(account, &mut seen, &account.slots, HAND_RECEIVE) {
        return false;
    }
    // A loop: a closure under `all` would write `seen`, and after `all` nothing is known of `seen`, which `all_settled` reads.
    for q in 0..account.sends {
        if !mark_queue(account, &mut seen, q) {
            return false;
        }
    }
    all_settled(account, &seen)
}

// Whether an account's numbers and indices are right.
fn is_numbered(account: &Account) -> bool
    ensures { result ≡ numbered account.now }
{
    in_range(
        account.entries,
        account.size,
        account.receives,
        account.sends,
    ) && queues_placed(account)
        && account.free.depth <= account.entries
        && ring_placed(account.started, account.rx, account.receives)
}

// Whether an account is sound.
pub fn is_sound(account: &Account) -> bool
    ensures { result ≡ sound account.now }
{
    is_numbered(account) && in_places(account)
}

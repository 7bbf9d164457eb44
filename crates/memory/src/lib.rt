// Packet memory, for an account that is known to be sound: a packet's view, the headroom before it, and a clone with its bytes.
// Ported from `Packet` of src/memory.rs.

#![tactic(auto)]

ghost use Rattle.std.specs.Prelude.{◌≡◌, true, ◌+◌, ◌*◌, ◌^◌, ◌≤◌, ◌<◌, length};
ghost use Rattle.std.proofs.lemmas.List.Edits.{sets};
ghost use denote.MutBor.{as_bor};
ghost use Rattle.rules.specs.Results.{says, taken_as};
ghost use Rattle.rules.specs.Sound.{sound};
ghost use Rattle.rules.specs.Refusals.{view_verdict, clone_verdict, headroom_verdict};
ghost use Rattle.rules.specs.Packets.{place_of, part, cloned_as, clone_call, lent, view_call, headroom_call};

use limits::HEADROOM;
use pool::Handle;
use refusals::Refusal;
use rules::Account;

// Whether packet memory of so many bytes belongs to the account, and the handle is good.
pub fn view_verdict(account: &Account, handle: Handle, bytes: usize) -> Result<(), Refusal>
    requires { sound account.now ≡ true }
    ensures { says result ≡ view_verdict account.now handle bytes }
{
    if bytes != account.entries * account.size {
        return Err(Refusal::WrongSize);
    }
    packets::handle_verdict(account, handle)
}

// Where a packet begins in packet memory.
fn place(size: usize, id: u16, offset: usize) -> usize
    requires { id * size + offset < 2 ^ 64 }
    ensures { result ≡ place_of size id offset }
{
    id as usize * size + offset
}

// A packet's own part of packet memory. A refusal is the empty part at its start, and its number comes from the verdict beside it.
pub fn view<'a>(account: &Account, handle: Handle, memory: &'a [u8]) -> &'a [u8]
    requires { sound account.now ≡ true }
    ensures { lent result ≡ view_call account.now handle (lent memory.entry) }
{
    match view_verdict(account, handle, memory.len()) {
        Err(_) => &memory[0..0],
        Ok(()) => {
            let at = place(account.size, handle.id, handle.offset as usize);
            let end = at + handle.length as usize;
            &memory[at..end]
        }
    }
}

// Whether so much headroom can be lent.
pub fn headroom_verdict(
    account: &Account,
    handle: Handle,
    asked: usize,
    bytes: usize,
) -> Result<(), Refusal>
    requires { sound account.now ≡ true }
    ensures { says result ≡ headroom_verdict account.now handle asked bytes }
{
    view_verdict(account, handle, bytes)?;
    if HEADROOM < asked {
        return Err(Refusal::TooLarge);
    }
    let offset = handle.offset as usize;
    if offset < asked {
        return Err(Refusal::NoHeadroom);
    }
    Ok(())
}

// The part just before a packet, for writing. A refusal is the empty part at the start of packet memory.
pub fn headroom<'a>(
    account: &Account,
    handle: Handle,
    asked: usize,
    memory: &'a mut [u8],
) -> &'a mut [u8]
    requires { sound account.now ≡ true }
    ensures { lent (as_bor result) ≡ headroom_call account.now handle asked (lent (as_bor memory.entry)) }
{
    match headroom_verdict(account, handle, asked, memory.len()) {
        Err(_) => &mut memory[0..0],
        Ok(()) => {
            let end = place(account.size, handle.id, handle.offset as usize);
            let at = end - asked;
            &mut memory[at..end]
        }
    }
}

// Copies n bytes to a place.
fn copy(memory: &mut [u8], from: usize, to: usize, n: usize)
    requires { (from + n ≤ length memory.old) × (to + n ≤ length memory.old) }
    ensures { memory.new ≡ sets memory.old to (part from n memory.old) }
{
    memory.copy_within(from..from + n, to);
}

// Whether a packet can be cloned.
pub fn clone_verdict(account: &Account, handle: Handle, bytes: usize) -> Result<(), Refusal>
    requires { sound account.now ≡ true }
    ensures { says result ≡ clone_verdict account.now handle bytes }
{
    view_verdict(account, handle, bytes)?;
    packets::take_verdict(account, handle.length as usize)
}

// A packet of the same length, with its bytes copied.
pub fn clone(account: &mut Account, handle: Handle, memory: &mut [u8]) -> Result<Handle, Refusal>
    requires { sound account.old ≡ true }
    ensures { cloned_as (taken_as result account.new) memory.new ≡ clone_call account.old handle memory.old }
{
    clone_verdict(account, handle, memory.len())?;
    let size = account.size;
    let from = place(size, handle.id, handle.offset as usize);
    let copied = packets::take_top(account, handle.length);
    let to = place(size, copied.id, HEADROOM);
    copy(memory, from, to, handle.length as usize);
    Ok(copied)
}

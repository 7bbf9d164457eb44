// The calls on packets and the tests of an account and of its numbers: each prints its answer.
use pool::Handle;
use refusals::Refusal;
use replay_lines::{show, show_counts, show_handle, show_number, show_whether};
use replay_records::{MemoryCall, PacketCall, Shape, digest};
use rules::Account;
use std::io::{self, Write};

// An answer that is a number.
fn kept<W: Write>(
    output: &mut W,
    account: &Account,
    answer: Result<(), Refusal>,
) -> io::Result<()> {
    show_number(output, &answer)?;
    show_counts(output, account)
}

// An answer that has a handle: all zeros where it is refused.
fn taken<W: Write>(
    output: &mut W,
    account: &Account,
    answer: Result<Handle, Refusal>,
) -> io::Result<()> {
    let none = Handle {
        pool: 0,
        id: 0,
        offset: 0,
        length: 0,
    };
    show_number(output, &answer)?;
    show_handle(output, answer.unwrap_or(none))?;
    show_counts(output, account)
}

// A fresh account takes the account's place; a refused one leaves the account that every call refuses.
fn fresh(account: &mut Account, pool: u32, shape: Shape) -> Result<(), Refusal> {
    let answer = calls::fresh(pool, shape.entries, shape.size, shape.receives, shape.sends);
    match answer {
        Ok(opened) => {
            *account = opened;
            Ok(())
        }
        Err(why) => {
            *account = calls::no_account();
            Err(why)
        }
    }
}

// What each hand has: nothing where the account is not sound.
fn counts<W: Write>(output: &mut W, account: &Account) -> io::Result<()> {
    let answer = calls::counts(account);
    show_number(output, &answer)?;
    match answer {
        Ok(counts) => {
            show(output, counts.free)?;
            show(output, counts.receive)?;
            for count in counts.send {
                show(output, count)?;
            }
            show(output, counts.out)
        }
        Err(_) => write!(output, " 0 0 0 0 0 0 0"),
    }
}

fn truncate<W: Write>(
    output: &mut W,
    account: &Account,
    handle: Handle,
    size: usize,
) -> io::Result<()> {
    let answer = calls::truncate(account, handle, size);
    show_number(output, &answer)?;
    show_handle(output, answer.unwrap_or(handle))
}

fn in_range(shape: Shape) -> bool {
    sound::in_range(shape.entries, shape.size, shape.receives, shape.sends)
}

// A call that is lent nothing.
pub fn call<W: Write>(output: &mut W, account: &mut Account, call: PacketCall) -> io::Result<()> {
    match call {
        PacketCall::Fresh { pool, shape } => {
            let answer = fresh(account, pool, shape);
            kept(output, account, answer)
        }
        PacketCall::Counts => counts(output, account),
        PacketCall::Take { size } => {
            let answer = calls::take(account, size);
            taken(output, account, answer)
        }
        PacketCall::Release { handle } => {
            let answer = calls::release(account, handle);
            kept(output, account, answer)
        }
        PacketCall::Truncate { handle, size } => truncate(output, account, handle, size),
        PacketCall::Sound => show_whether(output, sound::is_sound(account)),
        PacketCall::InRange { shape } => show_whether(output, in_range(shape)),
    }
}

// ---- packet memory

fn view<W: Write>(
    output: &mut W,
    account: &Account,
    handle: Handle,
    memory: &[u8],
) -> io::Result<()> {
    let answer = calls::view_verdict(account, handle, memory.len());
    show_number(output, &answer)?;
    let part = calls::view(account, handle, memory);
    show(output, part.len())?;
    show(output, digest(part))
}

fn headroom<W: Write>(
    output: &mut W,
    account: &Account,
    handle: Handle,
    asked: usize,
    fill: u8,
    memory: &mut [u8],
) -> io::Result<()> {
    let answer = calls::headroom_verdict(account, handle, asked, memory.len());
    show_number(output, &answer)?;
    let part = calls::headroom(account, handle, asked, memory);
    part.fill(fill);
    show(output, part.len())
}

// A call on a packet that is lent the first bytes of packet memory.
pub fn call_in_memory<W: Write>(
    output: &mut W,
    account: &mut Account,
    handle: Handle,
    call: MemoryCall,
    memory: &mut [u8],
) -> io::Result<()> {
    match call {
        MemoryCall::Clone => {
            let answer = calls::clone(account, handle, memory);
            taken(output, account, answer)
        }
        MemoryCall::View => view(output, account, handle, memory),
        MemoryCall::Headroom { asked, fill } => {
            headroom(output, account, handle, asked, fill, memory)
        }
    }
}

// The calls that are lent lists, a ring and addresses: what is lent is cut in one function for all of them.
use crate::kept::{ROOM, pack, part_mut, unpack};
use refusals::Refusal;
use replay_lines::{
    Fault, Head, begin, show, show_counts, show_number, show_refusal, show_stop, show_tail,
};
use replay_records::{Array, ListCall, Loan};
use rules::{Account, Received, Sent};
use std::io::{self, Write};

// ---- answers

fn batched<W: Write>(
    output: &mut W,
    account: &Account,
    answer: Result<usize, Refusal>,
) -> io::Result<()> {
    show_number(output, &answer)?;
    show(output, answer.unwrap_or(0))?;
    show_counts(output, account)
}

fn started<W: Write>(
    output: &mut W,
    account: &Account,
    answer: Result<usize, Refusal>,
) -> io::Result<()> {
    show_number(output, &answer)?;
    show_tail(output, answer.ok())?;
    show_counts(output, account)
}

fn received<W: Write>(
    output: &mut W,
    account: &Account,
    answer: Result<Received, Refusal>,
) -> io::Result<()> {
    match answer {
        Err(why) => {
            show_refusal(output, why)?;
            write!(output, " 0 -")?;
        }
        Ok(received) => {
            show_stop(output, received.stop)?;
            show(output, received.count)?;
            show_tail(output, received.tail)?;
        }
    }
    show_counts(output, account)
}

fn sent<W: Write>(
    output: &mut W,
    account: &Account,
    answer: Result<Sent, Refusal>,
) -> io::Result<()> {
    match answer {
        Err(why) => {
            show_refusal(output, why)?;
            write!(output, " 0 -")?;
        }
        Ok(sent) => {
            let Sent { count, tail } = sent;
            write!(output, " 0 {count} {tail}")?;
        }
    }
    show_counts(output, account)
}

// ---- loans

// The lists that are lent, as slices side by side: the calls take them so.
#[derive(Drop)]
struct Lists<'a> {
    pools: &'a mut [u32],
    ids: &'a mut [u16],
    offsets: &'a mut [u16],
    lengths: &'a mut [u16],
}

impl Lists<'_> {
    // Out of the bytes that are kept.
    fn unpack(&mut self, bytes: &[u8]) -> Result<(), Fault> {
        unpack(Array::Pools, &mut *self.pools, bytes)?;
        unpack(Array::Ids, &mut *self.ids, bytes)?;
        unpack(Array::Offsets, &mut *self.offsets, bytes)?;
        unpack(Array::Lengths, &mut *self.lengths, bytes)
    }

    // Back into them.
    fn pack(&self, bytes: &mut [u8]) -> Result<(), Fault> {
        pack(Array::Pools, &*self.pools, bytes)?;
        pack(Array::Ids, &*self.ids, bytes)?;
        pack(Array::Offsets, &*self.offsets, bytes)?;
        pack(Array::Lengths, &*self.lengths, bytes)
    }
}

// Makes the call, on what it is lent.
fn called<W: Write>(
    output: &mut W,
    account: &mut Account,
    call: ListCall,
    ring: &mut [u8],
    addresses: &[u64],
    lists: &mut Lists<'_>,
) -> io::Result<()> {
    let pools = &mut *lists.pools;
    let ids = &mut *lists.ids;
    let offsets = &mut *lists.offsets;
    let lengths = &mut *lists.lengths;
    match call {
        ListCall::Batch { n, size } => {
            let answer = calls::batch(account, n, size, pools, ids, offsets, lengths);
            batched(output, account, answer)
        }
        ListCall::Start { queue } => {
            let answer = calls::start(account, queue, ring, addresses);
            started(output, account, answer)
        }
        ListCall::Receive { queue, n } => {
            let answer = calls::receive(
                account, queue, ring, addresses, n, pools, ids, offsets, lengths,
            );
            received(output, account, answer)
        }
        ListCall::Send { queue } => {
            let answer = calls::send(
                account, queue, ring, addresses, pools, ids, offsets, lengths,
            );
            sent(output, account, answer)
        }
    }
}

// The same, on as much of addresses and lists as is lent, and on the first bytes of a ring. The lists go back into the bytes after it.
fn on_lists<W: Write>(
    output: &mut W,
    head: Head,
    account: &mut Account,
    loan: Loan,
    call: ListCall,
    addresses: &mut [u64],
    mut lists: Lists<'_>,
    bytes: &mut [u8],
) -> Result<(), Fault> {
    unpack(Array::Addresses, addresses, bytes)?;
    lists.unpack(bytes)?;
    let ring = part_mut(loan.ring, bytes)?;
    begin(output, head)?;
    called(output, account, call, ring, addresses, &mut lists)?;
    lists.pack(bytes)
}

// A batch, a start, a receive or a send: what the record lends is cut here, out of arrays, since the function that C calls is lent
// no allocator.
#[inline(never)]
pub fn call<W: Write>(
    output: &mut W,
    head: Head,
    account: &mut Account,
    loan: Loan,
    call: ListCall,
    bytes: &mut [u8],
) -> Result<(), Fault> {
    let mut addresses = [0u64; ROOM];
    let mut pools = [0u32; ROOM];
    let mut ids = [0u16; ROOM];
    let mut offsets = [0u16; ROOM];
    let mut lengths = [0u16; ROOM];
    let lists = Lists {
        pools: &mut pools[..usize::from(loan.lists.pools)],
        ids: &mut ids[..usize::from(loan.lists.ids)],
        offsets: &mut offsets[..usize::from(loan.lists.offsets)],
        lengths: &mut lengths[..usize::from(loan.lists.lengths)],
    };
    on_lists(
        output,
        head,
        account,
        loan,
        call,
        &mut addresses[..usize::from(loan.addresses)],
        lists,
        bytes,
    )
}

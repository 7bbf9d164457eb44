// The calls on account, rings and packet memory that the records of `replay` describe (docs/REPLAY.md, kinds 1 to 35), and what is set and shown
// of them. Each record makes its call and prints its line.

#![tactic(auto)]

mod fields;
mod kept;
mod loans;
mod packet_calls;

pub use fields::blank;
pub use kept::{KEPT, ROOM, unpack};
use replay_lines::{Fault, Head, begin};
use replay_records::AccountCall;
use rules::Account;
use std::io::Write;

// Makes a call and prints its line, but for the line's end. Of a record that is bad nothing is printed and nothing changed.
pub fn play<W: Write>(
    output: &mut W,
    head: Head,
    call: AccountCall<'_>,
    account: &mut Account,
    bytes: &mut [u8],
) -> Result<(), Fault> {
    match call {
        AccountCall::Packet(call) => {
            begin(output, head)?;
            packet_calls::call(output, account, call)?;
            Ok(())
        }
        AccountCall::InMemory {
            handle,
            memory,
            call,
        } => {
            let memory = kept::part_mut(memory, bytes)?;
            begin(output, head)?;
            packet_calls::call_in_memory(output, account, handle, call, memory)?;
            Ok(())
        }
        AccountCall::OnLists { loan, call } => {
            loans::call(output, head, account, loan, call, bytes)
        }
        AccountCall::Set { part, values } => kept::set(output, head, part, values, bytes),
        AccountCall::Show(part) => kept::show_places(output, head, part, bytes),
        AccountCall::Digest(part) => kept::show_digest(output, head, part, bytes),
        AccountCall::Forge(forge) => fields::forge(output, head, account, forge),
        AccountCall::Fields => fields::show_fields(output, head, account),
        AccountCall::Places { field, at, count } => {
            fields::show_places(output, head, account, field, at, count)
        }
    }
}

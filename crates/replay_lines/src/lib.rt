// What the lines of `replay` are made of: words, numbers after a space, and the parts of answers that several calls have in common; and why a record
// ends the play.

#![tactic(auto)]

use limits::SENDS;
use pool::Handle;
use refusals::Refusal;
use replay_records::{Forge, Number};
use rules::{Account, Stop};
use startup::Action;
use std::fmt::Display;
use std::io::{Error, Result, Write};

// Why the play ends before the input does.
#[derive(Debug, Drop)]
pub enum Fault {
    // A record is bad.
    Bad,
    // A read or a write failed.
    Failed(Error),
}

impl From<Error> for Fault {
    fn from(error: Error) -> Fault {
        Fault::Failed(error)
    }
}

// What a line begins with: the record's number and the word of its kind. It goes with the writer as far as `begin`, and the writer goes on alone: a struct of both
// would be opened there again.
#[derive(Clone, Copy)]
pub struct Head {
    pub number: u64,
    pub word: &'static str,
}

pub fn begin<W: Write>(output: &mut W, head: Head) -> Result<()> {
    let Head { number, word } = head;
    write!(output, "{number} {word}")
}

// A line's end.
pub fn end<W: Write>(output: &mut W) -> Result<()> {
    writeln!(output)
}

// The line of a bad record.
pub fn bad<W: Write>(output: &mut W, number: u64) -> Result<()> {
    writeln!(output, "bad {number}")
}

// A number or a word, after a space.
pub fn show<W: Write, D: Display + Copy>(output: &mut W, value: D) -> Result<()> {
    write!(output, " {value}")
}

// Whether something holds, as 1 or 0.
pub fn show_whether<W: Write>(output: &mut W, holds: bool) -> Result<()> {
    show(output, u8::from(holds))
}

// Every number of a list.
pub fn show_all<W: Write, N: Number>(output: &mut W, list: &[N]) -> Result<()> {
    for n in list {
        show(output, n.wide())?;
    }
    Ok(())
}

// The field and the place that a record forged.
pub fn show_forged<W: Write>(output: &mut W, forge: Forge) -> Result<()> {
    show(output, forge.field)?;
    show(output, forge.place)
}

// ---- answers, in the words of docs/REPLAY.md: they are this program's format, and no `Display` of the core's types

// Document 01's number of a refusal, and after a 4 the index.
pub fn show_refusal<W: Write>(output: &mut W, why: Refusal) -> Result<()> {
    show(output, why.number())?;
    if let Refusal::BadHandle(index) = why {
        show(output, index)?;
    }
    Ok(())
}

// Document 01's number of an answer.
pub fn show_number<W: Write, T>(
    output: &mut W,
    answer: &std::result::Result<T, Refusal>,
) -> Result<()> {
    match answer {
        Ok(_) => show(output, 0),
        Err(why) => show_refusal(output, *why),
    }
}

// Why a receive stopped.
pub fn show_stop<W: Write>(output: &mut W, stop: Stop) -> Result<()> {
    show(
        output,
        match stop {
            Stop::Asked => "asked",
            Stop::NotDone => "not-done",
            Stop::Split => "split",
            Stop::TooLong => "too-long",
            Stop::NoBuffer => "no-buffer",
        },
    )
}

// A tail's slot, or a dash where none is written.
pub fn show_tail<W: Write>(output: &mut W, tail: Option<usize>) -> Result<()> {
    match tail {
        None => show(output, "-"),
        Some(slot) => show(output, slot),
    }
}

// The four numbers of a handle.
pub fn show_handle<W: Write>(output: &mut W, handle: Handle) -> Result<()> {
    let Handle {
        pool,
        id,
        offset,
        length,
    } = handle;
    write!(output, " {pool} {id} {offset} {length}")
}

// The sum of the send queues' counts, which is never more than the entries.
fn together(send: [usize; SENDS]) -> usize {
    send.iter()
        .fold(0, |sum: usize, count| sum.wrapping_add(*count))
}

// How many buffers are free, on the receive ring, in all send queues, and out; none where the account is not sound.
pub fn show_counts<W: Write>(output: &mut W, account: &Account) -> Result<()> {
    match calls::counts(account) {
        Ok(counts) => {
            show(output, counts.free)?;
            show(output, counts.receive)?;
            show(output, together(counts.send))?;
            show(output, counts.out)
        }
        Err(_) => write!(output, " 0 0 0 0"),
    }
}

// What the host does next with the registers.
pub fn show_action<W: Write>(output: &mut W, action: Action) -> Result<()> {
    match action {
        Action::Read(register) => write!(output, " read {register}"),
        Action::Write(register, value) => write!(output, " write {register} {value}"),
        Action::Pause(ms) => write!(output, " pause {ms}"),
        Action::Done => show(output, "done"),
        Action::Refused(why) => {
            let number = why.number();
            let register = why.also();
            write!(output, " refused {number} {register}")
        }
    }
}

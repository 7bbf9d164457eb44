// Reads the records of an input and plays them, each with its line, to the first that is bad. docs/REPLAY.md has the format.

#![tactic(auto)]

ghost use Rattle.std.specs.Prelude.{ℕ, List, ◌≤◌, length, take, IfOk, IfSome, OnErr};
ghost use Rattle.std.specs.Io.KnownBytes.{Consumes};

use replay_calls::ROOM;
use replay_lines::{Fault, Head, bad, end};
use replay_records::{Array, Call, Record, SetUp};
use replay_registers::Registers;
use rules::Account;
use startup::State;
use std::io::{self, Read, Write};

// The most bytes of a body that are held: more than a u16 can ask for.
const BODY: usize = 0x1_0000;

// A record as it was read: the number of its kind, and how many bytes its body has.
#[derive(Clone, Copy)]
struct Frame {
    kind: u16,
    size: usize,
}

// What is kept from record to record beside the bytes.
#[derive(Clone, Copy)]
struct Held {
    account: Account,
    registers: Registers,
}

// ---- reading

// Reads a body into the first bytes of a buffer. A record is bad whose body is cut short, or that the buffer can't hold.
fn read_body<R: Read>(input: &mut R, size: usize, buffer: &mut [u8]) -> Result<(), Fault>
    ensures ok { IfOk result (λ _. size ≤ length buffer.new) }
    ensures err { OnErr result ((count : ℕ) × Consumes (R.remaining input.old) (R.remaining input.new) (take count buffer.new)) }
{
    if buffer.len() < size {
        return Err(Fault::Bad);
    }
    let got = reading::read_full(input, &mut buffer[..size])?;
    if got < size {
        return Err(Fault::Bad);
    }
    Ok(())
}

// Reads a record, its body into the first bytes of a buffer. None: the input was at its end.
fn read<R: Read>(input: &mut R, buffer: &mut [u8]) -> Result<Option<Frame>, Fault>
    ensures ok { IfOk result (λ found. IfSome found (λ frame. frame.size ≤ length buffer.new)) }
    ensures err { OnErr result ((bytes : List ℕ) × Consumes (R.remaining input.old) (R.remaining input.new) bytes) }
{
    let mut head = [0u8; 4];
    let got = reading::read_full(input, &mut head)?;
    if got == 0 {
        return Ok(None);
    }
    let [length_low, length_high, kind_low, kind_high] = head;
    let length = usize::from(u16::from_le_bytes([length_low, length_high]));
    let kind = u16::from_le_bytes([kind_low, kind_high]);
    if got < 4 || length < 2 {
        return Err(Fault::Bad);
    }
    let size = length - 2;
    read_body(input, size, buffer)?;
    Ok(Some(Frame { kind, size }))
}

// ---- playing

// A set-up, which is lent some addresses: they are on the stack only while it plays.
#[inline(never)]
fn set_up<W: Write>(
    output: &mut W,
    head: Head,
    call: SetUp,
    state: &mut State,
    bytes: &[u8],
) -> Result<(), Fault> {
    let mut addresses = [0u64; ROOM];
    let lent = &mut addresses[..usize::from(call.addresses)];
    replay_calls::unpack(Array::Addresses, lent, bytes)?;
    replay_registers::set_up(output, head, call, state, lent)?;
    Ok(())
}

// Makes a call and prints its line, but for the line's end.
fn call<W: Write>(
    output: &mut W,
    head: Head,
    call: Call<'_>,
    held: &mut Held,
    bytes: &mut [u8],
) -> Result<(), Fault> {
    let account = &mut held.account;
    let registers = &mut held.registers;
    match call {
        Call::Account(call) => replay_calls::play(output, head, call, account, bytes),
        Call::SetUp(call) => set_up(output, head, call, &mut registers.state, bytes),
        Call::StartUp(call) => {
            replay_registers::play_start_up(output, head, call, &mut registers.state)
        }
        Call::RunTime(call) => {
            replay_registers::play_run_time(output, head, call, &mut registers.stats)?;
            Ok(())
        }
        Call::Rates(call) => {
            replay_registers::play_rates(output, head, call, &mut registers.window)
        }
    }
}

// Plays a record with its body. Of one that is bad nothing is printed.
fn play<W: Write>(
    output: &mut W,
    number: u64,
    kind: u16,
    body: &[u8],
    held: &mut Held,
    bytes: &mut [u8],
) -> Result<(), Fault> {
    let record = Record::of(kind, body).ok_or(Fault::Bad)?;
    let Record { word, call: asked } = record;
    call(output, Head { number, word }, asked, held, bytes)?;
    end(output)?;
    Ok(())
}

// Reads a record and plays it. Whether there was one: else the input was at its end.
fn turn<R: Read, W: Write>(
    input: &mut R,
    output: &mut W,
    number: u64,
    held: &mut Held,
    buffer: &mut [u8],
    bytes: &mut [u8],
) -> Result<bool, Fault> {
    let Some(frame) = read(input, buffer)? else {
        return Ok(false);
    };
    play(
        output,
        number,
        frame.kind,
        &buffer[..frame.size],
        held,
        bytes,
    )?;
    Ok(true)
}

// Plays the input, to the first record that is bad, and prints to the output. The bytes are what is kept beside the account, packet memory last.
// A read or a write that fails ends it with that error.
pub fn run<R: Read, W: Write>(input: &mut R, output: &mut W, bytes: &mut [u8]) -> io::Result<()> {
    let mut buffer = [0u8; BODY];
    let mut held = Held {
        account: replay_calls::blank(),
        registers: Registers::blank(),
    };
    // The number of the line, which is printed.
    for number in 1..u64::MAX {
        match turn(input, output, number, &mut held, &mut buffer, bytes) {
            Ok(true) => {}
            Ok(false) => return Ok(()),
            Err(Fault::Bad) => return bad(output, number),
            Err(Fault::Failed(error)) => return Err(error),
        }
    }
    Ok(())
}

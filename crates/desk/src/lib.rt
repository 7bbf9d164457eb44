// Serves a stream of the bench's records: reads it from a reader, and prints a line for each record. Document 01, "The bench program".
// What the records do and the lines that they give stand in `turns`. Here they are only read, handed on and printed.

#![tactic(auto)]

ghost use Rattle.std.specs.Prelude.{◌≡◌, ◌≤◌, not, length, take, nat_lt};
ghost use Rattle.laws.specs.Test.{both};
ghost use Rattle.lines.specs.Lines.{LINE};
ghost use Rattle.desk.specs.Desk.{is_cut, cut_text};

mod input;

use input::Input;
use limits::ENTRIES;
use lines::Out;
use std::io::{Read, Result, Write};

// The bytes of the output that are gathered.
const OUTPUT: usize = 0x1_0000;

// ---- output

// The line of a record that is cut short, if there is one. Answers its length.
#[tactic(auto, unfolding(crate::specs::Desk::is_cut))]
fn put_cut(out: &mut [u8], count: u64, ended: bool, unread: &[u8]) -> usize
    requires { LINE ≤ length out.old }
    ensures { (result ≤ length out.new) × (take result out.new ≡ cut_text count (is_cut ended 0 (length unread.now) unread.now)) }
{
    if ended || unread.is_empty() || records::end_of(unread, 0, unread.len()).is_some() {
        return 0;
    }
    let mut last = Out::new(out, 0);
    last.put_bad(count);
    last.len()
}

// ---- records

// Whether to go on: the last turns have served a record, and none was bad.
fn is_on(count: u64, next: u64, ended: bool) -> bool
    ensures { result ≡ both (not ended) (nat_lt count next) }
{
    !ended && count < next
}

// Serves a stream of at most so many bytes. Answers how many bytes it has read. A read or a write that fails ends it with that error.
pub fn serve<R: Read, W: Write>(reader: &mut R, writer: &mut W, limit: u64) -> Result<u64> {
    let mut out = [0u8; OUTPUT];
    let mut rx = [0u8; records::RING_BYTES];
    let mut tx = [0u8; records::SEND_BYTES];
    let addresses = [0u64; ENTRIES];
    let mut offsets = [0u16; ENTRIES];
    let mut lengths = [0u16; ENTRIES];
    let mut pools = [0u32; records::MOST];
    let mut ids = [0u16; records::MOST];
    let mut froms = [0u16; records::MOST];
    let mut sizes = [0u16; records::MOST];
    let mut run = turns::first();
    let mut input = Input::new(limit);
    let mut count = 0;
    while is_on(count, run.count, run.ended) {
        count = run.count;
        input.fill(reader)?;
        run.from = 0;
        run.at = 0;
        let unread = input.unread();
        run = turns::serve(
            unread,
            unread.len(),
            &mut out,
            run,
            &mut rx,
            &mut tx,
            &addresses,
            &mut offsets,
            &mut lengths,
            &mut pools,
            &mut ids,
            &mut froms,
            &mut sizes,
        );
        writer.write_all(&out[..run.at])?;
        input.consume(run.from);
    }
    let at = put_cut(&mut out, count, run.ended, input.unread());
    writer.write_all(&out[..at])?;
    Ok(input.read)
}

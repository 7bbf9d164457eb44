// Reading a part full: what `desk`, `benches` and `replay_run` take in comes through it, from standard input or from any other reader.

#![tactic(auto)]

ghost use Rattle.std.specs.Prelude.{ℕ, ◌≤◌, ◌<◌, length, take, IfOk, OnErr};
ghost use Rattle.std.specs.Io.KnownBytes.{Consumes, IsAtEnd};

use std::io::{Read, Result};

// Reads until the part is full or the input has ended. Answers how many bytes there are; they are the input's next. After an error the first bytes of
// the part are what was read before it. A read that a signal interrupts is an error like any other.
pub fn read_full<R: Read>(input: &mut R, part: &mut [u8]) -> Result<usize>
    ensures within { IfOk result (λ count. count ≤ length part.new) }
    ensures bytes { IfOk result (λ count. Consumes (R.remaining input.old) (R.remaining input.new) (take count part.new)) }
    ensures short { IfOk result (λ count. count < length part.new → IsAtEnd (R.remaining input.new)) }
    ensures err { OnErr result ((count : ℕ) × Consumes (R.remaining input.old) (R.remaining input.new) (take count part.new)) }
{
    let mut done = 0;
    // It steps by what a read gave, and not by one.
    while done < part.len() {
        let count = input.read(&mut part[done..])?;
        if count == 0 {
            return Ok(done);
        }
        done += count;
    }
    Ok(done)
}

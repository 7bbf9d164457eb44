// Makes the public calls that the records on standard input describe, and prints their answers, with as much packet memory as a usual stack has
// room for. docs/REPLAY.md has the format.

#![tactic(auto)]

use replay_calls::KEPT;
use std::io::Result;

// The bytes of packet memory.
const MEMORY: usize = 0x40_0000;

// What is kept before packet memory, and packet memory: every byte 0.
fn blank() -> [u8; KEPT + MEMORY] {
    [0; KEPT + MEMORY]
}

fn main(rt: HostRuntime) -> Result<()> {
    let mut bytes = blank();
    replay_run::run(&mut rt.stdin(), &mut rt.stdout(), &mut bytes)
}

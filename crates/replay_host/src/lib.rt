// The test program for a host in another language, which lends it as much packet memory as it has; tools/replay_host.c is one.

#![tactic(auto)]

use std::io::{Stdin, Stdout};

// How many bytes are kept before packet memory.
#[unsafe(no_mangle)]
pub extern "C" fn yaltumbir_replay_kept() -> usize {
    replay_calls::KEPT
}

// Plays standard input, as the program `replay` does, with what is kept and packet memory in the bytes that are lent. The two handles take no bytes, so a
// host passes the bytes alone, as an address and a length. A read or a write that fails ends it, and the host is not told.
#[unsafe(no_mangle)]
pub extern "C" fn yaltumbir_replay(mut stdin: Stdin, mut stdout: Stdout, bytes: &mut [u8]) {
    let _ = replay_run::run(&mut stdin, &mut stdout, bytes);
}

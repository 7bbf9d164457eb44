// Reads records from standard input and prints a line for each. Document 01, "The bench program".

#![tactic(auto)]

use std::io::Result;

fn main(rt: HostRuntime) -> Result<()> {
    desk::serve(&mut rt.stdin(), &mut rt.stdout(), u64::MAX)?;
    Ok(())
}

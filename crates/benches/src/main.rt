// Serves many streams of the bench's records, one after the other. Each stands behind its length, a u32; after each comes a line `--`.

#![tactic(auto)]

use std::io::{Read, Result, Write};

// The most streams, and the bytes that are dropped at once.
const STREAMS: usize = 100000;

const DROPPED: usize = 4096;

// Drops so many bytes of the input, or as many as there are.
fn skip<R: Read>(reader: &mut R, count: u64) -> Result<()> {
    let mut buffer = [0u8; DROPPED];
    let mut left = count;
    // It steps by what is dropped at once, and not by one.
    while 0 < left {
        let asked = left.min(DROPPED as u64) as usize;
        if reading::read_full(reader, &mut buffer[..asked])? < asked {
            return Ok(());
        }
        left -= asked as u64;
    }
    Ok(())
}

// Serves a stream of so many bytes. What a bad record left unread is dropped.
fn serve_one<R: Read, W: Write>(reader: &mut R, writer: &mut W, size: u64) -> Result<()> {
    let read = desk::serve(reader, writer, size)?;
    if read < size {
        skip(reader, size - read)?;
    }
    writer.write_all(b"--\n")
}

// The size of the next stream, if there is one.
fn next_size<R: Read>(reader: &mut R) -> Result<Option<u64>> {
    let mut head = [0; 4];
    if reading::read_full(reader, &mut head)? < head.len() {
        return Ok(None);
    }
    Ok(Some(u32::from_le_bytes(head) as u64))
}

fn main(rt: HostRuntime) -> Result<()> {
    let mut reader = rt.stdin();
    let mut writer = rt.stdout();
    for _ in 0..STREAMS {
        let Some(size) = next_size(&mut reader)? else {
            break;
        };
        serve_one(&mut reader, &mut writer, size)?;
    }
    Ok(())
}

// The input: its unread bytes stand in a buffer, in front of what is read next.
ghost use Rattle.std.specs.Prelude.{◌≡◌, ◌-◌, ◌≤◌, length, drop, IfOk, OnErr};
ghost use Rattle.desk.specs.Held.{HELD};

use std::io::{Read, Result};

// The bytes of the input that are held at once, and the most that a record has.
const HELD: usize = 0x2_0000;

const RECORD: usize = 0x1_0001;

// The bytes that are held, where the unread ones begin and end, how many were read, and how many may still be.
#[derive(Drop)]
pub(crate) struct Input {
    bytes: [u8; HELD],
    from: usize,
    to: usize,
    pub(crate) read: u64,
    left: u64,
    ghost ordered: { from ≤ to },
    ghost within: { to ≤ HELD },
}

impl Input {
    ghost use Rattle.desk.specs.Desk.{unread, Kept};

    // Nothing is read yet, and so many bytes may be.
    pub(crate) fn new(limit: u64) -> Input
        ensures { (result.read ≡ 0) × (result.left ≡ limit) }
    {
        Input {
            bytes: [0; HELD],
            from: 0,
            to: 0,
            read: 0,
            left: limit,
        }
    }

    pub(crate) fn unread(&self) -> &[u8]
        ensures { result.now ≡ unread self.now }
    {
        &self.bytes[self.from..self.to]
    }

    // So many of the unread bytes are read.
    pub(crate) fn consume(&mut self, count: usize)
        requires { count ≤ length (unread self.old) }
        ensures { unread self.new ≡ drop count (unread self.old) }
    {
        self.from += count;
    }

    // The unread bytes go to the front.
    fn move_to_front(&mut self)
        ensures kept { unread self.new ≡ unread self.old }
        ensures rest { (self.new.from ≡ 0) × (self.new.to ≡ self.old.to - self.old.from) × (self.new.read ≡ self.old.read) × (self.new.left ≡ self.old.left) }
    {
        let (from, to) = (self.from, self.to);
        self.bytes.copy_within(from..to, 0);
        self.from = 0;
        self.to = to - from;
    }

    // More is read behind the unread bytes. A read that brings less than asked is the last.
    fn refill<R: Read>(&mut self, reader: &mut R) -> Result<()>
        ensures ok { IfOk result (λ done. Kept self.old self.new) }
        ensures err { OnErr result (unread self.new ≡ unread self.old) }
    {
        self.move_to_front();
        let to = self.to;
        let asked = ((HELD - to) as u64).min(self.left) as usize;
        let got = reading::read_full(reader, &mut self.bytes[to..to + asked])?;
        self.to = to + got;
        self.read = self.read.wrapping_add(got as u64);
        self.left = if got == asked {
            self.left - got as u64
        } else {
            0
        };
        Ok(())
    }

    // A whole record is held, or all that there is. The unread bytes stay in front, after an error too.
    pub(crate) fn fill<R: Read>(&mut self, reader: &mut R) -> Result<()>
        ensures ok { IfOk result (λ done. Kept self.old self.new) }
        ensures err { OnErr result (unread self.new ≡ unread self.old) }
    {
        if self.left == 0 || RECORD <= self.to - self.from {
            return Ok(());
        }
        self.refill(reader)
    }
}

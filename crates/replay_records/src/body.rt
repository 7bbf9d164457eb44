// The bytes of a body, from which its numbers are taken one after the other.
use crate::numbers::{Number, value_of};

// What is left of a body.
#[derive(Drop)]
pub struct Body<'a> {
    left: &'a [u8],
}

impl<'a> Body<'a> {
    pub fn new(left: &'a [u8]) -> Body<'a> {
        Body { left }
    }

    pub fn is_empty(&self) -> bool {
        self.left.is_empty()
    }

    // The next bytes, so many of them.
    pub fn bytes(&mut self, count: usize) -> Option<&'a [u8]> {
        let (next, left) = self.left.split_at_checked(count)?;
        self.left = left;
        Some(next)
    }

    // The next number.
    pub fn take<N: Number>(&mut self) -> Option<N> {
        Some(N::cut(value_of(self.bytes(N::WIDTH)?)))
    }

    // The next number, as an index or a count.
    pub fn index<N: Number>(&mut self) -> Option<usize> {
        let n: N = self.take()?;
        Some(usize::cut(n.wide()))
    }

    // All bytes that are left.
    pub fn rest(&mut self) -> &'a [u8] {
        let rest = self.left;
        self.left = &[];
        rest
    }
}

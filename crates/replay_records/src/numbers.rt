// Numbers as bytes hold them, little-endian, and digests of them.

// A type of numbers. Its impls are written out, since the gate refuses those that a macro of this repository writes.
pub trait Number: Copy {
    // The bytes of one.
    const WIDTH: usize;

    // The lowest bits of a number, as many as the type has.
    fn cut(n: u64) -> Self;

    fn wide(self) -> u64;
}

impl Number for u8 {
    const WIDTH: usize = 1;

    fn cut(n: u64) -> u8 {
        (n & 0xff) as u8
    }

    fn wide(self) -> u64 {
        u64::from(self)
    }
}

impl Number for u16 {
    const WIDTH: usize = 2;

    fn cut(n: u64) -> u16 {
        (n & 0xffff) as u16
    }

    fn wide(self) -> u64 {
        u64::from(self)
    }
}

impl Number for u32 {
    const WIDTH: usize = 4;

    fn cut(n: u64) -> u32 {
        (n & 0xffff_ffff) as u32
    }

    fn wide(self) -> u64 {
        u64::from(self)
    }
}

impl Number for u64 {
    const WIDTH: usize = 8;

    fn cut(n: u64) -> u64 {
        n
    }

    fn wide(self) -> u64 {
        self
    }
}

impl Number for usize {
    const WIDTH: usize = 8;

    fn cut(n: u64) -> usize {
        n as usize
    }

    fn wide(self) -> u64 {
        self as u64
    }
}

// The number that some bytes are. `words::read` asks that there are at most 8, which each place of a part would owe a proof of; here nothing is asked. Each width
// that a place has is read at once, and only others byte by byte.
pub fn value_of(bytes: &[u8]) -> u64 {
    match bytes.len() {
        1 => u64::from(bytes[0]),
        2 => u64::from(u16::from_le_bytes([bytes[0], bytes[1]])),
        4 => u64::from(u32::from_le_bytes([bytes[0], bytes[1], bytes[2], bytes[3]])),
        8 => u64::from_le_bytes([
            bytes[0], bytes[1], bytes[2], bytes[3], bytes[4], bytes[5], bytes[6], bytes[7],
        ]),
        _ => bytes
            .iter()
            .rev()
            .fold(0, |n, byte| (n << 8) | u64::from(*byte)),
    }
}

// Sets bytes to the lowest ones of a number, those of each width that a place has at once.
pub fn store(n: u64, bytes: &mut [u8]) {
    let low = n.to_le_bytes();
    match bytes.len() {
        1 => bytes[0] = low[0],
        2 => bytes.copy_from_slice(&low[..2]),
        4 => bytes.copy_from_slice(&low[..4]),
        8 => bytes.copy_from_slice(&low),
        _ => {
            for (byte, low) in bytes.iter_mut().zip(low) {
                *byte = low;
            }
        }
    }
}

// A digest with one more number.
pub fn mixed(digest: u32, n: u64) -> u32 {
    digest
        .wrapping_mul(31)
        .wrapping_add(u32::cut(n))
        .wrapping_add(1)
}

// The digest of a list.
pub fn digest<N: Number>(list: &[N]) -> u32 {
    list.iter().fold(0, |digest, n| mixed(digest, n.wide()))
}

// Little-endian words at a place of a byte slice, and the words of a ring's slots. Ported from the descriptor accesses of src/ixgbe.rs.
// That a slot is in its ring is a clause: a ring is a lent slice, and a struct of slice and slot would be made for each access, which is no plainer.

#![tactic(auto)]

ghost use Rattle.std.specs.Prelude.{◌≡◌, ◌+◌, ◌*◌, ◌^◌, ◌≤◌, ◌<◌, length};
ghost use Rattle.limits.specs.Limits.{SMALLEST-SIZE, SIZE-DOUBLINGS};
ghost use Rattle.words.specs.Le.{le_at, put_le, address_plus};
ghost use Rattle.words.specs.Slots.{InRing, status_at, length_at, offered, sent_at, described};

use limits::SLOT_BYTES;

// A send descriptor's command: end of packet, frame check sum inserted, status reported, an advanced data descriptor.
const COMMAND: u64 = 0x2B300000;

// The length's place in a send descriptor's last word.
const PAYLEN_UNIT: u64 = 0x4000;

// The number of so many bytes from a place on, at most 8.
pub fn read(s: &[u8], at: usize, width: usize) -> u64
    requires { (at + width ≤ length s.now) × (width ≤ 8) }
    ensures value { result ≡ le_at width at s.now }
    ensures fits { result < 256 ^ width }
{
    let mut bytes = [0; 8];
    bytes[..width].copy_from_slice(&s[at..at + width]);
    u64::from_le_bytes(bytes)
}

// Puts so many low bytes of a value, at most 8, from a place on.
pub fn write(s: &mut [u8], at: usize, width: usize, value: u64)
    requires { (at + width ≤ length s.old) × (width ≤ 8) }
    ensures { s.new ≡ put_le width at value s.old }
{
    s[at..at + width].copy_from_slice(&value.to_le_bytes()[..width]);
}

// The address that the card gets of a packet: its entry's, plus its offset.
pub fn address_plus(entry: u64, offset: u64) -> u64
    ensures { result ≡ address_plus entry offset }
{
    std::num::wrapping_add_u64(entry, offset)
}

// A receive slot's status, as the card wrote it back.
pub fn status(ring: &[u8], slot: usize) -> u32
    requires { InRing slot ring.now }
    ensures { result ≡ status_at slot ring.now }
{
    read(ring, slot * SLOT_BYTES + 8, 4) as u32
}

// The length of a receive slot's frame, as the card wrote it back.
pub fn frame_length(ring: &[u8], slot: usize) -> u16
    requires { InRing slot ring.now }
    ensures { result ≡ length_at slot ring.now }
{
    read(ring, slot * SLOT_BYTES + 12, 2) as u16
}

// Gives a buffer to the card: the receive descriptor's read form, an address and zero.
#[tactic(auto, unfolding(crate::specs::Slots::offered))]
pub fn offer(ring: &mut [u8], slot: usize, address: u64)
    requires { InRing slot ring.old }
    ensures { ring.new ≡ offered slot address ring.old }
{
    write(ring, slot * SLOT_BYTES, 8, address);
    write(ring, slot * SLOT_BYTES + 8, 8, 0);
}

// Whether the card has sent a slot's packet.
pub fn is_sent(ring: &[u8], slot: usize) -> bool
    requires { InRing slot ring.now }
    ensures { result ≡ sent_at slot ring.now }
{
    read(ring, slot * SLOT_BYTES + 12, 4) % 2 == 1
}

// Gives a packet to the card: the send descriptor's three words.
#[tactic(auto, unfolding(crate::specs::Slots::described))]
pub fn describe(ring: &mut [u8], slot: usize, address: u64, len: u32)
    requires { InRing slot ring.old × (len ≤ SMALLEST-SIZE * 2 ^ SIZE-DOUBLINGS) }
    ensures { ring.new ≡ described slot address len ring.old }
{
    write(ring, slot * SLOT_BYTES, 8, address);
    write(ring, slot * SLOT_BYTES + 8, 4, COMMAND + u64::from(len));
    write(
        ring,
        slot * SLOT_BYTES + 12,
        4,
        u64::from(len) * PAYLEN_UNIT,
    );
}

// The caller's record of statistics: packets and bytes, received and sent. `service::read_counters` has the order in which the card's counters are
// read. Ported from read_stats of src/ixgbe.rs.

#![tactic(auto)]

ghost use Rattle.std.specs.Prelude.{◌≡◌};
ghost use Rattle.stats.specs.Sums.{byte_count, with_more};

// The packets and bytes received and sent.
#[derive(Clone, Copy, PartialEq, Eq, Debug, Default)]
pub struct Stats {
    pub received: u64,
    pub sent: u64,
    pub received_bytes: u64,
    pub sent_bytes: u64,
}

// A count of bytes, from its two words.
pub fn byte_count(low: u32, high: u32) -> u64
    ensures { result ≡ byte_count low high }
{
    u64::from(low) + (u64::from(high) << 32)
}

// The record with what the six counters gave, in the order in which they are read. The sums wrap.
#[tactic(auto, unfolding(crate::specs::Sums::with_more))]
pub fn added(stats: Stats, words: [u32; 6]) -> Stats
    ensures { result ≡ with_more stats words }
{
    let received_bytes = byte_count(words[2], words[3]);
    let sent_bytes = byte_count(words[4], words[5]);
    Stats {
        received: stats.received.wrapping_add(u64::from(words[0])),
        sent: stats.sent.wrapping_add(u64::from(words[1])),
        received_bytes: stats.received_bytes.wrapping_add(received_bytes),
        sent_bytes: stats.sent_bytes.wrapping_add(sent_bytes),
    }
}

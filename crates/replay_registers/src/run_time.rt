// The registers while the card runs, kinds 50 to 62: counters, link, MAC address, promiscuous mode, a queue's interrupts.
use replay_lines::{Head, begin, show, show_action, show_all, show_whether};
use replay_records::RunTimeCall;
use stats::Stats;
use std::io::{Result, Write};

// The four sums.
fn show_sums<W: Write>(output: &mut W, stats: &Stats) -> Result<()> {
    show_all(
        output,
        &[
            stats.received,
            stats.sent,
            stats.received_bytes,
            stats.sent_bytes,
        ],
    )
}

// A record: the next action of a call, what a word means, or the sums after it.
pub fn play<W: Write>(
    output: &mut W,
    head: Head,
    call: RunTimeCall,
    stats: &mut Stats,
) -> Result<()> {
    begin(output, head)?;
    match call {
        RunTimeCall::Counters(reads) => {
            show_action(output, service::read_counters(reads.map, reads.made))
        }
        RunTimeCall::Add { read } => {
            *stats = stats::added(*stats, read);
            show_sums(output, stats)
        }
        RunTimeCall::Sums {
            received,
            sent,
            received_bytes,
            sent_bytes,
        } => {
            *stats = Stats {
                received,
                sent,
                received_bytes,
                sent_bytes,
            };
            show_sums(output, stats)
        }
        RunTimeCall::Link(reads) => show_action(output, service::read_link(reads.map, reads.made)),
        RunTimeCall::Speed { value } => show(output, card::link_speed(value)),
        RunTimeCall::Mac(reads) => show_action(output, service::read_mac(reads.map, reads.made)),
        RunTimeCall::MacOf(words) => show_all(output, &service::mac(words.low, words.high)),
        RunTimeCall::MacWrite { map, mac, made } => {
            show_action(output, service::write_mac(map, mac, made))
        }
        RunTimeCall::Promiscuous {
            map,
            on,
            made,
            value,
        } => show_action(output, service::promiscuous(map, on, made, value)),
        RunTimeCall::Enable {
            map,
            kind,
            queue,
            rate,
            made,
            value,
        } => show_action(output, service::enable(map, kind, queue, rate, made, value)),
        RunTimeCall::Disable {
            map,
            queue,
            made,
            value,
        } => show_action(output, service::disable(map, queue, made, value)),
        RunTimeCall::ByteCount(words) => show(output, stats::byte_count(words.low, words.high)),
        RunTimeCall::InMap { map, register } => {
            show_whether(output, startup::in_map(map, register))
        }
    }
}

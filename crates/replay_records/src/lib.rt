// The records of `replay`: the word of each kind, and what its body says. docs/REPLAY.md has the table of kinds.

#![tactic(auto)]

mod account_calls;
mod body;
mod forge;
mod numbers;
mod register_calls;

pub use account_calls::{
    AccountCall, Array, Lent, ListCall, Loan, MemoryCall, PacketCall, Part, Shape,
};
use body::Body;
pub use forge::Forge;
pub use numbers::{Number, digest, mixed, store, value_of};
pub use register_calls::{RateCall, Reads, RunTimeCall, SetUp, StartUpCall, Words};

// What a record asks for.
#[derive(Clone, Copy)]
pub enum Call<'a> {
    Account(AccountCall<'a>),
    SetUp(SetUp),
    StartUp(StartUpCall),
    RunTime(RunTimeCall),
    Rates(RateCall),
}

// A record: the word of its kind, and the call.
#[derive(Clone, Copy)]
pub struct Record<'a> {
    pub word: &'static str,
    pub call: Call<'a>,
}

impl<'a> Record<'a> {
    // What the bytes of a body say, by the number of its kind. None: there is no such kind, or its bodies are others.
    pub fn of(kind: u16, bytes: &'a [u8]) -> Option<Record<'a>> {
        let mut body = Body::new(bytes);
        let record = named(kind, &mut body)?;
        if !body.is_empty() {
            return None;
        }
        Some(record)
    }
}

// A record out of the first bytes of a body.
fn named<'a>(kind: u16, body: &mut Body<'a>) -> Option<Record<'a>> {
    match kind {
        1..=14 => account_calls::call(kind, body),
        20..=35 => account_calls::access(kind, body),
        40..=44 => register_calls::start_up(kind, body),
        50..=62 => register_calls::run_time(kind, body),
        70..=75 => register_calls::rates(kind, body),
        _ => None,
    }
}

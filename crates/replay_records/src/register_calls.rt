// The calls of the registers: start-up, kinds 40 to 44, the calls at run time, kinds 50 to 62, and the interrupt window, kinds 70 to 75.
use crate::body::Body;
use crate::forge::Forge;
use crate::{Call, Record};

// A set-up. Interrupts are of the kind that is asked for, if any, and so many of the addresses are lent.
#[derive(Clone, Copy)]
pub struct SetUp {
    pub map: u64,
    pub receives: usize,
    pub sends: usize,
    pub tries: usize,
    pub interrupts: Option<u64>,
    pub rate: u32,
    pub addresses: u16,
}

// A record of the start-up state.
#[derive(Clone, Copy)]
pub enum StartUpCall {
    Step { value: u32 },
    Sound,
    Forge(Forge),
    Fields,
}

// A list of reads: the map's length, and how many of them were made.
#[derive(Clone, Copy)]
pub struct Reads {
    pub map: u64,
    pub made: usize,
}

// The two words of one number.
#[derive(Clone, Copy)]
pub struct Words {
    pub low: u32,
    pub high: u32,
}

// A record of the card while it runs.
#[derive(Clone, Copy)]
pub enum RunTimeCall {
    Counters(Reads),
    Add {
        read: [u32; 6],
    },
    Sums {
        received: u64,
        sent: u64,
        received_bytes: u64,
        sent_bytes: u64,
    },
    Link(Reads),
    Speed {
        value: u32,
    },
    Mac(Reads),
    MacOf(Words),
    MacWrite {
        map: u64,
        mac: [u8; 6],
        made: usize,
    },
    Promiscuous {
        map: u64,
        on: bool,
        made: usize,
        value: u32,
    },
    // Any number as the kind, since document 01 gives 12 for all but two.
    Enable {
        map: u64,
        kind: u64,
        queue: usize,
        rate: u32,
        made: usize,
        value: u32,
    },
    Disable {
        map: u64,
        queue: usize,
        made: usize,
        value: u32,
    },
    ByteCount(Words),
    InMap {
        map: u64,
        register: u32,
    },
}

// A record of the interrupt window.
#[derive(Clone, Copy)]
pub enum RateCall {
    Open {
        range: usize,
        threshold: u64,
        interval: u64,
    },
    Tick,
    Rated {
        elapsed: u64,
        rate: u32,
        received: usize,
        asked: usize,
    },
    Sound,
    Forge(Forge),
    Fields,
}

// ---- bodies

impl Reads {
    fn of(body: &mut Body<'_>) -> Option<Reads> {
        Some(Reads {
            map: body.take()?,
            made: body.take()?,
        })
    }
}

impl Words {
    fn of(body: &mut Body<'_>) -> Option<Words> {
        Some(Words {
            low: body.take()?,
            high: body.take()?,
        })
    }
}

// A kind of interrupts, if some are asked for.
fn interrupts(body: &mut Body<'_>) -> Option<Option<u64>> {
    let asked: u16 = body.take()?;
    let kind = body.take()?;
    Some(if asked == 0 { None } else { Some(kind) })
}

fn set_up(body: &mut Body<'_>) -> Option<SetUp> {
    Some(SetUp {
        map: body.take()?,
        receives: body.take()?,
        sends: body.take()?,
        tries: body.take()?,
        interrupts: interrupts(body)?,
        rate: body.take()?,
        addresses: body.take()?,
    })
}

// The record of a kind from 40 to 44.
pub fn start_up<'a>(kind: u16, body: &mut Body<'a>) -> Option<Record<'a>> {
    let (word, call) = match kind {
        40 => ("set-up", Call::SetUp(set_up(body)?)),
        41 => (
            "step",
            Call::StartUp(StartUpCall::Step {
                value: body.take()?,
            }),
        ),
        42 => ("state-sound", Call::StartUp(StartUpCall::Sound)),
        43 => (
            "forge-state",
            Call::StartUp(StartUpCall::Forge(Forge::of(body)?)),
        ),
        44 => ("state", Call::StartUp(StartUpCall::Fields)),
        _ => return None,
    };
    Some(Record { word, call })
}

fn add(body: &mut Body<'_>) -> Option<RunTimeCall> {
    Some(RunTimeCall::Add {
        read: [
            body.take()?,
            body.take()?,
            body.take()?,
            body.take()?,
            body.take()?,
            body.take()?,
        ],
    })
}

fn sums(body: &mut Body<'_>) -> Option<RunTimeCall> {
    Some(RunTimeCall::Sums {
        received: body.take()?,
        sent: body.take()?,
        received_bytes: body.take()?,
        sent_bytes: body.take()?,
    })
}

fn mac_write(body: &mut Body<'_>) -> Option<RunTimeCall> {
    Some(RunTimeCall::MacWrite {
        map: body.take()?,
        mac: *body.bytes(6)?.first_chunk::<6>()?,
        made: body.take()?,
    })
}

fn promiscuous(body: &mut Body<'_>) -> Option<RunTimeCall> {
    let map = body.take()?;
    let on: u8 = body.take()?;
    Some(RunTimeCall::Promiscuous {
        map,
        on: on != 0,
        made: body.take()?,
        value: body.take()?,
    })
}

fn enable(body: &mut Body<'_>) -> Option<RunTimeCall> {
    Some(RunTimeCall::Enable {
        map: body.take()?,
        kind: body.take()?,
        queue: body.take()?,
        rate: body.take()?,
        made: body.take()?,
        value: body.take()?,
    })
}

fn disable(body: &mut Body<'_>) -> Option<RunTimeCall> {
    Some(RunTimeCall::Disable {
        map: body.take()?,
        queue: body.take()?,
        made: body.take()?,
        value: body.take()?,
    })
}

fn in_map(body: &mut Body<'_>) -> Option<RunTimeCall> {
    Some(RunTimeCall::InMap {
        map: body.take()?,
        register: body.take()?,
    })
}

// The record of a kind from 50 to 62.
pub fn run_time<'a>(kind: u16, body: &mut Body<'a>) -> Option<Record<'a>> {
    let (word, call) = match kind {
        50 => ("counters", RunTimeCall::Counters(Reads::of(body)?)),
        51 => ("add", add(body)?),
        52 => ("sums", sums(body)?),
        53 => ("link", RunTimeCall::Link(Reads::of(body)?)),
        54 => (
            "speed",
            RunTimeCall::Speed {
                value: body.take()?,
            },
        ),
        55 => ("mac", RunTimeCall::Mac(Reads::of(body)?)),
        56 => ("mac-of", RunTimeCall::MacOf(Words::of(body)?)),
        57 => ("mac-write", mac_write(body)?),
        58 => ("promiscuous", promiscuous(body)?),
        59 => ("enable", enable(body)?),
        60 => ("disable", disable(body)?),
        61 => ("byte-count", RunTimeCall::ByteCount(Words::of(body)?)),
        62 => ("in-map", in_map(body)?),
        _ => return None,
    };
    Some(Record {
        word,
        call: Call::RunTime(call),
    })
}

fn open(body: &mut Body<'_>) -> Option<RateCall> {
    Some(RateCall::Open {
        range: body.take()?,
        threshold: body.take()?,
        interval: body.take()?,
    })
}

fn rated(body: &mut Body<'_>) -> Option<RateCall> {
    Some(RateCall::Rated {
        elapsed: body.take()?,
        rate: body.take()?,
        received: body.take()?,
        asked: body.take()?,
    })
}

// The record of a kind from 70 to 75.
pub fn rates<'a>(kind: u16, body: &mut Body<'a>) -> Option<Record<'a>> {
    let (word, call) = match kind {
        70 => ("window", open(body)?),
        71 => ("tick", RateCall::Tick),
        72 => ("rated", rated(body)?),
        73 => ("window-sound", RateCall::Sound),
        74 => ("forge-window", RateCall::Forge(Forge::of(body)?)),
        75 => ("window-fields", RateCall::Fields),
        _ => return None,
    };
    Some(Record {
        word,
        call: Call::Rates(call),
    })
}

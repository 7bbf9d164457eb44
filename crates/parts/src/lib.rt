// The parts of the start-up as tables: specs/Parts.antt has them under the datasheet's sections, and a constant array here is one of them.

#![tactic(auto)]

ghost use Rattle.std.specs.Prelude.{◌≡◌, ◌<◌, ◌≤◌, length, get_or};
ghost use Rattle.parts.specs.Parts.{PARTS, parts, no_made, no_part, no_template, part_rows, items_of};

use card::Register;

// The pause after the reset, in milliseconds.
pub const RESET_MS: u32 = 10;

// The bytes of a ring, and its last slot.
const RING_BYTES: u32 = (limits::SLOTS * limits::SLOT_BYTES) as u32;

const LAST_SLOT: u32 = (limits::SLOTS - 1) as u32;

// A word of a template: as it stands, or made from the set-up and the queue.
#[derive(Clone, Copy, PartialEq, Eq, Debug)]
pub enum Value {
    Is(u32),
    FirstOnly(u32),
    ReceiveLow,
    ReceiveHigh,
    SendLow,
    SendHigh,
    Rate,
    QueueBit,
    VectorClear,
    VectorZero,
    VectorQueue,
}

// An item before its queue is known.
#[derive(Clone, Copy, PartialEq, Eq, Debug)]
pub enum Template {
    Write(Register, Value),
    Read(Register),
    Change(Register, Value, Value),
    WaitSet(Register, u32),
    WaitClear(Register, u32),
    Pause(u32),
    Link(Register),
}

// How often a part is made.
#[derive(Clone, Copy, PartialEq, Eq, Debug)]
pub enum Times {
    Once,
    Buffer,
    Receive,
    Send,
    MsiQueue,
    MsixQueue,
}

// A part of the sequence: `len` templates, made for one queue after the other.
#[derive(Clone, Copy, PartialEq, Eq, Debug)]
pub struct Part {
    pub times: Times,
    pub len: usize,
}

pub const PARTS: usize = 23;

const DISABLE_INTERRUPTS: [Template; 3] = [
    Template::Write(Register::EIMS, Value::Is(0)),
    Template::Write(Register::EIMC, Value::Is(card::IRQ_ALL)),
    Template::Read(Register::EICR),
];

const RESET: [Template; 3] = [
    Template::Write(Register::CTRL, Value::Is(card::CTRL_RST)),
    Template::WaitClear(Register::CTRL, card::CTRL_RST),
    Template::Pause(RESET_MS),
];

const READY: [Template; 4] = [
    Template::Read(Register::RAL),
    Template::Read(Register::RAH),
    Template::WaitSet(Register::EEC, card::EEC_ARD),
    Template::WaitSet(Register::RDRXCTL, card::RDRXCTL_DMAIDONE),
];

const INIT_LINK: [Template; 3] = [
    Template::Change(
        Register::AUTOC,
        Value::Is(card::AUTOC_LMS),
        Value::Is(card::AUTOC_LMS_10G_SERIAL),
    ),
    Template::Change(
        Register::AUTOC,
        Value::Is(card::AUTOC_10G),
        Value::Is(card::AUTOC_10G_XAUI),
    ),
    Template::Change(
        Register::AUTOC,
        Value::Is(0),
        Value::Is(card::AUTOC_RESTART),
    ),
];

const RESET_STATS: [Template; 6] = [
    Template::Read(Register::GPRC),
    Template::Read(Register::GPTC),
    Template::Read(Register::GORCL),
    Template::Read(Register::GORCH),
    Template::Read(Register::GOTCL),
    Template::Read(Register::GOTCH),
];

const RECEIVE_OFF: [Template; 1] = [Template::Change(
    Register::RXCTRL,
    Value::Is(card::RXCTRL_RXEN),
    Value::Is(0),
)];

const RECEIVE_BUFFERS: [Template; 1] = [Template::Write(
    Register::RXPBSIZE,
    Value::FirstOnly(card::RXPBSIZE_128KB),
)];

const RECEIVE_OFFLOAD: [Template; 5] = [
    Template::Change(
        Register::HLREG0,
        Value::Is(0),
        Value::Is(card::HLREG0_RXCRCSTRP),
    ),
    Template::Change(
        Register::RDRXCTL,
        Value::Is(0),
        Value::Is(card::RDRXCTL_CRCSTRIP),
    ),
    Template::Change(
        Register::RDRXCTL,
        Value::Is(card::RDRXCTL_RSCFRSTSIZE),
        Value::Is(0),
    ),
    Template::Change(
        Register::RDRXCTL,
        Value::Is(card::RDRXCTL_RSCFRSTSIZE),
        Value::Is(card::RDRXCTL_RSC),
    ),
    Template::Change(Register::FCTRL, Value::Is(0), Value::Is(card::FCTRL_BAM)),
];

const RECEIVE_QUEUE: [Template; 7] = [
    Template::Change(
        Register::SRRCTL,
        Value::Is(card::SRRCTL_DESCTYPE),
        Value::Is(card::SRRCTL_ONEBUF),
    ),
    Template::Change(Register::SRRCTL, Value::Is(0), Value::Is(card::SRRCTL_DROP)),
    Template::Write(Register::RDBAL, Value::ReceiveLow),
    Template::Write(Register::RDBAH, Value::ReceiveHigh),
    Template::Write(Register::RDLEN, Value::Is(RING_BYTES)),
    Template::Write(Register::RDH, Value::Is(0)),
    Template::Write(Register::RDT, Value::Is(0)),
];

const RECEIVE_SNOOP: [Template; 1] = [Template::Change(
    Register::CTRL_EXT,
    Value::Is(0),
    Value::Is(card::CTRL_EXT_NS_DIS),
)];

const RECEIVE_DCA: [Template; 1] = [Template::Change(
    Register::DCA_RXCTRL,
    Value::Is(card::DCA_RXCTRL_12),
    Value::Is(0),
)];

const RECEIVE_ON: [Template; 2] = [
    Template::Change(
        Register::FCTRL,
        Value::Is(0),
        Value::Is(card::FCTRL_PROMISC),
    ),
    Template::Change(Register::RXCTRL, Value::Is(0), Value::Is(card::RXCTRL_RXEN)),
];

const SEND_OFFLOAD: [Template; 1] = [Template::Change(
    Register::HLREG0,
    Value::Is(0),
    Value::Is(card::HLREG0_SEND),
)];

const SEND_BUFFERS: [Template; 1] = [Template::Write(
    Register::TXPBSIZE,
    Value::FirstOnly(card::TXPBSIZE_40KB),
)];

const SEND_ARBITER: [Template; 2] = [
    Template::Write(Register::DTXMXSZRQ, Value::Is(card::DTXMXSZRQ_MOST)),
    Template::Change(
        Register::RTTDCS,
        Value::Is(card::RTTDCS_ARBDIS),
        Value::Is(0),
    ),
];

const SEND_QUEUE: [Template; 4] = [
    Template::Write(Register::TDBAL, Value::SendLow),
    Template::Write(Register::TDBAH, Value::SendHigh),
    Template::Write(Register::TDLEN, Value::Is(RING_BYTES)),
    Template::Change(
        Register::TXDCTL,
        Value::Is(card::TXDCTL_THRESHOLDS),
        Value::Is(card::TXDCTL_USUAL),
    ),
];

const SEND_ON: [Template; 1] = [Template::Write(Register::DMATXCTL, Value::Is(card::DMATXCTL_ON))];

const START_RECEIVE_QUEUE: [Template; 4] = [
    Template::Change(
        Register::RXDCTL,
        Value::Is(0),
        Value::Is(card::RXDCTL_ENABLE),
    ),
    Template::WaitSet(Register::RXDCTL, card::RXDCTL_ENABLE),
    Template::Write(Register::RDH, Value::Is(0)),
    Template::Write(Register::RDT, Value::Is(LAST_SLOT)),
];

const START_SEND_QUEUE: [Template; 4] = [
    Template::Write(Register::TDH, Value::Is(0)),
    Template::Write(Register::TDT, Value::Is(0)),
    Template::Change(
        Register::TXDCTL,
        Value::Is(0),
        Value::Is(card::TXDCTL_ENABLE),
    ),
    Template::WaitSet(Register::TXDCTL, card::TXDCTL_ENABLE),
];

const ENABLE_MSI: [Template; 6] = [
    Template::Change(Register::IVAR, Value::VectorClear, Value::VectorZero),
    Template::Write(Register::EIAC, Value::Is(0)),
    Template::Write(Register::EITR, Value::Rate),
    Template::Write(Register::EIMC, Value::Is(card::IRQ_ALL)),
    Template::Read(Register::EICR),
    Template::Change(Register::EIMS, Value::Is(0), Value::QueueBit),
];

const ENABLE_MSIX: [Template; 5] = [
    Template::Change(Register::GPIE, Value::Is(0), Value::Is(card::GPIE_MSIX)),
    Template::Change(Register::IVAR, Value::VectorClear, Value::VectorQueue),
    Template::Write(Register::EIAC, Value::Is(card::IRQ_QUEUES)),
    Template::Write(Register::EITR, Value::Rate),
    Template::Change(Register::EIMS, Value::Is(0), Value::QueueBit),
];

const WAIT_FOR_LINK: [Template; 1] = [Template::Link(Register::LINKS)];

// ---- the parts

// The sequence: how often each part is made, and its templates.
const SEQUENCE: [(Times, &[Template]); PARTS] = [
    (Times::Once, &DISABLE_INTERRUPTS),
    (Times::Once, &RESET),
    (Times::Once, &DISABLE_INTERRUPTS),
    (Times::Once, &READY),
    (Times::Once, &INIT_LINK),
    (Times::Once, &RESET_STATS),
    (Times::Once, &RECEIVE_OFF),
    (Times::Buffer, &RECEIVE_BUFFERS),
    (Times::Once, &RECEIVE_OFFLOAD),
    (Times::Receive, &RECEIVE_QUEUE),
    (Times::Once, &RECEIVE_SNOOP),
    (Times::Receive, &RECEIVE_DCA),
    (Times::Once, &RECEIVE_ON),
    (Times::Once, &SEND_OFFLOAD),
    (Times::Buffer, &SEND_BUFFERS),
    (Times::Once, &SEND_ARBITER),
    (Times::Send, &SEND_QUEUE),
    (Times::Once, &SEND_ON),
    (Times::Receive, &START_RECEIVE_QUEUE),
    (Times::Send, &START_SEND_QUEUE),
    (Times::MsiQueue, &ENABLE_MSI),
    (Times::MsixQueue, &ENABLE_MSIX),
    (Times::Once, &WAIT_FOR_LINK),
];

fn row(part: usize) -> (Times, &'static [Template])
    requires { part < PARTS }
    ensures { (result.0 ≡ (get_or parts part no_made).times) × (result.1.now ≡ items_of part) }
{
    SEQUENCE[part]
}

// A part: how often it is made, and of how many templates.
pub fn part_at(i: usize) -> Part
    requires { i < PARTS }
    ensures { result ≡ get_or part_rows i no_part }
{
    let (times, items) = row(i);
    Part {
        times,
        len: items.len(),
    }
}

// A template of a part.
pub fn template_at(part: usize, i: usize) -> Template
    requires { (part < PARTS) × (i < length (items_of part)) }
    ensures { result ≡ get_or (items_of part) i no_template }
{
    let (_, items) = row(part);
    items[i]
}

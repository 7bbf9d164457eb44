// The card's registers: one constant table with a register's address for a queue, and the words that are written and tested.
// specs/Registers.antt has each register's datasheet name and section, specs/Masks.antt each word's bits.

#![tactic(auto)]

ghost use Rattle.std.specs.Prelude.{◌≡◌, ◌<◌, ◌≤◌};
ghost use Rattle.limits.specs.Limits.{QUEUES};
ghost use Rattle.card.specs.Registers.{ROWS, register_row, entry, address};
ghost use Rattle.card.specs.Masks.{masks, changed, queue_bit, direction_number, vector_shift, vector_clear, vector_set, link_speed};

// ---- the table

// The registers by their datasheet names, one for each row of the table.
#[allow(non_camel_case_types)]
#[derive(Clone, Copy, PartialEq, Eq, Debug)]
pub enum Register {
    EICR,
    EIMS,
    EIMC,
    EIAC,
    EITR,
    IVAR,
    GPIE,
    CTRL,
    CTRL_EXT,
    EEC,
    FCTRL,
    RAL,
    RAH,
    RDBAL,
    RDBAH,
    RDLEN,
    RDH,
    RDT,
    RXDCTL,
    SRRCTL,
    SRRCTL_HIGH,
    RDRXCTL,
    RXPBSIZE,
    RXCTRL,
    DTXMXSZRQ,
    DMATXCTL,
    TDBAL,
    TDBAH,
    TDLEN,
    TDH,
    TDT,
    TXDCTL,
    TXPBSIZE,
    RTTDCS,
    DCA_RXCTRL,
    DCA_RXCTRL_HIGH,
    HLREG0,
    AUTOC,
    LINKS,
    GPRC,
    GPTC,
    GORCL,
    GORCH,
    GOTCL,
    GOTCH,
}

// A row: an address and a stride.
#[derive(Clone, Copy)]
struct Entry(u32, u32);

const REGISTERS: [Entry; 45] = [
    Entry(0x0800, 0),
    Entry(0x0880, 0),
    Entry(0x0888, 0),
    Entry(0x0810, 0),
    Entry(0x0820, 4),
    Entry(0x0900, 4),
    Entry(0x0898, 0),
    Entry(0x0000, 0),
    Entry(0x18, 0),
    Entry(0x10010, 0),
    Entry(0x5080, 0),
    Entry(0x5400, 8),
    Entry(0x5404, 8),
    Entry(0x1000, 0x40),
    Entry(0x1004, 0x40),
    Entry(0x1008, 0x40),
    Entry(0x1010, 0x40),
    Entry(0x1018, 0x40),
    Entry(0x1028, 0x40),
    Entry(0x2100, 4),
    Entry(0x1014, 0x40),
    Entry(0x2F00, 0),
    Entry(0x3C00, 4),
    Entry(0x3000, 0),
    Entry(0x8100, 0),
    Entry(0x4A80, 0),
    Entry(0x6000, 0x40),
    Entry(0x6004, 0x40),
    Entry(0x6008, 0x40),
    Entry(0x6010, 0x40),
    Entry(0x6018, 0x40),
    Entry(0x6028, 0x40),
    Entry(0xCC00, 4),
    Entry(0x4900, 0),
    Entry(0x2200, 4),
    Entry(0x100C, 0x40),
    Entry(0x4240, 0),
    Entry(0x42A0, 0),
    Entry(0x42A4, 0),
    Entry(0x4074, 0),
    Entry(0x4080, 0),
    Entry(0x4088, 0),
    Entry(0x408C, 0),
    Entry(0x4090, 0),
    Entry(0x4094, 0),
];

// The queues that have an alias address below the others.
const LOW_QUEUES: usize = 16;

impl Register {
    // Its row of the table.
    fn row(self) -> usize
        ensures { (result ≡ register_row self) × (result < ROWS) }
    {
        self as usize
    }

    // The address of its row, so many strides on.
    fn entry(self, n: usize) -> u32
        requires { n < QUEUES }
        ensures { result ≡ entry (register_row self) n }
    {
        let Entry(base, stride) = REGISTERS[self.row()];
        base + stride * (n as u32)
    }

    // The address for a queue: an IVAR serves two queues, and SRRCTL and DCA_RXCTRL have two rows.
    pub fn address(self, queue: usize) -> u32
        requires { queue < QUEUES }
        ensures { result ≡ address (register_row self) queue }
    {
        match self {
            Register::IVAR => self.entry(queue / 2),
            Register::SRRCTL if queue >= LOW_QUEUES => Register::SRRCTL_HIGH.entry(queue),
            Register::DCA_RXCTRL if queue >= LOW_QUEUES => Register::DCA_RXCTRL_HIGH.entry(queue),
            _ => self.entry(queue),
        }
    }
}

// ---- words that are written, and bits that are tested

pub const IRQ_ALL: u32 = 0xFFFF_FFFF;

pub const IRQ_QUEUES: u32 = 0xFFFF;

pub const CTRL_RST: u32 = 0x0400_0008;

pub const CTRL_EXT_NS_DIS: u32 = 0x0001_0000;

pub const EEC_ARD: u32 = 0x200;

pub const RDRXCTL_CRCSTRIP: u32 = 2;

pub const RDRXCTL_DMAIDONE: u32 = 8;

pub const RDRXCTL_RSCFRSTSIZE: u32 = 0x003E_0000;

pub const RDRXCTL_RSC: u32 = 0x0600_0000;

pub const AUTOC_LMS: u32 = 0xE000;

pub const AUTOC_LMS_10G_SERIAL: u32 = 0x6000;

pub const AUTOC_10G: u32 = 0x180;

pub const AUTOC_10G_XAUI: u32 = 0;

pub const AUTOC_RESTART: u32 = 0x1000;

pub const RXCTRL_RXEN: u32 = 1;

pub const RXPBSIZE_128KB: u32 = 0x0002_0000;

pub const HLREG0_RXCRCSTRP: u32 = 2;

pub const HLREG0_SEND: u32 = 0x401;

pub const FCTRL_PROMISC: u32 = 0x300;

pub const FCTRL_BAM: u32 = 0x400;

pub const SRRCTL_DESCTYPE: u32 = 0x0E00_0000;

pub const SRRCTL_ONEBUF: u32 = 0x0200_0000;

pub const SRRCTL_DROP: u32 = 0x1000_0000;

pub const DCA_RXCTRL_12: u32 = 0x1000;

pub const RXDCTL_ENABLE: u32 = 0x0200_0000;

pub const TXPBSIZE_40KB: u32 = 0xA000;

pub const DTXMXSZRQ_MOST: u32 = 0xFFF;

pub const RTTDCS_ARBDIS: u32 = 0x40;

pub const TXDCTL_THRESHOLDS: u32 = 0x007F_7F7F;

pub const TXDCTL_USUAL: u32 = 0x0004_0824;

pub const TXDCTL_ENABLE: u32 = 0x0200_0000;

pub const DMATXCTL_ON: u32 = 0x8100_0001;

pub const GPIE_MSIX: u32 = 0xC000_0010;

pub const IVAR_BYTE: u32 = 0xFF;

pub const IVAR_VALID: u32 = 0x80;

pub const LINKS_UP: u32 = 0x4000_0000;

pub const LINKS_SPEED: u32 = 0x3000_0000;

// Every word, in the order above: the constants are the bits of specs/.
fn words() -> [u32; 37]
    ensures { result ≡ masks }
{
    [
        IRQ_ALL,
        IRQ_QUEUES,
        CTRL_RST,
        CTRL_EXT_NS_DIS,
        EEC_ARD,
        RDRXCTL_CRCSTRIP,
        RDRXCTL_DMAIDONE,
        RDRXCTL_RSCFRSTSIZE,
        RDRXCTL_RSC,
        AUTOC_LMS,
        AUTOC_LMS_10G_SERIAL,
        AUTOC_10G,
        AUTOC_10G_XAUI,
        AUTOC_RESTART,
        RXCTRL_RXEN,
        RXPBSIZE_128KB,
        HLREG0_RXCRCSTRP,
        HLREG0_SEND,
        FCTRL_PROMISC,
        FCTRL_BAM,
        SRRCTL_DESCTYPE,
        SRRCTL_ONEBUF,
        SRRCTL_DROP,
        DCA_RXCTRL_12,
        RXDCTL_ENABLE,
        TXPBSIZE_40KB,
        DTXMXSZRQ_MOST,
        RTTDCS_ARBDIS,
        TXDCTL_THRESHOLDS,
        TXDCTL_USUAL,
        TXDCTL_ENABLE,
        DMATXCTL_ON,
        GPIE_MSIX,
        IVAR_BYTE,
        IVAR_VALID,
        LINKS_UP,
        LINKS_SPEED,
    ]
}

// A word with some bits cleared and then some set.
pub fn changed_word(value: u32, clear: u32, set: u32) -> u32
    ensures { result ≡ changed value clear set }
{
    value & !clear | set
}

// A queue's bit in the interrupt masks.
pub fn queue_bit(queue: usize) -> u32
    ensures { result ≡ queue_bit queue }
{
    1 << (queue % 32)
}

// The two bytes of a queue in its IVAR.
#[derive(Clone, Copy, PartialEq, Eq, Debug)]
pub enum Direction {
    Receive,
    Send,
}

// The place of a queue's byte in its IVAR.
fn vector_shift(direction: Direction, queue: usize) -> usize
    ensures { result ≡ vector_shift (direction_number direction) queue }
{
    16 * (queue % 2) + 8 * (direction as usize)
}

// What a queue's IVAR loses.
pub fn vector_clear(direction: Direction, queue: usize) -> u32
    ensures { result ≡ vector_clear (direction_number direction) queue }
{
    IVAR_BYTE << vector_shift(direction, queue)
}

// What it gains.
pub fn vector_set(direction: Direction, queue: usize, vector: u32) -> u32
    ensures { result ≡ vector_set (direction_number direction) queue vector }
{
    (vector | IVAR_VALID) << vector_shift(direction, queue)
}

// The link's speed in Mbit/s by LINKS, 0 where there is none: "else 0", as document 01 has it.
#[tactic(auto, unfolding(crate::specs::Masks::link_speed))]
pub fn link_speed(value: u32) -> u32
    ensures { result ≡ link_speed value }
{
    if value & LINKS_UP == 0 {
        return 0;
    }
    match value & LINKS_SPEED {
        0x1000_0000 => 100,
        0x2000_0000 => 1000,
        0x3000_0000 => 10000,
        _ => 0,
    }
}

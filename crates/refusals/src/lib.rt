// Document 01, "Number returned by a call": one case for each refusal, its number, and what is also returned.

#![tactic(auto)]

ghost use Rattle.std.specs.Prelude.{◌≡◌};
ghost use Rattle.refusals.specs.Numbers.{refusal_number, refusal_also};

// Why a call was refused.
#[derive(Clone, Copy, PartialEq, Eq, Debug, thiserror::Error)]
pub enum Refusal {
    #[error("the account, window or start-up state is not sound")]
    Unsound,
    #[error("a ring, the addresses or the packet memory has a wrong length, or a list is too short")]
    WrongSize,
    #[error("there is no such queue")]
    NoQueue,
    #[error("handle {0} is the first that is not good")]
    BadHandle(usize),
    #[error("a packet above entry size less headroom, or more headroom than there ever is")]
    TooLarge,
    #[error("too few buffers are free")]
    NoneFree,
    #[error("more headroom than the offset of the handle")]
    NoHeadroom,
    #[error("receive has started already, or not yet")]
    NotNow,
    #[error("a number of the set-up is outside its range")]
    OutOfRange,
    #[error("the last read of the wait on register {0:#x} failed")]
    Waited(u32),
    #[error("register {0:#x} is not in the map")]
    OutsideMap(u32),
    #[error("the queue has no interrupt, or there is no such kind")]
    NoInterrupt,
}

impl Refusal {
    // Document 01's number.
    pub fn number(self) -> u64
        ensures { result ≡ refusal_number self }
    {
        match self {
            Refusal::Unsound => 1,
            Refusal::WrongSize => 2,
            Refusal::NoQueue => 3,
            Refusal::BadHandle(_) => 4,
            Refusal::TooLarge => 5,
            Refusal::NoneFree => 6,
            Refusal::NoHeadroom => 7,
            Refusal::NotNow => 8,
            Refusal::OutOfRange => 9,
            Refusal::Waited(_) => 10,
            Refusal::OutsideMap(_) => 11,
            Refusal::NoInterrupt => 12,
        }
    }

    // What is also returned: an index or a register; 0 where there is nothing.
    pub fn also(self) -> u64
        ensures { result ≡ refusal_also self }
    {
        match self {
            Refusal::BadHandle(index) => index as u64,
            Refusal::Waited(register) | Refusal::OutsideMap(register) => register as u64,
            _ => 0,
        }
    }
}

// The interrupt window: whether a queue is polled or waits for interrupts, by the rates that it had of late. The host counts its receive
// calls with `tick`, looks at the clock when that says so, and hands the rate to `rated`.
// Ported from rx_batch of src/ixgbe.rs (the counter) and check_interrupt of src/interrupts.rs.

#![tactic(auto)]

ghost use Rattle.std.specs.Prelude.{◌≡◌, true, ◌*◌, ◌^◌, ◌≤◌, ◌<◌, length};
ghost use Rattle.limits.specs.Limits.{MOST-RATES};
ghost use Rattle.window.specs.Window.{total, in_range, sound, Sound, opened, no_window, opened_as, new_call, ticked_as, tick_call, is_full, slid, with_rate, rated_as, rated_call};

use limits::{CLOCK_CALLS, FEWEST_RATES, MOST_RATES};
use refusals::Refusal;

// R, the threshold and the interval in nanoseconds as they were set; whether interrupts are on; the receive calls since the clock was last
// looked at; the sum of the rates, their count, and the rates themselves, the oldest first.
// The count stands beside an array: the core has no heap, and `sound` of specs/ also speaks of windows whose count is past the array.
#[derive(Clone, Copy, PartialEq, Eq, Debug)]
pub struct Window {
    pub range: usize,
    pub threshold: u64,
    pub interval: u64,
    pub on: bool,
    pub calls: usize,
    pub sum: u64,
    pub count: usize,
    pub rates: [u32; MOST_RATES],
}

// What a counted call answers: whether the host looks at the clock now, and the window either way.
#[derive(Clone, Copy, PartialEq, Eq, Debug)]
pub struct Ticked {
    pub looks: bool,
    pub window: Window,
}

// What a rate answers: whether it was taken, and the window either way, which says whether interrupts are on.
#[derive(Clone, Copy, PartialEq, Eq, Debug)]
pub struct Rated {
    pub decided: bool,
    pub window: Window,
}

// ---- set-up

#[tactic(auto, unfolding(crate::specs::Window::in_range))]
fn in_range(range: usize) -> bool
    ensures { result ≡ in_range range }
{
    (FEWEST_RATES..=MOST_RATES).contains(&range)
}

// A window with no rates yet. It starts on.
#[tactic(auto, unfolding(crate::specs::Window::opened))]
fn empty(range: usize, threshold: u64, interval: u64) -> Window
    ensures { result ≡ opened range threshold interval }
{
    Window {
        range,
        threshold,
        interval,
        on: true,
        calls: 0,
        sum: 0,
        count: 0,
        rates: [0; MOST_RATES],
    }
}

// A new window for R, a threshold and an interval.
#[tactic(auto, unfolding(crate::specs::Window::new_call))]
pub fn new(range: usize, threshold: u64, interval: u64) -> Result<Window, Refusal>
    ensures { opened_as result ≡ new_call range threshold interval }
{
    if !in_range(range) {
        return Err(Refusal::OutOfRange);
    }
    Ok(empty(range, threshold, interval))
}

// ---- soundness

// The sum of rates.
#[tactic(auto, using(crate::proofs::Rates::total_is_sum))]
fn total_of(rates: &[u32]) -> u64
    requires { length rates.now ≤ MOST-RATES }
    ensures exact { result ≡ total rates.now }
    ensures small { result ≤ length rates.now * 2 ^ 32 }
{
    rates.iter().map(|&rate| u64::from(rate)).sum()
}

// Are R rates held with one more?
fn is_full(count: usize, range: usize) -> bool
    requires { count < range }
    ensures { result ≡ is_full count range }
{
    count + 1 == range
}

// The rates without the oldest of the first n, and the new one at their end.
#[tactic(auto, using(crate::proofs::Rates::copied_slid))]
fn slide(mut rates: [u32; MOST_RATES], n: usize, rate: u32) -> [u32; MOST_RATES]
    requires { (0 < n) × (n ≤ MOST-RATES) }
    ensures { result ≡ slid n rate rates }
{
    rates.copy_within(1..n, 0);
    rates[n - 1] = rate;
    rates
}

// A call takes the window by value and returns it, as document 01 has it. A refused one leaves the caller's own as it was.
impl Window {
    // The window that no set-up has made. It is not sound: R is 0.
    pub fn unset() -> Window
        ensures { result ≡ no_window }
    {
        empty(0, 0, 0)
    }

    // Is a window sound? R is in range, the rates add up to the sum, at most R - 1 are held, and the counter is below 4,096.
    // The sum of one that is stays far below 2^64.
    #[tactic(auto, unfolding(crate::specs::Window::sound, crate::specs::Window::in_range))]
    pub fn is_sound(self) -> bool
        ensures exact { result ≡ sound self }
        ensures small { result ≡ true → self.sum ≤ MOST-RATES * 2 ^ 32 }
    {
        in_range(self.range)
            && self.count < self.range
            && self.calls < CLOCK_CALLS
            && self.sum == total_of(&self.rates[..self.count])
    }

    // One receive call more. The host looks at the clock on each 4,096th, and the counter begins anew.
    #[tactic(auto, using(crate::proofs::Laws::sound_early), unfolding(crate::specs::Window::tick_call))]
    pub fn tick(mut self) -> Result<Ticked, Refusal>
        ensures { ticked_as self result ≡ tick_call self }
    {
        if !self.is_sound() {
            return Err(Refusal::Unsound);
        }
        self.calls += 1;
        let looks = self.calls == CLOCK_CALLS;
        if looks {
            self.calls = 0;
        }
        Ok(Ticked {
            looks,
            window: self,
        })
    }

    // A rate more, and the oldest dropped when R are held.
    #[tactic(auto, using(crate::proofs::Rates::oldest_within), unfolding(crate::specs::Window::with_rate))]
    fn take_rate(mut self, rate: u32) -> Window
        requires sound { Sound self }
        requires small { self.sum ≤ MOST-RATES * 2 ^ 32 }
        ensures { result ≡ with_rate self rate }
    {
        self.sum += u64::from(rate);
        if is_full(self.count, self.range) {
            self.sum -= u64::from(self.rates[0]);
            self.rates = slide(self.rates, self.count, rate);
            return self;
        }
        self.rates[self.count] = rate;
        self.count += 1;
        self
    }

    // The rate of the time since the last decision, and what the last receive got of what it asked for. If more time than the interval has
    // passed the rate is taken, and interrupts are off exactly if the mean is above the threshold or the receive got all that it asked for.
    #[tactic(auto, using(crate::proofs::Laws::soundness), unfolding(crate::specs::Window::rated_call))]
    pub fn rated(
        mut self,
        elapsed: u64,
        rate: u32,
        received: usize,
        asked: usize,
    ) -> Result<Rated, Refusal>
        ensures { rated_as self result ≡ rated_call self elapsed rate received asked }
    {
        if !self.is_sound() {
            return Err(Refusal::Unsound);
        }
        if elapsed <= self.interval {
            return Ok(Rated {
                decided: false,
                window: self,
            });
        }
        let mut next = self.take_rate(rate);
        let mean = next.sum / next.count as u64;
        next.on = mean <= next.threshold && received != asked;
        Ok(Rated {
            decided: true,
            window: next,
        })
    }
}

// The register calls that the records of `replay` describe (docs/REPLAY.md, kinds 40 to 75): each makes its call and prints its line, but for the
// line's end. Of a record that is bad nothing is printed and nothing changed.

#![tactic(auto)]

mod rates;
mod run_time;
mod start_up;

pub use rates::play as play_rates;
pub use run_time::play as play_run_time;
pub use start_up::{play as play_start_up, set_up};
use startup::State;
use stats::Stats;
use window::Window;

// What the calls change: a start-up state, a window and the sums.
#[derive(Clone, Copy)]
pub struct Registers {
    pub state: State,
    pub window: Window,
    pub stats: Stats,
}

impl Registers {
    // Everything 0: a refused set-up's state, a window that is not sound, sums of 0.
    pub fn blank() -> Registers {
        Registers {
            state: start_up::blank(),
            window: rates::blank(),
            stats: Stats::default(),
        }
    }
}

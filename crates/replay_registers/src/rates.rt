// The interrupt window, kinds 70 to 75: set-up, tick, a rate, the test of soundness, forged windows, and every field.
use limits::MOST_RATES;
use replay_lines::{Fault, Head, begin, show, show_all, show_forged, show_number, show_whether};
use replay_records::{Forge, RateCall};
use std::io::{self, Write};
use window::Window;

// Every field 0, as docs/REPLAY.md has what is kept at the start: `Window::unset` differs in `on`.
pub fn blank() -> Window {
    Window {
        range: 0,
        threshold: 0,
        interval: 0,
        on: false,
        calls: 0,
        sum: 0,
        count: 0,
        rates: [0; MOST_RATES],
    }
}

fn open<W: Write>(
    output: &mut W,
    window: &mut Window,
    range: usize,
    threshold: u64,
    interval: u64,
) -> io::Result<()> {
    let answer = window::new(range, threshold, interval);
    *window = answer.unwrap_or(Window::unset());
    show_number(output, &answer)
}

fn tick<W: Write>(output: &mut W, window: &mut Window) -> io::Result<()> {
    let answer = window.tick();
    show_number(output, &answer)?;
    match answer {
        Ok(ticked) => {
            *window = ticked.window;
            show_whether(output, ticked.looks)
        }
        Err(_) => show_whether(output, false),
    }
}

fn rated<W: Write>(
    output: &mut W,
    window: &mut Window,
    elapsed: u64,
    rate: u32,
    received: usize,
    asked: usize,
) -> io::Result<()> {
    let answer = window.rated(elapsed, rate, received, asked);
    show_number(output, &answer)?;
    match answer {
        Ok(rated) => {
            *window = rated.window;
            show_whether(output, rated.decided)?;
        }
        Err(_) => show_whether(output, false)?,
    }
    show_whether(output, window.on)
}

// Sets what a record forges, if it is there: the fields by docs/REPLAY.md's numbers, which only this match reads.
fn set(window: &mut Window, forge: Forge) -> Option<()> {
    match forge.field {
        0 => window.range = forge.cut()?,
        1 => window.threshold = forge.cut()?,
        2 => window.interval = forge.cut()?,
        3 => window.on = forge.cut::<u64>()? != 0,
        4 => window.calls = forge.cut()?,
        5 => window.sum = forge.cut()?,
        6 => window.count = forge.cut()?,
        7 => forge.set(&mut window.rates)?,
        _ => return None,
    }
    Some(())
}

fn fields<W: Write>(output: &mut W, window: &Window) -> io::Result<()> {
    show(output, window.range)?;
    show(output, window.threshold)?;
    show(output, window.interval)?;
    show_whether(output, window.on)?;
    show(output, window.calls)?;
    show(output, window.sum)?;
    show(output, window.count)?;
    show_all(output, &window.rates)
}

// A record of the window.
pub fn play<W: Write>(
    output: &mut W,
    head: Head,
    call: RateCall,
    window: &mut Window,
) -> Result<(), Fault> {
    if let RateCall::Forge(forge) = call {
        set(window, forge).ok_or(Fault::Bad)?;
    }
    begin(output, head)?;
    match call {
        RateCall::Open {
            range,
            threshold,
            interval,
        } => open(output, window, range, threshold, interval)?,
        RateCall::Tick => tick(output, window)?,
        RateCall::Rated {
            elapsed,
            rate,
            received,
            asked,
        } => rated(output, window, elapsed, rate, received, asked)?,
        RateCall::Sound => show_whether(output, window.is_sound())?,
        RateCall::Forge(forge) => show_forged(output, forge)?,
        RateCall::Fields => fields(output, window)?,
    }
    Ok(())
}

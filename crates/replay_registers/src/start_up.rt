// Start-up, kinds 40 to 44: set-up, step, the test of soundness, forged states, and every field.
use replay_lines::{Fault, Head, begin, show, show_action, show_forged, show_number, show_whether};
use replay_records::{Forge, SetUp, StartUpCall, digest};
use startup::State;
use std::io::{self, Write};

// What is kept at the start: what a refused set-up leaves.
pub fn blank() -> State {
    startup::no_state()
}

// A set-up, lent some addresses.
pub fn set_up<W: Write>(
    output: &mut W,
    head: Head,
    call: SetUp,
    state: &mut State,
    addresses: &[u64],
) -> io::Result<()> {
    let answer = startup::set_up(
        call.map,
        call.receives,
        call.sends,
        call.tries,
        call.interrupts,
        call.rate,
        addresses,
    );
    *state = answer.unwrap_or(startup::no_state());
    begin(output, head)?;
    show_number(output, &answer)
}

fn step<W: Write>(output: &mut W, state: &mut State, value: u32) -> io::Result<()> {
    let stepped = startup::step(*state, value);
    *state = stepped.state;
    show_action(output, stepped.action)
}

// ---- a state's fields as numbers

// The number of some interrupts: 0 for none, else one more than the kind, as docs/REPLAY.md has it. A `From` of Option for u64 is no crate's here to write.
fn number_of(interrupts: Option<u64>) -> u64 {
    interrupts.map_or(0, |kind| kind.wrapping_add(1))
}

// Sets what a record forges, if it is there: the fields by docs/REPLAY.md's numbers, which only this match reads.
fn set(state: &mut State, forge: Forge) -> Option<()> {
    match forge.field {
        0 => state.setup.map = forge.cut()?,
        1 => state.setup.receives = forge.cut()?,
        2 => state.setup.sends = forge.cut()?,
        3 => state.setup.tries = forge.cut()?,
        4 => state.setup.interrupts = forge.cut::<u64>()?.checked_sub(1),
        5 => state.setup.rate = forge.cut()?,
        6 => forge.set(&mut state.setup.rings)?,
        7 => state.place = forge.cut()?,
        8 => state.made = forge.cut()?,
        9 => state.kept = forge.cut()?,
        _ => return None,
    }
    Some(())
}

// Every field; of the ring addresses a digest.
fn fields<W: Write>(output: &mut W, state: &State) -> io::Result<()> {
    let setup = state.setup;
    show(output, setup.map)?;
    show(output, setup.receives)?;
    show(output, setup.sends)?;
    show(output, setup.tries)?;
    show(output, number_of(setup.interrupts))?;
    show(output, setup.rate)?;
    show(output, digest(&setup.rings))?;
    show(output, state.place)?;
    show(output, state.made)?;
    show(output, state.kept)
}

// A record of the state.
pub fn play<W: Write>(
    output: &mut W,
    head: Head,
    call: StartUpCall,
    state: &mut State,
) -> Result<(), Fault> {
    if let StartUpCall::Forge(forge) = call {
        set(state, forge).ok_or(Fault::Bad)?;
    }
    begin(output, head)?;
    match call {
        StartUpCall::Step { value } => step(output, state, value)?,
        StartUpCall::Sound => show_whether(output, startup::is_sound(*state))?,
        StartUpCall::Forge(forge) => show_forged(output, forge)?,
        StartUpCall::Fields => fields(output, state)?,
    }
    Ok(())
}

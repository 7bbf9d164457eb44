// The account's fields by number, which are forged and shown.
use limits::{ENTRIES, SENDS, SLOTS};
use pool::FreeStack;
use replay_lines::{Fault, Head, begin, show, show_all, show_forged, show_whether};
use replay_records::{Forge, Number, digest};
use rules::Account;
use std::io::Write;

#[derive(Clone, Copy)]
enum Field {
    Pool,
    Entries,
    Size,
    Receives,
    Sends,
    Depth,
    Started,
    Rx,
    FreeIds,
    Hands,
    Slots,
    Sent,
    Clean,
    Tx,
}

impl TryFrom<u16> for Field {
    type Error = Fault;

    // A record that names a field that there is not is bad.
    fn try_from(number: u16) -> Result<Field, Fault> {
        match number {
            0 => Ok(Field::Pool),
            1 => Ok(Field::Entries),
            2 => Ok(Field::Size),
            3 => Ok(Field::Receives),
            4 => Ok(Field::Sends),
            5 => Ok(Field::Depth),
            6 => Ok(Field::Started),
            7 => Ok(Field::Rx),
            8 => Ok(Field::FreeIds),
            9 => Ok(Field::Hands),
            10 => Ok(Field::Slots),
            11 => Ok(Field::Sent),
            12 => Ok(Field::Clean),
            13 => Ok(Field::Tx),
            _ => Err(Fault::Bad),
        }
    }
}

// An account in which everything is 0, as docs/REPLAY.md has what is kept at the start: `calls::no_account` differs in its free ids.
pub fn blank() -> Account {
    Account {
        pool: 0,
        entries: 0,
        size: 0,
        receives: 0,
        sends: 0,
        free: FreeStack {
            ids: [0; ENTRIES],
            depth: 0,
        },
        hands: [0; ENTRIES],
        started: false,
        rx: 0,
        slots: [0; SLOTS],
        sent: [0; SENDS * SLOTS],
        clean: [0; SENDS],
        tx: [0; SENDS],
    }
}

// ---- forging

// Sets what a record forges, if it is there.
fn set(account: &mut Account, field: Field, forge: Forge) -> Option<()> {
    match field {
        Field::Pool => account.pool = forge.cut()?,
        Field::Entries => account.entries = forge.cut()?,
        Field::Size => account.size = forge.cut()?,
        Field::Receives => account.receives = forge.cut()?,
        Field::Sends => account.sends = forge.cut()?,
        Field::Depth => account.free.depth = forge.cut()?,
        Field::Started => account.started = forge.cut::<u64>()? != 0,
        Field::Rx => account.rx = forge.cut()?,
        Field::FreeIds => forge.set(&mut account.free.ids)?,
        Field::Hands => forge.set(&mut account.hands)?,
        Field::Slots => forge.set(&mut account.slots)?,
        Field::Sent => forge.set(&mut account.sent)?,
        Field::Clean => forge.set(&mut account.clean)?,
        Field::Tx => forge.set(&mut account.tx)?,
    }
    Some(())
}

// Forges a place of a field.
pub fn forge<W: Write>(
    output: &mut W,
    head: Head,
    account: &mut Account,
    forge: Forge,
) -> Result<(), Fault> {
    set(account, Field::try_from(forge.field)?, forge).ok_or(Fault::Bad)?;
    begin(output, head)?;
    show_forged(output, forge)?;
    Ok(())
}

// ---- showing

// Shows the numbers, digests of the long arrays, and the indices of the send queues.
pub fn show_fields<W: Write>(output: &mut W, head: Head, account: &Account) -> Result<(), Fault> {
    begin(output, head)?;
    show(output, account.pool)?;
    show_all(
        output,
        &[
            account.entries,
            account.size,
            account.receives,
            account.sends,
        ],
    )?;
    show(output, account.free.depth)?;
    show_whether(output, account.started)?;
    show(output, account.rx)?;
    show(output, digest(&account.free.ids))?;
    show(output, digest(&account.hands))?;
    show(output, digest(&account.slots))?;
    show(output, digest(&account.sent))?;
    show_all(output, &account.clean)?;
    show_all(output, &account.tx)?;
    Ok(())
}

// Shows so many places of an array from one on. A record that names some that there are not is bad.
fn show_part<W: Write, N: Number>(
    output: &mut W,
    head: Head,
    array: &[N],
    at: u16,
    count: u16,
) -> Result<(), Fault> {
    let (_, after) = array.split_at_checked(usize::from(at)).ok_or(Fault::Bad)?;
    let (places, _) = after
        .split_at_checked(usize::from(count))
        .ok_or(Fault::Bad)?;
    begin(output, head)?;
    show_all(output, places)?;
    Ok(())
}

// Shows places of an array.
pub fn show_places<W: Write>(
    output: &mut W,
    head: Head,
    account: &Account,
    field: u16,
    at: u16,
    count: u16,
) -> Result<(), Fault> {
    match Field::try_from(field)? {
        Field::FreeIds => show_part(output, head, &account.free.ids, at, count),
        Field::Hands => show_part(output, head, &account.hands, at, count),
        Field::Slots => show_part(output, head, &account.slots, at, count),
        Field::Sent => show_part(output, head, &account.sent, at, count),
        Field::Clean => show_part(output, head, &account.clean, at, count),
        Field::Tx => show_part(output, head, &account.tx, at, count),
        _ => Err(Fault::Bad),
    }
}

// The bench's turns: what the records of some bytes do, one after the other, on the state that the records before them have left, and the lines that
// they give. What bytes mean, and which record may come when, stands in `records`; what each record answers and leaves in `tally` and `stream`;
// how a line is written in `lines`. Document 01, "The bench program".

#![tactic(auto)]

ghost use Rattle.std.specs.Prelude.{◌≡◌, Some, None, true, false, ◌++◌, ◌+◌, ◌-◌, ◌≤◌, ◌<◌, length, take};
ghost use Rattle.rules.specs.declared.Account as account;
ghost use Rattle.rules.specs.Handles.{handles};
ghost use Rattle.rules.specs.Sound.{sound};
ghost use Rattle.records.specs.Records.{end_of};
ghost use Rattle.tally.specs.Tally.{memory_as, answer_as};
ghost use Rattle.stream.specs.Bench.{bench_as, Bench};
ghost use Rattle.lines.specs.Lines.{LINE, shown_text};
ghost use Rattle.turns.specs.Turns.{line_of, seen, stand_as, turn_rule, ran_as, ran, goes_on};

use limits::SMALLEST_SIZE;
use lines::{LINE, Line, Out};
use records::Record;
use rules::Account;
use tally::Answer;

// Where the turns stand: the next record's first byte and its number, how many bytes of lines are gathered, whether a bad record has ended the run,
// whether a fresh account has answered 0, and the account. The two flags are those that the contract of `serve` speaks of.
#[derive(Drop)]
pub struct Run {
    pub from: usize,
    pub count: u64,
    pub at: usize,
    pub ended: bool,
    pub begun: bool,
    pub account: Account,
}

// Before the first record. A sound account stands there until a fresh one answers 0.
pub fn first() -> Run
    ensures { (result.count ≡ 1) × (result.ended ≡ false) × (result.begun ≡ false) × (sound result.account ≡ true) }
{
    let mut account = calls::no_account();
    tally::fresh(&mut account, 1, SMALLEST_SIZE, 0);
    Run {
        from: 0,
        count: 1,
        at: 0,
        ended: false,
        begun: false,
        account,
    }
}

// The line of an answer.
fn line_of(what: Record, answer: Answer) -> Line
    ensures { (a : account.Account) → result ≡ line_of (Some what) (answer_as answer a) }
{
    let (number, value) = match answer.outcome {
        Ok(value) => (0, value),
        Err(why) => (why.number(), 0),
    };
    Line {
        kind: records::kind(what),
        number,
        value,
        tally: answer.tally,
    }
}

// What a record does, and what its line shows. A bad one does nothing, and shows nothing. A fresh account that answers 0 is the bench's from then on.
fn turn(
    rest: &[u8],
    begun: &mut bool,
    account: &mut Account,
    rx: &mut [u8],
    tx: &mut [u8],
    addresses: &[u64],
    offsets: &mut [u16],
    lengths: &mut [u16],
    pools: &mut [u32],
    ids: &mut [u16],
    froms: &mut [u16],
    sizes: &mut [u16],
) -> Option<Line>
    requires { (sound account.old ≡ true) × (length rest.now < 65536) × Bench (bench_as account.old rx.old tx.old (memory_as offsets.old lengths.old)) addresses.now (handles pools.old ids.old froms.old sizes.old) }
    ensures line { result ≡ seen (turn_rule rest.now addresses.now (stand_as begun.old (bench_as account.old rx.old tx.old (memory_as offsets.old lengths.old)))) }
    ensures left { stand_as begun.new (bench_as account.new rx.new tx.new (memory_as offsets.new lengths.new)) ≡ (turn_rule rest.now addresses.now (stand_as begun.old (bench_as account.old rx.old tx.old (memory_as offsets.old lengths.old)))).left }
    ensures keeps { sound account.new ≡ true }
{
    let what = records::admit(records::decode(rest), *begun, account.sends)?;
    match what {
        Record::Fresh {
            entries,
            size,
            sends,
        } => {
            let answer = tally::fresh(account, entries, size, sends);
            *begun = answer.outcome.is_ok();
            Some(line_of(what, answer))
        }
        Record::Card(event) => {
            records::on_card(event, rx, tx);
            Some(line_of(what, tally::answered(Ok(0), account)))
        }
        Record::Call(call) => {
            let answer = stream::on_call(
                call, rest, account, rx, tx, addresses, offsets, lengths, pools, ids, froms, sizes,
            );
            Some(line_of(what, answer))
        }
    }
}

// A record's line is put behind what is gathered. Answers how much is gathered then. `out` and `at` are those of `serve`, whose contract speaks of them.
fn put_line(out: &mut [u8], at: usize, count: u64, line: Option<Line>) -> usize
    requires { at + LINE ≤ length out.old }
    ensures gathered { result ≤ length out.new }
    ensures text { take result out.new ≡ take at out.old ++ shown_text count line }
{
    let mut lines = Out::new(out, at);
    lines.put_line(count, line);
    lines.len()
}

// Whether one more record is looked at.
#[tactic(auto, unfolding(crate::specs::Turns::goes_on))]
fn goes_on(run: &Run, room: usize) -> bool
    requires { run.now.at ≤ room }
    ensures { result ≡ goes_on run.now.ended run.now.count run.now.at room }
{
    !run.ended && run.count < u64::MAX && LINE <= room - run.at
}

// The records of some bytes, up to a bad one, one that is cut short, or the last whose line has room. The bytes end at `to`, which `ran` has beside them.
// What is lent stays slices: `Bench` asks of the four lists for at least MOST places, which owned arrays would narrow, and out of a struct of slices a part of
// one can't be lent beside parts of others, which the language's proofs do not cover.
pub fn serve(
    buffer: &[u8],
    to: usize,
    out: &mut [u8],
    mut run: Run,
    rx: &mut [u8],
    tx: &mut [u8],
    addresses: &[u64],
    offsets: &mut [u16],
    lengths: &mut [u16],
    pools: &mut [u32],
    ids: &mut [u16],
    froms: &mut [u16],
    sizes: &mut [u16],
) -> Run
    requires { (run.from ≤ to) × (to ≤ length buffer.now) × (run.at ≤ length out.old) × (sound run.account ≡ true) × Bench (bench_as run.account rx.old tx.old (memory_as offsets.old lengths.old)) addresses.now (handles pools.old ids.old froms.old sizes.old) }
    ensures ran { ran_as result out.new rx.new tx.new (memory_as offsets.new lengths.new) ≡ ran (result.count - run.count) to buffer.now addresses.now (ran_as run out.old rx.old tx.old (memory_as offsets.old lengths.old)) }
    ensures stops { goes_on result.ended result.count result.at (length out.new) ≡ true → end_of result.from to buffer.now ≡ None }
    ensures keeps { (run.from ≤ result.from) × (result.from ≤ to) × (run.count ≤ result.count) × (result.at ≤ length out.new) × (sound result.account ≡ true) }
{
    // It steps from record to record, each as long as its bytes say.
    while goes_on(&run, out.len()) {
        let Some(end) = records::end_of(buffer, run.from, to) else {
            break;
        };
        let line = turn(
            &buffer[run.from + 2..end],
            &mut run.begun,
            &mut run.account,
            rx,
            tx,
            addresses,
            offsets,
            lengths,
            pools,
            ids,
            froms,
            sizes,
        );
        run.ended = line.is_none();
        run.at = put_line(out, run.at, run.count, line);
        run.from = end;
        run.count += 1;
    }
    run
}

// One line of the program's input: what it does to the bench that is played, and what it prints. Of `step` only parts are here;
// `listing` puts it together. Output goes into the caller's slice from a place on, in each function: `text`'s clauses (`Placed`) speak
// of the two.
// Uses `model`, `answers`, `state`, `opening`, `events`, `text` and `counts`. It is used by `listing` and `bench`.

#![tactic(auto, using(model::proofs::Tests::tests))]

ghost use Rattle.std.specs.Prelude.{◌≡◌, true, false, List, [], ◌∷◌, ℕ, ◌+◌, ◌≤◌, min, length, take, None};
ghost use Rattle.model.specs.Limits.{valid_of};
ghost use Rattle.model.specs.Calls.{lent, fresh_of, begin_of, who_of};
ghost use Rattle.model.specs.Counts.{counts_of};
ghost use Rattle.model.specs.Listing.{
  waiting,
  playing,
  ended,
  printed,
  printed_tally,
  totals,
  response,
  opened,
  showing,
  bad,
  is_refused,
  putting,
  respond,
};
ghost use Rattle.text.specs.Numbers.{Placed};
ghost use Rattle.replies.specs.Shown.{shown_all};
ghost use Rattle.replies.specs.Sessions.{world_of, program_of, AnsweredBy};
ghost use Rattle.replies.specs.Choices.{asked_of, RefusedAtOnce};

use model::{Answer, Bench, Command, Operation, Payload, Refusal, Setup};

// Room enough for the text of any line, in bytes: six numbers of 64 bits behind a letter have 128, and a `step` can print two such
// lines. A line is played only where the output has room for it.
pub const LONGEST: usize = 256;

// The program between two lines: whether a `queue` was accepted, and then its bench, on the first `long` words of the store. The flag
// stands beside them since the definition `program_of` reads it there, and `consume` keeps the bench in place from line to line.
#[derive(Clone, Copy)]
pub struct Session {
    pub live: bool,
    pub long: u32,
    pub bench: Bench,
}

// What a line left: the session, where its text ends in the output, whether it was an accepted `end`. After one the text counts too,
// so the flag excludes no other value (`AnsweredBy`).
#[derive(Clone, Copy)]
pub struct Answered {
    pub session: Session,
    pub end: usize,
    pub stops: bool,
}

// The program's start, before any `queue`.
pub fn start() -> Session
    ensures { (m l : List ℕ) → program_of result m l ≡ waiting m l }
{
    let mut none = [0u32; 1];
    let nothing = Setup {
        kind: 0,
        width: 0,
        size: 0,
        crew: 0,
        words: 0,
        delayed: false,
    };
    let made = opening::fresh(nothing, &mut none);
    let bench = made.bench;
    Session {
        live: false,
        long: 0,
        bench,
    }
}

// How many words of the store a bench of so many has.
pub fn span(long: u32, store: &[u32]) -> usize
    ensures { result ≡ min long (length store.now) }
{
    (long as usize).min(store.len())
}

// Puts what an answer prints into the output from `at` on, of a payload so many words, and answers where it ends.
pub fn show(words: u32, answer: Answer, out: &mut [u8], at: usize) -> usize
    requires { at + length (shown_all (printed words answer)) ≤ length out.old }
    ensures { Placed out.old at (shown_all (printed words answer)) result out.new }
{
    match answer {
        Answer::Finished { task, .. } => text::print(out, at, b'D', &[u64::from(task.number)]),
        Answer::HandedOut { worker, task } => text::print_out(out, at, words, worker, task),
        Answer::Empty { worker } => text::print(out, at, b'E', &[u64::from(worker)]),
        Answer::Full { task, .. } => text::print(out, at, b'F', &[u64::from(task.number)]),
        Answer::Refused { why } => {
            text::print(out, at, b'R', &[u64::from(answers::number_of(why))])
        }
        Answer::Accepted => at,
        Answer::Numbered { .. } => at,
        Answer::GoesOn => at,
        Answer::Grown { .. } => at,
    }
}

// The same for what asking for a worker's restarts prints.
fn show_tally(worker: u32, tally: Result<u32, Refusal>, out: &mut [u8], at: usize) -> usize
    requires { at + 128 ≤ length out.old }
    ensures { Placed out.old at (shown_all (printed_tally worker tally)) result out.new }
{
    match tally {
        Ok(restarts) => { text::print(out, at, b'W', &[u64::from(worker), u64::from(restarts)]) }
        Err(why) => show(0, Answer::Refused { why }, out, at),
    }
}

fn is_refused(answer: Answer) -> bool
    ensures { result ≡ is_refused answer }
{
    matches!(answer, Answer::Refused { .. })
}

// A line of no form, or out of place: 13.
fn refuse(session: Session, out: &mut [u8], at: usize) -> Answered
    requires { at + 256 ≤ length out.old }
    ensures { (m l : List ℕ) → AnsweredBy (bad (program_of session m l)) result m l out.old at out.new }
{
    let why = Refusal::BadLine;
    let answer = Answer::Refused { why };
    let bench = session.bench;
    let end = show(bench.words, answer, out, at);
    Answered {
        session,
        end,
        stops: false,
    }
}

// `queue`: a bench on the first `long` words of the store. Refused, it leaves the program waiting.
fn open_queue(
    session: Session,
    setup: Setup,
    long: u32,
    store: &mut [u32],
    out: &mut [u8],
    at: usize,
) -> Answered
    requires { (at + 256 ≤ length out.old) × (session.live ≡ false) }
    ensures { (l : List ℕ) →
        AnsweredBy (opened (waiting store.old l) (fresh_of setup (take long store.old) l))
        result store.new l out.old at out.new }
{
    let n = span(long, store);
    let made = opening::fresh(setup, &mut store[..n]);
    let answer = made.answer;
    let bench = made.bench;
    let end = show(bench.words, answer, out, at);
    if is_refused(answer) {
        return Answered {
            session,
            end,
            stops: false,
        };
    }
    let live = true;
    let next = Session { live, long, bench };
    Answered {
        session: next,
        end,
        stops: false,
    }
}

// `put`, `take` and `steal`.
fn begin(
    session: Session,
    worker: u32,
    operation: Operation,
    store: &[u32],
    log: &[u32],
    out: &mut [u8],
    at: usize,
) -> Answered
    requires { at + 256 ≤ length out.old }
    ensures { AnsweredBy (showing (begin_of (world_of session store.now log.now) worker operation))
        result store.now log.now out.old at out.new }
{
    let long = session.long;
    let n = span(long, store);
    let bench = session.bench;
    let begun = opening::begin(bench, worker, operation, &store[..n], log);
    let answer = begun.answer;
    let next = begun.bench;
    let end = show(next.words, answer, out, at);
    let after = Session {
        live: true,
        long,
        bench: next,
    };
    Answered {
        session: after,
        end,
        stops: false,
    }
}

// `put` has as many words as a payload of the bench; with another count it is no line of the form.
fn put(
    session: Session,
    words: u32,
    payload: Payload,
    store: &[u32],
    log: &[u32],
    out: &mut [u8],
    at: usize,
) -> Answered
    requires { (at + 256 ≤ length out.old) × (session.live ≡ true) }
    ensures { AnsweredBy (putting (world_of session store.now log.now) words payload)
        result store.now log.now out.old at out.new }
{
    let bench = session.bench;
    if words == bench.words {
        let operation = Operation::Put { payload };
        return begin(session, 0, operation, store, log, out, at);
    }
    refuse(session, out, at)
}

// `who`: a worker's restarts. Nothing changes.
fn who(
    session: Session,
    worker: u32,
    store: &[u32],
    log: &[u32],
    out: &mut [u8],
    at: usize,
) -> Answered
    requires { (at + 256 ≤ length out.old) × (session.live ≡ true) }
    ensures { AnsweredBy (response (playing (world_of session store.now log.now)) (printed_tally worker (who_of (world_of session store.now log.now) worker)))
        result store.now log.now out.old at out.new }
{
    let n = span(session.long, store);
    let bench = session.bench;
    let tally = events::tally(bench, worker, &store[..n], log);
    let end = show_tally(worker, tally, out, at);
    Answered {
        session,
        end,
        stops: false,
    }
}

// `end`: the six counts.
fn total(session: Session, store: &[u32], log: &[u32], out: &mut [u8], at: usize) -> Answered
    requires at_in_bounds { at + 256 ≤ length out.old }
    requires count_value { session.bench.waiting.count ≡ 0 }
    ensures { AnsweredBy (response ended (totals (counts_of (world_of session store.now log.now)) ∷ []))
        result store.now log.now out.old at out.new }
{
    let n = span(session.long, store);
    let bench = session.bench;
    let c = counts::counts(bench, &store[..n], log);
    let v = [
        u64::from(c.finished),
        u64::from(c.handouts),
        u64::from(c.different),
        c.restarts,
        u64::from(c.window),
        u64::from(c.lost),
    ];
    let end = text::print(out, at, b'T', &v);
    Answered {
        session,
        end,
        stops: true,
    }
}

// A line while the program waits for a `queue`.
fn play_waiting(
    session: Session,
    command: Command,
    store: &mut [u32],
    out: &mut [u8],
    at: usize,
) -> Answered
    requires { (at + 256 ≤ length out.old) × (session.live ≡ false) }
    ensures { (l : List ℕ) →
        AnsweredBy (respond (waiting store.old l) command) result store.new l out.old at out.new }
{
    let Command::Open {
        kind,
        width,
        size,
        workers,
        store: long,
        words,
    } = command
    else {
        return refuse(session, out, at);
    };
    let crew = workers;
    let delayed = false;
    let setup = Setup {
        kind,
        width,
        size,
        crew,
        words,
        delayed,
    };
    open_queue(session, setup, long, store, out, at)
}

// A line while a bench is played, but for `step`.
fn play_live(
    session: Session,
    command: Command,
    store: &mut [u32],
    log: &mut [u32],
    out: &mut [u8],
    at: usize,
) -> Answered
    requires at_in_bounds { (at + 256 ≤ length out.old) × (session.live ≡ true) }
    requires command_value { asked_of true command ≡ None }
    requires count_value { session.bench.waiting.count ≡ 0 }
    ensures { AnsweredBy (respond (playing (world_of session store.old log.old)) command)
        result store.new log.new out.old at out.new }
{
    match command {
        Command::BeginPut { words, payload } => put(session, words, payload, store, log, out, at),
        Command::BeginTake => {
            let operation = Operation::Take;
            begin(session, 0, operation, store, log, out, at)
        }
        Command::BeginSteal { worker } => {
            let operation = Operation::Steal;
            begin(session, worker, operation, store, log, out, at)
        }
        Command::Who { worker } => who(session, worker, store, log, out, at),
        Command::End => total(session, store, log, out, at),
        // another `queue`, or no line of the form
        _ => refuse(session, out, at),
    }
}

// Plays a line that does not ask for steps, with its text put into the output from `at` on. No store waits: the program's benches
// have no delayed stores.
pub fn play(
    session: Session,
    command: Command,
    store: &mut [u32],
    log: &mut [u32],
    out: &mut [u8],
    at: usize,
) -> Answered
    requires at_in_bounds { at + 256 ≤ length out.old }
    requires command_value { asked_of session.live command ≡ None }
    requires count_value { session.live ≡ true → session.bench.waiting.count ≡ 0 }
    ensures { AnsweredBy (respond (program_of session store.old log.old) command)
        result store.new log.new out.old at out.new }
{
    if session.live {
        return play_live(session, command, store, log, out, at);
    }
    play_waiting(session, command, store, out, at)
}

// The worker and the number of steps, where a line asks a bench that is played for steps.
pub fn ask(live: bool, command: Command) -> Option<(u32, u32)>
    ensures { result ≡ asked_of live command }
{
    match command {
        Command::Steps { worker, times } if live => Some((worker, times)),
        _ => None,
    }
}

// Whether a line is refused at once and changes nothing, while a bench is played. `step` is not looked at.
pub fn refused_at_once(live: bool, bench: Bench, command: Command) -> Result<(), Refusal>
    requires { live ≡ true → bench.crew ≤ 8 }
    ensures { (m l : List ℕ) → (live ≡ true → valid_of (lent bench m l) ≡ true) → RefusedAtOnce live (lent bench m l) command result }
{
    if !live {
        return Ok(());
    }
    match command {
        Command::Open { .. } => Err(Refusal::BadLine),
        Command::BeginPut { words, payload } => {
            if words != bench.words {
                return Err(Refusal::BadLine);
            }
            let operation = Operation::Put { payload };
            opening::begin_stop(bench, 0, operation)
        }
        Command::BeginTake => {
            let operation = Operation::Take;
            opening::begin_stop(bench, 0, operation)
        }
        Command::BeginSteal { worker } => {
            let operation = Operation::Steal;
            opening::begin_stop(bench, worker, operation)
        }
        Command::Steps { .. } => Ok(()),
        Command::Who { worker } => {
            if bench.crew <= worker {
                return Err(Refusal::NoSuchWorker);
            }
            Ok(())
        }
        Command::End => Ok(()),
        Command::Bad => Err(Refusal::BadLine),
    }
}

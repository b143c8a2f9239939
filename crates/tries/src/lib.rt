// What the exercises share: states to try, the calls that try them, and what is printed. A state is one that an accepted fresh
// makes, or such a one with something replaced. Each try has memory of its own: a store of 30 words and a log of 8. The stream and the
// words that say what is tried come first in each: the programs that use them have tries of their own, which methods of a type from
// here could not be.
// Uses `queues` and `model`. It is used by `exercise` and `exercise_stores`.

#![tactic(auto)]

ghost use Rattle.std.specs.Prelude.{◌<◌};

use model::{
    Anchor, Answer, Growth, Line, Operation, Payload, Refusal, Region, Setup, Task, Worker,
};
use queues::{Bench, Reply};
use std::fmt;
use std::io::{AsBytes, Print, Stdout};

// Writes words, or any bytes.
pub fn text<T: AsBytes + Drop>(out: Stdout, words: T) {
    let _written = out.write_all(words.as_byte_slice());
}

// A put's number behind what was done with it; a task that no put made has 0, and none is shown.
fn with_number<W: fmt::Write>(f: &mut fmt::Formatter<W>, done: &str, number: u32) -> fmt::Result {
    if number == 0 {
        return f.write_str(done);
    }
    write!(f, "{done}{number}")
}

// What an answer says, in words.
#[derive(Clone, Copy)]
pub struct Said(pub Answer);

impl fmt::Display for Said {
    fn fmt<W: fmt::Write>(&self, f: &mut fmt::Formatter<W>) -> fmt::Result {
        match self.0 {
            Answer::Accepted => f.write_str("accepted"),
            Answer::Numbered { number } => with_number(f, "accepted as put ", number),
            Answer::GoesOn => f.write_str("goes on"),
            Answer::Finished { task, .. } => with_number(f, "finished put ", task.number),
            Answer::HandedOut { task, .. } => with_number(f, "handed out put ", task.number),
            Answer::Empty { .. } => f.write_str("EMPTY"),
            Answer::Full { task, .. } => with_number(f, "FULL for put ", task.number),
            Answer::Grown { .. } => f.write_str("grown"),
            Answer::Refused { why } => with_number(f, "refused ", queues::number_of(why)),
        }
    }
}

// A worker's restarts, or why they are not told.
#[derive(Clone, Copy)]
pub struct Counted(pub Result<u32, Refusal>);

impl fmt::Display for Counted {
    fn fmt<W: fmt::Write>(&self, f: &mut fmt::Formatter<W>) -> fmt::Result {
        match self.0 {
            Ok(restarts) => write!(f, "{restarts}"),
            Err(why) => write!(f, "refused {}", queues::number_of(why)),
        }
    }
}

pub fn say_of<T: AsBytes + Drop>(out: Stdout, call: T, reply: Reply) {
    text(out, call);
    let said = Said(reply.answer);
    let _written = print!(out; "{said}");
}

// A line of output.
pub fn report<T: AsBytes + Drop>(out: Stdout, tried: T, answer: Answer) {
    text(out, tried);
    let said = Said(answer);
    let _written = println!(out; ": {said}");
}

pub fn begun_on(state: model::Bench, worker: u32, operation: Operation, store: &[u32]) -> Answer {
    let log = [0u32; 8];
    let bench = Bench { state };
    let reply = bench.begin(worker, operation, store, &log);
    reply.answer
}

pub fn begun(state: model::Bench, worker: u32, operation: Operation) -> Answer {
    let store = [0u32; 30];
    begun_on(state, worker, operation, &store)
}

pub fn stepped(state: model::Bench, worker: u32) -> Answer {
    let mut store = [0u32; 30];
    let mut log = [0u32; 8];
    let bench = Bench { state };
    let reply = bench.step(worker, &mut store, &mut log);
    reply.answer
}

// The owner takes: a state within the limits is refused for no other reason than a busy owner, 7.
pub fn try_state<T: AsBytes + Drop>(out: Stdout, tried: T, state: model::Bench) {
    let answer = begun(state, 0, Operation::Take);
    report(out, tried, answer);
}

// The state that an accepted fresh makes: 2 slots, tags of 4 bits, a crew of 3.
pub fn made(kind: u32, words: u32, delayed: bool) -> model::Bench {
    let mut store = [0u32; 30];
    let setup = Setup {
        kind,
        width: 4,
        size: 2,
        crew: 3,
        words,
        delayed,
    };
    let made = Bench::fresh(setup, &mut store);
    let bench = made.bench;
    bench.state
}

pub fn base_of(kind: u32, words: u32) -> model::Bench {
    made(kind, words, false)
}

// With one payload word.
pub fn base(kind: u32) -> model::Bench {
    base_of(kind, 1)
}

// A payload of one word, and of four.
pub fn payload(first: u32) -> Payload {
    payload_of(first, 0, 0, 0)
}

pub fn payload_of(first: u32, second: u32, third: u32, fourth: u32) -> Payload {
    Payload {
        first,
        second,
        third,
        fourth,
    }
}

// That state with so many put numbers used, and the owner busy with a take or not.
pub fn played(used: u32, busy: bool) -> model::Bench {
    let mut state = base(1);
    state.used = used;
    if busy {
        state.workers[0] = Worker {
            line: Line::TakeRead,
        };
    }
    state
}

// States that no call made, each like `base` but for what is told.
pub fn with_line(state: model::Bench, worker: usize, line: Line) -> model::Bench
    requires { worker < 8 }
{
    let mut next = state;
    next.workers[worker] = Worker { line };
    next
}

pub fn with_anchor(state: model::Bench, anchor: Anchor) -> model::Bench {
    let mut next = state;
    let mut queue = next.queue;
    queue.anchor = anchor;
    next.queue = queue;
    next
}

pub fn try_anchor<T: AsBytes + Drop>(
    out: Stdout,
    tried: T,
    kind: u32,
    head: u32,
    count: u32,
    tag: u32,
) {
    try_state(
        out,
        tried,
        with_anchor(base(kind), anchor(head, count, tag)),
    );
}

// A pair of the directory, and how many are published and claimed. The size that is kept is the first array's.
pub fn with_pair(
    state: model::Bench,
    place: usize,
    offset: u32,
    length: u32,
    published: u32,
    claimed: u32,
) -> model::Bench
    requires { place < 11 }
{
    let mut next = state;
    let mut queue = next.queue;
    queue.arrays[place] = Region { offset, length };
    queue.published = published;
    queue.claimed = claimed;
    if place == 0 {
        queue.initial = length >> 1;
    }
    next.queue = queue;
    next
}

pub fn anchor(head: u32, count: u32, tag: u32) -> Anchor {
    Anchor { head, count, tag }
}

pub fn task(number: u32) -> Task {
    Task {
        number,
        payload: payload(7),
    }
}

// The array grows for put 1.
pub fn for_put() -> Growth {
    let task = task(1);
    Growth::ForPut { task }
}

// A task of which no payload word is read.
pub fn numbered(number: u32) -> Task {
    Task {
        number,
        payload: payload(0),
    }
}

// So many steps of the owner, on what a call left.
pub fn steps(reply: Reply, lines: u32, store: &mut [u32], log: &mut [u32]) -> Reply {
    let mut last = reply;
    for _ in 0..lines {
        last = last.bench.step(0, store, log);
    }
    last
}

// A put from its begin to its last line: it does so many lines.
pub fn put(bench: Bench, lines: u32, store: &mut [u32], log: &mut [u32]) -> Reply {
    let payload = payload_of(65, 66, 67, 68);
    let begun = bench.begin(0, Operation::Put { payload }, store, log);
    steps(begun, lines, store, log)
}

// Links that fail for no reason, and links that no call leaves.
ghost use Rattle.std.specs.Prelude.{◌<◌};

use model::Line;
use queues::Bench;
use std::io::Stdout;
use tries::{anchor, base, played, report, try_anchor, try_state, with_line};

// A linked LIFO queue with `count` tasks and a worker at `line`, its link held or not.
fn linked(count: u32, worker: usize, line: Line, held: bool) -> model::Bench
    requires { worker < 8 }
{
    let mut state = with_line(base(4), worker, line);
    let mut queue = state.queue;
    queue.anchor = anchor(0, count, 0);
    queue.links[worker] = held;
    state.queue = queue;
    state
}

// Thief 1 past line 1: it has read a count of 1.
fn stealing() -> Line {
    Line::StealTest {
        read: anchor(0, 1, 0),
    }
}

fn try_drop(out: Stdout, tried: &str, state: model::Bench, worker: u32) {
    let store = [0u32; 30];
    let log = [0u32; 8];
    let bench = Bench { state };
    let reply = bench.drop_link(worker, &store, &log);
    let answer = reply.answer;
    report(out, tried, answer);
}

// A link fails for no reason, and calls that several refusals fit.
pub fn drops(out: Stdout) {
    try_drop(out, "a held link fails", linked(1, 1, stealing(), true), 1);
    try_drop(
        out,
        "a link that is not held",
        linked(1, 1, stealing(), false),
        1,
    );
    try_drop(
        out,
        "the link of a thief at line 1",
        linked(1, 1, Line::StealRead, false),
        1,
    );
    try_drop(out, "the link of an idle thief", base(5), 1);
    try_drop(out, "the owner's link", base(4), 0);
    try_drop(
        out,
        "the link of a queue with a tag",
        with_line(base(1), 1, stealing()),
        1,
    );
    try_drop(out, "the link of worker 3 of 3", base(4), 3);
    try_drop(
        out,
        "the link of worker 9 in a foreign state",
        played(65536, false),
        9,
    );
}

// Links that no call leaves.
pub fn held(out: Stdout) {
    try_state(
        out,
        "a link held past line 1",
        linked(1, 1, stealing(), true),
    );
    try_state(
        out,
        "a link held at line 1",
        linked(1, 1, Line::StealRead, true),
    );
    try_state(
        out,
        "a link held by an idle thief",
        linked(1, 1, Line::Idle, true),
    );
    try_state(
        out,
        "a link held by the owner",
        linked(1, 0, Line::Idle, true),
    );
    try_state(
        out,
        "a link past a write of the anchor",
        linked(2, 1, stealing(), true),
    );
    let mut state = linked(1, 1, stealing(), true);
    let mut queue = state.queue;
    queue.linked = false;
    state.queue = queue;
    try_state(out, "a link of a queue with a tag", state);
}

pub fn marks(out: Stdout) {
    let mut state = base(2);
    let mut queue = state.queue;
    queue.linked = true;
    state.queue = queue;
    try_state(out, "a linked FIFO queue", state);
    try_anchor(out, "a linked queue without a tag", 4, 0, 1, 0);
    try_anchor(out, "a linked queue with a tag", 4, 0, 1, 1);
}

// The restarts of each worker: who is refused, and what a compare that fails counts.
use model::{Line, Refusal};
use queues::Bench;
use std::io::Stdout;
use tries::{Counted, anchor, base, played, task, with_line};

// A bench on which thief 1 of 3 is at its compare, and the anchor is not the one that it read. Its restarts so far are `count`, the
// owner's 9 and thief 2's 5.
fn beaten(count: u32) -> model::Bench {
    let task = task(1);
    let read = anchor(0, 1, 1);
    let next = 0;
    let mut state = with_line(base(1), 1, Line::StealCompare { read, next, task });
    state.restarts[0] = 9;
    state.restarts[1] = count;
    state.restarts[2] = 5;
    state
}

fn tell(out: Stdout, tried: &str, tally: Result<u32, Refusal>) {
    let counted = Counted(tally);
    let _written = println!(out; "{tried}: {counted}");
}

fn try_who(out: Stdout, tried: &str, state: model::Bench, worker: u32) {
    let store = [0u32; 30];
    let log = [0u32; 8];
    let bench = Bench { state };
    tell(out, tried, bench.who(worker, &store, &log));
}

// The same after a step of worker 1, whose compare fails.
fn try_beaten(out: Stdout, tried: &str, count: u32, worker: u32) {
    let mut store = [0u32; 30];
    let mut log = [0u32; 8];
    let bench = Bench {
        state: beaten(count),
    };
    let reply = bench.step(1, &mut store, &mut log);
    let next = reply.bench;
    try_who(out, tried, next.state, worker);
}

// A worker's count, and calls that several refusals fit.
pub fn counts(out: Stdout) {
    try_who(out, "the owner's restarts", beaten(7), 0);
    try_who(out, "restarts of the last of the crew", beaten(7), 2);
    try_who(out, "restarts of worker 3 of 3", beaten(7), 3);
    try_who(
        out,
        "restarts of worker 9 in a foreign state",
        played(65536, false),
        9,
    );
}

// A compare that fails raises its own worker's count, up to the ceiling.
pub fn ceilings(out: Stdout) {
    try_beaten(out, "a compare fails, its own count of 7", 7, 1);
    try_beaten(out, "a compare fails, the owner's count", 7, 0);
    try_beaten(out, "a compare fails, the next thief's count", 7, 2);
    try_beaten(out, "a count of 4294967294", 4294967294, 1);
    try_beaten(out, "a count of 4294967295", 4294967295, 1);
}

// For timing: plays three million steps through the library's public calls, and prints how many went on. Each run of five is a
// steal attempt's lines 1 to 4b, from one and the same bench: a bench is a value, so the attempt can be played again from its
// start, and the log never fills.
// Uses `queues` and `model`. It is a program, and no crate uses it.

#![tactic(auto)]

use model::{Answer, Operation, Payload, Setup};
use queues::{Bench, Reply};
use std::io;

// The owner's put, from its begin to its last line.
fn put(bench: Bench, store: &mut [u32], log: &mut [u32]) -> Reply {
    let payload = Payload {
        first: 7,
        second: 0,
        third: 0,
        fourth: 0,
    };
    let mut last = bench.begin(0, Operation::Put { payload }, store, log);
    for _ in 0..5 {
        last = last.bench.step(0, store, log);
    }
    last
}

// Thief 1's lines 1 to 4b, each step on the bench that the one before handed back; how many went on.
fn attempt(start: Bench, store: &mut [u32], log: &mut [u32]) -> u64 {
    let mut steps: u64 = 0;
    let mut bench = start;
    for _ in 0..5 {
        let reply = bench.step(1, store, log);
        if matches!(reply.answer, Answer::GoesOn) {
            steps = steps.wrapping_add(1);
        }
        bench = reply.bench;
    }
    steps
}

fn main(rt: HostRuntime) -> io::Result<()> {
    let mut store = [0u32; 64];
    let mut log = [0u32; 64];
    let setup = Setup {
        kind: 1,
        width: 4,
        size: 4,
        crew: 8,
        words: 1,
        delayed: false,
    };
    let mut last = Bench::fresh(setup, &mut store);
    last = put(last.bench, &mut store, &mut log);
    last = last.bench.begin(1, Operation::Steal, &store, &log);
    let start = last.bench;
    let mut steps: u64 = 0;
    for _ in 0..600000 {
        steps = steps.wrapping_add(attempt(start, &mut store, &mut log));
    }
    println!(rt; "{steps}")
}

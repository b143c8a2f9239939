// Plays through the public calls what document 01 names and does not prove by itself: each refusal that
// a library call gives, their order, the last words of the log, and foreign states, each beside the
// nearest one that is allowed. One line for each call: what was tried, and what the bench answered. A kind is the number that fresh is
// told, as unknown ones are tried too.
// Uses `queues` and `model`. It is a program, and no crate uses it.

#![tactic(auto)]

use model::{Line, Operation, Setup};
use queues::Bench;
use std::io::Stdout;
use tries::{base, begun, payload, played, put, report, stepped, text, with_line};

mod foreign;
mod links;
mod restarts;

// Each try has memory of its own: a store of 30 words and a log of 8.
fn try_setup(out: Stdout, tried: &str, kind: u32, width: u32, size: u32, crew: u32, words: u32) {
    let mut store = [0u32; 30];
    let setup = Setup {
        kind,
        width,
        size,
        crew,
        words,
        delayed: false,
    };
    let made = Bench::fresh(setup, &mut store);
    let answer = made.answer;
    report(out, tried, answer);
}

// With one payload word.
fn try_fresh(out: Stdout, tried: &str, kind: u32, width: u32, size: u32, crew: u32) {
    try_setup(out, tried, kind, width, size, crew, 1);
}

// Tasks of so many payload words.
fn try_words(out: Stdout, tried: &str, size: u32, words: u32) {
    try_setup(out, tried, 1, 4, size, 2, words);
}

fn try_begin(out: Stdout, tried: &str, used: u32, busy: bool, worker: u32, operation: Operation) {
    let answer = begun(played(used, busy), worker, operation);
    report(out, tried, answer);
}

fn try_put(out: Stdout, tried: &str, used: u32, busy: bool, worker: u32) {
    try_begin(
        out,
        tried,
        used,
        busy,
        worker,
        Operation::Put {
            payload: payload(9),
        },
    );
}

fn try_take(out: Stdout, tried: &str, used: u32, busy: bool, worker: u32) {
    try_begin(out, tried, used, busy, worker, Operation::Take);
}

fn try_steal(out: Stdout, tried: &str, used: u32, busy: bool, worker: u32) {
    try_begin(out, tried, used, busy, worker, Operation::Steal);
}

fn try_step(out: Stdout, tried: &str, used: u32, busy: bool, worker: u32) {
    let answer = stepped(played(used, busy), worker);
    report(out, tried, answer);
}

// A thief that is at line 1 of a steal.
fn try_thief(out: Stdout, tried: &str, operation: Operation) {
    let answer = begun(with_line(base(1), 1, Line::StealRead), 1, operation);
    report(out, tried, answer);
}

// Each of fresh's refusals, and then their order: a call that breaks every limit, then one fewer each.
fn fresh_refusals(out: Stdout) {
    try_fresh(out, "fresh of kind 0", 0, 4, 2, 2);
    try_fresh(out, "fresh of kind 5", 5, 4, 2, 2);
    try_fresh(out, "fresh of kind 6", 6, 4, 2, 2);
    try_fresh(out, "fresh of kind 4 with tags of 0 bits", 4, 0, 2, 2);
    try_fresh(out, "fresh with tags of 0 bits", 1, 0, 2, 2);
    try_fresh(out, "fresh with tags of 17 bits", 1, 17, 2, 2);
    try_fresh(out, "fresh with 0 slots", 1, 4, 0, 2);
    try_fresh(out, "fresh with 3 slots", 1, 4, 3, 2);
    try_fresh(out, "fresh with 2048 slots", 1, 4, 2048, 2);
    try_fresh(out, "fresh with a crew of 0", 1, 4, 2, 0);
    try_fresh(out, "fresh with a crew of 9", 1, 4, 2, 9);
    try_fresh(out, "fresh with 16 slots on 30 words", 1, 4, 16, 2);
}

// An array of n tasks of p payload words takes n(p+1) words.
fn fresh_words(out: Stdout) {
    try_words(out, "fresh with 0 payload words", 2, 0);
    try_words(out, "fresh with 1 payload word", 2, 1);
    try_words(out, "fresh with 4 payload words", 2, 4);
    try_words(out, "fresh with 5 payload words", 2, 5);
    try_words(out, "fresh with 4294967295 payload words", 2, 4294967295);
    try_words(out, "fresh with 8 slots of 3 words on 30 words", 8, 2);
    try_words(out, "fresh with 8 slots of 4 words on 30 words", 8, 3);
    try_words(out, "fresh with 4 slots of 5 words on 30 words", 4, 4);
    try_words(out, "fresh with 8 slots of 5 words on 30 words", 8, 4);
}

fn fresh_order(out: Stdout) {
    try_setup(out, "fresh, all six broken", 0, 0, 3, 0, 0);
    try_setup(out, "fresh, the last five broken", 3, 0, 3, 0, 0);
    try_setup(out, "fresh, the last four broken", 3, 1, 3, 0, 0);
    try_setup(out, "fresh, the last three broken", 3, 1, 1024, 0, 5);
    try_setup(out, "fresh, the last two broken", 3, 1, 1024, 8, 5);
    try_setup(out, "fresh, the last broken", 3, 1, 1024, 8, 4);
    try_setup(out, "fresh, none broken", 3, 16, 1, 8, 4);
}

// Each of begin's and step's refusals but 11. P9 is the busy thief that puts.
fn refusals(out: Stdout) {
    try_step(out, "a step of worker 3 of 3", 0, false, 3);
    try_step(out, "a step of an idle worker", 0, false, 1);
    try_take(out, "a take by worker 3 of 3", 0, false, 3);
    try_take(out, "a thief takes", 0, false, 1);
    try_put(out, "a thief puts", 0, false, 1);
    try_steal(out, "the owner steals", 0, false, 0);
    try_put(out, "the owner puts", 0, false, 0);
    try_put(out, "the busy owner puts", 0, true, 0);
    try_thief(
        out,
        "a busy thief puts",
        Operation::Put {
            payload: payload(9),
        },
    );
    try_thief(out, "a busy thief steals", Operation::Steal);
    try_put(out, "a put after number 65535", 65535, false, 0);
    try_take(out, "a take after number 65535", 65535, false, 0);
}

// Calls that several refusals fit: 65,536 put numbers used make the state foreign.
fn order(out: Stdout) {
    try_take(out, "a foreign state, worker 9 takes", 65536, true, 9);
    try_put(out, "worker 9 puts, put numbers spent", 65535, true, 9);
    try_steal(out, "the busy owner steals", 65535, true, 0);
    try_put(
        out,
        "the busy owner puts, put numbers spent",
        65535,
        true,
        0,
    );
    try_step(out, "a step of worker 9 in a foreign state", 65536, true, 9);
    try_step(out, "a step of worker 9", 65535, true, 9);
}

fn front_text(out: Stdout, bench: Bench, log: &[u32]) {
    let front = bench.front(log);
    let _written = println!(out; "the log's front has {} words", front.len());
}

// Two puts of so many payload words and lines, of which the end of the second is told: the first has left fewer words in the log.
fn try_log(out: Stdout, tried: &str, words: u32, lines: u32, log: &mut [u32]) {
    let mut store = [0u32; 10];
    let setup = Setup {
        kind: 1,
        width: 4,
        size: 2,
        crew: 1,
        words,
        delayed: false,
    };
    let mut last = Bench::fresh(setup, &mut store);
    last = put(last.bench, lines, &mut store, log);
    last = put(last.bench, lines, &mut store, log);
    let answer = last.answer;
    report(out, tried, answer);
    front_text(out, last.bench, log);
}

// The log's last words: an entry has three and the payload's.
fn log_room(out: Stdout) {
    let mut eight = [0u32; 8];
    let mut seven = [0u32; 7];
    try_log(
        out,
        "the end of a put, 4 words left in the log",
        1,
        5,
        &mut eight,
    );
    try_log(
        out,
        "the end of a put, 3 words left in the log",
        1,
        5,
        &mut seven,
    );
}

fn log_room_2(out: Stdout) {
    let mut ten = [0u32; 10];
    let mut nine = [0u32; 9];
    try_log(out, "2 payload words, 5 words left", 2, 6, &mut ten);
    try_log(out, "2 payload words, 4 words left", 2, 6, &mut nine);
}

fn log_room_3(out: Stdout) {
    let mut twelve = [0u32; 12];
    let mut eleven = [0u32; 11];
    try_log(out, "3 payload words, 6 words left", 3, 7, &mut twelve);
    try_log(out, "3 payload words, 5 words left", 3, 7, &mut eleven);
}

fn log_room_4(out: Stdout) {
    let mut fourteen = [0u32; 14];
    let mut thirteen = [0u32; 13];
    try_log(out, "4 payload words, 7 words left", 4, 8, &mut fourteen);
    try_log(out, "4 payload words, 6 words left", 4, 8, &mut thirteen);
}

// The front of a log of 8 words in a state that has more of them written.
fn short_front(out: Stdout) {
    let log = [0u32; 8];
    let mut state = base(1);
    state.written = 12;
    text(out, "12 words written in a log of 8: ");
    front_text(out, Bench { state }, &log);
}

fn main(rt: HostRuntime) {
    let out = rt.stdout();
    fresh_refusals(out);
    fresh_words(out);
    fresh_order(out);
    refusals(out);
    order(out);
    log_room(out);
    log_room_2(out);
    log_room_3(out);
    log_room_4(out);
    short_front(out);
    foreign::numbers(out);
    foreign::counters(out);
    foreign::directories(out);
    foreign::pairs(out);
    foreign::stores(out);
    foreign::lifo(out);
    foreign::fifo(out);
    foreign::deque(out);
    foreign::owners(out);
    foreign::puts(out);
    foreign::takes(out);
    foreign::copies(out);
    foreign::thieves(out);
    foreign::reads(out);
    foreign::steals(out);
    foreign::widths(out);
    foreign::words(out);
    links::drops(out);
    links::held(out);
    links::marks(out);
    restarts::counts(out);
    restarts::ceilings(out);
}

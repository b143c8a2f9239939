// Growth asked for: who may ask, drop an ask and commit, words set aside that no call leaves, each beside the nearest that are
// allowed, and a commit's lines.
ghost use Rattle.std.specs.Prelude.{◌<◌};

use crate::delayed::{delayed, note, try_growth, try_order, with_second, with_store};
use model::{Growth, Line, Operation, Setup};
use queues::{Bench, Reply};
use std::io::Stdout;
use tries::{
    Counted, base, base_of, for_put, played, put, say_of, steps, text, with_line, with_pair,
};

// So many words are set aside.
fn with_aside(state: model::Bench, aside: u32) -> model::Bench {
    let mut next = state;
    next.aside = aside;
    next
}

fn say_aside(out: Stdout, before: &str, bench: Bench) {
    let state = bench.state;
    let _written = print!(out; "{before}{} set aside", state.aside);
}

// An ask, a drop and a commit, each on the same state.
fn try_asks(out: Stdout, tried: &str, state: model::Bench, worker: u32) {
    let store = [0u32; 30];
    let log = [0u32; 8];
    let bench = Bench { state };
    text(out, tried);
    say_of(out, ": ask ", bench.ask(worker, &store, &log));
    say_of(out, ", unask ", bench.drop_ask(worker, &store, &log));
    let commit = bench.begin(worker, Operation::Commit, &store, &log);
    say_of(out, ", commit ", commit);
    text(out, "\n");
}

fn try_owner(out: Stdout, tried: &str, busy: bool, aside: u32) {
    try_asks(out, tried, with_aside(played(0, busy), aside), 0);
}

fn try_busy_thief(out: Stdout, tried: &str, aside: u32) {
    let thief = with_line(base(1), 1, Line::StealRead);
    try_asks(out, tried, with_aside(thief, aside), 1);
}

// An array of 2 slots has 4 words, so 8 are set aside.
pub fn asks(out: Stdout) {
    try_owner(out, "the owner, and no ask stands", false, 0);
    try_owner(out, "the owner, and an ask stands", false, 8);
    try_owner(out, "the busy owner, and no ask stands", true, 0);
    try_owner(out, "the busy owner, and an ask stands", true, 8);
    try_asks(out, "a thief, and no ask stands", base(1), 1);
    try_busy_thief(out, "a busy thief, and an ask stands", 8);
    try_asks(out, "worker 3 of 3", with_aside(base(1), 8), 3);
    try_asks(out, "worker 9 in a foreign state", played(65536, false), 9);
}

// An ask on a store of its own, and how many words are set aside then.
fn try_space(out: Stdout, tried: &str, state: model::Bench, store: &[u32]) {
    let log = [0u32; 8];
    let bench = Bench { state };
    let reply = bench.ask(0, store, &log);
    text(out, tried);
    say_of(out, ": ", reply);
    say_aside(out, ", ", reply.bench);
    text(out, "\n");
}

// One array, of so many words.
fn one_array(length: u32) -> model::Bench {
    with_pair(base(1), 0, 0, length, 1, 1)
}

pub fn space(out: Stdout) {
    let twelve = [0u32; 12];
    let eleven = [0u32; 11];
    try_space(out, "an ask with 2 slots on 12 words", base(1), &twelve);
    try_space(out, "an ask with 2 slots on 11 words", base(1), &eleven);
    let thirty = [0u32; 30];
    let short = [0u32; 29];
    try_space(
        out,
        "an ask with 2 slots of 5 words on 30 words",
        base_of(1, 4),
        &thirty,
    );
    try_space(
        out,
        "an ask with 2 slots of 5 words on 29 words",
        base_of(1, 4),
        &short,
    );
}

pub fn sizes(out: Stdout) {
    let enough = [0u32; 3072];
    let large = [0u32; 6144];
    try_space(
        out,
        "an ask with 512 slots on 3072 words",
        one_array(1024),
        &enough,
    );
    try_space(
        out,
        "an ask with 1024 slots on 6144 words",
        one_array(2048),
        &large,
    );
}

// Each call on what the one before left, and how many words are set aside at last.
fn drains(out: Stdout, bench: Bench, store: &mut [u32]) -> Bench {
    let log = [0u32; 8];
    let reply = bench.drain(store, &log);
    say_of(out, ", drain ", reply);
    reply.bench
}

fn commits(out: Stdout, bench: Bench, store: &[u32]) {
    let log = [0u32; 8];
    let reply = bench.begin(0, Operation::Commit, store, &log);
    say_of(out, ", commit ", reply);
    say_aside(out, ", ", reply.bench);
    text(out, "\n");
}

fn other_calls(out: Stdout, bench: Bench, store: &[u32]) {
    let log = [0u32; 8];
    let mut reply = bench.drop_link(2, store, &log);
    say_of(out, ", drop ", reply);
    let counted = Counted(reply.bench.who(2, store, &log));
    let _written = print!(out; ", who {counted}");
    reply = reply.bench.ask(0, store, &log);
    say_of(out, ", ask ", reply);
    reply = reply.bench.drop_ask(0, store, &log);
    say_of(out, ", unask ", reply);
    commits(out, reply.bench, store);
}

// All calls. Thief 2 is idle.
fn try_on(out: Stdout, tried: &str, state: model::Bench, store: &mut [u32]) {
    let mut log = [0u32; 8];
    let bench = Bench { state };
    let reply = bench.step(2, store, &mut log);
    text(out, tried);
    say_of(out, ": step ", reply);
    let drained = drains(out, reply.bench, store);
    other_calls(out, drained, store);
}

fn try_aside(out: Stdout, tried: &str, state: model::Bench, aside: u32) {
    let mut store = [0u32; 30];
    try_on(out, tried, with_aside(state, aside), &mut store);
}

fn try_idle(out: Stdout, tried: &str, aside: u32) {
    try_aside(out, tried, base(1), aside);
}

pub fn asides(out: Stdout) {
    try_idle(out, "no words set aside", 0);
    try_idle(out, "8 words set aside", 8);
    try_idle(out, "7 words set aside", 7);
    try_idle(out, "9 words set aside", 9);
    try_idle(out, "the words of an array of the present size", 4);
    try_idle(out, "4294967295 words set aside", 4294967295);
}

// Words that do not fit the store, or would make too large an array.
pub fn asides_fit(out: Stdout) {
    let mut twelve = [0u32; 12];
    let mut eleven = [0u32; 11];
    let state = with_aside(base(1), 8);
    try_on(out, "8 words set aside on 12 words", state, &mut twelve);
    try_on(out, "8 words set aside on 11 words", state, &mut eleven);
}

pub fn asides_size(out: Stdout) {
    let mut enough = [0u32; 3072];
    let mut large = [0u32; 6144];
    try_on(
        out,
        "the words of 1024 slots set aside",
        with_aside(one_array(1024), 2048),
        &mut enough,
    );
    try_on(
        out,
        "the words of 2048 slots set aside",
        with_aside(one_array(2048), 4096),
        &mut large,
    );
}

// A worker at X1, of a commit or of a put.
fn try_x1(out: Stdout, tried: &str, worker: usize, commit: bool, aside: u32)
    requires { worker < 8 }
{
    let line = Line::Claim {
        why: growth(commit),
    };
    try_aside(out, tried, with_line(base(1), worker, line), aside);
}

fn growth(commit: bool) -> Growth {
    if commit {
        return Growth::ForCommit;
    }
    for_put()
}

pub fn asides_at_x1(out: Stdout) {
    try_x1(out, "a put's X1, no words set aside", 0, false, 0);
    try_x1(out, "a put's X1, 8 words set aside", 0, false, 8);
    try_x1(out, "a commit's X1, no words set aside", 0, true, 0);
    try_x1(out, "a commit's X1, 8 words set aside", 0, true, 8);
    try_x1(out, "a thief at a commit's X1", 1, true, 8);
}

// The owner at X2 to X4: an array of 8 words is claimed behind the first, and the next one would have 16.
fn growing(line: Line) -> model::Bench {
    with_line(with_second(base(1), 1), 0, line)
}

fn copy(why: Growth) -> Line {
    Line::Copy {
        why,
        head: 0,
        noted: 2,
        copied: 0,
    }
}

fn try_x2(out: Stdout, tried: &str, commit: bool, aside: u32) {
    let line = Line::Note {
        why: growth(commit),
    };
    try_aside(out, tried, growing(line), aside);
}

fn try_x3(out: Stdout, tried: &str, commit: bool, aside: u32) {
    try_aside(out, tried, growing(copy(growth(commit))), aside);
}

fn try_x4(out: Stdout, tried: &str, commit: bool, aside: u32) {
    let line = Line::Publish {
        why: growth(commit),
    };
    try_aside(out, tried, growing(line), aside);
}

pub fn asides_of_a_put(out: Stdout) {
    try_x2(out, "a put's X2, 16 words set aside", false, 16);
    try_x3(out, "a put's X3, 16 words set aside", false, 16);
    try_x4(out, "a put's X4, 16 words set aside", false, 16);
}

pub fn asides_of_a_commit(out: Stdout) {
    try_x2(out, "a commit's X2, no words set aside", true, 0);
    try_x2(out, "a commit's X2, 16 words set aside", true, 16);
    try_x3(out, "a commit's X3, no words set aside", true, 0);
    try_x3(out, "a commit's X3, 16 words set aside", true, 16);
    try_x4(out, "a commit's X4, no words set aside", true, 0);
    try_x4(out, "a commit's X4, 16 words set aside", true, 16);
}

// Three arrays of so many words, the third at word `at`: memory has the first as published, and the notes of the others wait.
fn noted(first: u32, second: u32, third: u32, at: u32) -> model::Bench {
    let mut state = with_pair(delayed(1), 0, 0, first, 1, 1);
    state = with_pair(state, 1, first, second, 1, 2);
    state = with_pair(state, 2, at, third, 1, 3);
    with_store(with_store(state, note(1)), note(2))
}

// An ask, both notes drain, and a commit begins.
fn try_noted(out: Stdout, tried: &str, state: model::Bench, store: &mut [u32]) {
    let log = [0u32; 8];
    let bench = Bench { state };
    let reply = bench.ask(0, store, &log);
    text(out, tried);
    say_of(out, ": ask ", reply);
    say_aside(out, ", ", reply.bench);
    let once = drains(out, reply.bench, store);
    let twice = drains(out, once, store);
    commits(out, twice, store);
}

// Arrays of 2, 4 and 8 slots have 28 words together, and the next one has 32.
pub fn two_notes(out: Stdout) {
    let mut sixty = [0u32; 60];
    let mut short = [0u32; 59];
    let state = noted(4, 8, 16, 12);
    try_noted(out, "two notes wait, 60 words", state, &mut sixty);
    try_noted(out, "two notes wait, 59 words", state, &mut short);
}

pub fn two_notes_sizes(out: Stdout) {
    let mut enough = [0u32; 3840];
    let mut large = [0u32; 7680];
    try_noted(
        out,
        "two notes wait, the younger of 512 slots",
        noted(256, 512, 1024, 768),
        &mut enough,
    );
    try_noted(
        out,
        "two notes wait, the younger of 1024 slots",
        noted(512, 1024, 2048, 1536),
        &mut large,
    );
}

pub fn two_notes_asides(out: Stdout) {
    let mut store = [0u32; 60];
    let state = noted(4, 8, 16, 12);
    try_on(
        out,
        "two notes wait, twice the younger's words set aside",
        with_aside(state, 32),
        &mut store,
    );
    try_on(
        out,
        "two notes wait, twice the older's words set aside",
        with_aside(state, 16),
        &mut store,
    );
    try_on(
        out,
        "two notes wait, twice the words that thieves use set aside",
        with_aside(state, 8),
        &mut store,
    );
}

// A commit's steps whose stores have no place in the line, and its last one with a full log.
pub fn full(out: Stdout) {
    let why = Growth::ForCommit;
    let publish = Line::Publish { why };
    try_growth(out, "a commit's X3, 7 wait", 1, 4, 8, 7, copy(why));
    try_growth(out, "a commit's X4, 8 wait", 1, 4, 8, 8, publish);
    try_growth(out, "a commit's X4, 7 wait", 1, 4, 8, 7, publish);
    let state = with_line(with_second(delayed(1), 1), 0, publish);
    try_order(out, "a commit's X4, 8 wait, a full log", state, 8, 0);
    try_order(out, "a commit's X4, 7 wait, a full log", state, 7, 0);
}

// A commit's last line with 3 words left in the log, and again with 4.
pub fn log_room(out: Stdout) {
    let mut store = [0u32; 30];
    let mut eight = [0u32; 8];
    let mut nine = [0u32; 9];
    let why = Growth::ForCommit;
    let mut state = growing(Line::Publish { why });
    state.written = 5;
    let bench = Bench { state };
    let mut reply = bench.step(0, &mut store, &mut eight);
    say_of(out, "a commit's X4, 3 words left in the log: ", reply);
    reply = reply.bench.step(0, &mut store, &mut nine);
    say_of(out, ", 4 words left: ", reply);
    text(out, "\n");
}

// A bench of one slot. The next array has 4 words.
fn fresh(kind: u32, store: &mut [u32]) -> Reply {
    let setup = Setup {
        kind,
        width: 4,
        size: 1,
        crew: 3,
        words: 1,
        delayed: false,
    };
    Bench::fresh(setup, store)
}

// A put, an ask, and a put that grows: it comes to X1 by so many lines, and ends by so many after it. The store has room for the
// two arrays and for no more.
fn try_put(out: Stdout, tried: &str, kind: u32, lines: u32, before: u32, behind: u32) {
    let mut store = [0u32; 6];
    let mut log = [0u32; 8];
    let mut last = fresh(kind, &mut store);
    last = put(last.bench, lines, &mut store, &mut log);
    last = last.bench.ask(0, &store, &log);
    last = put(last.bench, before, &mut store, &mut log);
    text(out, tried);
    say_aside(out, ": at X1 ", last.bench);
    last = steps(last, 1, &mut store, &mut log);
    say_aside(out, ", past it ", last.bench);
    last = steps(last, behind, &mut store, &mut log);
    say_of(out, ", ", last);
    say_of(out, ", unask ", last.bench.drop_ask(0, &store, &log));
    text(out, "\n");
}

pub fn puts(out: Stdout) {
    try_put(out, "LIFO, an ask and a put that grows", 1, 5, 2, 8);
    try_put(out, "FIFO, an ask and a put that grows", 2, 6, 3, 9);
    try_put(out, "double-ended, an ask and a put that grows", 3, 5, 2, 8);
}

// A commit of an empty queue: four steps, and the log's entry.
fn try_empty(out: Stdout, tried: &str, kind: u32) {
    let mut store = [0u32; 6];
    let mut log = [9u32; 4];
    let mut last = fresh(kind, &mut store);
    last = last.bench.ask(0, &store, &log);
    last = last.bench.begin(0, Operation::Commit, &store, &log);
    text(out, tried);
    last = steps(last, 1, &mut store, &mut log);
    say_of(out, ": ", last);
    last = steps(last, 1, &mut store, &mut log);
    say_of(out, ", ", last);
    last = steps(last, 1, &mut store, &mut log);
    say_of(out, ", ", last);
    last = steps(last, 1, &mut store, &mut log);
    say_of(out, ", ", last);
    say_aside(out, ", ", last.bench);
    entry(out, log);
}

// The words of an entry.
fn entry(out: Stdout, log: [u32; 4]) {
    let [kind, worker, number, first] = log;
    let _written = println!(out; ", the log has {kind} {worker} {number} {first}");
}

// With no task X4 follows X2; LIFO copies every slot.
pub fn empty(out: Stdout) {
    try_empty(out, "LIFO, a commit of an empty queue", 1);
    try_empty(out, "FIFO, a commit of an empty queue", 2);
    try_empty(out, "double-ended, a commit of an empty queue", 3);
}

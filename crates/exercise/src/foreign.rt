// Foreign states, each beside the nearest one that is allowed: numbers, directories, anchors, and what a worker has read.
ghost use Rattle.std.specs.Prelude.{◌<◌};

use model::{Line, Operation, Task};
use std::io::Stdout;
use tries::{
    anchor, base, base_of, begun_on, for_put, numbered, payload_of, report, task, try_anchor,
    try_state, with_line, with_pair,
};

fn try_numbers(out: Stdout, tried: &str, width: u32, crew: u32, used: u32, written: u32) {
    let mut state = base(1);
    state.width = width;
    state.crew = crew;
    state.used = used;
    state.written = written;
    try_state(out, tried, state);
}

// The same, with the owner at `line`.
fn try_pair(
    out: Stdout,
    tried: &str,
    kind: u32,
    place: usize,
    offset: u32,
    length: u32,
    published: u32,
    claimed: u32,
    line: Line,
)
    requires { place < 11 }
{
    let state = with_pair(base(kind), place, offset, length, published, claimed);
    try_state(out, tried, with_line(state, 0, line));
}

fn try_line(out: Stdout, tried: &str, kind: u32, worker: usize, line: Line)
    requires { worker < 8 }
{
    try_state(out, tried, with_line(base(kind), worker, line));
}

pub fn numbers(out: Stdout) {
    try_numbers(out, "a state as fresh made it", 4, 3, 0, 0);
    try_numbers(out, "tags of 0 bits", 0, 3, 0, 0);
    try_numbers(out, "tags of 1 bit", 1, 3, 0, 0);
    try_numbers(out, "tags of 16 bits", 16, 3, 0, 0);
    try_numbers(out, "tags of 17 bits", 17, 3, 0, 0);
    try_numbers(out, "a crew of 0", 4, 0, 0, 0);
    try_numbers(out, "a crew of 1", 4, 1, 0, 0);
    try_numbers(out, "a crew of 8", 4, 8, 0, 0);
    try_numbers(out, "a crew of 9", 4, 9, 0, 0);
}

pub fn counters(out: Stdout) {
    try_numbers(out, "65535 put numbers used", 4, 3, 65535, 0);
    try_numbers(out, "65536 put numbers used", 4, 3, 65536, 0);
    try_numbers(out, "8 words written in a log of 8", 4, 3, 0, 8);
    try_numbers(out, "9 words written in a log of 8", 4, 3, 0, 9);
}

// A directory while the owner is idle.
fn try_directory(
    out: Stdout,
    tried: &str,
    place: usize,
    offset: u32,
    length: u32,
    published: u32,
    claimed: u32,
)
    requires { place < 11 }
{
    try_pair(
        out,
        tried,
        1,
        place,
        offset,
        length,
        published,
        claimed,
        Line::Idle,
    );
}

pub fn directories(out: Stdout) {
    try_directory(out, "no array published", 0, 0, 4, 0, 0);
    try_directory(out, "twelve arrays claimed", 0, 0, 4, 12, 12);
    try_directory(out, "an array claimed and the owner idle", 1, 4, 8, 1, 2);
    let note = Line::Note { why: for_put() };
    try_pair(
        out,
        "the owner at X2 and no array claimed",
        1,
        0,
        0,
        4,
        1,
        1,
        note,
    );
}

pub fn pairs(out: Stdout) {
    try_directory(out, "a first array at word 1", 0, 1, 4, 1, 1);
    try_directory(out, "a first array of 2 words", 0, 0, 2, 1, 1);
    try_directory(out, "a first array of 3 words", 0, 0, 3, 1, 1);
    try_directory(out, "a first array of 3 slots", 0, 0, 6, 1, 1);
    try_directory(out, "an array behind the first", 1, 4, 8, 2, 2);
    try_directory(out, "a gap between two arrays", 1, 5, 8, 2, 2);
    try_directory(out, "two arrays that overlap", 1, 3, 8, 2, 2);
    try_directory(out, "an array as long as the one before", 1, 4, 4, 2, 2);
}

// A first array of so many words, on a store of its own.
fn try_store(out: Stdout, tried: &str, length: u32, store: &[u32]) {
    let state = with_pair(base(1), 0, 0, length, 1, 1);
    let answer = begun_on(state, 0, Operation::Take, store);
    report(out, tried, answer);
}

pub fn stores(out: Stdout) {
    let even = [0u32; 2048];
    let short = [0u32; 2047];
    let large = [0u32; 4096];
    try_store(out, "1024 slots on 2048 words", 2048, &even);
    try_store(out, "1024 slots on 2047 words", 2048, &short);
    try_store(out, "2048 slots on 4096 words", 4096, &large);
}

pub fn lifo(out: Stdout) {
    try_anchor(out, "LIFO, t the size, a tag of 4 bits", 1, 0, 2, 15);
    try_anchor(out, "LIFO, t above the size", 1, 0, 3, 0);
    try_anchor(out, "LIFO, a tag of 5 bits", 1, 0, 2, 16);
    try_anchor(out, "LIFO, a head", 1, 1, 2, 0);
}

pub fn fifo(out: Stdout) {
    try_anchor(out, "FIFO, head at tail", 2, 2, 2, 0);
    try_anchor(out, "FIFO, head above tail", 2, 2, 1, 0);
    try_anchor(out, "FIFO, tail 2 ahead of head", 2, 1, 3, 0);
    try_anchor(out, "FIFO, tail 3 ahead of head", 2, 1, 4, 0);
    try_anchor(out, "FIFO, tail 65535", 2, 65534, 65535, 0);
    try_anchor(out, "FIFO, tail 65536", 2, 65535, 65536, 0);
    try_anchor(out, "FIFO, a tag", 2, 1, 2, 1);
}

pub fn deque(out: Stdout) {
    try_anchor(
        out,
        "double-ended, head 2047, s the size, a tag of 4 bits",
        3,
        2047,
        2,
        15,
    );
    try_anchor(out, "double-ended, head 2048", 3, 2048, 1, 0);
    try_anchor(out, "double-ended, s above the size", 3, 0, 3, 0);
    try_anchor(out, "double-ended, a tag of 5 bits", 3, 0, 1, 16);
}

// The owner at a line of put or take, with what it has read.
fn try_owner(out: Stdout, tried: &str, kind: u32, line: Line) {
    try_line(out, tried, kind, 0, line);
}

fn try_put_read(out: Stdout, tried: &str, number: u32) {
    try_owner(out, tried, 1, Line::PutRead { task: task(number) });
}

fn try_put_test(out: Stdout, tried: &str, count: u32, tag: u32) {
    let read = anchor(0, count, tag);
    try_owner(
        out,
        tried,
        1,
        Line::PutTest {
            task: task(1),
            read,
        },
    );
}

fn try_put_word(out: Stdout, tried: &str, kind: u32, head: u32, count: u32) {
    let read = anchor(head, count, 0);
    try_owner(
        out,
        tried,
        kind,
        Line::PutWord {
            task: task(1),
            read,
            word: 0,
        },
    );
}

fn try_take_tail(out: Stdout, tried: &str, kind: u32, head: u32) {
    try_owner(out, tried, kind, Line::TakeTail { head });
}

fn try_take_word(out: Stdout, tried: &str, count: u32, number: u32) {
    let read = anchor(0, count, 0);
    let task = numbered(number);
    try_owner(
        out,
        tried,
        1,
        Line::TakeWord {
            read,
            task,
            word: 1,
        },
    );
}

pub fn owners(out: Stdout) {
    try_owner(out, "the owner at a line of take", 1, Line::TakeRead);
    try_owner(out, "the owner at a line of steal", 1, Line::StealRead);
}

pub fn puts(out: Stdout) {
    try_put_read(out, "a put numbered 65535", 65535);
    try_put_read(out, "a put numbered 65536", 65536);
    try_put_test(out, "a t read of the size", 2, 0);
    try_put_test(out, "a t read above the size", 3, 0);
    try_put_test(out, "a tag read of 15", 0, 15);
    try_put_test(out, "a tag read of 16", 0, 16);
    try_put_word(out, "a slot left past a put's test", 1, 0, 1);
    try_put_word(out, "a full array past a put's test", 1, 0, 2);
    try_put_word(out, "FIFO, tail 65534 past a put's test", 2, 65534, 65534);
    try_put_word(out, "FIFO, tail 65535 past a put's test", 2, 65535, 65535);
}

pub fn takes(out: Stdout) {
    try_take_tail(out, "LIFO at FIFO's take 2", 1, 0);
    try_take_tail(out, "FIFO, a head read of 65535", 2, 65535);
    try_take_tail(out, "FIFO, a head read of 65536", 2, 65536);
    try_take_word(out, "t read 0 past a test for EMPTY", 0, 1);
    try_take_word(out, "a number read of 65535", 1, 65535);
    try_take_word(out, "a number read of 65536", 1, 65536);
}

// The owner at X3, a second array claimed, with `noted` indices from `head` on to copy and `copied` of them done.
fn try_copy(out: Stdout, tried: &str, kind: u32, head: u32, noted: u32, copied: u32) {
    let line = Line::Copy {
        why: for_put(),
        head: head,
        noted: noted,
        copied: copied,
    };
    try_pair(out, tried, kind, 1, 4, 8, 1, 2, line);
}

pub fn copies(out: Stdout) {
    try_copy(out, "the owner at X3", 1, 0, 2, 1);
    try_copy(out, "X3 past the last index", 1, 0, 2, 2);
    try_copy(out, "X3 with more indices than slots", 1, 0, 3, 1);
    try_copy(out, "X3 from index 1 on, LIFO", 1, 1, 2, 1);
    try_copy(out, "X3 to index 65534, FIFO", 2, 65533, 2, 1);
    try_copy(out, "X3 to index 65535, FIFO", 2, 65534, 2, 1);
    try_copy(out, "X3 from index 2047 on, double-ended", 3, 2047, 2, 1);
    try_copy(out, "X3 from index 2048 on, double-ended", 3, 2048, 2, 1);
}

// A thief at a line of steal, with what it has read. Two arrays are published, of 2 slots and of 4.
fn try_stealing(out: Stdout, tried: &str, kind: u32, line: Line) {
    let state = with_pair(base(kind), 1, 4, 8, 2, 2);
    try_state(out, tried, with_line(state, 2, line));
}

fn try_steal_test(out: Stdout, tried: &str, kind: u32, head: u32, count: u32, tag: u32) {
    let read = anchor(head, count, tag);
    try_stealing(out, tried, kind, Line::StealTest { read });
}

fn try_steal_number(out: Stdout, tried: &str, count: u32, place: u32) {
    let read = anchor(0, count, 0);
    let task = numbered(0);
    try_stealing(
        out,
        tried,
        1,
        Line::StealWord {
            read,
            place,
            task,
            word: 0,
        },
    );
}

fn try_steal_word(out: Stdout, tried: &str, number: u32) {
    let read = anchor(0, 1, 0);
    let task = numbered(number);
    try_stealing(
        out,
        tried,
        1,
        Line::StealWord {
            read,
            place: 0,
            task,
            word: 1,
        },
    );
}

fn try_steal_next(out: Stdout, tried: &str, kind: u32) {
    let read = anchor(0, 1, 0);
    let task = task(1);
    try_stealing(out, tried, kind, Line::StealNext { read, task });
}

fn try_compare(out: Stdout, tried: &str, next: u32) {
    let read = anchor(0, 1, 0);
    let task = task(1);
    try_stealing(out, tried, 3, Line::StealCompare { read, next, task });
}

pub fn thieves(out: Stdout) {
    try_line(out, "a thief at a line of take", 1, 1, Line::TakeRead);
    try_line(out, "the last of the crew busy", 1, 2, Line::StealRead);
    try_line(out, "a busy worker outside the crew", 1, 3, Line::StealRead);
}

pub fn reads(out: Stdout) {
    try_steal_test(out, "a thief's tag read of 15", 1, 0, 4, 15);
    try_steal_test(out, "a thief's tag read of 16", 1, 0, 4, 16);
    try_steal_test(out, "FIFO, a thief's head at its tail", 2, 2, 2, 0);
    try_steal_test(out, "FIFO, a thief's head above its tail", 2, 2, 1, 0);
    try_steal_test(out, "FIFO, a thief's tail 5 ahead of its head", 2, 1, 6, 0);
}

pub fn steals(out: Stdout) {
    try_steal_number(out, "a thief's t read 0 past its test for EMPTY", 0, 1);
    try_steal_number(out, "the last slot of the noted array", 2, 0);
    try_steal_number(out, "a slot past the noted array", 3, 0);
    try_steal_number(out, "a noted array that is published", 4, 1);
    try_steal_number(out, "a noted array that is not published", 1, 2);
    try_steal_word(out, "a thief's number read of 65535", 65535);
    try_steal_word(out, "a thief's number read of 65536", 65536);
    try_steal_next(out, "double-ended at figure 3's steal 5", 3);
    try_steal_next(out, "LIFO at figure 3's steal 5", 1);
    try_compare(out, "double-ended, h2 2047", 2047);
    try_compare(out, "double-ended, h2 2048", 2048);
}

// A state of so many payload words, on a directory that was made for others.
fn try_width(out: Stdout, tried: &str, made: u32, words: u32) {
    let mut state = base_of(1, made);
    state.words = words;
    try_state(out, tried, state);
}

// A state of 3 payload words that keeps another first size.
fn try_initial(out: Stdout, tried: &str, size: u32) {
    let mut state = base_of(1, 3);
    let mut queue = state.queue;
    queue.initial = size;
    state.queue = queue;
    try_state(out, tried, state);
}

pub fn widths(out: Stdout) {
    try_width(out, "1 payload word", 1, 1);
    try_width(out, "4 payload words", 4, 4);
    try_width(out, "0 payload words", 1, 0);
    try_width(out, "5 payload words", 4, 5);
    try_width(out, "2 payload words, arrays for 1", 1, 2);
    try_width(out, "1 payload word, arrays for 3", 3, 1);
    try_initial(out, "a first size of 2 kept", 2);
    try_initial(out, "a first size of 1 kept", 1);
    try_initial(out, "a first size of 4 kept", 4);
}

// The owner or a thief at a line with a task of these words, in a state of 3 payload words.
fn try_wide(out: Stdout, tried: &str, worker: usize, line: Line)
    requires { worker < 8 }
{
    try_state(out, tried, with_line(base_of(1, 3), worker, line));
}

fn wide_task(third: u32, fourth: u32) -> Task {
    Task {
        number: 1,
        payload: payload_of(7, 8, third, fourth),
    }
}

fn try_wide_put(out: Stdout, tried: &str, fourth: u32, word: u32) {
    let task = wide_task(9, fourth);
    let read = anchor(0, 0, 0);
    try_wide(out, tried, 0, Line::PutWord { task, read, word });
}

fn try_wide_take(out: Stdout, tried: &str, third: u32, word: u32) {
    let task = wide_task(third, 0);
    let read = anchor(0, 1, 0);
    try_wide(out, tried, 0, Line::TakeWord { read, task, word });
}

fn try_wide_steal(out: Stdout, tried: &str, third: u32, word: u32) {
    let task = wide_task(third, 0);
    let read = anchor(0, 1, 0);
    try_wide(
        out,
        tried,
        1,
        Line::StealWord {
            read,
            place: 0,
            task,
            word,
        },
    );
}

fn try_wide_compare(out: Stdout, tried: &str, fourth: u32) {
    let task = wide_task(9, fourth);
    let read = anchor(0, 1, 0);
    try_wide(
        out,
        tried,
        1,
        Line::StealCompare {
            read,
            next: 0,
            task,
        },
    );
}

pub fn words(out: Stdout) {
    try_wide_put(out, "a put at the last of 3 payload words", 0, 3);
    try_wide_put(out, "a put past the last of 3 payload words", 0, 4);
    try_wide_put(out, "a put with a fourth word of 3", 6, 0);
    try_wide_take(out, "a take at the last of 3 payload words", 0, 3);
    try_wide_take(out, "a take past the last of 3 payload words", 9, 4);
    try_wide_take(out, "a take with a word that is not read yet", 9, 3);
    try_wide_steal(out, "a steal at the last of 3 payload words", 0, 3);
    try_wide_steal(out, "a steal past the last of 3 payload words", 9, 4);
    try_wide_steal(out, "a steal with a word that is not read yet", 9, 3);
    try_wide_compare(out, "a compare with 3 payload words", 0);
    try_wide_compare(out, "a compare with a fourth word of 3", 6);
}

// Lists of calls played through the bench, each call on what the one before left. Calls and answers are words of the caller's
// slices, so that a list needs no type of its own, and a call's operation is a number: any words may come in (`calls_from`).
// Uses `queues`, `answers` and `model`. It is used by `calls`.

#![tactic(auto)]

ghost use Rattle.std.specs.Prelude.{◌≡◌, ◌++◌, ◌+◌, ◌*◌, ◌/◌, ◌≤◌, min, length, drop};
ghost use Rattle.model.specs.Calls.{lent, call_of};
ghost use Rattle.model.specs.Run.{played, after};
ghost use Rattle.queues.specs.Left.{left};
ghost use Rattle.plays.specs.Words.{call_words, call_by, calls_from, answer_words, entered, as_words, all_as_words};

use model::{Answer, Operation, Payload};
use queues::{Bench, Reply};

// The words of a call: operation, worker, and a payload of four words; and of an answer, as wide as the widest entry.
pub const CALL: usize = 6;

pub const ANSWER: usize = 7;

// What a list left: the bench, and how many calls were made.
#[derive(Clone, Copy)]
pub struct Ended {
    pub bench: Bench,
    pub made: usize,
}

// Operation 1 is put, 2 take, 3 steal, 4 a link that fails, 5 a drain, 6 commit, 7 an ask, 8 an ask dropped, and any other number a
// step.
fn call(
    bench: Bench,
    operation: u32,
    worker: u32,
    payload: Payload,
    store: &mut [u32],
    log: &mut [u32],
) -> Reply
    ensures { left result store.new log.new
        ≡ call_of (lent bench.state store.old log.old) (call_by operation worker payload) }
{
    match operation {
        1 => bench.begin(worker, Operation::Put { payload }, store, log),
        2 => bench.begin(worker, Operation::Take, store, log),
        3 => bench.begin(worker, Operation::Steal, store, log),
        4 => bench.drop_link(worker, store, log),
        5 => bench.drain(store, log),
        6 => bench.begin(worker, Operation::Commit, store, log),
        7 => bench.ask(worker, store, log),
        8 => bench.drop_ask(worker, store, log),
        _ => bench.step(worker, store, log),
    }
}

// The log entry of an answer that ends an operation, with four payload words.
fn entered(answer: Answer) -> [u32; 7]
    ensures { result ≡ entered answer }
{
    let entry = queues::entry_of(answer);
    let task = entry.task;
    let payload = task.payload;
    [
        entry.kind,
        entry.worker,
        task.number,
        payload.first,
        payload.second,
        payload.third,
        payload.fourth,
    ]
}

// An answer's words: its log entry; or 0, which of the others it is, and its number.
pub fn words_of(answer: Answer) -> [u32; 7]
    ensures { result ≡ as_words answer }
{
    match answer {
        Answer::GoesOn => [0, 0, 0, 0, 0, 0, 0],
        Answer::Accepted => [0, 1, 0, 0, 0, 0, 0],
        Answer::Numbered { number } => [0, 2, number, 0, 0, 0, 0],
        Answer::Refused { why } => [0, 3, queues::number_of(why), 0, 0, 0, 0],
        Answer::Finished { .. } => entered(answer),
        Answer::HandedOut { .. } => entered(answer),
        Answer::Empty { .. } => entered(answer),
        Answer::Full { .. } => entered(answer),
        Answer::Grown { .. } => entered(answer),
    }
}

// Plays the calls, as many as both slices hold whole, and puts their answers into `answers`.
pub fn play(
    bench: Bench,
    calls: &[u32],
    store: &mut [u32],
    log: &mut [u32],
    answers: &mut [u32],
) -> Ended
    ensures made { result.made ≡ min (length calls.now / call_words) (length answers.old / answer_words) }
    ensures left { lent result.bench.state store.new log.new
        ≡ after (lent bench.state store.old log.old) (calls_from calls.now result.made) }
    ensures answered { answers.new
        ≡ all_as_words (played (lent bench.state store.old log.old) (calls_from calls.now result.made))
        ++ drop (result.made * answer_words) answers.old }
{
    let all = (calls.len() / CALL).min(answers.len() / ANSWER);
    let mut current = bench;
    for made in 0..all {
        let at = made * CALL;
        let to = made * ANSWER;
        let payload = Payload {
            first: calls[at + 2],
            second: calls[at + 3],
            third: calls[at + 4],
            fourth: calls[at + 5],
        };
        let reply = call(current, calls[at], calls[at + 1], payload, store, log);
        answers[to..to + ANSWER].copy_from_slice(&words_of(reply.answer));
        current = reply.bench;
    }
    Ended {
        bench: current,
        made: all,
    }
}

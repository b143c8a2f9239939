// A bench alone: what a line asks of it.
use crate::output::Output;
use call_text::{Act, Call, Request};
use model::{Operation, Payload};
use queues::Bench;
use streams::Failure;

// So many calls are made at once.
const MANY: usize = 32;

const NO_PAYLOAD: Payload = Payload {
    first: 0,
    second: 0,
    third: 0,
    fourth: 0,
};

// A call's words, as `plays` has them: operation, worker and payload.
fn words_of(call: Call) -> [u32; plays::CALL] {
    let (operation, payload) = match call.act {
        Act::Step => (0, NO_PAYLOAD),
        Act::Begin { operation } => match operation {
            Operation::Put { payload } => (1, payload),
            Operation::Take => (2, NO_PAYLOAD),
            Operation::Steal => (3, NO_PAYLOAD),
            Operation::Commit => (6, NO_PAYLOAD),
        },
        Act::DropLink => (4, NO_PAYLOAD),
        Act::Drain => (5, NO_PAYLOAD),
        Act::Ask => (7, NO_PAYLOAD),
        Act::DropAsk => (8, NO_PAYLOAD),
    };
    [
        operation,
        call.worker,
        payload.first,
        payload.second,
        payload.third,
        payload.fourth,
    ]
}

// Makes up to 32 calls.
fn make_some(
    bench: &mut Bench,
    calls: &[u32],
    store: &mut [u32],
    log: &mut [u32],
    out: &mut Output,
) -> Result<(), Failure> {
    let mut answers = [0u32; MANY * plays::ANSWER];
    let run = plays::play(*bench, calls, store, log, &mut answers);
    *bench = run.bench;
    let words = bench.state.words;
    for answer in answers.chunks_exact(plays::ANSWER).take(run.made) {
        out.answer(words, answer)?;
    }
    Ok(())
}

// Makes a call so many times, some at once: memory does not grow with their number.
fn make_calls(
    bench: &mut Bench,
    call: Call,
    times: usize,
    store: &mut [u32],
    log: &mut [u32],
    out: &mut Output,
) -> Result<(), Failure> {
    let words = words_of(call);
    let mut calls = [0u32; MANY * plays::CALL];
    for place in calls.chunks_exact_mut(plays::CALL).take(times) {
        place.copy_from_slice(&words);
    }
    for _ in 0..times / MANY {
        make_some(bench, &calls, store, log, out)?;
    }
    let rest = times % MANY * plays::CALL;
    if 0 < rest {
        make_some(bench, &calls[..rest], store, log, out)?;
    }
    Ok(())
}

// Asks the bench, on the words that it is lent.
pub fn ask(
    bench: &mut Bench,
    asked: Request,
    store: &mut [u32],
    log: &mut [u32],
    out: &mut Output,
) -> Result<(), Failure> {
    match asked {
        Request::Front => out.front(bench.front(log)),
        Request::Who { worker } => out.tally(worker, bench.who(worker, store, log)),
        Request::State => out.state(&bench.state, store),
        Request::Calls { call, times } => make_calls(bench, call, times as usize, store, log, out),
    }
}

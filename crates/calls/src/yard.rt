// The queues of a yard: the making of one, and what a line asks of one.
use crate::output::Output;
use call_text::{Act, Call, Request};
use model::Setup;
use queues::{Yard, YardReply};
use streams::Failure;

// The answer to a number that no queue has.
const NO_SUCH_QUEUE: u32 = 24;

// Makes one more queue, if it is not refused.
pub fn make(
    yard: &mut Yard,
    setup: Setup,
    quota: Option<u32>,
    store: &mut [u32],
    out: &mut Output,
) -> Result<(), Failure> {
    let made = match quota {
        None => yard.make(setup, store),
        Some(words) => yard.make_within(setup, words, store),
    };
    *yard = made.yard;
    out.reply(setup.words, made.answer)
}

fn call_queue(yard: Yard, queue: u32, call: Call, store: &mut [u32], log: &mut [u32]) -> YardReply {
    let worker = call.worker;
    match call.act {
        Act::Step => yard.step(queue, worker, store, log),
        Act::Begin { operation } => yard.begin(queue, worker, operation, store, log),
        Act::DropLink => yard.drop_link(queue, worker, store, log),
        Act::Drain => yard.drain(queue, store, log),
        Act::Ask => yard.ask(queue, worker, store, log),
        Act::DropAsk => yard.drop_ask(queue, worker, store, log),
    }
}

// A queue's state; of a number above 3 any.
fn state_of(yard: &Yard, queue: u32) -> &model::Bench {
    &yard.state.plots[(queue as usize).min(3)].bench
}

// Asks a queue, on the words that it is lent.
pub fn ask(
    yard: &mut Yard,
    queue: u32,
    asked: Request,
    store: &mut [u32],
    log: &mut [u32],
    out: &mut Output,
) -> Result<(), Failure> {
    let missing = yard.state.made <= queue;
    match asked {
        Request::Front | Request::State if missing => out.refusal(NO_SUCH_QUEUE),
        Request::Front => out.front(yard.front(queue, log)),
        Request::State => out.state(state_of(yard, queue), store),
        Request::Who { worker } => out.tally(worker, yard.who(queue, worker, store, log)),
        Request::Calls { call, times } => {
            let words = state_of(yard, queue).words;
            for _ in 0..times {
                let reply = call_queue(*yard, queue, call, store, log);
                *yard = reply.yard;
                out.reply(words, reply.answer)?;
            }
            Ok(())
        }
    }
}

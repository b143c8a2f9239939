// The calls that open something: fresh a bench, begin an operation. Fresh zeroes the store's first words once nothing is left to
// refuse; a begin writes nothing. What ends in `_in` is a call past refusal 12.
// Uses `model`, `tasks`, `slots`, `stages`, `admission`, `limits`, `memory` and `state`. It is used by `queues` and `replies`.

#![tactic(auto, using(model::proofs::Tests::tests))]

ghost use Rattle.std.specs.Prelude.{◌≡◌, List, ℕ, ◌≤◌, ◌<◌, Ok, Err};
ghost use Rattle.model.specs.declared.Answer.TheVariants.{Refused};
ghost use Rattle.model.specs.Calls.{no_bench, new_bench, first_length, admitted, lent, fresh_of, begun, begin_in, begin_of};
ghost use Rattle.state.specs.Outcomes.{returned};
ghost use Rattle.opening.specs.Begins.{BeginStops};

use model::{Answer, Bench, Growth, Line, Operation, Refusal, Setup, Task};
use state::Returned;

// A refused fresh makes no bench: its state is one that every call refuses.
fn unmade(why: Refusal) -> Returned
    ensures { result ≡ record { bench = no_bench; answer = Refused why } }
{
    state::refused(state::none(), why)
}

// The words of a bench's first array.
pub fn first_length(setup: Setup) -> u32
    requires { (setup.size ≤ 1024) × (setup.words ≤ 4) }
    ensures { result ≡ first_length setup }
{
    (setup.words + 1) * setup.size
}

// Whether no bench is made as it is told, where `left` words are left for its first array: refusals 1 to 4, 16 and 5. The answer
// says what any outcome is that begins with these refusals.
pub fn admission_stop(setup: Setup, left: u32) -> Result<(), Refusal>
    ensures { result ≡ admitted setup left (λ w. Err w) (Ok tt) }
{
    if !admission::kind_ok(setup.kind) {
        return Err(Refusal::UnknownQueue);
    }
    if !admission::width_ok(setup.width) {
        return Err(Refusal::TagWidth);
    }
    if !admission::is_size(setup.size) {
        return Err(Refusal::ArraySize);
    }
    if !admission::crew_ok(setup.crew) {
        return Err(Refusal::Crew);
    }
    if !admission::words_ok(setup.words) {
        return Err(Refusal::PayloadWords);
    }
    if left < first_length(setup) {
        return Err(Refusal::ShortStore);
    }
    Ok(())
}

// A bench as it is told, with its first array at word `offset` of the store.
pub fn new_bench(offset: u32, setup: Setup) -> Bench
    requires { (setup.size ≤ 1024) × (setup.words ≤ 4) }
    ensures { result ≡ new_bench offset setup }
{
    let kind = admission::kind_of(setup.kind);
    let linked = admission::linked_of(setup.kind);
    state::made(
        offset,
        kind,
        linked,
        setup.width,
        setup.size,
        setup.crew,
        setup.words,
        setup.delayed,
    )
}

pub fn fresh(setup: Setup, store: &mut [u32]) -> Returned
    ensures { (l : List ℕ) → returned result store.new l ≡ fresh_of setup store.old l }
{
    let left = slots::usable(store);
    let stop = admission_stop(setup, left);
    if let Err(why) = stop {
        return unmade(why);
    }
    let long = first_length(setup) as usize;
    memory::zero(store, 0, long);
    Returned {
        bench: new_bench(0, setup),
        answer: Answer::Accepted,
    }
}

// An accepted begin: a put uses the next number.
fn accept(bench: Bench, worker: u32, operation: Operation) -> Returned
    requires worker_bound { worker < 8 }
    requires used_bound { bench.used ≤ 65535 }
    requires words_nonzero { (0 < bench.words) × (bench.words ≤ 4) }
    ensures { (m l : List ℕ) → returned result m l ≡ begun (lent bench m l) worker operation }
{
    let i = worker as usize;
    let used = bench.used;
    match operation {
        Operation::Put { payload } => {
            let number = used + 1;
            let whole = Task { number, payload };
            let task = tasks::cut(whole, bench.words);
            Returned {
                bench: state::opens(bench, i, number, Line::PutRead { task }),
                answer: Answer::Numbered { number },
            }
        }
        Operation::Take => Returned {
            bench: state::opens(bench, i, used, Line::TakeRead),
            answer: Answer::Accepted,
        },
        Operation::Steal => Returned {
            bench: state::opens(bench, i, used, Line::StealRead),
            answer: Answer::Accepted,
        },
        Operation::Commit => Returned {
            bench: state::opens(
                bench,
                i,
                used,
                Line::Claim {
                    why: Growth::ForCommit,
                },
            ),
            answer: Answer::Accepted,
        },
    }
}

// begin's refusals past 12, in their order.
pub fn begin_stop(bench: Bench, worker: u32, operation: Operation) -> Result<(), Refusal>
    requires { bench.crew ≤ 8 }
    ensures { (m l : List ℕ) → BeginStops (lent bench m l) worker operation result }
{
    if bench.crew <= worker {
        return Err(Refusal::NoSuchWorker);
    }
    if !admission::right_hand(worker, operation) {
        return Err(Refusal::WrongHand);
    }
    let i = worker as usize;
    let own = bench.workers[i];
    let line = own.line;
    if !stages::is_idle(line) {
        return Err(Refusal::BusyWorker);
    }
    if !admission::numbers_left(operation, bench.used) {
        return Err(Refusal::NumbersSpent);
    }
    if !admission::asked(operation, bench.aside) {
        return Err(Refusal::NoAsk);
    }
    Ok(())
}

pub fn begin_in(bench: Bench, worker: u32, operation: Operation) -> Returned
    requires crew_bound { bench.crew ≤ 8 }
    requires used_bound { bench.used ≤ 65535 }
    requires words_nonzero { (0 < bench.words) × (bench.words ≤ 4) }
    ensures { (m l : List ℕ) → returned result m l ≡ begin_in (lent bench m l) worker operation }
{
    let stop = begin_stop(bench, worker, operation);
    if let Err(why) = stop {
        return state::refused(bench, why);
    }
    accept(bench, worker, operation)
}

// `begin_in` is written out here: a function between would copy the state once more.
pub fn begin(
    bench: Bench,
    worker: u32,
    operation: Operation,
    store: &[u32],
    log: &[u32],
) -> Returned
    ensures { returned result store.now log.now ≡ begin_of (lent bench store.now log.now) worker operation }
{
    if !limits::valid(bench, store, log) {
        return state::refused(bench, Refusal::ForeignState);
    }
    let stop = begin_stop(bench, worker, operation);
    if let Err(why) = stop {
        return state::refused(bench, why);
    }
    accept(bench, worker, operation)
}

// A step of any worker past the test of the limits, on a whole bench, where X1 finds a room: for a queue among several. A lone
// bench's step is `queues`' own, on the same functions: it makes most steps in place, and another function between would copy the state
// once more (docs/DECISIONS.md, 99, has what was tried and the figures).
// Uses `model`, `limits` (in proofs), `state`, `waiting`, `machine` and `owner`. It is used by `yard_calls` and `queues`.

#![tactic(auto)]

ghost use Rattle.std.specs.Prelude.{◌≡◌, eqb};
ghost use Rattle.model.specs.Tests.{◌and◌};
ghost use Rattle.model.specs.Limits.{Within};
ghost use Rattle.model.specs.Calls.{lent, step_in};
ghost use Rattle.state.specs.Outcomes.{returned};

use model::{Bench, Room};
use state::Returned;

// The step is the owner's, and its stores are delayed.
pub fn delays(delayed: bool, worker: u32) -> bool
    ensures { result ≡ (delayed and eqb worker 0) }
{
    if delayed {
        return worker == 0;
    }
    false
}

// One line of a worker's operation.
pub fn step(room: Room, bench: Bench, worker: u32, store: &mut [u32], log: &mut [u32]) -> Returned
    requires { Within room (lent bench store.old log.old) }
    ensures { returned result store.new log.new ≡ step_in room (lent bench store.old log.old) worker }
{
    let i = machine::place_of(worker);
    let own = bench.workers[i];
    let line = own.line;
    let kind = bench.kind;
    let joins = delays(bench.delayed, worker);
    // The owner with delayed stores reads memory with its waiting stores put down.
    let mut queue = bench.queue;
    let mut kept = [0u32; 8];
    if joins {
        queue = waiting::seen(bench.queue, bench.waiting);
        kept = waiting::put_down(bench.words, bench.queue, bench.waiting, store);
    }
    let moved = machine::step_in(
        room,
        kind,
        bench.width,
        bench.words,
        bench.crew,
        queue,
        bench.written,
        worker,
        line,
        joins,
        store,
        log,
    );
    let to = moved.line;
    let made = moved.made;
    if joins {
        return owner::finish(bench, to, made, kept, store, log);
    }
    machine::settled(bench, i, to, made)
}

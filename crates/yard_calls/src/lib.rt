// The calls of a yard, several queues over one store: making one, and a call of one of them, past whose refusals 12 and 24 it is the
// queue's own. The other queues' logs are not lent: a contract holds for every list of logs that has the lent one in its place.
// Uses `model`, `slots`, `limits` (in proofs), `memory`, `state`, `opening`, `events`, `plots` and `steps`. It is used by `queues`.

#![tactic(auto, using(model::proofs::Tests::tests))]

ghost use Rattle.std.specs.Prelude.{List, [], ◌≡◌, ℕ, ◌<◌, get_or, set, Ok, Err};
ghost use Rattle.model.specs.Calls.{begin, step, drop_link, drain, ask, drop_ask};
ghost use Rattle.model.specs.Yard.{bench_at, on_of, make_of, who_at, front_at, bare};
ghost use Rattle.model.specs.declared.Refusal.{Refusal};
ghost use Rattle.state.specs.declared.Returned.{Returned};
ghost use Rattle.plots.specs.Places.{the_ground};
ghost use Rattle.yard_calls.specs.Yielding.{yielded, stopped, back_in, with_one, refused_in, makes};

use model::{Answer, Bench, Operation, Plot, Refusal, Setup, Yard};
use state::Returned;

// What a call hands back: the next yard, and the answer.
#[derive(Clone, Copy)]
pub struct Yielded {
    pub yard: Yard,
    pub answer: Answer,
}

// A yard without queues.
pub fn bare() -> Yard
    ensures { result ≡ bare }
{
    let none = Plot {
        bench: state::none(),
        quota: 0,
    };
    Yard {
        plots: [none; 4],
        made: 0,
    }
}

// A refusal hands the yard back as it came in.
fn refused(yard: Yard, why: Refusal) -> Yielded
    ensures { result ≡ refused_in yard why }
{
    Yielded {
        yard,
        answer: Answer::Refused { why },
    }
}

// The queue's own call is over: its state goes back to its place.
fn put_back(yard: Yard, queue: u32, reply: Returned) -> Yielded
    requires { queue < 4 }
    ensures { result ≡ back_in yard queue reply }
{
    let answer = reply.answer;
    let mut next = yard;
    next.plots[queue as usize].bench = reply.bench;
    Yielded { yard: next, answer }
}

// The next place gets a queue.
fn add(yard: Yard, bench: Bench, quota: u32) -> Yielded
    requires { yard.made < 4 }
    ensures { result ≡ with_one yard bench quota }
{
    let mut next = yard;
    next.plots[yard.made as usize] = Plot { bench, quota };
    next.made += 1;
    Yielded {
        yard: next,
        answer: Answer::Accepted,
    }
}

// Whether no queue is made as it is told: refusals 12, 24, 1 to 4, 16, 5 and 23.
fn make_stop(yard: Yard, setup: Setup, quota: u32, store: &[u32]) -> Result<(), Refusal>
    ensures { result ≡ makes yard setup quota store.now (λ w. Err w) (Ok tt) }
{
    if !plots::sound(yard, store) {
        return Err(Refusal::ForeignState);
    }
    if 4 <= yard.made {
        return Err(Refusal::NoSuchQueue);
    }
    let room = plots::room_left(yard, store);
    opening::admission_stop(setup, room.left)?;
    if quota < opening::first_length(setup) {
        return Err(Refusal::ShortQuota);
    }
    Ok(())
}

// A queue more, as it is told, within a quota of words. Its first array is the next free words, and they are zeroed. It is the
// caller who keeps the logs, and lends the queue one.
pub fn make(yard: Yard, setup: Setup, quota: u32, store: &mut [u32]) -> Yielded
    ensures { (ls : List (List ℕ)) (l : List ℕ) → yielded result store.new (make_of (the_ground yard store.old ls) setup quota l).the_ground.logs ≡ make_of (the_ground yard store.old ls) setup quota l }
{
    let stop = make_stop(yard, setup, quota, store);
    if let Err(why) = stop {
        return refused(yard, why);
    }
    let room = plots::room_left(yard, store);
    let long = opening::first_length(setup) as usize;
    memory::zero(store, room.next as usize, long);
    add(yard, opening::new_bench(room.next, setup), quota)
}

// A call that writes no memory: it is refused, or it is the queue's own call of its bench, whose state goes back to its plot.
fn on<F: FnOnce(Bench) -> Returned>(
    yard: Yard,
    queue: u32,
    store: &[u32],
    log: &[u32],
    call: F,
) -> Yielded
    requires { stopped yard queue store.now log.now ≡ Ok tt → F.pre call (bench_at yard queue) }
    ensures refused { (w : Refusal) → stopped yard queue store.now log.now ≡ Err w → result ≡ refused_in yard w }
    ensures called { stopped yard queue store.now log.now ≡ Ok tt → (d : Returned) × F.post call (bench_at yard queue) d × (result ≡ back_in yard queue d) }
{
    match plots::stop(yard, queue, store, log) {
        Ok(()) => put_back(yard, queue, call(plots::bench_at(yard, queue))),
        Err(why) => refused(yard, why),
    }
}

pub fn begin(
    yard: Yard,
    queue: u32,
    worker: u32,
    operation: Operation,
    store: &[u32],
    log: &[u32],
) -> Yielded
    ensures { (ls : List (List ℕ)) → get_or ls queue [] ≡ log.now → yielded result store.now (set ls queue log.now) ≡ on_of (the_ground yard store.now ls) queue (begin worker operation) }
{
    on(
        yard,
        queue,
        store,
        log,
        |bench| opening::begin_in(bench, worker, operation),
    )
}

// `step` and `drain` write memory, and test for themselves: no contract can say of a closure which was not called that the store
// it borrows is as it was, as a refusal has to.
pub fn step(yard: Yard, queue: u32, worker: u32, store: &mut [u32], log: &mut [u32]) -> Yielded
    ensures { (ls : List (List ℕ)) → get_or ls queue [] ≡ log.old → yielded result store.new (set ls queue log.new) ≡ on_of (the_ground yard store.old ls) queue (step worker) }
{
    let stop = plots::stop(yard, queue, store, log);
    if let Err(why) = stop {
        return refused(yard, why);
    }
    let room = plots::room_of(yard, queue, store);
    let bench = plots::bench_at(yard, queue);
    put_back(yard, queue, steps::step(room, bench, worker, store, log))
}

pub fn drop_link(yard: Yard, queue: u32, worker: u32, store: &[u32], log: &[u32]) -> Yielded
    ensures { (ls : List (List ℕ)) → get_or ls queue [] ≡ log.now → yielded result store.now (set ls queue log.now) ≡ on_of (the_ground yard store.now ls) queue (drop_link worker) }
{
    on(
        yard,
        queue,
        store,
        log,
        |bench| events::drop_link_in(bench, worker),
    )
}

pub fn drain(yard: Yard, queue: u32, store: &mut [u32], log: &[u32]) -> Yielded
    ensures { (ls : List (List ℕ)) → get_or ls queue [] ≡ log.now → yielded result store.new (set ls queue log.now) ≡ on_of (the_ground yard store.old ls) queue drain }
{
    let stop = plots::stop(yard, queue, store, log);
    if let Err(why) = stop {
        return refused(yard, why);
    }
    let bench = plots::bench_at(yard, queue);
    put_back(yard, queue, events::drain_in(bench, store))
}

pub fn ask(yard: Yard, queue: u32, worker: u32, store: &[u32], log: &[u32]) -> Yielded
    ensures { (ls : List (List ℕ)) → get_or ls queue [] ≡ log.now → yielded result store.now (set ls queue log.now) ≡ on_of (the_ground yard store.now ls) queue (ask worker) }
{
    on(yard, queue, store, log, |bench| {
        let room = plots::room_of(yard, queue, store);
        events::ask_in(room, bench, worker)
    })
}

pub fn drop_ask(yard: Yard, queue: u32, worker: u32, store: &[u32], log: &[u32]) -> Yielded
    ensures { (ls : List (List ℕ)) → get_or ls queue [] ≡ log.now → yielded result store.now (set ls queue log.now) ≡ on_of (the_ground yard store.now ls) queue (drop_ask worker) }
{
    on(
        yard,
        queue,
        store,
        log,
        |bench| events::drop_ask_in(bench, worker),
    )
}

// A worker's restarts. Nothing changes.
pub fn tally(
    yard: Yard,
    queue: u32,
    worker: u32,
    store: &[u32],
    log: &[u32],
) -> Result<u32, Refusal>
    ensures { (ls : List (List ℕ)) → get_or ls queue [] ≡ log.now → result ≡ who_at (the_ground yard store.now ls) queue worker }
{
    plots::stop(yard, queue, store, log)?;
    events::tally_in(plots::bench_at(yard, queue), worker)
}

// The written front of a queue's log, a part of the caller's slice; of a queue that is not made, nothing.
pub fn front(yard: Yard, queue: u32, log: &[u32]) -> &[u32]
    ensures { (m : List ℕ) (ls : List (List ℕ)) → get_or ls queue [] ≡ log.now → result.now ≡ front_at (the_ground yard m ls) queue }
{
    // A foreign yard may say that more than four are made.
    if yard.made <= queue || 4 <= queue {
        return &log[..0];
    }
    memory::front(plots::bench_at(yard, queue), log)
}

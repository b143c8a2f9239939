// What happens to a bench beside begins and steps: a thief's link fails for no reason, the owner's oldest waiting store reaches
// memory, an idle owner asks for growth or drops its ask, and a worker's restarts are asked for. What ends in `_in` is a call past
// refusal 12; a lone queue's call tests the limits and goes on there. Each such call writes its test out: `drain` lends its store to
// what follows to be written, and `tally` answers a `Result`, so a function that takes what follows as a closure would need a form
// for each, and a contract longer than the test.
// Uses `model`, `stages`, `slots`, `limits`, `waiting` and `state`. It is used by `queues` and `replies`.

#![tactic(auto)]

ghost use Rattle.std.specs.Prelude.{true, List, [], ◌≡◌, ℕ, ◌≤◌, length};
ghost use Rattle.model.specs.Stores.{taken};
ghost use Rattle.model.specs.World.{owners_view};
ghost use Rattle.model.specs.Limits.{bench_ok};
ghost use Rattle.model.specs.Calls.{lent, set_aside, ask_in, ask_of, drop_ask_in, drop_ask_of, drop_link_in, drop_link_of, drain_in, drain_of, who_in, who_of};
ghost use Rattle.state.specs.Outcomes.{returned};
ghost use Rattle.events.specs.Idling.{Limited, OwnerStops};

use model::{Answer, Bench, Refusal, Room};
use state::Returned;

// Worker `worker`'s link fails: refusals 6 and 17.
pub fn drop_link_in(bench: Bench, worker: u32) -> Returned
    requires { bench.crew ≤ 8 }
    ensures { (m l : List ℕ) → returned result m l ≡ drop_link_in (lent bench m l) worker }
{
    if bench.crew <= worker {
        return state::refused(bench, Refusal::NoSuchWorker);
    }
    let i = worker as usize;
    let queue = bench.queue;
    if !queue.links[i] {
        return state::refused(bench, Refusal::NoLink);
    }
    let mut next = bench;
    next.queue = state::with_link(queue, i, false);
    Returned {
        bench: next,
        answer: Answer::Accepted,
    }
}

pub fn drop_link(bench: Bench, worker: u32, store: &[u32], log: &[u32]) -> Returned
    ensures { returned result store.now log.now ≡ drop_link_of (lent bench store.now log.now) worker }
{
    if !limits::valid(bench, store, log) {
        return state::refused(bench, Refusal::ForeignState);
    }
    drop_link_in(bench, worker)
}

// The oldest waiting store lands, in a store that has the arrays: refusal 19.
pub fn drain_in(bench: Bench, store: &mut [u32]) -> Returned
    requires store_value { bench_ok bench bench.queue (owners_view (lent bench store.old [])).queue ≡ true }
    requires queue_in_bounds { taken bench.queue ≤ length store.old }
    ensures { (l : List ℕ) → returned result store.new l ≡ drain_in (lent bench store.old l) }
{
    let line = bench.waiting;
    if line.count == 0 {
        return state::refused(bench, Refusal::NoneWaiting);
    }
    let landing = waiting::oldest(line);
    let queue = bench.queue;
    waiting::write(bench.words, queue, landing, store);
    let mut next = bench;
    next.queue = waiting::after(queue, landing);
    next.waiting = waiting::one_less(line);
    Returned {
        bench: next,
        answer: Answer::Accepted,
    }
}

pub fn drain(bench: Bench, store: &mut [u32], log: &[u32]) -> Returned
    ensures { returned result store.new log.now ≡ drain_of (lent bench store.old log.now) }
{
    if !limits::valid(bench, store, log) {
        return state::refused(bench, Refusal::ForeignState);
    }
    drain_in(bench, store)
}

// What an idle owner may do at once: refusals 6, 9 and 7.
fn owner_stop(bench: Bench, worker: u32) -> Result<(), Refusal>
    ensures { (m l : List ℕ) → OwnerStops (lent bench m l) worker result }
{
    if bench.crew <= worker {
        return Err(Refusal::NoSuchWorker);
    }
    if worker != 0 {
        return Err(Refusal::WrongHand);
    }
    let own = bench.workers[0];
    let line = own.line;
    if !stages::is_idle(line) {
        return Err(Refusal::BusyWorker);
    }
    Ok(())
}

fn set_aside(bench: Bench, words: u32) -> Returned
    ensures { (m l : List ℕ) → returned result m l ≡ set_aside (lent bench m l) words }
{
    let mut next = bench;
    next.aside = words;
    Returned {
        bench: next,
        answer: Answer::Accepted,
    }
}

// The words of an array of twice the size of the one that the owner reads are set aside, where X1 finds room for it: refusals
// 6, 9, 7, 21 and 20.
pub fn ask_in(room: Room, bench: Bench, worker: u32) -> Returned
    requires { Limited bench }
    ensures { (m l : List ℕ) → returned result m l ≡ ask_in room (lent bench m l) worker }
{
    let stop = owner_stop(bench, worker);
    if let Err(why) = stop {
        return state::refused(bench, why);
    }
    if bench.aside != 0 {
        return state::refused(bench, Refusal::AskStands);
    }
    let line = bench.waiting;
    let memory = bench.queue;
    let queue = waiting::seen(memory, line);
    if !slots::has_room(queue, room.left) {
        return state::refused(bench, Refusal::NoSpace);
    }
    let here = queue.published - 1;
    let at = here as usize;
    let more = slots::twice_as_long(queue, at);
    set_aside(bench, more)
}

pub fn ask(bench: Bench, worker: u32, store: &[u32], log: &[u32]) -> Returned
    ensures { returned result store.now log.now ≡ ask_of (lent bench store.now log.now) worker }
{
    if !limits::valid(bench, store, log) {
        return state::refused(bench, Refusal::ForeignState);
    }
    let queue = bench.queue;
    let room = slots::room_alone(queue, store);
    ask_in(room, bench, worker)
}

// They are given back: refusals 6, 9, 7 and 22.
pub fn drop_ask_in(bench: Bench, worker: u32) -> Returned
    ensures { (m l : List ℕ) → returned result m l ≡ drop_ask_in (lent bench m l) worker }
{
    let stop = owner_stop(bench, worker);
    if let Err(why) = stop {
        return state::refused(bench, why);
    }
    let words = bench.aside;
    if words == 0 {
        return state::refused(bench, Refusal::NoAsk);
    }
    set_aside(bench, 0)
}

pub fn drop_ask(bench: Bench, worker: u32, store: &[u32], log: &[u32]) -> Returned
    ensures { returned result store.now log.now ≡ drop_ask_of (lent bench store.now log.now) worker }
{
    if !limits::valid(bench, store, log) {
        return state::refused(bench, Refusal::ForeignState);
    }
    drop_ask_in(bench, worker)
}

// Worker `worker`'s restarts: refusal 6.
pub fn tally_in(bench: Bench, worker: u32) -> Result<u32, Refusal>
    requires { bench.crew ≤ 8 }
    ensures { (m l : List ℕ) → result ≡ who_in (lent bench m l) worker }
{
    if worker < bench.crew {
        Ok(bench.restarts[worker as usize])
    } else {
        Err(Refusal::NoSuchWorker)
    }
}

pub fn tally(bench: Bench, worker: u32, store: &[u32], log: &[u32]) -> Result<u32, Refusal>
    ensures { result ≡ who_of (lent bench store.now log.now) worker }
{
    if !limits::valid(bench, store, log) {
        return Err(Refusal::ForeignState);
    }
    tally_in(bench, worker)
}

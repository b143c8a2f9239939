// A step past the test of the limits. `step_in` is handed what a step reads of the state, and answers what the step leaves of it:
// the line that its worker is at, and what it did beside. The stores of a thief, and of the owner while they are not delayed,
// land at once, and the entry is logged; where they are delayed, `owner` finishes the step. A caller that keeps its bench in a
// local can so replace the one record that most steps change; `settled` has the other steps.
// Uses `model`, `answers`, `stages`, `anchors`, `slots`, `lines`, `memory` and `state`. It is used by `owner`, `steps`,
// `queues` and `listing`.

#![tactic(auto, using(model::proofs::Tests::tests))]

ghost use Rattle.std.specs.Prelude.{◌≡◌, Bool, true, false, not, List, ℕ, ◌≤◌, ◌<◌, length};
ghost use Rattle.model.specs.declared.Room.{Room};
ghost use Rattle.model.specs.declared.Waiting.{Waiting};
ghost use Rattle.model.specs.declared.Worker.{Worker};
ghost use Rattle.model.specs.Tests.{◌and◌};
ghost use Rattle.model.specs.Stores.{shared, landed};
ghost use Rattle.model.specs.World.{line_at, is_steal1};
ghost use Rattle.model.specs.Calls.{lent, raised, log_full, step_in};
ghost use Rattle.slots.specs.Bounds.{Wide};
ghost use Rattle.lines.specs.Actions.{PlacedIn, Lands, Doable};
ghost use Rattle.machine.specs.Steps.{
  bench_of,
  AtOnce,
  moves,
  with_array,
  bench_after,
  answer_after,
  moved_by,
  log_by,
  left_by,
  made_by,
  acted_by,
  log_after,
  concluded_by,
  Fits,
  Steppable,
  PlannedBy,
};

use lines::Action;
use model::{Anchor, Answer, Bench, Kind, Line, Queue, Refusal, Region, Room, Store, Worker};
use state::Returned;

// What a step did beside moving its worker on: nothing that changes the state; it was refused; its compare failed; it linked the
// anchor; it claimed an array or published it; or it ended its operation, with the anchor as it is or another one, and logged its
// entry; or it did so and published the claimed array, at X4 of a commit. Or nothing is done yet: the step's action waits for a caller that lets its stores join the waiting line.
#[derive(Clone, Copy)]
pub enum Made {
    Nothing,
    Refused { why: Refusal },
    Fails,
    Links,
    Claims { offset: u32, length: u32 },
    Publishes,
    Stops { answer: Answer },
    Ends { anchor: Anchor, answer: Answer },
    Grows { answer: Answer },
    Waits { action: Action },
}

// What a step leaves: the line that its worker is at, and what it did beside.
#[derive(Clone, Copy)]
pub struct Moved {
    pub line: Line,
    pub made: Made,
}

// Logs an answer's entry behind `written` words, and answers whether the log had room for it.
pub fn log_answer(words: u32, written: u32, answer: Answer, log: &mut [u32]) -> bool
    requires { Wide words }
    ensures value { result ≡ not (log_full words log.old written) }
    ensures log_after { log.new ≡ log_by words written log.old answer }
{
    if !memory::has_room(written, words, log) {
        return false;
    }
    let entry = answers::entry_of(answer);
    memory::write_entry(log, written as usize, words, entry);
    true
}

// Lands a store that ends no operation: a task's word is written, and the note of the current array is the state's.
fn land(words: u32, queue: Queue, landing: Store, store: &mut [u32]) -> Made
    requires wide { Wide words }
    requires lands { Lands words queue (length store.old) landing }
    ensures value { result ≡ made_by landing }
    ensures store_after { store.new ≡ (landed words (shared queue store.old) landing).store }
{
    match landing {
        Store::StoreWord {
            place,
            slot,
            word,
            value,
        } => {
            let at = slots::address(words, queue, place as usize, slot, word);
            store[at] = value;
            Made::Nothing
        }
        Store::StoreNote { .. } => Made::Publishes,
        Store::StorePut { .. } => Made::Nothing,
        Store::StoreOut { .. } => Made::Nothing,
        Store::StoreHead { .. } => Made::Nothing,
        Store::StoreTail { .. } => Made::Nothing,
    }
}

// The last store of an operation, landed: the anchor is another one, or the claimed array is published.
fn concluded(anchor: Anchor, landing: Store, answer: Answer) -> Made
    ensures { result ≡ concluded_by anchor landing answer }
{
    let left = anchors::after_store(anchor, landing);
    if let Store::StoreNote { .. } = landing {
        return Made::Grows { answer };
    }
    Made::Ends {
        anchor: left,
        answer,
    }
}

// Carries an action out: its stores land at once.
fn act(
    words: u32,
    written: u32,
    queue: Queue,
    action: Action,
    store: &mut [u32],
    log: &mut [u32],
) -> Made
    requires wide { Wide words }
    requires doable { Doable words queue (length store.old) action }
    ensures value { result ≡ acted_by words written log.old queue action }
    ensures store_after { (ρ : Room) → PlacedIn ρ action → store.new ≡ (left_by ρ words (shared queue store.old) action).store }
    ensures log_after { log.new ≡ log_after words written log.old action }
{
    match action {
        Action::Nothing => Made::Nothing,
        Action::Fails => Made::Fails,
        Action::Stores { store: landing } => land(words, queue, landing, store),
        Action::Copies { place, slot, task } => {
            let at = slots::address(words, queue, place as usize, slot, 0);
            memory::write_task(store, at, words, task);
            Made::Nothing
        }
        Action::Claims { offset, length } => {
            memory::zero(store, offset as usize, length as usize);
            Made::Claims { offset, length }
        }
        Action::Stops { answer } => {
            if log_answer(words, written, answer, log) {
                Made::Stops { answer }
            } else {
                Made::Refused {
                    why: Refusal::LogFull,
                }
            }
        }
        Action::Ends {
            store: landing,
            answer,
        } => {
            let ended = concluded(queue.anchor, landing, answer);
            if log_answer(words, written, answer, log) {
                ended
            } else {
                Made::Refused {
                    why: Refusal::LogFull,
                }
            }
        }
    }
}

// The line links: line 1 of a steal, in a linked queue.
fn links(linked: bool, line: Line) -> bool
    ensures { result ≡ (linked and is_steal1 line) }
{
    if !linked {
        return false;
    }
    stages::stage(line) == 4
}

// A step of a worker that is at `line` and reads `queue` and the store, past the test of the limits: refusals 6 and 8, then the
// line, where X1 finds `room`. Its stores land at once, and it is committed or refused 11; or, where they are to join the waiting line, its action is
// handed back and nothing is done. Both go through this one function: a compiler then has one place for the line's code. What it reads
// is told part by part: a caller keeps its bench in place, and a struct of these parts would be a second one, copied at each step.
pub fn step_in(
    room: Room,
    kind: Kind,
    width: u32,
    words: u32,
    crew: u32,
    queue: Queue,
    written: u32,
    worker: u32,
    line: Line,
    joins: bool,
    store: &mut [u32],
    log: &mut [u32],
) -> Moved
    requires { Steppable room kind width words crew queue (length store.old) worker line }
    ensures fits { Fits words queue written result.made }
    ensures log_after { joins ≡ false
        → (d : Bool) (s : Waiting) (o u k : ℕ) (n : List ℕ) (ws : List Worker) → AtOnce d s worker → (worker < 8 → k ≡ worker) → line_at ws k ≡ line
        → moved_by (bench_of kind width words crew queue written d s o u n ws) k result.line result.made store.new log.new
        ≡ step_in room (lent (bench_of kind width words crew queue written d s o u n ws) store.old log.old) worker }
    ensures planned_by { joins ≡ true → PlannedBy room kind width words crew queue store.old worker line result }
    ensures store_unchanged { joins ≡ true → (store.new ≡ store.old) × (log.new ≡ log.old) }
{
    if crew <= worker {
        let why = Refusal::NoSuchWorker;
        return Moved {
            line,
            made: Made::Refused { why },
        };
    }
    if stages::is_idle(line) {
        let why = Refusal::IdleWorker;
        return Moved {
            line,
            made: Made::Refused { why },
        };
    }
    let to = lines::next_line(room, kind, words, queue, store, worker, line);
    if links(queue.linked, line) {
        return Moved {
            line: to,
            made: Made::Links,
        };
    }
    let bits = stages::tag_bits(queue.linked, width);
    let action = lines::decide(room, kind, bits, words, queue, store, worker, line);
    if joins {
        return Moved {
            line: to,
            made: Made::Waits { action },
        };
    }
    let made = act(words, written, queue, action, store, log);
    Moved { line: to, made }
}

// X1: a pair behind the claimed ones.
fn with_array(queue: Queue, offset: u32, length: u32) -> Queue
    requires { queue.claimed < 11 }
    ensures { result ≡ with_array queue offset length }
{
    let claimed = queue.claimed;
    let place = claimed as usize;
    let mut next = queue;
    next.arrays[place] = Region { offset, length };
    next.claimed = claimed + 1;
    next
}

// The state with a worker at another line, and another queue and count of words written.
fn replaced(bench: Bench, place: usize, line: Line, queue: Queue, written: u32) -> Bench
    requires { place < 8 }
    ensures { result ≡ moves bench place line queue bench.restarts written }
{
    let mut next = bench;
    next.queue = queue;
    next.written = written;
    next.workers[place] = Worker { line };
    next
}

// The state with a worker at another line, and one restart of that worker more.
fn beaten(bench: Bench, place: usize, line: Line) -> Bench
    requires { place < 8 }
    ensures { result ≡ moves bench place line bench.queue (raised bench.restarts place) bench.written }
{
    let mut next = bench;
    let count = stages::one_more(next.restarts[place]);
    next.restarts[place] = count;
    next.workers[place] = Worker { line };
    next
}

// The state after a step that left the worker at `place` at `line`, and the answer. Callers make a step that did nothing beside,
// or whose compare failed, in place; these cases are here too, so that this is all of a step.
pub fn settled(bench: Bench, place: usize, line: Line, made: Made) -> Returned
    requires place_bound { place < 8 }
    requires fits { Fits bench.words bench.queue bench.written made }
    ensures { result ≡ record { bench = bench_after bench place line made; answer = answer_after made } }
{
    let queue = bench.queue;
    let written = bench.written;
    match made {
        Made::Nothing => Returned {
            bench: replaced(bench, place, line, queue, written),
            answer: Answer::GoesOn,
        },
        Made::Refused { why } => state::refused(bench, why),
        Made::Fails => Returned {
            bench: beaten(bench, place, line),
            answer: Answer::GoesOn,
        },
        Made::Links => {
            let linked = state::with_link(queue, place, true);
            Returned {
                bench: replaced(bench, place, line, linked, written),
                answer: Answer::GoesOn,
            }
        }
        Made::Claims { offset, length } => {
            let grown = with_array(queue, offset, length);
            let mut next = replaced(bench, place, line, grown, written);
            // The words that were set aside are the array's now.
            next.aside = 0;
            Returned {
                bench: next,
                answer: Answer::GoesOn,
            }
        }
        Made::Publishes => {
            let current = state::publish(queue, queue.published);
            Returned {
                bench: replaced(bench, place, line, current, written),
                answer: Answer::GoesOn,
            }
        }
        Made::Stops { answer } => {
            let unlinked = state::with_link(queue, place, false);
            let length = written + (3 + bench.words);
            Returned {
                bench: replaced(bench, place, line, unlinked, length),
                answer,
            }
        }
        Made::Waits { .. } => state::refused(bench, Refusal::WaitingFull),
        Made::Ends { anchor, answer } => {
            let left = state::with_anchor(queue, anchor);
            let length = written + (3 + bench.words);
            Returned {
                bench: replaced(bench, place, line, left, length),
                answer,
            }
        }
        Made::Grows { answer } => {
            let current = state::publish(queue, queue.published);
            let grown = state::with_link(current, place, false);
            let length = written + (3 + bench.words);
            Returned {
                bench: replaced(bench, place, line, grown, length),
                answer,
            }
        }
    }
}

// A worker's place among the eight records; of a number that no worker has, the last.
pub fn place_of(worker: u32) -> usize
    ensures { (result ≤ 7) × (worker < 8 → result ≡ worker) }
{
    if worker < 8 {
        return worker as usize;
    }
    7
}

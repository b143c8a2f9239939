// A step of the owner while its stores are delayed, past the test of the limits. The owner reads memory with its waiting stores
// put down; the stores of its line join the waiting line, where they have a place, and X1's claim and the log's entry are made at
// once.
// Uses `model`, `tasks`, `slots`, `lines`, `limits`, `memory`, `state`, `machine` and `waiting`. It is used by `steps`
// and `queues`.

#![tactic(auto)]

ghost use Rattle.std.specs.Prelude.{◌≡◌, true, List, ℕ, ◌+◌, ◌≤◌, length};
ghost use Rattle.model.specs.declared.Room.{Room};
ghost use Rattle.model.specs.Stores.{joined};
ghost use Rattle.model.specs.World.{owners_view, line_at};
ghost use Rattle.model.specs.Limits.{Within};
ghost use Rattle.model.specs.Calls.{lent, step_in};
ghost use Rattle.state.specs.Outcomes.{returned};
ghost use Rattle.lines.specs.Actions.{word_stores, stores_by};
ghost use Rattle.machine.specs.Steps.{PlannedBy};
ghost use Rattle.waiting.specs.Places.{KeptBy};
ghost use Rattle.owner.specs.Reads.{at_once, Lifts, Finishable};

use lines::Action;
use machine::Made;
use model::{Answer, Bench, Line, Refusal, Region, Store, Task, Waiting, Worker};
use state::Returned;

// How many stores an action makes.
#[tactic(auto, unfolding(lines::specs::Actions::stores_by))]
fn stores_in(words: u32, action: Action) -> u32
    requires { words ≤ 4 }
    ensures { result ≡ length (stores_by words action) }
{
    match action {
        Action::Stores { .. } | Action::Ends { .. } => 1,
        Action::Copies { .. } => words + 1,
        Action::Nothing | Action::Fails | Action::Claims { .. } | Action::Stops { .. } => 0,
    }
}

// X3: one store for each word of a task joins the line.
fn join_task(words: u32, waiting: Waiting, place: u32, slot: u32, task: Task) -> Waiting
    requires words_bound { words ≤ 4 }
    requires words_bound_2 { waiting.count + (words + 1) ≤ 8 }
    ensures { result ≡ joined waiting (word_stores place slot task (words + 1)) }
{
    let mut next = waiting;
    for word in 0..words + 1 {
        let value = tasks::word_in(task, word);
        next = waiting::join(
            next,
            Store::StoreWord {
                place,
                slot,
                word,
                value,
            },
        );
    }
    next
}

// An action's stores join the line, in their order.
#[tactic(auto, unfolding(lines::specs::Actions::stores_by))]
fn join_all(words: u32, waiting: Waiting, action: Action) -> Waiting
    requires words_bound { words ≤ 4 }
    requires action_bound { waiting.count + length (stores_by words action) ≤ 8 }
    ensures { result ≡ joined waiting (stores_by words action) }
{
    match action {
        Action::Stores { store } | Action::Ends { store, .. } => waiting::join(waiting, store),
        Action::Copies { place, slot, task } => join_task(words, waiting, place, slot, task),
        Action::Nothing | Action::Fails | Action::Claims { .. } | Action::Stops { .. } => waiting,
    }
}

// What is left of an action once its stores have joined the line. The owner never compares.
#[tactic(auto, unfolding(crate::specs::Reads::at_once))]
fn at_once(action: Action) -> Action
    ensures { result ≡ at_once action }
{
    match action {
        Action::Claims { .. } | Action::Stops { .. } => action,
        Action::Ends { store: _, answer } => Action::Stops { answer },
        Action::Nothing | Action::Fails | Action::Stores { .. } | Action::Copies { .. } => {
            Action::Nothing
        }
    }
}

// The rest of the owner's step, once its line is worked out on what the owner reads: the waiting words are lifted again; then the
// step is refused 8 or 18, or 11; or its stores join the line, and X1's claim and the log's entry are made at once. It is built of
// parts that the step without delayed stores does not use, so that a compiler has one place for those.
pub fn finish(
    bench: Bench,
    line: Line,
    made: Made,
    kept: [u32; 8],
    store: &mut [u32],
    log: &mut [u32],
) -> Returned
    requires delayed_value { bench.delayed ≡ true }
    requires lifts { Lifts bench (length store.old) }
    requires finishable { Finishable bench (length store.old) made }
    ensures { (ρ : Room) (m : List ℕ) → Within ρ (lent bench m log.old)
        → store.old ≡ (owners_view (lent bench m log.old)).store
        → KeptBy bench.words bench.queue m bench.waiting kept
        → PlannedBy ρ bench.kind bench.width bench.words bench.crew (owners_view (lent bench m log.old)).queue
        store.old 0 (line_at bench.workers 0) (record { line = line; made = made })
        → returned result store.new log.new ≡ step_in ρ (lent bench m log.old) 0 }
{
    let words = bench.words;
    let queue = bench.queue;
    let waiting = bench.waiting;
    waiting::lift(words, queue, waiting, kept, store);
    let Made::Waits { action } = made else {
        return state::refused(bench, Refusal::IdleWorker);
    };
    let more = stores_in(words, action);
    if 8 < waiting.count + more {
        return state::refused(bench, Refusal::WaitingFull);
    }
    let mut next = bench;
    next.waiting = join_all(words, waiting, action);
    next.workers[0] = Worker { line };
    let mut answer = Answer::GoesOn;
    match at_once(action) {
        Action::Claims { offset, length } => {
            memory::zero(store, offset as usize, length as usize);
            let at = queue.claimed as usize;
            let mut grown = queue;
            grown.arrays[at] = Region { offset, length };
            grown.claimed = queue.claimed + 1;
            next.queue = grown;
            next.aside = 0;
        }
        Action::Stops { answer: told } => {
            if !machine::log_answer(words, bench.written, told, log) {
                return state::refused(bench, Refusal::LogFull);
            }
            next.written = bench.written + (3 + words);
            answer = told;
        }
        _ => {}
    }
    Returned {
        bench: next,
        answer,
    }
}

// One order played from its start, the bench in place: the steps that are given for it, and from there on the lowest worker that
// may step.
// Uses `model`, `theorems`, `orders`, `turns`, `tasks`, `stages`, `slots`, `limits`, `state` and `machine`. It is used by `hunter`.

#![tactic(auto, using(model::proofs::Tests::tests))]

ghost use Rattle.std.specs.Prelude.{◌≡◌, true, false, List, [], ◌∷◌, ℕ, ◌+◌, ◌-◌, ◌≤◌, ◌<◌, length, take, get_or};
ghost use Rattle.model.specs.Tests.{when◌then◌else◌};
ghost use Rattle.model.specs.World.{is_idle};
ghost use Rattle.model.specs.Calls.{first_line, used_by};
ghost use Rattle.turns.specs.Turns.{from, first_busy};
ghost use Rattle.orders.specs.Claims.{Complete};
ghost use Rattle.orders.specs.Next.{first_of};
ghost use Rattle.orders.proofs.NoneRefused.{Good};
ghost use Rattle.turns.proofs.Fits.{Fits};
ghost use Rattle.rounds.specs.Rounds.{next_operation, play_of, plan_of, PlayedBy};

use machine::Made;
use model::{Bench, Line, Payload, Task, Worker};

// The line that a worker's next step does, and the put numbers used by then.
#[derive(Clone, Copy)]
pub struct Begun {
    pub line: Line,
    pub used: u32,
}

// Line 1 of a put.
fn put_line(words: u32, used: u32) -> Line
    requires words_nonzero { (0 < words) × (words ≤ 4) }
    requires used_bound { used < 65535 }
    ensures { result ≡ first_line (next_operation 0 (true ∷ []) 1) words used }
{
    let number = used + 1;
    let payload = Payload {
        first: 0,
        second: 0,
        third: 0,
        fourth: 0,
    };
    let whole = Task { number, payload };
    let task = tasks::cut(whole, words);
    Line::PutRead { task }
}

// An idle worker begins its next operation; `left` counts those of the owner's list that are left.
fn opened(worker: u32, line: Line, puts: &[bool], left: u32, words: u32, used: u32) -> Begun
    requires words_nonzero { (0 < words) × (words ≤ 4) }
    requires used_bound { used < 65535 }
    requires left_nonzero { is_idle line ≡ true → worker ≡ 0 → (0 < left) × (left ≤ length puts.now) }
    ensures value { is_idle line ≡ false → result ≡ record { line = line; used = used } }
    ensures value_2 { is_idle line ≡ true
        → result ≡ record { line = first_line (next_operation worker puts.now left) words used; used = used_by (next_operation worker puts.now left) used } }
{
    if !stages::is_idle(line) {
        return Begun { line, used };
    }
    if 0 < worker {
        return Begun {
            line: Line::StealRead,
            used,
        };
    }
    let at = puts.len() - left as usize;
    if puts[at] {
        let first = put_line(words, used);
        return Begun {
            line: first,
            used: used + 1,
        };
    }
    Begun {
        line: Line::TakeRead,
        used,
    }
}

// What a worker has open or left, once its step has left it at `line`.
fn still(todo: u32, line: Line) -> u32
    ensures { result ≡ when◌then◌else◌ (is_idle line) (todo - 1) todo }
{
    if todo == 0 {
        return 0;
    }
    if stages::is_idle(line) {
        return todo - 1;
    }
    todo
}

// The worker that makes step `n`: of the given steps this one, else the lowest that may; 8 if none may.
fn chosen(order: &[u32; 256], given: u32, n: u32, todo: &[u32; 8]) -> u32
    requires n_bound { n < 256 }
    requires order_len { length order.now ≡ 256 }
    requires todo_len { length todo.now ≡ 8 }
    ensures { (n < given → result ≡ get_or order.now n 0) × (given ≤ n → result ≡ first_busy todo.now (from 0 (8 - 0))) }
{
    if n < given {
        let k = n as usize;
        return order[k];
    }
    turns::up(todo, 0)
}

// What playing an order left: its steps, the payload words of a task and the words that were logged.
#[derive(Clone, Copy)]
pub struct Played {
    pub steps: u32,
    pub words: u32,
    pub written: u32,
}

// Plays the order that starts with the given steps; none where more than `most` steps would be needed. `all` are the operations of each worker. The order
// is left in `order`, and beside each step in `others` the next higher worker that might have made it. The bench stays in place:
// most steps replace one worker's record.
pub fn play(
    fresh: Bench,
    puts: &[bool],
    all: [u32; 8],
    given: u32,
    order: &mut [u32; 256],
    others: &mut [u32; 256],
    most: u32,
    store: &mut [u32],
    log: &mut [u32],
) -> Option<Played>
    requires good { Good (play_of fresh store.old log.old puts.now all) }
    requires fits { Fits fresh.workers (plan_of puts.now all) all }
    requires complete { Complete 256 (play_of fresh store.old log.old puts.now all) (first_of 256 (play_of fresh store.old log.old puts.now all) (take given order.old)) }
    requires given_bound { given ≤ 256 }
    requires order_len { length order.old ≡ 256 }
    requires others_len { length others.old ≡ 256 }
    ensures { PlayedBy (play_of fresh store.old log.old puts.now all) (take given order.old) most result order.new others.new log.new }
{
    let mut bench = fresh;
    let mut todo = all;
    for n in 0..256u32 {
        let worker = chosen(order, given, n, &todo);
        if worker == 8 {
            return Some(Played {
                steps: n,
                words: bench.words,
                written: bench.written,
            });
        }
        if n == most {
            return None;
        }
        let k = n as usize;
        let i = worker as usize;
        let higher = turns::up(&todo, worker + 1);
        order[k] = worker;
        others[k] = higher;
        let left = todo[i];
        let own = bench.workers[i];
        let line = own.line;
        let begun = opened(worker, line, puts, left, bench.words, bench.used);
        let first = begun.line;
        bench.used = begun.used;
        let kind = bench.kind;
        let queue = bench.queue;
        let room = slots::room_alone(queue, store);
        let moved = machine::step_in(
            room,
            kind,
            bench.width,
            bench.words,
            bench.crew,
            queue,
            bench.written,
            worker,
            first,
            false,
            store,
            log,
        );
        let to = moved.line;
        let made = moved.made;
        todo[i] = still(left, to);
        let Made::Nothing = made else {
            let done = machine::settled(bench, i, to, made);
            bench = done.bench;
            continue;
        };
        bench.workers[i] = Worker { line: to };
    }
    Some(Played {
        steps: 256,
        words: bench.words,
        written: bench.written,
    })
}

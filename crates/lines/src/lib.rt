// What one line of figures 1, 2 and 3 does, as two pure functions: the line that its worker comes to (next_line), and what it does
// beside, an action (decide): its claim, its stores and its answer. Landing the stores is another crate's. What a line reads is told one
// by one, as the definition `line_step` has it. What X1 asks of a queue stands in three contracts, and in no type: a queue is a part of
// the caller's state, in which any numbers come in.
// Uses `model`, `tasks`, `anchors`, `figures` and `slots`. It is used by `machine` and `owner`.

#![tactic(auto, using(model::proofs::Tests::tests))]

ghost use Rattle.std.specs.Prelude.{◌≡◌, true, false, not, List, [], ◌∷◌, ℕ, ◌+◌, ◌-◌, ◌*◌, ◌^◌, ◌≤◌, ◌<◌, length};
ghost use Rattle.model.specs.declared.Line.{Line};
ghost use Rattle.model.specs.declared.Line.TheVariants.{TakeWord, StealWord};
ghost use Rattle.model.specs.declared.Queue.{Queue};
ghost use Rattle.model.specs.declared.Room.{Room};
ghost use Rattle.model.specs.declared.Store.{Store};
ghost use Rattle.model.specs.declared.Store.TheVariants.{StoreNote};
ghost use Rattle.model.specs.Tasks.{no_task};
ghost use Rattle.model.specs.Lines.{unless_empty, succeeds, compares, task_for, grows, publishes, line_step, fails_compare};
ghost use Rattle.model.specs.Limits.{some_ok};
ghost use Rattle.slots.specs.Bounds.{Sized, Small};
ghost use Rattle.lines.specs.Actions.{Does, fails_by, Doable, Ground, Ready, Range, Free};

use model::{Anchor, Answer, Growth, Kind, Line, Queue, Room, Store, Task};

// What a line does beside moving its worker on, by the stores that it makes: nothing; it is a compare that fails; one store, of a
// put's word or X4's note; X3's, one for each word of `task`, in slot `slot` of the array at `place` of the directory; it claims a
// range; or it ends its operation, with no store or with one: of the anchor, or the note of a commit's X4. No line is in it: the prover writes out a type wherever
// a value of it is in reach, and `Line` has 22 cases.
#[derive(Clone, Copy)]
pub enum Action {
    Nothing,
    Fails,
    Stores { store: Store },
    Copies { place: u32, slot: u32, task: Task },
    Claims { offset: u32, length: u32 },
    Stops { answer: Answer },
    Ends { store: Store, answer: Answer },
}

// Take 3a; 4a: no word of the task is read yet.
fn take_first(read: Anchor) -> Line
    ensures { result ≡ TakeWord read no_task 0 }
{
    Line::TakeWord {
        read,
        task: tasks::no_task(),
        word: 0,
    }
}

// Steal 4a; 5a, in the array at place `place`.
fn steal_first(read: Anchor, place: u32) -> Line
    ensures { result ≡ StealWord read place no_task 0 }
{
    Line::StealWord {
        read,
        place,
        task: tasks::no_task(),
        word: 0,
    }
}

// The test for EMPTY: idle, or the line `next`.
fn past_empty(kind: Kind, read: Anchor, next: Line) -> Line
    ensures { (i : ℕ) → result ≡ (unless_empty kind i read next).line }
{
    let empty = anchors::is_empty(kind, read);
    if empty { Line::Idle } else { next }
}

// The test for EMPTY: the operation ends, or nothing.
fn stop_empty(kind: Kind, worker: u32, read: Anchor) -> Action
    ensures does { (ρ : Room) (v : ℕ) (l : Line) → Does ρ v (unless_empty kind worker read l) result }
    ensures by_index { (v : ℕ) (q : Queue) (n : ℕ) → Doable v q n result }
    ensures result_value { fails_by result ≡ false }
{
    let empty = anchors::is_empty(kind, read);
    if empty {
        Action::Stops {
            answer: Answer::Empty { worker },
        }
    } else {
        Action::Nothing
    }
}

// The compare finds the anchor as it was read; in a linked queue it is a store, and succeeds if the link is held.
fn succeeds(kind: Kind, queue: Queue, worker: u32, read: Anchor) -> bool
    ensures { result ≡ succeeds kind queue worker read }
{
    if queue.linked {
        if 8 <= worker {
            return false;
        }
        let i = worker as usize;
        return queue.links[i];
    }
    let anchor = queue.anchor;
    anchors::is_same(kind, anchor, read)
}

// The compare: idle, or back to line 1.
fn past_compare(kind: Kind, queue: Queue, worker: u32, read: Anchor) -> Line
    ensures { (e : ℕ) (t : Task) → result ≡ (compares kind queue worker read e t).line }
{
    if succeeds(kind, queue, worker, read) {
        Line::Idle
    } else {
        Line::StealRead
    }
}

// The compare: the task is handed out, or it fails.
fn compare(kind: Kind, queue: Queue, worker: u32, read: Anchor, next: u32, task: Task) -> Action
    requires range { Range read }
    requires read_value { some_ok kind read ≡ true }
    ensures does { (ρ : Room) (v : ℕ) → Does ρ v (compares kind queue worker read next task) result }
    ensures by_index { (v n : ℕ) → Doable v queue n result }
    ensures result_value { fails_by result ≡ not (succeeds kind queue worker read) }
{
    if succeeds(kind, queue, worker, read) {
        let left = anchors::steal_store(kind, read, next);
        Action::Ends {
            store: left,
            answer: Answer::HandedOut { worker, task },
        }
    } else {
        Action::Fails
    }
}

// Whose task is FULL: a commit comes to X1 only with words set aside, and then it fits.
fn task_for(why: Growth) -> Task
    ensures { result ≡ task_for why }
{
    match why {
        Growth::ForPut { task } => task,
        Growth::ForCommit => tasks::no_task(),
    }
}

// X1: to X2, or idle.
fn past_claim(room: Room, queue: Queue, why: Growth) -> Line
    requires published_nonzero { (0 < queue.published) × (queue.published ≤ 11) }
    requires published_bound { queue.initial * 2 ^ (queue.published - 1) ≤ 1024 }
    requires small { Small queue (queue.published - 1) }
    requires claimed_value { queue.claimed ≡ queue.published }
    ensures { (v i : ℕ) → Sized v queue (queue.published - 1) → result ≡ (grows room v queue i why).line }
{
    let fits = slots::has_room(queue, room.left);
    if fits { Line::Note { why } } else { Line::Idle }
}

// X1: an array twice as long as the current one, at the next free word; where that does not fit, FULL.
fn claim(room: Room, queue: Queue, worker: u32, why: Growth) -> Action
    requires published_nonzero { (0 < queue.published) × (queue.published ≤ 11) }
    requires published_bound { queue.initial * 2 ^ (queue.published - 1) ≤ 1024 }
    requires small { Small queue (queue.published - 1) }
    requires claimed_value { queue.claimed ≡ queue.published }
    ensures by_index { (v : ℕ) → Sized v queue (queue.published - 1) → Does room v (grows room v queue worker why) result }
    ensures by_index_2 { (v n : ℕ) → Sized v queue (queue.published - 1) → Free v queue → room.next + room.left ≤ n → Doable v queue n result }
    ensures result_value { fails_by result ≡ false }
{
    let fits = slots::has_room(queue, room.left);
    if fits {
        let here = queue.published - 1;
        let at = here as usize;
        let more = slots::twice_as_long(queue, at);
        Action::Claims {
            offset: room.next,
            length: more,
        }
    } else {
        let task = task_for(why);
        Action::Stops {
            answer: Answer::Full { worker, task },
        }
    }
}

// X4: back to line 1 of put, or idle.
fn past_publish(why: Growth) -> Line
    ensures { (s : List Store) (i : ℕ) → result ≡ (publishes s i why).line }
{
    match why {
        Growth::ForPut { task } => Line::PutRead { task },
        Growth::ForCommit => Line::Idle,
    }
}

// X4: the note of the claimed array, which ends a commit.
fn publish(queue: Queue, worker: u32, why: Growth) -> Action
    ensures does { (ρ : Room) (v : ℕ) → Does ρ v (publishes (StoreNote queue.published ∷ []) worker why) result }
    ensures by_index { (v n : ℕ) → Doable v queue n result }
    ensures result_value { fails_by result ≡ false }
{
    let note = Store::StoreNote {
        place: queue.published,
    };
    match why {
        Growth::ForPut { .. } => Action::Stores { store: note },
        Growth::ForCommit => Action::Ends {
            store: note,
            answer: Answer::Grown { worker },
        },
    }
}

// The line that a worker comes to by doing `line`; idle, where it ends the operation. X1 finds `room`. Beside each case: its
// number in figures 1 and 3, then in figure 2.
pub fn next_line(
    room: Room,
    kind: Kind,
    words: u32,
    queue: Queue,
    store: &[u32],
    worker: u32,
    line: Line,
) -> Line
    requires the_ground { Ground words queue (length store.now) }
    requires ready { Ready kind words queue (length store.now) line }
    ensures { (w : ℕ) → result ≡ (line_step room kind w words queue store.now worker line).line }
{
    let anchor = queue.anchor;
    let here = queue.published - 1;
    let at = here as usize;
    match line {
        Line::Idle => Line::Idle,
        // put 1; 1
        Line::PutRead { task } => figures::put_read(kind, anchor, task),
        // FIFO's put 2
        Line::PutTail { task, head } => {
            let read = anchors::with_tail(head, anchor);
            Line::PutTest { task, read }
        }
        // put 2; 3
        Line::PutTest { task, read } => {
            let size = slots::size_at(queue, at);
            figures::put_test(kind, size, read, task)
        }
        // put 3a, 3b ..; 4a, 4b ..
        Line::PutWord { task, read, word } => figures::put_on(words, task, read, word),
        // put 4; 5
        Line::PutFinish { .. } => Line::Idle,
        // X1
        Line::Claim { why } => past_claim(room, queue, why),
        // X2
        Line::Note { why } => {
            let size = slots::size_at(queue, at);
            figures::note_for(kind, size, anchor, why)
        }
        // X3
        Line::Copy {
            why,
            head,
            noted,
            copied,
        } => figures::copy_on(why, head, noted, copied),
        // X4
        Line::Publish { why } => past_publish(why),
        // take 1; 1
        Line::TakeRead => figures::take_read(kind, anchor),
        // FIFO's take 2
        Line::TakeTail { head } => {
            let read = anchors::with_tail(head, anchor);
            Line::TakeTest { read }
        }
        // take 2; 3
        Line::TakeTest { read } => past_empty(kind, read, take_first(read)),
        // take 3a, 3b ..; 4a, 4b ..
        Line::TakeWord { read, task, word } => {
            let value = slots::taken_word(kind, words, queue, at, read, word, store);
            let known = tasks::with_word(task, word, value);
            figures::take_on(words, read, known, word)
        }
        // take 4; 5
        Line::TakeFinish { .. } => Line::Idle,
        // steal 1; 1
        Line::StealRead => figures::steal_read(kind, anchor),
        // FIFO's steal 2
        Line::StealTail { head } => {
            let read = anchors::with_tail(head, anchor);
            Line::StealTest { read }
        }
        // steal 2; 3
        Line::StealTest { read } => past_empty(kind, read, Line::StealNote { read }),
        // steal 3; 4
        Line::StealNote { read } => steal_first(read, here),
        // steal 4a, 4b ..; 5a, 5b ..
        Line::StealWord {
            read,
            place,
            task,
            word,
        } => {
            let value = slots::stolen_word(kind, words, queue, place as usize, read, word, store);
            let known = tasks::with_word(task, word, value);
            figures::steal_on(kind, words, read, place, known, word)
        }
        // figure 3's steal 5
        Line::StealNext { read, task } => {
            let h2 = anchors::next_head(read);
            Line::StealCompare {
                read,
                next: h2,
                task,
            }
        }
        // steal 5, in figure 3 steal 6; 6
        Line::StealCompare { read, .. } => past_compare(kind, queue, worker, read),
    }
}

// What worker `worker` does by `line` beside coming to the next one. Most lines only read.
pub fn decide(
    room: Room,
    kind: Kind,
    width: u32,
    words: u32,
    queue: Queue,
    store: &[u32],
    worker: u32,
    line: Line,
) -> Action
    requires width_bound { width ≤ 16 }
    requires left_in_bounds { room.next + room.left ≤ length store.now }
    requires the_ground { Ground words queue (length store.now) }
    requires ready { Ready kind words queue (length store.now) line }
    ensures does { Does room words (line_step room kind width words queue store.now worker line) result }
    ensures doable { Doable words queue (length store.now) result }
    ensures result_value { fails_by result ≡ fails_compare kind queue worker line }
{
    let here = queue.published - 1;
    let at = here as usize;
    match line {
        Line::Idle => Action::Nothing,
        Line::PutRead { .. } => Action::Nothing,
        Line::PutTail { .. } => Action::Nothing,
        Line::PutTest { .. } => Action::Nothing,
        // put 3a, 3b ..; 4a, 4b ..
        Line::PutWord { task, read, word } => {
            let slot = slots::put_slot(kind, queue, at, read);
            let value = tasks::word_in(task, word);
            Action::Stores {
                store: Store::StoreWord {
                    place: here,
                    slot,
                    word,
                    value,
                },
            }
        }
        // put 4; 5
        Line::PutFinish { task, read } => {
            let left = anchors::put_store(kind, width, read);
            Action::Ends {
                store: left,
                answer: Answer::Finished { worker, task },
            }
        }
        // X1
        Line::Claim { why } => claim(room, queue, worker, why),
        Line::Note { .. } => Action::Nothing,
        // X3
        Line::Copy { head, copied, .. } => {
            let index = head + copied;
            let task = slots::read_task(kind, words, queue, at, index, store);
            let place = queue.published;
            let claimed = place as usize;
            let slot = slots::slot_at(kind, queue, claimed, index);
            Action::Copies { place, slot, task }
        }
        // X4
        Line::Publish { why } => publish(queue, worker, why),
        Line::TakeRead => Action::Nothing,
        Line::TakeTail { .. } => Action::Nothing,
        // take 2; 3
        Line::TakeTest { read } => stop_empty(kind, worker, read),
        Line::TakeWord { .. } => Action::Nothing,
        // take 4; 5
        Line::TakeFinish { read, task } => {
            let left = anchors::take_store(kind, read);
            Action::Ends {
                store: left,
                answer: Answer::HandedOut { worker, task },
            }
        }
        Line::StealRead => Action::Nothing,
        Line::StealTail { .. } => Action::Nothing,
        // steal 2; 3
        Line::StealTest { read } => stop_empty(kind, worker, read),
        Line::StealNote { .. } => Action::Nothing,
        Line::StealWord { .. } => Action::Nothing,
        Line::StealNext { .. } => Action::Nothing,
        // steal 5, in figure 3 steal 6; 6
        Line::StealCompare { read, next, task } => compare(kind, queue, worker, read, next, task),
    }
}

// 'Values in these ranges': the limits on the anchor, on what a worker at a line has read, and on a waiting store. A foreign
// state holds any 32-bit values, so a sum of two of them is worked out in 64 bits.
// Uses `model` and `tasks`. It is used by `limits`.

#![tactic(auto, using(model::proofs::Tests::tests))]

ghost use Rattle.std.specs.Prelude.{◌≡◌, ℕ, ◌+◌, ◌≤◌, ◌<◌, ltb, leb};
ghost use Rattle.model.specs.declared.Queue.{Queue};
ghost use Rattle.model.specs.Tests.{◌and◌, ◌or◌};
ghost use Rattle.model.specs.Memory.{size_at};
ghost use Rattle.model.specs.Lines.{size};
ghost use Rattle.model.specs.Limits.{
  read_ok,
  near_ok,
  anchor_ok,
  head_ok,
  room_ok,
  some_ok,
  noted_ok,
  slot_ok,
  place_ok,
  is_deque,
  next_ok,
  number_ok,
  task_ok,
  growth_ok,
  line_ok,
  has_anchor,
  store_ok,
};
ghost use Rattle.ranges.specs.Doubles.{Doubled, Doubles};

use model::{Anchor, Growth, Kind, Line, Queue, Store, Task};

pub fn number_ok(number: u32) -> bool
    ensures { result ≡ number_ok number }
{
    number <= 65535
}

// A task of which `known` words are known: the others are 0.
fn task_ok(known: u32, task: Task) -> bool
    ensures { result ≡ task_ok known task }
{
    number_ok(task.number) && tasks::none_from(known, task)
}

// Why the array grows: a put's task is whole.
fn growth_ok(words: u32, why: Growth) -> bool
    requires { words ≤ 4 }
    ensures { result ≡ growth_ok words why }
{
    match why {
        Growth::ForPut { task } => task_ok(words + 1, task),
        Growth::ForCommit => true,
    }
}

// An anchor as a worker read it, in an array of `tasks`.
fn read_ok(kind: Kind, width: u32, tasks: u32, read: Anchor) -> bool
    requires { width ≤ 16 }
    ensures { result ≡ read_ok kind width tasks read }
{
    let head = read.head;
    let count = read.count;
    let tag = read.tag;
    let tags = 1u32 << width;
    match kind {
        Kind::Lifo => head == 0 && (count <= tasks && tag < tags),
        Kind::Fifo => head <= count && (count <= 65535 && tag == 0),
        Kind::Deque => head < 2048 && (count <= tasks && tag < tags),
    }
}

// FIFO's tail is at most the size ahead of its head.
fn near_ok(kind: Kind, tasks: u32, anchor: Anchor) -> bool
    ensures { result ≡ near_ok kind tasks anchor }
{
    match kind {
        Kind::Lifo => true,
        Kind::Fifo => anchor.count as u64 <= anchor.head as u64 + tasks as u64,
        Kind::Deque => true,
    }
}

// The anchor now.
pub fn anchor_ok(kind: Kind, width: u32, tasks: u32, anchor: Anchor) -> bool
    requires { width ≤ 16 }
    ensures { result ≡ anchor_ok kind width tasks anchor }
{
    read_ok(kind, width, tasks, anchor) && near_ok(kind, tasks, anchor)
}

fn head_ok(kind: Kind, head: u32) -> bool
    ensures { result ≡ head_ok kind head }
{
    matches!(kind, Kind::Fifo) && head <= 65535
}

// Past a put's test there is room for its task.
fn room_ok(kind: Kind, tasks: u32, read: Anchor) -> bool
    ensures { result ≡ room_ok kind tasks read }
{
    match kind {
        Kind::Lifo => read.count < tasks,
        Kind::Fifo => read.count < 65535,
        Kind::Deque => read.count < tasks,
    }
}

// Past a test for EMPTY there is a task.
fn some_ok(kind: Kind, read: Anchor) -> bool
    ensures { result ≡ some_ok kind read }
{
    match kind {
        Kind::Lifo => 0 < read.count,
        Kind::Fifo => true,
        Kind::Deque => 0 < read.count,
    }
}

// X3's indices, `noted` of them from `head` on.
fn noted_ok(kind: Kind, head: u32, noted: u32) -> bool
    ensures { result ≡ noted_ok kind head noted }
{
    match kind {
        Kind::Lifo => head == 0,
        Kind::Fifo => head as u64 + noted as u64 <= 65535,
        Kind::Deque => head < 2048,
    }
}

// The slot that a steal reads, in an array of `tasks`.
fn slot_ok(kind: Kind, tasks: u32, read: Anchor) -> bool
    ensures { result ≡ slot_ok kind tasks read }
{
    match kind {
        Kind::Lifo => read.count <= tasks,
        Kind::Fifo => true,
        Kind::Deque => true,
    }
}

// The noted array exists, and the slot in it. Each array is twice the one before, so its size is the first one's, doubled.
fn place_ok(kind: Kind, published: u32, first: u32, read: Anchor, place: u32) -> bool
    requires { published ≤ 11 }
    ensures { (v : ℕ) (q : Queue) → q.published ≡ published → Doubles v q first → result ≡ place_ok kind v q read place }
{
    place < published && slot_ok(kind, first << place, read)
}

fn is_deque(kind: Kind) -> bool
    ensures { result ≡ is_deque kind }
{
    matches!(kind, Kind::Deque)
}

fn next_ok(kind: Kind, next: u32) -> bool
    ensures { result ≡ next_ok kind next }
{
    match kind {
        Kind::Lifo => next == 0,
        Kind::Fifo => next == 0,
        Kind::Deque => next < 2048,
    }
}

// The anchor that a take or a steal past its test for EMPTY read.
fn past_empty(kind: Kind, width: u32, tasks: u32, read: Anchor) -> bool
    requires { width ≤ 16 }
    ensures { result ≡ (read_ok kind width tasks read and some_ok kind read) }
{
    read_ok(kind, width, tasks, read) && some_ok(kind, read)
}

// The anchor and the task of a put past its test; a task has `all` words.
fn past_test(kind: Kind, width: u32, all: u32, tasks: u32, task: Task, read: Anchor) -> bool
    requires { width ≤ 16 }
    ensures { result ≡ (task_ok all task and read_ok kind width tasks read and room_ok kind tasks read) }
{
    task_ok(all, task) && read_ok(kind, width, tasks, read) && room_ok(kind, tasks, read)
}

// What X3 holds.
fn copy_ok(
    kind: Kind,
    words: u32,
    tasks: u32,
    why: Growth,
    head: u32,
    noted: u32,
    copied: u32,
) -> bool
    requires { words ≤ 4 }
    ensures { result ≡ (growth_ok words why and noted_ok kind head noted and leb noted tasks and ltb copied noted) }
{
    growth_ok(words, why) && noted_ok(kind, head, noted) && noted <= tasks && copied < noted
}

// The task of a take or a steal of which word `word` is to be read.
fn reads_ok(words: u32, task: Task, word: u32) -> bool
    ensures { result ≡ (task_ok word task and leb word words) }
{
    task_ok(word, task) && word <= words
}

// What a worker at the line has read; the current array has `tasks` slots, a task `words` payload words.
pub fn line_ok(
    kind: Kind,
    width: u32,
    words: u32,
    published: u32,
    first: u32,
    tasks: u32,
    line: Line,
) -> bool
    requires width_bound { width ≤ 16 }
    requires words_bound { words ≤ 4 }
    requires published_bound { published ≤ 11 }
    ensures { (q : Queue) → q.published ≡ published → Doubles words q first → tasks ≡ size words q → result ≡ line_ok kind width words q line }
{
    let all = words + 1;
    match line {
        Line::Idle => true,
        Line::PutRead { task } => task_ok(all, task),
        Line::PutTail { task, head } => task_ok(all, task) && head_ok(kind, head),
        Line::PutTest { task, read } => task_ok(all, task) && read_ok(kind, width, tasks, read),
        Line::PutWord { task, read, word } => {
            past_test(kind, width, all, tasks, task, read) && word <= words
        }
        Line::PutFinish { task, read } => past_test(kind, width, all, tasks, task, read),
        Line::Claim { why } | Line::Note { why } | Line::Publish { why } => growth_ok(words, why),
        Line::Copy {
            why,
            head,
            noted,
            copied,
        } => copy_ok(kind, words, tasks, why, head, noted, copied),
        Line::TakeRead | Line::StealRead => true,
        Line::TakeTail { head } | Line::StealTail { head } => head_ok(kind, head),
        Line::TakeTest { read } | Line::StealTest { read } => read_ok(kind, width, tasks, read),
        Line::TakeWord { read, task, word } => {
            past_empty(kind, width, tasks, read) && reads_ok(words, task, word)
        }
        Line::TakeFinish { read, task } => {
            past_empty(kind, width, tasks, read) && task_ok(all, task)
        }
        Line::StealNote { read } => read_ok(kind, width, tasks, read) && some_ok(kind, read),
        Line::StealWord {
            read,
            place,
            task,
            word,
        } => {
            past_empty(kind, width, tasks, read)
                && place_ok(kind, published, first, read, place)
                && reads_ok(words, task, word)
        }
        Line::StealNext { read, task } => {
            past_empty(kind, width, tasks, read) && is_deque(kind) && task_ok(all, task)
        }
        Line::StealCompare { read, next, task } => {
            past_empty(kind, width, tasks, read) && next_ok(kind, next) && task_ok(all, task)
        }
    }
}

fn has_anchor(kind: Kind) -> bool
    ensures { result ≡ has_anchor kind }
{
    !matches!(kind, Kind::Fifo)
}

// A task's word 0 is a put number; the words behind it are any.
fn value_ok(word: u32, value: u32) -> bool
    ensures { result ≡ (ltb 0 word or number_ok value) }
{
    0 < word || number_ok(value)
}

// A waiting word: its array is claimed, and has the slot.
fn word_ok(
    words: u32,
    claimed: u32,
    first: u32,
    place: u32,
    slot: u32,
    word: u32,
    value: u32,
) -> bool
    requires { claimed ≤ 11 }
    ensures { (q : Queue) → q.claimed ≡ claimed → Doubled words q.arrays claimed first → result ≡ (ltb place q.claimed and ltb slot (size_at words q.arrays place) and leb word words and (ltb 0 word or number_ok value)) }
{
    place < claimed && slot < first << place && word <= words && value_ok(word, value)
}

// A waiting store's place and value. The owner reads a queue with `published` arrays of the `claimed` ones, `tasks` slots in the
// current one, and `count` in its anchor.
pub fn store_ok(
    kind: Kind,
    width: u32,
    words: u32,
    published: u32,
    claimed: u32,
    first: u32,
    tasks: u32,
    count: u32,
    waiting: Store,
) -> bool
    requires width_bound { width ≤ 16 }
    requires claimed_bound { claimed ≤ 11 }
    ensures { (q : Queue) → q.published ≡ published → q.claimed ≡ claimed → q.anchor.count ≡ count → Doubled words q.arrays claimed first → tasks ≡ size words q → result ≡ store_ok kind width words q waiting }
{
    match waiting {
        Store::StoreWord {
            place,
            slot,
            word,
            value,
        } => word_ok(words, claimed, first, place, slot, word, value),
        Store::StoreNote { place } => place < published,
        Store::StorePut { value } | Store::StoreOut { value } => {
            has_anchor(kind) && read_ok(kind, width, tasks, value)
        }
        Store::StoreHead { value } => head_ok(kind, value) && value <= count,
        Store::StoreTail { value } => head_ok(kind, value),
    }
}

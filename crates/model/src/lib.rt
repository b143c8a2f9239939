// The bench's types: what document 01 names, by value. No code is here but the derived: `specs/` says what each
// call does to them, and every crate above (theorems, code) speaks of these same types. A bench is one value without heap, which its
// caller keeps and may hand in with any numbers (refusal 12). So its lists are arrays of a fixed length with a count beside, and no type
// has an invariant.
// Uses no other crate. All others are built on it.

#![tactic(auto)]

// Figures 1, 2 and 3. The double-ended queue is the field's deque. Kinds 4 and 5 are LIFO and double-ended, linked (`Queue.linked`).
#[derive(Clone, Copy, PartialEq, Eq)]
pub enum Kind {
    Lifo,
    Fifo,
    Deque,
}

// The caller's payload: 1 to 4 words, as many as `Bench.words` says. The others are 0. Four fields, as the
// definitions `words_in` and `task_of` have them: each is read by its name.
#[derive(Clone, Copy, PartialEq, Eq)]
pub struct Payload {
    pub first: u32,
    pub second: u32,
    pub third: u32,
    pub fourth: u32,
}

// A task: its put number, word 0, and the caller's payload, words 1 and up. The figures' task is the payload alone; the number is
// the bench's, and tells two tasks with one payload apart.
#[derive(Clone, Copy, PartialEq, Eq)]
pub struct Task {
    pub number: u32,
    pub payload: Payload,
}

// What line 1 reads whole and a compare (the field's compare-and-swap) compares. Double-ended: (h, s, g). LIFO: (t, g) is `count`
// and `tag`, `head` is 0. FIFO: head, and the tail in `count`; `tag` is 0, as in a linked queue. The tag is there against ABA: each put raises it, so
// that a compare sees that puts have finished since line 1, unless the tag has come round.
#[derive(Clone, Copy, PartialEq, Eq)]
pub struct Anchor {
    pub head: u32,
    pub count: u32,
    pub tag: u32,
}

// One store to a shared place: a task's word (in the array at `place` of the directory), the note of the current array (its place in
// the directory), the anchor by a put, the anchor by a hand-out, and of FIFO the head (by a hand-out) or the tail (by a put).
#[derive(Clone, Copy, PartialEq, Eq)]
pub enum Store {
    StoreWord {
        place: u32,
        slot: u32,
        word: u32,
        value: u32,
    },
    StoreNote {
        place: u32,
    },
    StorePut {
        value: Anchor,
    },
    StoreOut {
        value: Anchor,
    },
    StoreHead {
        value: u32,
    },
    StoreTail {
        value: u32,
    },
}

// Why the array grows: for a put, or for a commit, an operation of X1 to X4 alone.
#[derive(Clone, Copy, PartialEq, Eq)]
pub enum Growth {
    ForPut { task: Task },
    ForCommit,
}

// The line a worker is at, with the values read so far, a thread's own variables; `read` is the anchor as it read it. Put, take
// and steal are the figures' names; X1 to X4 are their `expand`. Beside each case: the line's number in figures 1 and 3, then in
// figure 2.
#[derive(Clone, Copy)]
pub enum Line {
    Idle,
    // put 1; 1
    PutRead {
        task: Task,
    },
    // FIFO's put 2
    PutTail {
        task: Task,
        head: u32,
    },
    // put 2; 3
    PutTest {
        task: Task,
        read: Anchor,
    },
    // put 3a, 3b ..; 4a, 4b ..: `word` is the task's word to be written
    PutWord {
        task: Task,
        read: Anchor,
        word: u32,
    },
    // put 4; 5
    PutFinish {
        task: Task,
        read: Anchor,
    },
    // X1
    Claim {
        why: Growth,
    },
    // X2
    Note {
        why: Growth,
    },
    // X3: `noted` indices from `head` on are to be copied, `copied` of them are
    Copy {
        why: Growth,
        head: u32,
        noted: u32,
        copied: u32,
    },
    // X4
    Publish {
        why: Growth,
    },
    // take 1; 1
    TakeRead,
    // FIFO's take 2
    TakeTail {
        head: u32,
    },
    // take 2; 3
    TakeTest {
        read: Anchor,
    },
    // take 3a, 3b ..; 4a, 4b ..: `word` is the task's word to be read; in `task` are those before it, the others are 0
    TakeWord {
        read: Anchor,
        task: Task,
        word: u32,
    },
    // take 4; 5
    TakeFinish {
        read: Anchor,
        task: Task,
    },
    // steal 1; 1
    StealRead,
    // FIFO's steal 2
    StealTail {
        head: u32,
    },
    // steal 2; 3
    StealTest {
        read: Anchor,
    },
    // steal 3; 4
    StealNote {
        read: Anchor,
    },
    // steal 4a, 4b ..; 5a, 5b ..: `place` is the noted array's place in the directory
    StealWord {
        read: Anchor,
        place: u32,
        task: Task,
        word: u32,
    },
    // figure 3's steal 5
    StealNext {
        read: Anchor,
        task: Task,
    },
    // steal 5, in figure 3 steal 6; 6: `next` is figure 3's h2, else 0
    StealCompare {
        read: Anchor,
        next: u32,
        task: Task,
    },
}

// A worker's record; a worker is the field's thread.
#[derive(Clone, Copy)]
pub struct Worker {
    pub line: Line,
}

// A pair of the directory: an array's offset and length in the store, in words. Where a figure has a pointer to an array, the
// bench has the pair's place in the directory: a thief notes the place, as the figure's thief reads the pointer.
#[derive(Clone, Copy, PartialEq, Eq)]
pub struct Region {
    pub offset: u32,
    pub length: u32,
}

// What X1 finds in the store: the next free word, and how many words are left for an array of its queue.
#[derive(Clone, Copy, PartialEq, Eq)]
pub struct Room {
    pub next: u32,
    pub left: u32,
}

// The shared words outside the store: the anchor, and the directory of arrays (sizes 1 to 1,024 are
// at most 11). The first `published` pairs are published, the first `claimed` are claimed. `initial` is the first array's size, in
// tasks: it never changes, and array k's is this, doubled k times, so that no line has to divide a length for a size. On a machine
// with load-linked and store-conditional the anchor is `linked`, and `links` says which workers hold a link to it.
#[derive(Clone, Copy)]
pub struct Queue {
    pub linked: bool,
    pub anchor: Anchor,
    pub arrays: [Region; 11],
    pub published: u32,
    pub claimed: u32,
    pub initial: u32,
    pub links: [bool; 8],
}

// The owner's waiting line: the first `count` stores wait, the oldest first.
#[derive(Clone, Copy)]
pub struct Waiting {
    pub stores: [Store; 8],
    pub count: u32,
}

// The bench's state. `width` is the tag's, `words` counts the payload words of a task; with `delayed` the owner's stores wait before
// they reach memory; `crew` counts the workers, `aside` the words that an ask has set aside (0 without one), `used` the put numbers
// given out, `restarts` each worker's compares that failed (the field's retries); `written` is the log's length, in words.
#[derive(Clone, Copy)]
pub struct Bench {
    pub kind: Kind,
    pub width: u32,
    pub words: u32,
    pub delayed: bool,
    pub crew: u32,
    pub queue: Queue,
    pub waiting: Waiting,
    pub aside: u32,
    pub used: u32,
    pub restarts: [u32; 8],
    pub written: u32,
    pub workers: [Worker; 8],
}

// A queue of a yard: its bench, and its quota of words.
#[derive(Clone, Copy)]
pub struct Plot {
    pub bench: Bench,
    pub quota: u32,
}

// Up to four queues over one store, in the order of their making. Of the four plots the first `made` are made.
#[derive(Clone, Copy)]
pub struct Yard {
    pub plots: [Plot; 4],
    pub made: u32,
}

// What fresh is told: the kind's number (1 LIFO, 2 FIFO, 3 double-ended; 4 and 5 are 1 and 3, linked), the tag's width in bits, the
// size of the first array in tasks, how many workers there are, how many payload words a task has, and whether the owner's stores
// are delayed. It may be told any numbers, so the kind is one here, and in a `Command`.
#[derive(Clone, Copy)]
pub struct Setup {
    pub kind: u32,
    pub width: u32,
    pub size: u32,
    pub crew: u32,
    pub words: u32,
    pub delayed: bool,
}

// What a begin gives a worker to do.
#[derive(Clone, Copy, PartialEq, Eq)]
pub enum Operation {
    Put { payload: Payload },
    Take,
    Steal,
    Commit,
}

// The table of refusals, in its order (14 and 15 are the judge's own).
#[derive(Clone, Copy, PartialEq, Eq)]
pub enum Refusal {
    UnknownQueue,
    TagWidth,
    ArraySize,
    Crew,
    ShortStore,
    NoSuchWorker,
    BusyWorker,
    IdleWorker,
    WrongHand,
    NumbersSpent,
    LogFull,
    ForeignState,
    BadLine,
    PayloadWords,
    NoLink,
    WaitingFull,
    NoneWaiting,
    NoSpace,
    AskStands,
    NoAsk,
    ShortQuota,
    NoSuchQueue,
}

// What a call answers: a fresh, a begin or an event is accepted (a put with its number); a step goes on, or ends its operation with an
// entry of the log; or the call is refused. A hand-out is what the field calls an extraction: a take or a steal returns a task.
// FULL is the bench's own: the figures' `expand` always finds memory. Grown ends a commit.
#[derive(Clone, Copy, PartialEq, Eq)]
pub enum Answer {
    Accepted,
    Numbered { number: u32 },
    GoesOn,
    Finished { worker: u32, task: Task },
    HandedOut { worker: u32, task: Task },
    Empty { worker: u32 },
    Full { worker: u32, task: Task },
    Grown { worker: u32 },
    Refused { why: Refusal },
}

// A line of the bench program's input: `queue`, `put`, `take`, `steal`, `step`, `who`, `end`, or none of these forms. Of a `queue`
// without a sixth number `words` is 1; a `put` says how many words it has.
#[derive(Clone, Copy)]
pub enum Command {
    Open {
        kind: u32,
        width: u32,
        size: u32,
        workers: u32,
        store: u32,
        words: u32,
    },
    BeginPut {
        words: u32,
        payload: Payload,
    },
    BeginTake,
    BeginSteal {
        worker: u32,
    },
    Steps {
        worker: u32,
        times: u32,
    },
    Who {
        worker: u32,
    },
    End,
    Bad,
}

// The six counts of `T`. The restarts are the sum of eight counts, and may not fit 32 bits.
#[derive(Clone, Copy)]
pub struct Counts {
    pub finished: u32,
    pub handouts: u32,
    pub different: u32,
    pub restarts: u64,
    pub window: u32,
    pub lost: u32,
}

// What differs from figure to figure of the lines: which line follows a read, a test or X2. `anchor` is the anchor now, `read` the
// anchor as a worker read it at line 1. What becomes of the anchor is told by `anchors`, where an index lies by `slots`.
// Uses `model`. It is used by `lines`.

#![tactic(auto, using(model::proofs::Tests::tests))]

ghost use Rattle.std.specs.Prelude.{◌≡◌, ◌≤◌};
ghost use Rattle.model.specs.declared.Line.TheVariants.{Claim, PutWord};
ghost use Rattle.model.specs.declared.Growth.TheVariants.{ForPut};
ghost use Rattle.model.specs.Tests.{when◌then◌else◌};
ghost use Rattle.model.specs.Figures.{is_full, put_read, take_read, steal_read, steal_last, note_all, note};
ghost use Rattle.model.specs.Lines.{copy_on, put_on, take_on, steal_on};
ghost use Rattle.figures.specs.Bounds.{Ordered};

use model::{Anchor, Growth, Kind, Line, Task};

// Put 2 (FIFO 3): t = size; tail = head + size; s = size.
fn is_full(kind: Kind, size: u32, read: Anchor) -> bool
    requires { (read.head ≤ 65535) × (size ≤ 1024) }
    ensures { result ≡ is_full kind size read }
{
    match kind {
        Kind::Lifo => read.count == size,
        Kind::Fifo => read.count == read.head + size,
        Kind::Deque => read.count == size,
    }
}

// The three reads at line 1 and the three next words stay three functions each, as the definitions are: each has lines of its own,
// and one for all would be told both of them by its caller.
// Put 1: the anchor is read whole; FIFO's put 1 reads the head, its put 2 the tail.
pub fn put_read(kind: Kind, anchor: Anchor, task: Task) -> Line
    ensures { result ≡ put_read kind anchor task }
{
    match kind {
        Kind::Lifo => Line::PutTest { task, read: anchor },
        Kind::Fifo => Line::PutTail {
            task,
            head: anchor.head,
        },
        Kind::Deque => Line::PutTest { task, read: anchor },
    }
}

// Take 1, as put 1.
pub fn take_read(kind: Kind, anchor: Anchor) -> Line
    ensures { result ≡ take_read kind anchor }
{
    match kind {
        Kind::Lifo => Line::TakeTest { read: anchor },
        Kind::Fifo => Line::TakeTail { head: anchor.head },
        Kind::Deque => Line::TakeTest { read: anchor },
    }
}

// Steal 1, as take 1.
pub fn steal_read(kind: Kind, anchor: Anchor) -> Line
    ensures { result ≡ steal_read kind anchor }
{
    match kind {
        Kind::Lifo => Line::StealTest { read: anchor },
        Kind::Fifo => Line::StealTail { head: anchor.head },
        Kind::Deque => Line::StealTest { read: anchor },
    }
}

// Put 2 (FIFO 3): X1 if the array of `size` tasks is full, else the write.
pub fn put_test(kind: Kind, size: u32, read: Anchor, task: Task) -> Line
    requires { (read.head ≤ 65535) × (size ≤ 1024) }
    ensures { result ≡ when◌then◌else◌ (is_full kind size read) (Claim (ForPut task)) (PutWord task read 0) }
{
    let full = is_full(kind, size, read);
    if full {
        let why = Growth::ForPut { task };
        Line::Claim { why }
    } else {
        Line::PutWord {
            task,
            read,
            word: 0,
        }
    }
}

// What follows the last word of steal 4 (FIFO 5): the compare; figure 3's line 5 works out h2 first.
fn steal_last(kind: Kind, read: Anchor, task: Task) -> Line
    ensures { result ≡ steal_last kind read task }
{
    match kind {
        Kind::Lifo => Line::StealCompare {
            read,
            next: 0,
            task,
        },
        Kind::Fifo => Line::StealCompare {
            read,
            next: 0,
            task,
        },
        Kind::Deque => Line::StealNext { read, task },
    }
}

// X2: `noted` indices from `head` on are to be copied; with none, X4 is next.
fn note_all(why: Growth, head: u32, noted: u32) -> Line
    ensures { result ≡ note_all why head noted }
{
    if noted == 0 {
        Line::Publish { why }
    } else {
        Line::Copy {
            why,
            head,
            noted,
            copied: 0,
        }
    }
}

// X2: LIFO notes slots 0 to size−1; FIFO head to tail−1, figure 3 h to h+s−1, as they are now.
pub fn note_for(kind: Kind, size: u32, anchor: Anchor, why: Growth) -> Line
    requires { Ordered kind anchor }
    ensures { result ≡ note kind size anchor why }
{
    match kind {
        Kind::Lifo => note_all(why, 0, size),
        Kind::Fifo => note_all(why, anchor.head, anchor.count - anchor.head),
        Kind::Deque => note_all(why, anchor.head, anchor.count),
    }
}

// X3 has copied one task more: the next one, or X4.
pub fn copy_on(why: Growth, head: u32, noted: u32, copied: u32) -> Line
    requires { copied ≤ 1024 }
    ensures { result ≡ copy_on why head noted copied }
{
    let up = copied + 1;
    if up == noted {
        Line::Publish { why }
    } else {
        Line::Copy {
            why,
            head,
            noted,
            copied: up,
        }
    }
}

// Put 3 (FIFO 4) has written a word: the next one, or put 4 (FIFO 5).
pub fn put_on(words: u32, task: Task, read: Anchor, word: u32) -> Line
    requires { word ≤ 4 }
    ensures { result ≡ put_on words task read word }
{
    let up = word + 1;
    if word == words {
        Line::PutFinish { task, read }
    } else {
        Line::PutWord {
            task,
            read,
            word: up,
        }
    }
}

// Take 3 (FIFO 4) has read a word: the next one, or take 4 (FIFO 5).
pub fn take_on(words: u32, read: Anchor, task: Task, word: u32) -> Line
    requires { word ≤ 4 }
    ensures { result ≡ take_on words read task word }
{
    let up = word + 1;
    if word == words {
        Line::TakeFinish { read, task }
    } else {
        Line::TakeWord {
            read,
            task,
            word: up,
        }
    }
}

// Steal 4 (FIFO 5) has read a word: the next one, or what follows the last.
pub fn steal_on(kind: Kind, words: u32, read: Anchor, place: u32, task: Task, word: u32) -> Line
    requires { word ≤ 4 }
    ensures { result ≡ steal_on kind words read place task word }
{
    let up = word + 1;
    if word == words {
        steal_last(kind, read, task)
    } else {
        Line::StealWord {
            read,
            place,
            task,
            word: up,
        }
    }
}

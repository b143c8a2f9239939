// What a call hands back, and the pieces of a bench that the calls put together: a state made anew or with one worker's record
// replaced, and the queue with another anchor, with a claimed array published, or with a link set or cleared. Each is a
// definition's short name, as code.
// Uses `model`. It is used by `waiting`, `opening`, `events`, `machine`, `owner`, `queues`, `replies` and
// `listing`.

#![tactic(auto)]

ghost use Rattle.std.specs.Prelude.{◌≡◌, ◌≤◌, ◌<◌};
ghost use Rattle.model.specs.declared.Answer.TheVariants.{Refused};
ghost use Rattle.model.specs.Stores.{anchored, publishing, none_pending};
ghost use Rattle.model.specs.Calls.{blank_at, no_bench, link_set};
ghost use Rattle.state.specs.Pieces.{opened};

use model::{Anchor, Answer, Bench, Kind, Line, Queue, Refusal, Region, Store, Waiting, Worker};

// What a call hands back: the next state, and the answer.
#[derive(Clone, Copy)]
pub struct Returned {
    pub bench: Bench,
    pub answer: Answer,
}

// A refusal hands the state back as it came in.
pub fn refused(bench: Bench, why: Refusal) -> Returned
    ensures { result ≡ record { bench = bench; answer = Refused why } }
{
    let answer = Answer::Refused { why };
    Returned { bench, answer }
}

// A place of the waiting line in which no store waits.
pub fn none_pending() -> Store
    ensures { result ≡ none_pending }
{
    Store::StoreWord {
        place: 0,
        slot: 0,
        word: 0,
        value: 0,
    }
}

// A state with no operation open, over one array of `size` tasks of `words` payload words, at word `offset` of the store. It is told
// what the definition `blank_at` is: fresh's numbers with the kind looked up, for which a `Setup` has no place.
pub fn made(
    offset: u32,
    kind: Kind,
    linked: bool,
    width: u32,
    size: u32,
    crew: u32,
    words: u32,
    delayed: bool,
) -> Bench
    requires size_bound { size ≤ 1024 }
    requires words_bound { words ≤ 4 }
    ensures { result ≡ blank_at offset kind linked width size crew words delayed }
{
    let long = (words + 1) * size;
    let none = none_pending();
    let mut arrays = [Region {
        offset: 0,
        length: 0,
    }; 11];
    arrays[0] = Region {
        offset,
        length: long,
    };
    Bench {
        kind,
        width,
        words,
        delayed,
        crew,
        queue: Queue {
            linked,
            anchor: Anchor {
                head: 0,
                count: 0,
                tag: 0,
            },
            arrays,
            published: 1,
            claimed: 1,
            initial: size,
            links: [false; 8],
        },
        waiting: Waiting {
            stores: [none; 8],
            count: 0,
        },
        aside: 0,
        used: 0,
        restarts: [0; 8],
        written: 0,
        workers: [Worker { line: Line::Idle }; 8],
    }
}

// No bench: what a refused fresh hands back has no crew, and every call refuses it.
pub fn none() -> Bench
    ensures { result ≡ no_bench }
{
    made(0, Kind::Lifo, false, 0, 0, 0, 0, false)
}

// A worker gets its first line.
pub fn opens(bench: Bench, worker: usize, used: u32, line: Line) -> Bench
    requires { worker < 8 }
    ensures { result ≡ opened bench worker used line }
{
    let mut next = bench;
    next.used = used;
    next.workers[worker] = Worker { line };
    next
}

// X4's note: the array at `place` of the directory becomes current.
pub fn publish(queue: Queue, place: u32) -> Queue
    requires { place ≤ 11 }
    ensures { result ≡ publishing queue place }
{
    let mut next = queue;
    next.published = place + 1;
    next
}

// A write of the anchor, which breaks every link.
pub fn with_anchor(queue: Queue, anchor: Anchor) -> Queue
    ensures { result ≡ anchored queue anchor }
{
    let mut next = queue;
    next.anchor = anchor;
    next.links = [false; 8];
    next
}

// A worker's link, held or not.
pub fn with_link(queue: Queue, worker: usize, held: bool) -> Queue
    requires { worker < 8 }
    ensures { result ≡ link_set queue worker held }
{
    let mut next = queue;
    next.links[worker] = held;
    next
}

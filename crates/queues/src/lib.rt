// The bench for idempotent work-stealing queues: one owner and up to seven thieves, played one line at
// a time in the order that the caller chooses. A bench is a value; each call takes it and hands the
// next one back, beside the store and the log that the caller lends. A call may be handed any state,
// any numbers and any memory: it is refused where document 01 says so, and then changes nothing.
// A yard has up to four such queues over one store: a call names the queue, and is lent this queue's log.
// Uses `model`, `answers`, `stages`, `slots`, `rooms`, `limits`, `memory`, `state`, `waiting`, `opening`, `events`, `machine`, `owner`,
// `plots` (in contracts), `steps` and `yard_calls`. It is used by `plays`, `calls`, `tries`, the exercises and `pace`.

#![tactic(auto)]

ghost use Rattle.std.specs.Prelude.{◌≡◌, List, [], ℕ, get_or, set};
ghost use Rattle.model.specs.declared.Answer.TheVariants.{Refused};
ghost use Rattle.model.specs.Answers.{number_of, entry_of};
ghost use Rattle.model.specs.Calls.{lent, fresh_of, begin_of, step_of, drop_link_of, drain_of, ask_of, drop_ask_of, who_of, front_of};
ghost use Rattle.model.specs.Calls.{begin, step, drop_link, drain, ask, drop_ask};
ghost use Rattle.model.specs.Yard.{on_of, make_of, whole_store, who_at, front_at, bare};
ghost use Rattle.answers.specs.Entries.{as_defined};
ghost use Rattle.plots.specs.Places.{the_ground};
ghost use Rattle.queues.specs.Left.{left, yielded};

use answers::Entry;
use machine::Made;
use model::{Answer, Operation, Refusal, Setup, Worker};

#[derive(Clone, Copy)]
pub struct Bench {
    pub state: model::Bench,
}

// The next bench, and the answer.
#[derive(Clone, Copy)]
pub struct Reply {
    pub bench: Bench,
    pub answer: Answer,
}

// A refusal's number in document 01's table.
pub fn number_of(why: Refusal) -> u32
    ensures { result ≡ number_of why }
{
    answers::number_of(why)
}

// The log entry of an answer that ends an operation; of another answer kind 0.
pub fn entry_of(answer: Answer) -> Entry
    ensures { as_defined result ≡ entry_of answer }
{
    answers::entry_of(answer)
}

// What a call hands back, with the bench's methods.
fn reply_of(reply: state::Returned) -> Reply
    ensures { result ≡ record { bench = record { state = reply.bench }; answer = reply.answer } }
{
    let state = reply.bench;
    let answer = reply.answer;
    Reply {
        bench: Bench { state },
        answer,
    }
}

// A refusal hands the bench back as it came in.
fn refused(bench: Bench, why: Refusal) -> Reply
    ensures { result ≡ record { bench = bench; answer = Refused why } }
{
    let answer = Answer::Refused { why };
    Reply { bench, answer }
}

impl Bench {
    // A bench as it is told, on a store whose first words it zeroes. A refused fresh makes no bench: what it hands back has no
    // crew, and every call refuses it.
    pub fn fresh(setup: Setup, store: &mut [u32]) -> Reply
        ensures { (l : List ℕ) → left result store.new l ≡ fresh_of setup store.old l }
    {
        reply_of(opening::fresh(setup, store))
    }

    // Gives an idle worker an operation; it does no line.
    pub fn begin(self, worker: u32, operation: Operation, store: &[u32], log: &[u32]) -> Reply
        ensures { left result store.now log.now ≡ begin_of (lent self.state store.now log.now) worker operation }
    {
        reply_of(opening::begin(self.state, worker, operation, store, log))
    }

    // One line of a worker's operation.
    pub fn step(self, worker: u32, store: &mut [u32], log: &mut [u32]) -> Reply
        ensures { left result store.new log.new ≡ step_of (lent self.state store.old log.old) worker }
    {
        let mut next = self.state;
        if !limits::valid(next, store, log) {
            return refused(Bench { state: next }, Refusal::ForeignState);
        }
        let i = machine::place_of(worker);
        let own = next.workers[i];
        let line = own.line;
        let room = rooms::room_at(line, next.queue, store);
        let kind = next.kind;
        let joins = steps::delays(next.delayed, worker);
        // The owner with delayed stores reads memory with its waiting stores put down.
        let mut queue = next.queue;
        let mut kept = [0u32; 8];
        if joins {
            queue = waiting::seen(next.queue, next.waiting);
            kept = waiting::put_down(next.words, next.queue, next.waiting, store);
        }
        let moved = machine::step_in(
            room,
            kind,
            next.width,
            next.words,
            next.crew,
            queue,
            next.written,
            worker,
            line,
            joins,
            store,
            log,
        );
        let to = moved.line;
        let made = moved.made;
        // Most steps change only their worker's record, and a compare that fails also its count: these are made in place.
        // What the others leave is put into the same local, so that every reply is one copy of it.
        let Made::Nothing = made else {
            if let Made::Fails = made {
                let count = stages::one_more(next.restarts[i]);
                next.restarts[i] = count;
                let back = Worker { line: to };
                next.workers[i] = back;
                return Reply {
                    bench: Bench { state: next },
                    answer: Answer::GoesOn,
                };
            }
            let mut answer = Answer::GoesOn;
            if joins {
                let done = owner::finish(next, to, made, kept, store, log);
                answer = done.answer;
                next = done.bench;
            } else {
                let done = machine::settled(next, i, to, made);
                answer = done.answer;
                next = done.bench;
            }
            return Reply {
                bench: Bench { state: next },
                answer,
            };
        };
        next.workers[i] = Worker { line: to };
        Reply {
            bench: Bench { state: next },
            answer: Answer::GoesOn,
        }
    }

    // A thief's link fails for no reason.
    pub fn drop_link(self, worker: u32, store: &[u32], log: &[u32]) -> Reply
        ensures { left result store.now log.now ≡ drop_link_of (lent self.state store.now log.now) worker }
    {
        reply_of(events::drop_link(self.state, worker, store, log))
    }

    // The oldest of the owner's waiting stores reaches its place in memory.
    pub fn drain(self, store: &mut [u32], log: &[u32]) -> Reply
        ensures { left result store.new log.now ≡ drain_of (lent self.state store.old log.now) }
    {
        reply_of(events::drain(self.state, store, log))
    }

    // An idle owner asks for growth: as many words as an array of twice the size takes are set aside.
    pub fn ask(self, worker: u32, store: &[u32], log: &[u32]) -> Reply
        ensures { left result store.now log.now ≡ ask_of (lent self.state store.now log.now) worker }
    {
        reply_of(events::ask(self.state, worker, store, log))
    }

    // An idle owner gives them back.
    pub fn drop_ask(self, worker: u32, store: &[u32], log: &[u32]) -> Reply
        ensures { left result store.now log.now ≡ drop_ask_of (lent self.state store.now log.now) worker }
    {
        reply_of(events::drop_ask(self.state, worker, store, log))
    }

    // A worker's restarts: its compares that failed. Nothing changes.
    pub fn who(self, worker: u32, store: &[u32], log: &[u32]) -> Result<u32, Refusal>
        ensures { result ≡ who_of (lent self.state store.now log.now) worker }
    {
        events::tally(self.state, worker, store, log)
    }

    // The written front of the log, a part of the caller's own slice.
    pub fn front(self, log: &[u32]) -> &[u32]
        ensures { result.now ≡ front_of self.state log.now }
    {
        memory::front(self.state, log)
    }
}

#[derive(Clone, Copy)]
pub struct Yard {
    pub state: model::Yard,
}

// The next yard, and the answer.
#[derive(Clone, Copy)]
pub struct YardReply {
    pub yard: Yard,
    pub answer: Answer,
}

// What a call of a yard hands back, with the yard's methods.
fn yard_reply_of(reply: yard_calls::Yielded) -> YardReply
    ensures { result ≡ record { yard = record { state = reply.yard }; answer = reply.answer } }
{
    let state = reply.yard;
    let answer = reply.answer;
    YardReply {
        yard: Yard { state },
        answer,
    }
}

// The logs are the caller's. A contract holds for every list of logs in which the lent one has the queue's place.
impl Yard {
    // A yard without queues.
    pub fn bare() -> Yard
        ensures { result.state ≡ bare }
    {
        let state = yard_calls::bare();
        Yard { state }
    }

    // The next queue, as it is told, with the whole store as its quota. Its first array alone is zeroed.
    pub fn make(self, setup: Setup, store: &mut [u32]) -> YardReply
        ensures { (ls : List (List ℕ)) (l : List ℕ) → yielded result store.new (make_of (the_ground self.state store.old ls) setup (whole_store store.old) l).the_ground.logs ≡ make_of (the_ground self.state store.old ls) setup (whole_store store.old) l }
    {
        let quota = slots::usable(store);
        yard_reply_of(yard_calls::make(self.state, setup, quota, store))
    }

    // With a quota of words.
    pub fn make_within(self, setup: Setup, quota: u32, store: &mut [u32]) -> YardReply
        ensures { (ls : List (List ℕ)) (l : List ℕ) → yielded result store.new (make_of (the_ground self.state store.old ls) setup quota l).the_ground.logs ≡ make_of (the_ground self.state store.old ls) setup quota l }
    {
        yard_reply_of(yard_calls::make(self.state, setup, quota, store))
    }

    // Gives an idle worker of the queue an operation; it does no line.
    pub fn begin(
        self,
        queue: u32,
        worker: u32,
        operation: Operation,
        store: &[u32],
        log: &[u32],
    ) -> YardReply
        ensures { (ls : List (List ℕ)) → get_or ls queue [] ≡ log.now → yielded result store.now (set ls queue log.now) ≡ on_of (the_ground self.state store.now ls) queue (begin worker operation) }
    {
        yard_reply_of(yard_calls::begin(self.state, queue, worker, operation, store, log))
    }

    // One line of a worker's operation.
    pub fn step(self, queue: u32, worker: u32, store: &mut [u32], log: &mut [u32]) -> YardReply
        ensures { (ls : List (List ℕ)) → get_or ls queue [] ≡ log.old → yielded result store.new (set ls queue log.new) ≡ on_of (the_ground self.state store.old ls) queue (step worker) }
    {
        yard_reply_of(yard_calls::step(self.state, queue, worker, store, log))
    }

    // A thief's link fails for no reason.
    pub fn drop_link(self, queue: u32, worker: u32, store: &[u32], log: &[u32]) -> YardReply
        ensures { (ls : List (List ℕ)) → get_or ls queue [] ≡ log.now → yielded result store.now (set ls queue log.now) ≡ on_of (the_ground self.state store.now ls) queue (drop_link worker) }
    {
        yard_reply_of(yard_calls::drop_link(self.state, queue, worker, store, log))
    }

    // The oldest of the queue's waiting stores reaches its place in memory.
    pub fn drain(self, queue: u32, store: &mut [u32], log: &[u32]) -> YardReply
        ensures { (ls : List (List ℕ)) → get_or ls queue [] ≡ log.now → yielded result store.new (set ls queue log.now) ≡ on_of (the_ground self.state store.old ls) queue drain }
    {
        yard_reply_of(yard_calls::drain(self.state, queue, store, log))
    }

    // An idle owner asks for growth, within its quota and what the other queues leave.
    pub fn ask(self, queue: u32, worker: u32, store: &[u32], log: &[u32]) -> YardReply
        ensures { (ls : List (List ℕ)) → get_or ls queue [] ≡ log.now → yielded result store.now (set ls queue log.now) ≡ on_of (the_ground self.state store.now ls) queue (ask worker) }
    {
        yard_reply_of(yard_calls::ask(self.state, queue, worker, store, log))
    }

    // An idle owner gives the words back.
    pub fn drop_ask(self, queue: u32, worker: u32, store: &[u32], log: &[u32]) -> YardReply
        ensures { (ls : List (List ℕ)) → get_or ls queue [] ≡ log.now → yielded result store.now (set ls queue log.now) ≡ on_of (the_ground self.state store.now ls) queue (drop_ask worker) }
    {
        yard_reply_of(yard_calls::drop_ask(self.state, queue, worker, store, log))
    }

    // The restarts of a worker of the queue. Nothing changes.
    pub fn who(self, queue: u32, worker: u32, store: &[u32], log: &[u32]) -> Result<u32, Refusal>
        ensures { (ls : List (List ℕ)) → get_or ls queue [] ≡ log.now → result ≡ who_at (the_ground self.state store.now ls) queue worker }
    {
        yard_calls::tally(self.state, queue, worker, store, log)
    }

    // The written front of the queue's log, a part of the caller's own slice; of a queue that is not made, nothing.
    pub fn front(self, queue: u32, log: &[u32]) -> &[u32]
        ensures { (m : List ℕ) (ls : List (List ℕ)) → get_or ls queue [] ≡ log.now → result.now ≡ front_at (the_ground self.state m ls) queue }
    {
        yard_calls::front(self.state, queue, log)
    }
}

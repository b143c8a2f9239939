// What an answer says in document 01's numbers: a refusal's number, and the log entry of an answer that ends an operation.
// Uses `model` and `tasks`. It is used by `memory`, `machine`, `replies`, `queues` and `plays`.

#![tactic(auto)]

ghost use Rattle.std.specs.Prelude.{◌≡◌};
ghost use Rattle.model.specs.Answers.{number_of, entry_of};
ghost use Rattle.answers.specs.Entries.{as_defined};

use model::{Answer, Refusal, Task};

// An entry of the log. Its kind is a number, 0 where there is no entry, as the definition `entry_of` and the log's words have it.
#[derive(Clone, Copy)]
pub struct Entry {
    pub kind: u32,
    pub worker: u32,
    pub task: Task,
}

// A refusal's number in document 01's table. A function, not a conversion: the face names it, and two numbers of the table are the
// judge's.
pub fn number_of(why: Refusal) -> u32
    ensures { result ≡ number_of why }
{
    match why {
        Refusal::UnknownQueue => 1,
        Refusal::TagWidth => 2,
        Refusal::ArraySize => 3,
        Refusal::Crew => 4,
        Refusal::ShortStore => 5,
        Refusal::NoSuchWorker => 6,
        Refusal::BusyWorker => 7,
        Refusal::IdleWorker => 8,
        Refusal::WrongHand => 9,
        Refusal::NumbersSpent => 10,
        Refusal::LogFull => 11,
        Refusal::ForeignState => 12,
        Refusal::BadLine => 13,
        Refusal::PayloadWords => 16,
        Refusal::NoLink => 17,
        Refusal::WaitingFull => 18,
        Refusal::NoneWaiting => 19,
        Refusal::NoSpace => 20,
        Refusal::AskStands => 21,
        Refusal::NoAsk => 22,
        Refusal::ShortQuota => 23,
        Refusal::NoSuchQueue => 24,
    }
}

fn entry_with(kind: u32, worker: u32, task: Task) -> Entry
    ensures { result ≡ record { kind = kind; worker = worker; task = task } }
{
    Entry {
        kind: kind,
        worker: worker,
        task: task,
    }
}

// The entry of an answer; kind 0 where the answer ends no operation.
pub fn entry_of(answer: Answer) -> Entry
    ensures { as_defined result ≡ entry_of answer }
{
    let none = tasks::no_task();
    match answer {
        Answer::Accepted => entry_with(0, 0, none),
        Answer::Numbered { .. } => entry_with(0, 0, none),
        Answer::GoesOn => entry_with(0, 0, none),
        Answer::Finished { worker, task } => entry_with(1, worker, task),
        Answer::HandedOut { worker, task } => entry_with(2, worker, task),
        Answer::Empty { worker } => entry_with(3, worker, none),
        Answer::Full { worker, task } => entry_with(4, worker, task),
        Answer::Grown { worker } => entry_with(5, worker, none),
        Answer::Refused { .. } => entry_with(0, 0, none),
    }
}

// What fresh and begin admit: the ranges of fresh's five numbers, who may begin what, whether a put number is left, and
// whether a commit has been asked for.
// Uses `model`. It is used by `limits` and `opening`.

#![tactic(auto, using(model::proofs::Tests::tests))]

ghost use Rattle.std.specs.Prelude.{◌≡◌, ltb, leb};
ghost use Rattle.model.specs.Tests.{◌and◌};
ghost use Rattle.model.specs.Limits.{is_size, width_ok, crew_ok, words_ok};
ghost use Rattle.model.specs.Calls.{kind_of, linked_of, right_hand, numbers_left, asked};

use model::{Kind, Operation};

// Fresh is told any number as its kind, and the definitions `admitted`, `kind_of` and `linked_of` look at it one by one: there is no
// conversion that fails, since a bench is made apart from the test of its numbers.
pub fn kind_ok(kind: u32) -> bool
    ensures { result ≡ (ltb 0 kind and leb kind 5) }
{
    0 < kind && kind <= 5
}

// Kinds 4 and 5 are 1 and 3, linked.
pub fn kind_of(kind: u32) -> Kind
    ensures { result ≡ kind_of kind }
{
    match kind {
        1 | 4 => Kind::Lifo,
        2 => Kind::Fifo,
        _ => Kind::Deque,
    }
}

pub fn linked_of(kind: u32) -> bool
    ensures { result ≡ linked_of kind }
{
    3 < kind
}

pub fn width_ok(width: u32) -> bool
    ensures { result ≡ width_ok width }
{
    0 < width && width <= 16
}

// The sizes of arrays, in tasks.
pub fn is_size(tasks: u32) -> bool
    ensures { result ≡ is_size 10 tasks }
{
    matches!(tasks, 1 | 2 | 4 | 8 | 16 | 32 | 64 | 128 | 256 | 512 | 1024)
}

pub fn crew_ok(crew: u32) -> bool
    ensures { result ≡ crew_ok crew }
{
    0 < crew && crew <= 8
}

// The payload words of a task.
pub fn words_ok(words: u32) -> bool
    ensures { result ≡ words_ok words }
{
    0 < words && words <= 4
}

// The owner puts, takes and commits, a thief steals.
pub fn right_hand(worker: u32, operation: Operation) -> bool
    ensures { result ≡ right_hand worker operation }
{
    match operation {
        Operation::Put { .. } | Operation::Take | Operation::Commit => worker == 0,
        Operation::Steal => 0 < worker,
    }
}

pub fn numbers_left(operation: Operation, used: u32) -> bool
    ensures { result ≡ numbers_left operation used }
{
    match operation {
        Operation::Put { .. } => used < 65535,
        _ => true,
    }
}

// A commit needs words set aside.
pub fn asked(operation: Operation, aside: u32) -> bool
    ensures { result ≡ asked operation aside }
{
    match operation {
        Operation::Commit => 0 < aside,
        _ => true,
    }
}

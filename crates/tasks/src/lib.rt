// The words of a task: one of them read or replaced, those that a put does not use cut off, those past the known ones tested for
// 0.
// Uses `model`. It is used by `answers`, `ranges`, `slots`, `lines`, `owner` and `opening`.

#![tactic(auto, using(model::proofs::Tests::tests))]

ghost use Rattle.std.specs.Prelude.{◌≡◌, ◌+◌, ◌≤◌, ◌<◌, eqb, ltb};
ghost use Rattle.model.specs.Tests.{◌and◌, ◌or◌};
ghost use Rattle.model.specs.Tasks.{no_task, word_in, with_word, first_words, none_from};

use model::{Payload, Task};

// Word `word` of the task: word 0 is the put number.
#[tactic(auto, unfolding(model::specs::Tasks::word_in))]
pub fn word_in(task: Task, word: u32) -> u32
    requires { word ≤ 4 }
    ensures { result ≡ word_in task word }
{
    let p = task.payload;
    match word {
        0 => task.number,
        1 => p.first,
        2 => p.second,
        3 => p.third,
        _ => p.fourth,
    }
}

const NO_PAYLOAD: Payload = Payload {
    first: 0,
    second: 0,
    third: 0,
    fourth: 0,
};

// No word read yet.
pub fn no_task() -> Task
    ensures { result ≡ no_task }
{
    Task {
        number: 0,
        payload: NO_PAYLOAD,
    }
}

// The task with another word `word`.
#[tactic(auto, unfolding(model::specs::Tasks::with_word))]
pub fn with_word(task: Task, word: u32, value: u32) -> Task
    requires { word ≤ 4 }
    ensures { result ≡ with_word task word value }
{
    let mut next = task;
    match word {
        0 => next.number = value,
        1 => next.payload.first = value,
        2 => next.payload.second = value,
        3 => next.payload.third = value,
        _ => next.payload.fourth = value,
    }
    next
}

// The task with `words` payload words; the others are 0.
#[tactic(auto, unfolding(model::specs::Tasks::gathered, model::specs::Tasks::word_in))]
pub fn cut(task: Task, words: u32) -> Task
    requires { (0 < words) × (words ≤ 4) }
    ensures { result ≡ first_words (words + 1) task }
{
    let p = task.payload;
    let payload = match words {
        1 => Payload {
            first: p.first,
            ..NO_PAYLOAD
        },
        2 => Payload {
            third: 0,
            fourth: 0,
            ..p
        },
        3 => Payload { fourth: 0, ..p },
        _ => p,
    };
    Task { payload, ..task }
}

// Word `word` is among the first `known`, or 0.
fn kept(known: u32, word: u32, value: u32) -> bool
    ensures { result ≡ (ltb word known or eqb value 0) }
{
    word < known || value == 0
}

// The words past the first `known` are 0.
pub fn none_from(known: u32, task: Task) -> bool
    ensures { result ≡ none_from known task }
{
    let p = task.payload;
    kept(known, 0, task.number)
        && kept(known, 1, p.first)
        && kept(known, 2, p.second)
        && kept(known, 3, p.third)
        && kept(known, 4, p.fourth)
}

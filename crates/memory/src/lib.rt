// The caller's memory: where a log entry goes, the log's written front, a task's words, a zeroed range of the store. Each is a
// definition's short name, as code.
// Uses `model` and `answers`. It is used by `opening`, `machine`, `owner` and `queues`.

#![tactic(auto, using(model::proofs::Tests::tests))]

ghost use Rattle.std.specs.Prelude.{◌≡◌, ◌+◌, ◌≤◌, ◌<◌, leb, length, replicate, take};
ghost use Rattle.model.specs.Tests.{◌and◌};
ghost use Rattle.model.specs.Tasks.{words_in};
ghost use Rattle.model.specs.Memory.{zeros, set_all};
ghost use Rattle.model.specs.Answers.{entry_length, entry_words};
ghost use Rattle.model.specs.Calls.{front_of};
ghost use Rattle.answers.specs.Entries.{as_defined};

use answers::Entry;
use model::{Bench, Task};

// The `count` words from `from` on become 0.
pub fn zero(store: &mut [u32], from: usize, count: usize)
    requires { from + count ≤ length store.old }
    ensures { store.new ≡ zeros store.old from count }
{
    let end = from + count;
    store[from..end].fill(0);
}

// The written front of the log, a part of the caller's slice.
pub fn front(bench: Bench, log: &[u32]) -> &[u32]
    ensures { result.now ≡ front_of bench log.now }
{
    let written = bench.written as usize;
    let all = log.len();
    if written < all { &log[..written] } else { log }
}

// The task's words, from word `at` of the list on: its number and `words` payload words.
pub fn write_task(list: &mut [u32], at: usize, words: u32, task: Task)
    requires words_nonzero { (0 < words) × (words ≤ 4) }
    requires words_in_bounds { at + (words + 1) ≤ length list.old }
    ensures { list.new ≡ set_all list.old at (take (words + 1) (words_in task)) }
{
    let p = task.payload;
    let first = at + 1;
    list[at] = task.number;
    list[first] = p.first;
    if words == 1 {
        return;
    }
    let second = first + 1;
    list[second] = p.second;
    if words == 2 {
        return;
    }
    let third = second + 1;
    list[third] = p.third;
    if words == 3 {
        return;
    }
    let fourth = third + 1;
    list[fourth] = p.fourth;
}

// The entry's words, from word `at` of the log on: 3 and `words` payload words.
pub fn write_entry(log: &mut [u32], at: usize, words: u32, entry: Entry)
    requires words_nonzero { (0 < words) × (words ≤ 4) }
    requires words_in_bounds { at + entry_length words ≤ length log.old }
    ensures { log.new ≡ set_all log.old at (entry_words words (as_defined entry)) }
{
    let second = at + 1;
    let third = second + 1;
    log[at] = entry.kind;
    log[second] = entry.worker;
    write_task(log, third, words, entry.task);
}

// The log has room for an entry, and its length can count it.
pub fn has_room(written: u32, words: u32, log: &[u32]) -> bool
    ensures { result ≡ (leb (written + entry_length words) (length log.now) and leb (written + entry_length words) 4294967295) }
{
    let long = 3 + words as usize;
    let end = written as usize + long;
    end <= log.len() && end <= 4294967295
}

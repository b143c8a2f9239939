// What the entries of a log say: of which kind they are, how many put numbers they hand out, and whether a task is handed out,
// all words of it. For any words, and any count of payload words.
// Uses `model` and `judgement`. It is used by `counts` and `hunter`.

#![tactic(auto)]

ghost use Rattle.std.specs.Prelude.{◌≡◌, ℕ, Bool, ◌+◌, ◌%◌, ◌≤◌, ◌<◌, get_or};
ghost use Rattle.model.specs.Tasks.{gathered};
ghost use Rattle.model.specs.Answers.{entry_length};
ghost use Rattle.model.specs.Counts.{entry_at, is_kind, some_below, count_below, out_as, out_whole, out_first};
ghost use Rattle.judgement.specs.Kinds.{number_of};
ghost use Rattle.handouts.specs.Starts.{Starts};
ghost use Rattle.handouts.specs.Seen.{Seen, LastLike};

use judgement::EntryKind;
use model::{Payload, Task};

// A word of the log or the store; 0 past its end.
pub fn word_at(memory: &[u32], at: u64) -> u32
    ensures { result ≡ get_or memory.now at 0 }
{
    let n = memory.len() as u64;
    if at < n { memory[at as usize] } else { 0 }
}

// Where the `count`-th of things of `each` words starts. No memory has 2^61 words: that far out one place is as good as another.
pub fn start_of(each: u64, count: u64) -> u64
    ensures { Starts each count result }
{
    each.saturating_mul(count).min(1 << 61)
}

// Payload word `k` of a task that starts at word `at`; 0 if it has fewer.
fn payload_at(words: u32, memory: &[u32], at: u64, k: u32) -> u32
    requires { (at ≤ 9223372041149743104) × (k ≤ 4) }
    ensures { (k ≤ words → result ≡ get_or memory.now (at + k) 0) × (words < k → result ≡ 0) }
{
    if k <= words {
        word_at(memory, at + u64::from(k))
    } else {
        0
    }
}

// The task of `words` payload words that starts at word `at`, of a log or of the store, which has no entries: so these three are told
// apart from a `Log`.
pub fn task_from(words: u32, memory: &[u32], at: u64) -> Task
    requires { at ≤ 9223372041149743104 }
    ensures { result ≡ gathered (words + 1) (λ k. get_or memory.now (at + k) 0) }
{
    Task {
        number: word_at(memory, at),
        payload: Payload {
            first: payload_at(words, memory, at, 1),
            second: payload_at(words, memory, at, 2),
            third: payload_at(words, memory, at, 3),
            fourth: payload_at(words, memory, at, 4),
        },
    }
}

// A log in the bench's memory, with so many payload words in an entry.
#[derive(Clone, Copy)]
pub struct Log<'a> {
    pub words: u32,
    pub memory: &'a [u32],
}

impl Log<'_> {
    // Where an entry starts.
    fn entry_start(&self, entry: u32) -> u64
        ensures { Starts (entry_length self.now.words) entry result }
    {
        start_of(3 + u64::from(self.words), u64::from(entry))
    }

    // The number of an entry's kind, known or not.
    pub fn kind_at(&self, entry: u32) -> u32
        ensures { result ≡ (entry_at self.now.words self.now.memory.now entry).kind }
    {
        word_at(self.memory, self.entry_start(entry))
    }

    // Whether an entry is of this kind.
    pub fn is_kind(&self, kind: EntryKind, entry: u32) -> bool
        ensures { result ≡ is_kind self.now.words self.now.memory.now (number_of kind) entry }
    {
        self.kind_at(entry) == kind as u32
    }

    // Its put number, and its task.
    fn number_at(&self, entry: u32) -> u32
        ensures { result ≡ (entry_at self.now.words self.now.memory.now entry).task.number }
    {
        word_at(self.memory, self.entry_start(entry) + 2)
    }

    pub fn task_at(&self, entry: u32) -> Task
        ensures { result ≡ (entry_at self.now.words self.now.memory.now entry).task }
    {
        task_from(self.words, self.memory, self.entry_start(entry) + 2)
    }

    // How many of the first `n` entries are of the kind with this number.
    pub fn entries_of(&self, kind: u32, n: u32) -> u32
        ensures { result ≡ count_below (is_kind self.now.words self.now.memory.now kind) n }
    {
        let mut count = 0;
        for j in 0..n {
            if self.kind_at(j) == kind {
                count += 1;
            }
        }
        count
    }

    // Whether an entry hands out this put number; whether it hands out the task, all words of it.
    fn hands_out_number(&self, number: u32, entry: u32) -> bool
        ensures { result ≡ out_as self.now.words self.now.memory.now number entry }
    {
        self.is_kind(EntryKind::HandOut, entry) && self.number_at(entry) == number
    }

    fn hands_out(&self, task: Task, entry: u32) -> bool
        ensures { result ≡ out_whole self.now.words self.now.memory.now task entry }
    {
        self.is_kind(EntryKind::HandOut, entry) && self.task_at(entry) == task
    }
}

// Whether one of the first `n` entries passes the test, from the last on. It stands apart in the program, so that the loops that seldom
// need it stay short: 4,096 hand-outs are counted in 23 microseconds so, and in 28 where it is inlined.
#[inline(never)]
fn scan<F: Fn(u32) -> bool>(n: u32, test: F) -> bool
    requires { F.IsAlwaysCallable test }
    ensures { (p : ℕ → Bool) → ((k : ℕ) (r : Bool) → F.post test k r → r ≡ p k) → result ≡ some_below p n }
{
    for j in (0..n).rev() {
        if test(j) {
            return true;
        }
    }
    false
}

// The same, where entry `likely` is tried first.
fn some_passes<F: Fn(u32) -> bool>(likely: u32, n: u32, test: F) -> bool
    requires { F.IsAlwaysCallable test }
    ensures { (p : ℕ → Bool) → ((k : ℕ) (r : Bool) → F.post test k r → r ≡ p k) → result ≡ some_below p n }
{
    if likely < n && test(likely) {
        return true;
    }
    scan(n, test)
}

// The hand-outs among the first entries of a log, and how many different put numbers they have. A table spares scans of the log: at
// the remainder of a put number it has 1 more than the last entry that hands out a number of this remainder, and 0 where none does.
// A 0 is sure; an entry is looked at again, since numbers can share a remainder.
#[derive(Drop)]
pub struct HandOuts<'a> {
    pub log: Log<'a>,
    pub entries: u32,
    pub different: u32,
    last: &'a mut [u32; 4096],
    pub ghost counted: { different ≡ count_below (out_first log.words log.memory.now) entries },
    pub ghost seen: { Seen log.words log.memory.now last.now entries },
}

impl<'a> HandOuts<'a> {
    // Those of the first `n` entries; the table may hold anything before.
    pub fn of(log: Log<'a>, n: u32, table: &'a mut [u32; 4096]) -> Self
        ensures of { (result.log ≡ log.entry) × (result.entries ≡ n) }
    {
        let mut outs = HandOuts {
            log,
            entries: 0,
            different: 0,
            last: table,
        };
        for _ in 0..n {
            outs.add_next();
        }
        outs
    }
}

impl HandOuts<'_> {
    // One entry more.
    fn add_next(&mut self)
        requires { self.old.entries < 4294967295 }
        ensures { (self.new.log ≡ self.old.log) × (self.new.entries ≡ self.old.entries + 1) }
    {
        if self.log.is_kind(EntryKind::HandOut, self.entries) {
            let number = self.log.number_at(self.entries);
            let first = !self.has_number(number);
            self.last[(number % 4096) as usize] = self.entries + 1;
            self.different += u32::from(first);
        }
        self.entries += 1;
    }

    // The last entry that hands out a number of the same remainder.
    fn last_like(&self, number: u32) -> Option<u32>
        ensures { LastLike self.now.log.words self.now.log.memory.now number self.now.entries result }
    {
        let last = &*self.last;
        last[(number % 4096) as usize].checked_sub(1)
    }

    // One of them has this put number. It scans only where the table's entry hands out another number.
    fn has_number(&self, number: u32) -> bool
        ensures { result ≡ some_below (out_as self.now.log.words self.now.log.memory.now number) self.now.entries }
    {
        let log = self.log;
        match self.last_like(number) {
            Some(last) => some_passes(last, self.entries, move |j| log.hands_out_number(number, j)),
            None => false,
        }
    }

    // One of them is the task. It scans only where the table's entry hands out another task.
    pub fn has(&self, task: Task) -> bool
        ensures { result ≡ some_below (out_whole self.now.log.words self.now.log.memory.now task) self.now.entries }
    {
        let log = self.log;
        match self.last_like(task.number) {
            Some(last) => some_passes(last, self.entries, |j| log.hands_out(task, j)),
            None => false,
        }
    }
}

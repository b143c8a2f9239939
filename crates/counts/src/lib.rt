// The six counts of `T`, worked out from log, store and state as the model defines them, for any memory and any state in which no
// store waits: the program's stores are not delayed.
// Uses `model`, `judgement` and `handouts`. It is used by `replies`.

#![tactic(auto)]

ghost use Rattle.std.specs.Prelude.{◌≡◌, [], ◌-◌, ◌/◌, ◌<◌, get_or};
ghost use Rattle.model.specs.Memory.{nowhere};
ghost use Rattle.model.specs.Window.{tasks, window_index, window_size};
ghost use Rattle.model.specs.Calls.{lent, restarts_of};
ghost use Rattle.model.specs.Counts.{some_below, count_below, sum_below, stands_at, is_lost, counts_of};
ghost use Rattle.counts.specs.Places.{Slot, window_task};

use handouts::{HandOuts, Log};
use judgement::EntryKind;
use model::{Bench, Counts, Kind, Queue, Region, Task};

// The current array's pair in the directory.
fn current(queue: Queue) -> Region
    ensures { result ≡ get_or queue.arrays (queue.published - 1) nowhere }
{
    let place = queue.published.saturating_sub(1) as usize;
    if place < queue.arrays.len() {
        queue.arrays[place]
    } else {
        Region {
            offset: 0,
            length: 0,
        }
    }
}

// The slot of an index in an array of `long` words, of tasks of `each` words. The model's remainder by 0 is the index itself. LIFO
// divides nothing: its window may be read whole for each put that is lost.
fn slot_of(kind: Kind, long: u64, each: u64, index: u64) -> u64
    requires { 0 < each }
    ensures { Slot kind (long / each) index result }
{
    match kind {
        Kind::Lifo => index,
        Kind::Fifo | Kind::Deque => index.checked_rem(long / each).unwrap_or(index),
    }
}

// The tasks that a queue holds: its current array in the store. No store waits.
#[derive(Clone, Copy)]
struct Window<'a> {
    bench: &'a Bench,
    array: Region,
    store: &'a [u32],
    pub ghost current: { array ≡ get_or bench.now.queue.arrays (bench.now.queue.published - 1) nowhere },
    pub ghost settled: { bench.now.waiting.count ≡ 0 },
}

impl Window<'_> {
    // How many there are.
    fn size(&self) -> u32
        ensures { result ≡ tasks self.now.bench.now.kind self.now.bench.now.queue.anchor }
    {
        let anchor = self.bench.queue.anchor;
        match self.bench.kind {
            Kind::Lifo | Kind::Deque => anchor.count,
            Kind::Fifo => anchor.count.saturating_sub(anchor.head),
        }
    }

    // The index of the i-th.
    fn index(&self, i: u32) -> u64
        ensures { result ≡ window_index self.now.bench.now.kind self.now.bench.now.queue.anchor i }
    {
        match self.bench.kind {
            Kind::Lifo => u64::from(i),
            Kind::Fifo | Kind::Deque => u64::from(self.bench.queue.anchor.head) + u64::from(i),
        }
    }

    // The i-th.
    fn task(&self, i: u32) -> Task
        ensures { result ≡ window_task self.now.bench.now.kind self.now.bench.now.words self.now.bench.now.queue.anchor self.now.array self.now.store.now i }
    {
        let words = self.bench.words;
        let each = u64::from(words) + 1;
        let slot = slot_of(
            self.bench.kind,
            u64::from(self.array.length),
            each,
            self.index(i),
        );
        let start = handouts::start_of(each, slot);
        handouts::task_from(words, self.store, u64::from(self.array.offset) + start)
    }

    // Whether one of them is this one. They are in the order of their puts, in which they are asked for: so the scan starts at `from`,
    // just past the task found last, and what lies below comes after.
    fn holds(&self, task: Task, from: &mut u32) -> bool
        ensures { result ≡ some_below (stands_at (lent self.now.bench.now self.now.store.now []) task) (window_size (lent self.now.bench.now self.now.store.now [])) }
    {
        let size = self.size();
        let start = size.min(*from);
        for j in start..size {
            if self.task(j) == task {
                *from = j + 1;
                return true;
            }
        }
        for j in (0..start).rev() {
            if self.task(j) == task {
                return true;
            }
        }
        false
    }

    // Whether an entry is a finished put that none hands out and the window does not hold.
    fn is_lost(&self, outs: &HandOuts, from: &mut u32, entry: u32) -> bool
        requires { outs.now.log.words ≡ self.now.bench.now.words }
        ensures { result ≡ is_lost (lent self.now.bench.now self.now.store.now outs.now.log.memory.now) outs.now.entries entry }
    {
        if !outs.log.is_kind(EntryKind::Finished, entry) {
            return false;
        }
        let task = outs.log.task_at(entry);
        !outs.has(task) && !self.holds(task, from)
    }

    // How many finished puts of the entries are lost.
    fn lost(&self, outs: &HandOuts) -> u32
        requires { outs.now.log.words ≡ self.now.bench.now.words }
        ensures { result ≡ count_below (is_lost (lent self.now.bench.now self.now.store.now outs.now.log.memory.now) outs.now.entries) outs.now.entries }
    {
        let mut from = 0;
        let mut count = 0;
        for j in 0..outs.entries {
            if self.is_lost(outs, &mut from, j) {
                count += 1;
            }
        }
        count
    }
}

// The restarts of all eight workers.
fn restarts_of(each: [u32; 8]) -> u64
    ensures { result ≡ sum_below (restarts_of each) 8 }
{
    let mut sum = 0;
    for n in each {
        sum += u64::from(n);
    }
    sum
}

pub fn counts(bench: Bench, store: &[u32], log: &[u32]) -> Counts
    requires { bench.waiting.count ≡ 0 }
    ensures { result ≡ counts_of (lent bench store.now log.now) }
{
    let log = Log {
        words: bench.words,
        memory: log,
    };
    let n = (u64::from(bench.written) / (3 + u64::from(bench.words))) as u32;
    let mut table = [0; 4096];
    let outs = HandOuts::of(log, n, &mut table);
    let window = Window {
        bench: &bench,
        array: current(bench.queue),
        store,
    };
    Counts {
        finished: log.entries_of(EntryKind::Finished as u32, n),
        handouts: log.entries_of(EntryKind::HandOut as u32, n),
        different: outs.different,
        restarts: restarts_of(bench.restarts),
        window: window.size(),
        lost: window.lost(&outs),
    }
}

// Where an index lies in the store: which index a put, a take and a steal name, which slot of an array it has, which words of
// the store that slot is; and the room for a larger array. `read` is the anchor as a worker read it at line 1. A slot is told by the
// kind, the payload words, the queue and a place of its directory, one by one, as in the definitions (`slot`, `word_of`): each contract
// would have to say of which of these a struct is made.
// Uses `model` and `tasks`. It is used by `lines`, `waiting`, `limits`, `opening`, `events`, `machine`, `owner`, `plots`,
// `rooms`, `yard_calls` and `queues`.

#![tactic(auto, using(model::proofs::Tests::tests))]

ghost use Rattle.std.specs.Prelude.{◌≡◌, true, ℕ, ◌+◌, ◌-◌, ◌*◌, ◌^◌, ◌≤◌, ◌<◌, length, get_or};
ghost use Rattle.model.specs.declared.Room.{Room};
ghost use Rattle.model.specs.Tasks.{gathered};
ghost use Rattle.model.specs.Memory.{nowhere, offset_at, length_at, size_at, usable};
ghost use Rattle.model.specs.Figures.{slot, put_index, take_index, steal_index};
ghost use Rattle.model.specs.Stores.{taken, words_taken, room_in};
ghost use Rattle.model.specs.Lines.{word_of, fits};
ghost use Rattle.model.specs.Limits.{some_ok};
ghost use Rattle.slots.specs.Bounds.{Power, Wide, Sized, Slotted, Inside, Small};

use model::{Anchor, Kind, Queue, Region, Room, Task};

// LIFO names slots; in figures 2 and 3 index i lies in slot i modulo the array's size. A size is a power of two, so the
// remainder is the index's lowest bits, and no step divides.
fn slot_of(kind: Kind, size: u32, index: u32) -> u32
    requires { Power size }
    ensures { result ≡ slot kind size index }
{
    let mask = size - 1;
    match kind {
        Kind::Lifo => index,
        Kind::Fifo => index & mask,
        Kind::Deque => index & mask,
    }
}

// The index that a put writes: t; tail; h+s.
fn put_index(kind: Kind, read: Anchor) -> u32
    requires { (read.head ≤ 65535) × (read.count ≤ 65535) }
    ensures { result ≡ put_index kind read }
{
    match kind {
        Kind::Lifo => read.count,
        Kind::Fifo => read.count,
        Kind::Deque => read.head + read.count,
    }
}

// The index that a take reads: t−1; head; h+s−1. `some_ok`: past a test for EMPTY t or s is at least 1; FIFO subtracts nothing.
fn take_index(kind: Kind, read: Anchor) -> u32
    requires head_bound { (read.head ≤ 65535) × (read.count ≤ 65535) }
    requires read_value { some_ok kind read ≡ true }
    ensures { result ≡ take_index kind read }
{
    match kind {
        Kind::Lifo => read.count - 1,
        Kind::Fifo => read.head,
        Kind::Deque => read.head + read.count - 1,
    }
}

// The index that a steal reads: t−1; head; h.
fn steal_index(kind: Kind, read: Anchor) -> u32
    requires { some_ok kind read ≡ true }
    ensures { result ≡ steal_index kind read }
{
    match kind {
        Kind::Lifo => read.count - 1,
        Kind::Fifo | Kind::Deque => read.head,
    }
}

// The array at place `at` of the directory: its size in tasks. Each is twice the one before, so that no length is divided.
pub fn size_at(queue: Queue, at: usize) -> u32
    requires at_bound { at < 11 }
    requires at_bound_2 { queue.initial * 2 ^ at ≤ 1024 }
    ensures { result ≡ queue.initial * 2 ^ at }
{
    queue.initial << at
}

// The length of the array that X1 claims, where this is the last one.
pub fn twice_as_long(queue: Queue, at: usize) -> u32
    requires at_bound { at < 11 }
    requires small { Small queue at }
    ensures { result ≡ 2 * length_at queue.arrays at }
{
    let region = queue.arrays[at];
    2 * region.length
}

// The slot of index `index` in that array.
pub fn slot_at(kind: Kind, queue: Queue, at: usize, index: u32) -> u32
    requires at_bound { at < 11 }
    requires at_bound_2 { queue.initial * 2 ^ at ≤ 1024 }
    requires power { Power (queue.initial * 2 ^ at) }
    ensures { result ≡ slot kind (queue.initial * 2 ^ at) index }
{
    slot_of(kind, size_at(queue, at), index)
}

// Where word `word` of a slot lies in the store: word 0 is the put number, those behind it the payload.
pub fn address(words: u32, queue: Queue, at: usize, slot: u32, word: u32) -> usize
    requires wide { Wide words }
    requires at_bound { at < 11 }
    requires slot_bound { slot ≤ 1024 }
    requires word_le_words { word ≤ words }
    ensures { result ≡ offset_at queue.arrays at + (words + 1) * slot + word }
{
    let region = queue.arrays[at];
    let first = region.offset as usize;
    let each = words as usize + 1;
    let task = slot as usize;
    let before = each * task;
    first + before + word as usize
}

// Where word `word` of index `index` lies.
fn place(kind: Kind, words: u32, queue: Queue, at: usize, index: u32, word: u32) -> usize
    requires wide { Wide words }
    requires at_bound { at < 11 }
    requires slotted { Slotted kind words queue at index }
    requires word_le_words { word ≤ words }
    ensures { result ≡ offset_at queue.arrays at + (words + 1) * slot kind (size_at words queue.arrays at) index + word }
{
    let s = slot_at(kind, queue, at, index);
    address(words, queue, at, s, word)
}

// That word, read.
fn read_word(
    kind: Kind,
    words: u32,
    queue: Queue,
    at: usize,
    index: u32,
    word: u32,
    store: &[u32],
) -> u32
    requires wide { Wide words }
    requires at_bound { at < 11 }
    requires slotted { Slotted kind words queue at index }
    requires inside { Inside words queue (length store.now) at }
    requires word_le_words { word ≤ words }
    ensures { result ≡ word_of kind words queue store.now at index word }
{
    let p = place(kind, words, queue, at, index, word);
    store[p]
}

// X3: the whole task, of `words` payload words.
#[tactic(auto, using(model::proofs::Tests::tests, model::proofs::Tasks::no_words, model::proofs::Tasks::next_word))]
pub fn read_task(kind: Kind, words: u32, queue: Queue, at: usize, index: u32, store: &[u32]) -> Task
    requires wide { Wide words }
    requires at_bound { at < 11 }
    requires slotted { Slotted kind words queue at index }
    requires inside { Inside words queue (length store.now) at }
    ensures { result ≡ gathered (words + 1) (word_of kind words queue store.now at index) }
{
    let mut task = tasks::no_task();
    for word in 0..words + 1 {
        let value = read_word(kind, words, queue, at, index, word, store);
        task = tasks::with_word(task, word, value);
    }
    task
}

// Put 3a, 3b .. (FIFO 4a, 4b ..): the slot whose words are written, in the array at place `at`.
pub fn put_slot(kind: Kind, queue: Queue, at: usize, read: Anchor) -> u32
    requires at_bound { at < 11 }
    requires head_bound { (read.head ≤ 65535) × (read.count ≤ 65535) }
    requires at_bound_2 { queue.initial * 2 ^ at ≤ 1024 }
    requires power { Power (queue.initial * 2 ^ at) }
    ensures { result ≡ slot kind (queue.initial * 2 ^ at) (put_index kind read) }
{
    let index = put_index(kind, read);
    slot_at(kind, queue, at, index)
}

// Take 3a, 3b .. (FIFO 4a, 4b ..): the task's word, in the array at place `at`.
pub fn taken_word(
    kind: Kind,
    words: u32,
    queue: Queue,
    at: usize,
    read: Anchor,
    word: u32,
    store: &[u32],
) -> u32
    requires wide { Wide words }
    requires at_bound { at < 11 }
    requires head_bound { (read.head ≤ 65535) × (read.count ≤ 65535) }
    requires read_value { some_ok kind read ≡ true }
    requires slotted { Slotted kind words queue at (take_index kind read) }
    requires inside { Inside words queue (length store.now) at }
    requires word_le_words { word ≤ words }
    ensures { result ≡ word_of kind words queue store.now at (take_index kind read) word }
{
    let index = take_index(kind, read);
    read_word(kind, words, queue, at, index, word, store)
}

// Steal 4a, 4b .. (FIFO 5a, 5b ..): the task's word, in the noted array, at place `at`.
pub fn stolen_word(
    kind: Kind,
    words: u32,
    queue: Queue,
    at: usize,
    read: Anchor,
    word: u32,
    store: &[u32],
) -> u32
    requires wide { Wide words }
    requires at_bound { at < 11 }
    requires read_value { some_ok kind read ≡ true }
    requires slotted { Slotted kind words queue at (steal_index kind read) }
    requires inside { Inside words queue (length store.now) at }
    requires word_le_words { word ≤ words }
    ensures { result ≡ word_of kind words queue store.now at (steal_index kind read) word }
{
    let index = steal_index(kind, read);
    read_word(kind, words, queue, at, index, word, store)
}

// X1's condition: twice the size is at most 1,024, and the words left are enough.
pub fn has_room(queue: Queue, left: u32) -> bool
    requires published_nonzero { (0 < queue.published) × (queue.published ≤ 11) }
    requires published_bound { queue.initial * 2 ^ (queue.published - 1) ≤ 1024 }
    requires small { Small queue (queue.published - 1) }
    requires claimed_value { queue.claimed ≡ queue.published }
    ensures { (ρ : Room) (v : ℕ) → ρ.left ≡ left → Sized v queue (queue.published - 1) → result ≡ fits ρ v queue }
{
    let here = queue.published - 1;
    let at = here as usize;
    let size = size_at(queue, at);
    let more = twice_as_long(queue, at);
    2 * size <= 1024 && more <= left
}

// A pair of the directory. The first is the commonest, and an index that is a constant copies only that pair.
pub fn region_at(queue: Queue, place: u32) -> Region
    requires { place < 11 }
    ensures { result ≡ get_or queue.arrays place nowhere }
{
    if place == 0 {
        return queue.arrays[0];
    }
    let i = place as usize;
    queue.arrays[i]
}

// The words of a store that are ever used.
pub fn usable(store: &[u32]) -> u32
    ensures { result ≡ usable store.now }
{
    store.len().min(10235) as u32
}

// X1's room in a queue that is alone: its arrays lie end to end, so that the next free word is where the last one ends, and what
// is left is the store's.
pub fn room_alone(queue: Queue, store: &[u32]) -> Room
    requires claimed_nonzero { (0 < queue.claimed) × (queue.claimed ≤ 11) }
    requires queue_value { words_taken queue ≡ taken queue }
    requires queue_bound { taken queue ≤ usable store.now }
    ensures { result ≡ room_in (usable store.now) (words_taken queue) 0 (words_taken queue) (length store.now) }
{
    let place = queue.claimed - 1;
    let last = region_at(queue, place);
    let n = usable(store);
    let next = last.offset + last.length;
    let left = n - next;
    Room { next, left }
}

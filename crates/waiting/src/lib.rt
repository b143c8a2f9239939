// The owner's waiting line: what its stores leave of the queue and of memory once they land, a store that joins it, and the
// oldest that leaves it. The owner reads memory with its waiting words put down; a call that needs to read so puts them down, and
// lifts them again.
// Uses `model`, `anchors`, `slots` and `state`. It is used by `limits`, `events`, `owner`, `steps` and `queues`.

#![tactic(auto)]

ghost use Rattle.std.specs.Prelude.{true, List, [], ◌∷◌, ◌≡◌, ℕ, ◌≤◌, ◌<◌, length};
ghost use Rattle.model.specs.Stores.{shared, landed, landed_all, in_line, joined, oldest, one_less};
ghost use Rattle.slots.specs.Bounds.{Wide};
ghost use Rattle.waiting.specs.Places.{note_ok, notes_ok, Placed, AllPlaced, covered_by, valued, KeptBy};

use model::{Queue, Store, Waiting};

fn note_ok(landing: Store) -> bool
    ensures { result ≡ note_ok landing }
{
    match landing {
        Store::StoreNote { place } => place <= 10,
        _ => true,
    }
}

// Each waiting note names a place of the directory. A foreign state's may be any number.
pub fn notes_ok(waiting: Waiting) -> bool
    requires { waiting.count ≤ 8 }
    ensures { result ≡ notes_ok (in_line waiting) }
{
    for landing in &waiting.stores[..waiting.count as usize] {
        if !note_ok(*landing) {
            return false;
        }
    }
    true
}

// What a landed store leaves of the queue: a task's word leaves it as it is.
pub fn after(queue: Queue, landing: Store) -> Queue
    requires { notes_ok (landing ∷ []) ≡ true }
    ensures { (v : ℕ) (m : List ℕ) → result ≡ (landed v (shared queue m) landing).queue }
{
    match landing {
        Store::StoreWord { .. } => queue,
        Store::StoreNote { place } => state::publish(queue, place),
        Store::StorePut { .. }
        | Store::StoreOut { .. }
        | Store::StoreHead { .. }
        | Store::StoreTail { .. } => {
            state::with_anchor(queue, anchors::after_store(queue.anchor, landing))
        }
    }
}

// The queue as the owner reads it.
pub fn seen(queue: Queue, waiting: Waiting) -> Queue
    requires count_bound { waiting.count ≤ 8 }
    requires waiting_value { notes_ok (in_line waiting) ≡ true }
    ensures { (v : ℕ) (m : List ℕ) → result ≡ (landed_all v (shared queue m) (in_line waiting)).queue }
{
    let mut next = queue;
    for landing in &waiting.stores[..waiting.count as usize] {
        next = after(next, *landing);
    }
    next
}

// What a landed store leaves of memory: a task's word is written.
pub fn write(words: u32, queue: Queue, landing: Store, store: &mut [u32])
    requires wide { Wide words }
    requires placed { Placed words queue (length store.old) landing }
    ensures { store.new ≡ (landed words (shared queue store.old) landing).store }
{
    if let Store::StoreWord {
        place,
        slot,
        word,
        value,
    } = landing
    {
        let at = slots::address(words, queue, place as usize, slot, word);
        store[at] = value;
    }
}

// The word that it covers.
fn covered(words: u32, queue: Queue, landing: Store, store: &[u32]) -> u32
    requires wide { Wide words }
    requires placed { Placed words queue (length store.now) landing }
    ensures { result ≡ covered_by words queue store.now landing }
{
    if let Store::StoreWord {
        place,
        slot,
        word,
        ..
    } = landing
    {
        let at = slots::address(words, queue, place as usize, slot, word);
        return store[at];
    }
    0
}

// The store that puts another word in its place.
fn with_value(landing: Store, value: u32) -> Store
    ensures { result ≡ valued landing value }
{
    match landing {
        Store::StoreWord {
            place,
            slot,
            word,
            ..
        } => Store::StoreWord {
            place,
            slot,
            word,
            value,
        },
        _ => landing,
    }
}

// Puts the waiting words down, in order, and answers the words that they cover. Landed stores never move an array, so memory's
// directory tells the places of all.
pub fn put_down(words: u32, queue: Queue, waiting: Waiting, store: &mut [u32]) -> [u32; 8]
    requires wide { Wide words }
    requires count_bound { waiting.count ≤ 8 }
    requires all_placed { AllPlaced words queue (length store.old) (in_line waiting) }
    ensures store_after { store.new ≡ (landed_all words (shared queue store.old) (in_line waiting)).store }
    ensures kept_by { KeptBy words queue store.old waiting result }
{
    let mut kept = [0u32; 8];
    for i in 0..waiting.count as usize {
        let landing = waiting.stores[i];
        kept[i] = covered(words, queue, landing, store);
        write(words, queue, landing, store);
    }
    kept
}

// Lifts them again, the youngest first: memory is as it was.
pub fn lift(words: u32, queue: Queue, waiting: Waiting, kept: [u32; 8], store: &mut [u32])
    requires wide { Wide words }
    requires count_bound { waiting.count ≤ 8 }
    requires all_placed { AllPlaced words queue (length store.old) (in_line waiting) }
    ensures { (m : List ℕ) → store.old ≡ (landed_all words (shared queue m) (in_line waiting)).store → KeptBy words queue m waiting kept → store.new ≡ m }
{
    for i in (0..waiting.count as usize).rev() {
        let lifting = with_value(waiting.stores[i], kept[i]);
        write(words, queue, lifting, store);
    }
}

// A store joins the end of the line.
pub fn join(waiting: Waiting, joining: Store) -> Waiting
    requires { waiting.count < 8 }
    ensures { result ≡ joined waiting (joining ∷ []) }
{
    let count = waiting.count;
    let mut next = waiting;
    next.stores[count as usize] = joining;
    next.count = count + 1;
    next
}

// The oldest.
pub fn oldest(waiting: Waiting) -> Store
    ensures { result ≡ oldest waiting }
{
    waiting.stores[0]
}

// The line without it.
pub fn one_less(waiting: Waiting) -> Waiting
    requires { 0 < waiting.count }
    ensures { result ≡ one_less waiting }
{
    let s = waiting.stores;
    let none = state::none_pending();
    Waiting {
        stores: [s[1], s[2], s[3], s[4], s[5], s[6], s[7], none],
        count: waiting.count - 1,
    }
}

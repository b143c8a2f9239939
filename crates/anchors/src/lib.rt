// What differs from figure to figure of the anchor: whether it tells of an empty queue, whether a compare finds it as it was read,
// what a last line stores, and which anchor that leaves. `anchor` is the anchor now, `read` the anchor as a worker read it at
// line 1.
// Uses `model`. It is used by `lines`, `waiting`, `limits` and `machine`.

#![tactic(auto, using(model::proofs::Tests::tests))]

ghost use Rattle.std.specs.Prelude.{◌≡◌, ◌+◌, ◌%◌, ◌≤◌, true};
ghost use Rattle.model.specs.declared.Store.TheVariants.{StorePut, StoreOut};
ghost use Rattle.model.specs.Figures.{next_tag, is_empty, put_store, take_store, steal_store, is_same};
ghost use Rattle.model.specs.Limits.{some_ok};
ghost use Rattle.anchors.specs.After.{after_store};

use model::{Anchor, Kind, Store};

// An anchor of its three parts.
fn anchor_of(head: u32, count: u32, tag: u32) -> Anchor
    ensures { result ≡ record { head = head; count = count; tag = tag } }
{
    Anchor { head, count, tag }
}

// The store of such an anchor, by a put and by a hand-out: two cases of `Store`, so two functions of a line each.
fn put_of(head: u32, count: u32, tag: u32) -> Store
    ensures { result ≡ StorePut (record { head = head; count = count; tag = tag }) }
{
    let value = anchor_of(head, count, tag);
    Store::StorePut { value }
}

fn out_of(head: u32, count: u32, tag: u32) -> Store
    ensures { result ≡ StoreOut (record { head = head; count = count; tag = tag }) }
{
    let value = anchor_of(head, count, tag);
    Store::StoreOut { value }
}

// g+1 of a put's last line: after the largest value of `width` bits comes 0. The lowest `width` bits are the remainder.
fn next_tag(width: u32, tag: u32) -> u32
    requires { width ≤ 16 }
    ensures { result ≡ next_tag width tag }
{
    let tags = 1u32 << width;
    let mask = tags - 1;
    std::num::wrapping_add_u32(tag, 1) & mask
}

// Take 2, steal 2 (FIFO 3): t = 0; head = tail; s = 0.
pub fn is_empty(kind: Kind, read: Anchor) -> bool
    ensures { result ≡ is_empty kind read }
{
    match kind {
        Kind::Lifo => read.count == 0,
        Kind::Fifo => read.head == read.count,
        Kind::Deque => read.count == 0,
    }
}

// Put 4 (FIFO 5): (t+1, g+1) of the old pair read; tail+1 alone; (h, s+1, g+1).
pub fn put_store(kind: Kind, width: u32, read: Anchor) -> Store
    requires { (width ≤ 16) × (read.count ≤ 65535) }
    ensures { result ≡ put_store kind width read }
{
    let up = read.count + 1;
    let raised = next_tag(width, read.tag);
    match kind {
        Kind::Lifo => put_of(read.head, up, raised),
        Kind::Fifo => Store::StoreTail { value: up },
        Kind::Deque => put_of(read.head, up, raised),
    }
}

// Take 4 (FIFO 5): (t−1, g) of the old pair read; the head read plus 1 alone; (h, s−1, g). `some_ok`: past a test for EMPTY t
// or s is at least 1; FIFO subtracts nothing from them.
pub fn take_store(kind: Kind, read: Anchor) -> Store
    requires head_bound { read.head ≤ 65535 }
    requires read_value { some_ok kind read ≡ true }
    ensures { result ≡ take_store kind read }
{
    match kind {
        Kind::Lifo => out_of(read.head, read.count - 1, read.tag),
        Kind::Fifo => {
            let up = read.head + 1;
            Store::StoreHead { value: up }
        }
        Kind::Deque => out_of(read.head, read.count - 1, read.tag),
    }
}

// Steal 5 (FIFO and figure 3: 6), where the compare found the anchor as read: what a take stores; in figure 3 (h2, s−1, g).
pub fn steal_store(kind: Kind, read: Anchor, next: u32) -> Store
    requires head_bound { read.head ≤ 65535 }
    requires read_value { some_ok kind read ≡ true }
    ensures { result ≡ steal_store kind read next }
{
    match kind {
        Kind::Lifo => take_store(kind, read),
        Kind::Fifo => take_store(kind, read),
        Kind::Deque => out_of(next, read.count - 1, read.tag),
    }
}

// The anchor once a store has landed: the stored one; FIFO's head with the tail as it is now, or its tail with the head. A task's
// word and the note leave it.
pub fn after_store(anchor: Anchor, store: Store) -> Anchor
    ensures { result ≡ after_store anchor store }
{
    match store {
        Store::StoreWord { .. } => anchor,
        Store::StoreNote { .. } => anchor,
        Store::StorePut { value } => value,
        Store::StoreOut { value } => value,
        Store::StoreHead { value } => anchor_of(value, anchor.count, anchor.tag),
        Store::StoreTail { value } => anchor_of(anchor.head, value, anchor.tag),
    }
}

// The compare: (t, g); head; all three.
pub fn is_same(kind: Kind, anchor: Anchor, read: Anchor) -> bool
    ensures { result ≡ is_same kind anchor read }
{
    let h = anchor.head;
    let c = anchor.count;
    let g = anchor.tag;
    match kind {
        Kind::Lifo => c == read.count && g == read.tag,
        Kind::Fifo => h == read.head,
        Kind::Deque => h == read.head && (c == read.count && g == read.tag),
    }
}

// FIFO's line 2 reads the tail, at a put, a take and a steal: an anchor whose head was read a line before.
pub fn with_tail(head: u32, anchor: Anchor) -> Anchor
    ensures { result ≡ record { head = head; count = anchor.count; tag = anchor.tag } }
{
    anchor_of(head, anchor.count, anchor.tag)
}

// Figure 3's steal 5: h2 = (h+1) modulo 2,048, the lowest eleven bits.
pub fn next_head(read: Anchor) -> u32
    requires { read.head ≤ 65535 }
    ensures { result ≡ (read.head + 1) % 2048 }
{
    (read.head + 1) & 2047
}

// Several queues over one store: whether their arrays lie apart and without a gap, within their quotas and the store; refusals 12
// and 24 of a call; and what is left for a new array. A foreign yard holds any 32-bit values, so sums are worked out in 64 bits, and
// what an earlier test has shown (`Kept`) is a premise, and no fact of a type.
// Uses `model`, `slots`, `limits` and `state`. It is used by `queues`.

#![tactic(auto, using(model::proofs::Tests::tests))]

ghost use Rattle.std.specs.Prelude.{◌≡◌, true, [], ℕ, ◌+◌, ◌≤◌, ◌<◌, length, take, Ok, Err};
ghost use Rattle.model.specs.Yard.{bench_at, quota_at, no_overlap, all_below, claimed_words, aside_words, yard_ok, room_of, words_left};
ghost use Rattle.plots.specs.Places.{regions_apart, clear_of, keeps_to, keeps_at, Kept, clear_of_earlier, lies_for, lies_at, the_ground, called};

use model::{Bench, Plot, Queue, Refusal, Region, Room, Yard};

// Where an array ends.
fn end_of(region: Region) -> u64
    ensures { result ≡ region.offset + region.length }
{
    u64::from(region.offset) + u64::from(region.length)
}

// Two arrays do not overlap.
fn apart(one: Region, other: Region) -> bool
    ensures { result ≡ regions_apart one other }
{
    end_of(one) <= u64::from(other.offset) || end_of(other) <= u64::from(one.offset)
}

// The arrays that a queue has claimed.
fn claimed(queue: &Queue) -> &[Region]
    requires { queue.now.claimed ≤ 11 }
    ensures value { result.now ≡ take queue.now.claimed queue.now.arrays }
    ensures inside { queue.now.claimed ≤ length queue.now.arrays }
{
    &queue.arrays[..queue.claimed as usize]
}

// An array overlaps none of a queue's.
fn clear_of(one: Region, queue: &Queue) -> bool
    requires { queue.now.claimed ≤ 11 }
    ensures { result ≡ clear_of one queue.now }
{
    claimed(queue).iter().all(|other| apart(one, *other))
}

// No array of one queue overlaps an array of the other.
fn no_overlap(queue: &Queue, other: &Queue) -> bool
    requires claimed_bound { queue.now.claimed ≤ 11 }
    requires claimed_bound_2 { other.now.claimed ≤ 11 }
    ensures { result ≡ no_overlap queue.now other.now }
{
    claimed(queue).iter().all(|one| clear_of(*one, other))
}

// Of the plot of queue `queue`: the bench.
pub fn bench_at(yard: Yard, queue: u32) -> Bench
    requires { queue < 4 }
    ensures { result ≡ bench_at yard queue }
{
    yard.plots[queue as usize].bench
}

// And the quota.
fn quota_at(yard: Yard, queue: u32) -> u32
    requires { queue < 4 }
    ensures { result ≡ quota_at yard queue }
{
    yard.plots[queue as usize].quota
}

// The limits on one queue; and its quota, words set aside counted.
fn keeps(plot: Plot) -> bool
    ensures { result ≡ keeps_to plot.bench plot.quota }
{
    if !limits::bench_ok(plot.bench) {
        return false;
    }
    let words = limits::words_taken(plot.bench.queue);
    u64::from(words) + u64::from(plot.bench.aside) <= u64::from(plot.quota)
}

// The first plots.
fn first(yard: &Yard, count: usize) -> &[Plot]
    requires { count ≤ 4 }
    ensures value { result.now ≡ take count yard.now.plots }
    ensures inside { count ≤ length yard.now.plots }
{
    &yard.plots[..count]
}

// The plots that are made. The state is fixed memory, with no heap, so a count stands beside the array.
fn made(yard: &Yard) -> &[Plot]
    requires { yard.now.made ≤ 4 }
    ensures value { result.now ≡ take yard.now.made yard.now.plots }
    ensures inside { yard.now.made ≤ length yard.now.plots }
{
    first(yard, yard.made as usize)
}

// Every queue that is made keeps to them.
fn all_keep(yard: &Yard) -> bool
    requires { yard.now.made ≤ 4 }
    ensures { result ≡ all_below (keeps_at yard.now) yard.now.made }
{
    made(yard).iter().all(|plot| keeps(*plot))
}

// The words that the queues have claimed together; far below 64 bits.
fn claimed_words(yard: &Yard) -> u64
    requires { Kept yard.now }
    ensures value { result ≡ claimed_words yard.now }
    ensures bound { result ≤ 17179869180 }
{
    let mut sum = 0;
    for plot in made(yard) {
        sum += u64::from(limits::words_taken(plot.bench.queue));
    }
    sum
}

// And those that they have set aside.
fn aside_words(yard: &Yard) -> u64
    requires { Kept yard.now }
    ensures value { result ≡ aside_words yard.now }
    ensures bound { result ≤ 17179869180 }
{
    let mut sum = 0;
    for plot in made(yard) {
        sum += u64::from(plot.bench.aside);
    }
    sum
}

// A queue overlaps none of the first `place` queues.
fn clear_of_earlier(queue: &Queue, yard: &Yard, place: usize) -> bool
    requires claimed_bound { queue.now.claimed ≤ 11 }
    requires kept { Kept yard.now }
    requires place_lt_made { place < yard.now.made }
    ensures { result ≡ clear_of_earlier queue.now yard.now place }
{
    for plot in first(yard, place) {
        if !no_overlap(queue, &plot.bench.queue) {
            return false;
        }
    }
    true
}

// Where a queue's arrays lie, in a yard whose queues claimed `claimed` words: none ends behind these, or there would be a gap below
// the last one; and none overlaps an array of a queue that was made before.
fn lies(queue: &Queue, yard: &Yard, place: usize, claimed: u64) -> bool
    requires claimed_nonzero { (0 < queue.now.claimed) × (queue.now.claimed ≤ 11) }
    requires kept { Kept yard.now }
    requires place_lt_made { place < yard.now.made }
    requires claimed_value { claimed ≡ claimed_words yard.now }
    ensures { result ≡ lies_for queue.now yard.now place }
{
    let last = slots::region_at(*queue, queue.claimed - 1);
    let end = end_of(last);
    let beyond = claimed < end;
    !beyond && clear_of_earlier(queue, yard, place)
}

// Every queue that is made lies so.
fn all_lie(yard: &Yard, claimed: u64) -> bool
    requires kept { Kept yard.now }
    requires claimed_value { claimed ≡ claimed_words yard.now }
    ensures { result ≡ all_below (lies_at yard.now) yard.now.made }
{
    for (place, plot) in made(yard).iter().enumerate() {
        if !lies(&plot.bench.queue, yard, place, claimed) {
            return false;
        }
    }
    true
}

// The yard, with the length of its store, is no foreign one.
pub fn sound(yard: Yard, store: &[u32]) -> bool
    ensures { result ≡ yard_ok yard store.now }
{
    if 4 < yard.made || !all_keep(&yard) {
        return false;
    }
    let claimed = claimed_words(&yard);
    all_lie(&yard, claimed) && claimed + aside_words(&yard) <= u64::from(slots::usable(store))
}

// Whether a call of queue `queue` is refused before the queue is looked at: refusals 12, of which the queue's log is a part, and
// 24. The answer says what any outcome is that begins with these refusals.
pub fn stop(yard: Yard, queue: u32, store: &[u32], log: &[u32]) -> Result<(), Refusal>
    ensures { result ≡ called yard queue store.now log.now (λ w. Err w) (Ok tt) }
{
    if !sound(yard, store) {
        return Err(Refusal::ForeignState);
    }
    if yard.made <= queue {
        return Err(Refusal::NoSuchQueue);
    }
    let bench = bench_at(yard, queue);
    let written = bench.written as usize;
    if log.len() < written {
        return Err(Refusal::ForeignState);
    }
    Ok(())
}

// What is left for a new queue: the next free word, and the words behind it that nobody has set aside.
pub fn room_left(yard: Yard, store: &[u32]) -> Room
    requires { yard_ok yard store.now ≡ true }
    ensures { result ≡ record { next = claimed_words yard; left = words_left (the_ground yard store.now []) } }
{
    let next = claimed_words(&yard) as u32;
    let used = next + aside_words(&yard) as u32;
    Room {
        next,
        left: slots::usable(store) - used,
    }
}

// What X1 finds for a queue of the yard: what it has set aside itself is there for it, and its quota bounds its own words.
pub fn room_of(yard: Yard, queue: u32, store: &[u32]) -> Room
    requires store_value { yard_ok yard store.now ≡ true }
    requires queue_lt_made { queue < yard.made }
    ensures { result ≡ room_of (the_ground yard store.now []) queue }
{
    let room = room_left(yard, store);
    let bench = bench_at(yard, queue);
    let own = limits::words_taken(bench.queue);
    let free = room.left + bench.aside;
    let rest = quota_at(yard, queue) - own;
    Room {
        next: room.next,
        left: free.min(rest),
    }
}

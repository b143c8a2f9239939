// The state limits of refusal 12, as code of early returns: `valid` is true of exactly the states that
// the definitions take for no foreign ones. A foreign state holds any 32-bit values, so each limit is
// tested before a later test counts on it, and a sum of two free values is worked out in 64 bits. So what an earlier test has shown is
// a premise of the next function, and no fact of a type. The owner's lines and waiting
// stores are held to the queue as it reads it; where none waits that is memory's, and nothing is looked at twice.
// The limits on one queue, wherever its arrays lie, are apart from those on a queue that has the store for itself.
// Uses `model`, `anchors`, `slots`, `stages`, `admission`, `ranges` and `waiting`. It is used by `opening`, `events`, `plots` and `queues`,
// and by proofs of `owner`, `steps` and `listing`.

#![tactic(auto, using(model::proofs::Tests::tests))]

ghost use Rattle.std.specs.Option.{is_some, IfSome};
ghost use Rattle.std.specs.Prelude.{◌≡◌, true, false, List, ℕ, ◌+◌, ◌-◌, ◌*◌, ◌≤◌, ◌<◌, eqb, ltb};
ghost use Rattle.model.specs.declared.Queue.{Queue};
ghost use Rattle.model.specs.Tests.{when◌then◌else◌, ◌and◌};
ghost use Rattle.model.specs.Memory.{size_at};
ghost use Rattle.model.specs.Lines.{size};
ghost use Rattle.model.specs.World.{owners_view, line_at, is_idle, is_expanding};
ghost use Rattle.model.specs.Stores.{shared, landed_all, in_line, words_taken};
ghost use Rattle.model.specs.Limits.{tidy, directory_ok, kind_ok, link_ok, links_ok, aside_ok, bench_ok, alone_ok, valid_of};
ghost use Rattle.model.specs.Calls.{lent};
ghost use Rattle.ranges.specs.Doubles.{Doubled};
ghost use Rattle.limits.specs.Parts.{tasks_in, starts_ok, follows_ok, member_ok, workers_ok, line_held, frame_ok, waits_ok, contents_ok, Laid, Reached, Scoped, Seen};

use model::{Anchor, Bench, Kind, Line, Queue, Region, Worker};

// The directory's first array has the size that the queue keeps: no length is divided for it.
fn starts(words: u32, size: u32, first: Region) -> bool
    requires { words ≤ 4 }
    ensures { result ≡ (starts_ok words first and eqb size (tasks_in words first)) }
{
    let each = words as u64 + 1;
    if first.length as u64 != each * size as u64 {
        return false;
    }
    admission::is_size(size)
}

// An array lies behind the one before it, which has at most 512 tasks, and is twice as long.
fn follows(words: u32, before: Region, next: Region) -> bool
    requires { words ≤ 4 }
    ensures { result ≡ follows_ok words before next }
{
    let long = before.length as u64;
    let end = before.offset as u64 + long;
    if (next.offset as u64) < end {
        return false;
    }
    if next.length as u64 != 2 * long {
        return false;
    }
    before.length < 513 * (words + 1)
}

// The arrays that are claimed. An index that varies has the whole directory copied: it is bound once, and only where there
// are two arrays to compare.
fn tidy(words: u32, queue: Queue) -> bool
    requires words_bound { words ≤ 4 }
    requires claimed_nonzero { (0 < queue.claimed) × (queue.claimed ≤ 11) }
    ensures { result ≡ (tidy words queue.arrays queue.claimed and eqb queue.initial (size_at words queue.arrays 0)) }
{
    let claimed = queue.claimed as usize;
    let first = queue.arrays[0];
    if !starts(words, queue.initial, first) {
        return false;
    }
    if claimed == 1 {
        return true;
    }
    let arrays = queue.arrays;
    let mut before = first;
    for last in 0..claimed - 1 {
        let next = arrays[last + 1];
        if !follows(words, before, next) {
            return false;
        }
        before = next;
    }
    true
}

// An array is claimed and unpublished exactly while the owner expands.
fn claims_ok(published: u32, claimed: u32, owner: Line) -> bool
    ensures { result ≡ eqb claimed (when is_expanding owner then published + 1 else published) }
{
    if stages::stage(owner) == 2 {
        claimed as u64 == published as u64 + 1
    } else {
        claimed == published
    }
}

// The owner reads `seen` arrays as published.
fn directory_ok(words: u32, queue: Queue, seen: u32, owner: Line) -> bool
    requires { words ≤ 4 }
    ensures { result ≡ directory_ok words queue seen owner }
{
    let published = queue.published;
    let claimed = queue.claimed;
    if published == 0 {
        return false;
    }
    if seen < published {
        return false;
    }
    if 11 < claimed {
        return false;
    }
    if !claims_ok(seen, claimed, owner) {
        return false;
    }
    tidy(words, queue)
}

// A worker that is not idle is at a line of its own operation: the owner's put or take, a thief's steal.
fn own_line(worker: u32, at: u32) -> bool
    ensures { result ≡ (when eqb worker 0 then ltb at 4 else ltb 3 at) }
{
    if worker == 0 { at < 4 } else { 3 < at }
}

// The arrays as a worker reads them: how many are published, and the current one's size.
#[derive(Clone, Copy)]
struct Reach {
    published: u32,
    tasks: u32,
}

// What the limits of a worker's line are taken from: the bench without its workers, and of the directory the first array's size
// and what thieves, that read memory, and the owner read.
#[derive(Clone, Copy)]
struct Scope {
    kind: Kind,
    width: u32,
    words: u32,
    crew: u32,
    first: u32,
    memory: Reach,
    owner: Reach,
}

fn reach_of(scope: Scope, worker: u32) -> Reach
    ensures { result ≡ (when eqb worker 0 then scope.owner else scope.memory) }
{
    if worker == 0 {
        return scope.owner;
    }
    scope.memory
}

fn rests(own: Worker) -> bool
    ensures { result ≡ is_idle own.line }
{
    let line = own.line;
    stages::is_idle(line)
}

// A worker that is not idle.
fn busy_ok(scope: Scope, worker: u32, own: Worker) -> bool
    requires width_bound { (scope.width ≤ 16) × (scope.words ≤ 4) }
    requires published_bound { (scope.memory.published ≤ 11) × (scope.owner.published ≤ 11) }
    requires crew_nonzero { 0 < scope.crew }
    requires line_value { is_idle own.line ≡ false }
    ensures { (q p : Queue) → Scoped scope q p → result ≡ member_ok scope.kind scope.width scope.words q p scope.crew worker own.line }
{
    if scope.crew <= worker {
        return false;
    }
    let line = own.line;
    let at = stages::stage(line);
    if !own_line(worker, at) {
        return false;
    }
    let kind = scope.kind;
    let reach = reach_of(scope, worker);
    ranges::line_ok(
        kind,
        scope.width,
        scope.words,
        reach.published,
        scope.first,
        reach.tasks,
        line,
    )
}

// A link is held from line 1 of a linked queue's steal on, and only while the anchor is as it was read.
fn link_ok(kind: Kind, linked: bool, anchor: Anchor, own: Worker) -> bool
    ensures { (q : Queue) → q.linked ≡ linked → q.anchor ≡ anchor → result ≡ link_ok kind q own.line }
{
    let line = own.line;
    if !linked {
        return false;
    }
    if stages::stage(line) != 5 {
        return false;
    }
    let read = stages::read_by(line);
    anchors::is_same(kind, anchor, read)
}

// The eight workers and their links, in one loop. Naming the workers one by one, or a second loop for the links, would copy the
// records once more.
fn workers_ok(bench: Bench, bits: u32, memory: Reach, owner: Reach) -> bool
    requires bits_bound { (bits ≤ 16) × (bench.words ≤ 4) }
    requires published_bound { (memory.published ≤ 11) × (owner.published ≤ 11) }
    requires reached { Reached memory bench.words bench.queue.initial bench.queue }
    requires crew_nonzero { 0 < bench.crew }
    ensures { (p : Queue) → Reached owner bench.words bench.queue.initial p → result ≡ (links_ok bench.kind bench.queue bench.workers 8 and workers_ok bench.kind bits bench.words bench.queue p bench.crew bench.workers 8) }
{
    let kind = bench.kind;
    let linked = bench.queue.linked;
    let anchor = bench.queue.anchor;
    let links = bench.queue.links;
    let scope = Scope {
        kind,
        width: bits,
        words: bench.words,
        crew: bench.crew,
        first: bench.queue.initial,
        memory,
        owner,
    };
    for worker in 0..8 {
        let k = worker as usize;
        if links[k] && !link_ok(kind, linked, anchor, bench.workers[k]) {
            return false;
        }
        if !rests(bench.workers[k]) && !busy_ok(scope, worker, bench.workers[k]) {
            return false;
        }
    }
    true
}

// What the owner reads of the queue, as far as its waiting stores change it: how many arrays are published, and the anchor. It
// is told only of a line of at most 8 stores, of none without the mode, and with notes that name places of the directory.
#[derive(Clone, Copy)]
struct View {
    published: u32,
    anchor: Anchor,
}

// At most 8 stores wait, and none without the mode.
fn most_waiting(delayed: bool) -> u32
    ensures { result ≡ (when delayed then 8 else 0) }
{
    if delayed { 8 } else { 0 }
}

fn owners_view(bench: Bench) -> Option<View>
    ensures held { is_some result ≡ line_held bench.delayed bench.waiting }
    ensures seen { IfSome result (λ view. (m : List ℕ) → Seen view bench (landed_all bench.words (shared bench.queue m) (in_line bench.waiting)).queue) }
{
    let line = bench.waiting;
    if line.count == 0 {
        return Some(View {
            published: bench.queue.published,
            anchor: bench.queue.anchor,
        });
    }
    if most_waiting(bench.delayed) < line.count {
        return None;
    }
    if !waiting::notes_ok(line) {
        return None;
    }
    let queue = waiting::seen(bench.queue, line);
    Some(View {
        published: queue.published,
        anchor: queue.anchor,
    })
}

// The anchor as the owner reads it, and its waiting stores, over a directory that is in order.
fn waits_ok(bench: Bench, view: View) -> bool
    requires width_bound { bench.width ≤ 16 }
    requires published_nonzero { (0 < view.published) × (view.published ≤ bench.queue.claimed) }
    requires claimed_bound { bench.queue.claimed ≤ 11 }
    requires doubled { Doubled bench.words bench.queue.arrays bench.queue.claimed bench.queue.initial }
    requires count_bound { bench.waiting.count ≤ 8 }
    ensures { (p : Queue) → Seen view bench p → result ≡ waits_ok bench p }
{
    let kind = bench.kind;
    let words = bench.words;
    let claimed = bench.queue.claimed;
    let first = bench.queue.initial;
    let anchor = view.anchor;
    let published = view.published;
    let most = anchor.count;
    let bits = stages::tag_bits(bench.queue.linked, bench.width);
    let current = published - 1;
    let tasks = first << current;
    if !ranges::anchor_ok(kind, bits, tasks, anchor) {
        return false;
    }
    for store in &bench.waiting.stores[..bench.waiting.count as usize] {
        if !ranges::store_ok(
            kind, bits, words, published, claimed, first, tasks, most, *store,
        ) {
            return false;
        }
    }
    true
}

// The words set aside; the current array, as the owner reads it, has `tasks` tasks. Without an ask only a commit's X1 is out of
// order.
fn aside_ok(bench: Bench, tasks: u32) -> bool
    requires { (0 < bench.queue.claimed) × (bench.queue.claimed ≤ 11) }
    ensures { (p : Queue) → tasks ≡ size bench.words p → p.arrays ≡ bench.queue.arrays → p.claimed ≡ bench.queue.claimed → result ≡ aside_ok bench.words p (line_at bench.workers 0) bench.aside }
{
    let own = bench.workers[0];
    let line = own.line;
    let aside = bench.aside;
    let at = stages::stage(line);
    if aside == 0 {
        return at != 1;
    }
    if at == 2 {
        return false;
    }
    let place = bench.queue.claimed - 1;
    let last = slots::region_at(bench.queue, place);
    let more = 2 * last.length as u64;
    if aside as u64 != more {
        return false;
    }
    2 * tasks as u64 <= 1024
}

// Memory's anchor, the numbers given out, the words set aside, the links and the workers, over a directory that is in order; the
// owner reads `seen` arrays as published.
fn contents_ok(bench: Bench, seen: u32) -> bool
    requires width_bound { (bench.width ≤ 16) × (bench.words ≤ 4) }
    requires published_nonzero { (0 < bench.queue.published) × (bench.queue.published ≤ seen) }
    requires seen_le_claimed { (seen ≤ bench.queue.claimed) × (bench.queue.claimed ≤ 11) }
    requires doubled { Doubled bench.words bench.queue.arrays bench.queue.claimed bench.queue.initial }
    requires crew_nonzero { 0 < bench.crew }
    ensures { (p : Queue) → p.published ≡ seen → p.arrays ≡ bench.queue.arrays → p.claimed ≡ bench.queue.claimed → result ≡ contents_ok bench p }
{
    let kind = bench.kind;
    let queue = bench.queue;
    let anchor = queue.anchor;
    let first = queue.initial;
    let bits = stages::tag_bits(queue.linked, bench.width);
    let current = queue.published - 1;
    let tasks = first << current;
    if !ranges::anchor_ok(kind, bits, tasks, anchor) {
        return false;
    }
    if !ranges::number_ok(bench.used) {
        return false;
    }
    let last = seen - 1;
    let most = first << last;
    if !aside_ok(bench, most) {
        return false;
    }
    let memory = Reach {
        published: queue.published,
        tasks,
    };
    let owner = Reach {
        published: seen,
        tasks: most,
    };
    workers_ok(bench, bits, memory, owner)
}

// A FIFO queue is not linked.
fn kind_ok(kind: Kind, linked: bool) -> bool
    ensures { result ≡ kind_ok kind linked }
{
    match kind {
        Kind::Fifo => !linked,
        Kind::Lifo | Kind::Deque => true,
    }
}

// The limits before those on what stands in the directory. They are a function of their own so that `bench_ok` branches once for
// them: past many early returns a compiler takes the rest for rare, and copies the state for it. The owner reads `seen` arrays as
// published.
fn frame_ok(bench: Bench, seen: u32) -> bool
    ensures { result ≡ frame_ok bench seen }
{
    let queue = bench.queue;
    let owner = bench.workers[0];
    let line = owner.line;
    let kind = bench.kind;
    if !kind_ok(kind, queue.linked) {
        return false;
    }
    if !admission::width_ok(bench.width) {
        return false;
    }
    if !admission::words_ok(bench.words) {
        return false;
    }
    if !admission::crew_ok(bench.crew) {
        return false;
    }
    directory_ok(bench.words, queue, seen, line)
}

// The limits on one queue, wherever in a store its arrays lie. What the owner reads of the queue does not depend on the words of
// the store.
pub fn bench_ok(bench: Bench) -> bool
    ensures { (m l : List ℕ) → result ≡ bench_ok bench bench.queue (owners_view (lent bench m l)).queue }
{
    let Some(view) = owners_view(bench) else {
        return false;
    };
    if !frame_ok(bench, view.published) {
        return false;
    }
    if !contents_ok(bench, view.published) {
        return false;
    }
    if bench.waiting.count == 0 {
        return true;
    }
    waits_ok(bench, view)
}

// The words of arrays that each are twice the one before: a first one short of twice the last.
fn all_words(first: Region, last: Region) -> u32
    requires length_bound { last.length ≤ 5120 }
    requires length_bound_2 { first.length ≤ 2 * last.length }
    ensures { result ≡ 2 * last.length - first.length }
{
    2 * last.length - first.length
}

// The words that the arrays of a directory in order take.
pub fn words_taken(queue: Queue) -> u32
    requires { Laid queue }
    ensures { result ≡ words_taken queue }
{
    let place = queue.claimed - 1;
    let first = queue.arrays[0];
    let last = slots::region_at(queue, place);
    all_words(first, last)
}

// A queue that has the store for itself: its arrays lie from word 0 on without a gap, so that the last ends where their words do;
// and they fit the store's usable words, those set aside counted. The directory is looked at once for both: every look may copy it.
pub fn alone_ok(bench: Bench, store: &[u32]) -> bool
    requires { Laid bench.queue }
    ensures { result ≡ alone_ok bench store.now }
{
    let queue = bench.queue;
    let place = queue.claimed - 1;
    let first = queue.arrays[0];
    let last = slots::region_at(queue, place);
    let words = all_words(first, last) as u64;
    let end = last.offset as u64 + last.length as u64;
    if words < end {
        return false;
    }
    let all = words + bench.aside as u64;
    all <= slots::usable(store) as u64
}

// The state, with the lengths of its lent memory, is no foreign one.
pub fn valid(bench: Bench, store: &[u32], log: &[u32]) -> bool
    ensures { result ≡ valid_of (lent bench store.now log.now) }
{
    let written = bench.written as usize;
    if !bench_ok(bench) {
        return false;
    }
    if log.len() < written {
        return false;
    }
    alone_ok(bench, store)
}

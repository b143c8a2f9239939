// The hunt for an order of steps with the most repeated hand-outs: the orders are played one after the other, each from a fresh
// bench, until all are played out or the budget of steps is spent.
// Uses `model`, `theorems`, `orders`, `turns`, `rounds`, `slots`, `state`, `memory`, `opening`, `judgement` and `handouts`. It is used by `hunt`.

#![tactic(auto, using(model::proofs::Tests::tests))]

ghost use Rattle.std.specs.Prelude.{◌≡◌, Bool, true, false, List, [], ◌∷◌, map, ℕ, ◌+◌, ◌-◌, ◌≤◌, ◌<◌, min, eqb, ltb, length, take, drop, get_or, replicate};
ghost use Rattle.model.specs.World.{World};
ghost use Rattle.model.specs.Tests.{when◌then◌else◌, ◌or◌, least};
ghost use Rattle.orders.specs.Orders.{orders_of};
ghost use Rattle.orders.specs.Next.{first_of};
ghost use Rattle.orders.specs.Claims.{Complete};
ghost use Rattle.orders.specs.Hunt.{repeats_in, hands_in, operations, owners_next, takes_and_steals, own_store, own_log, report_of, refusal, hunt_of};
ghost use Rattle.orders.proofs.NoneRefused.{Good};
ghost use Rattle.turns.proofs.Fits.{Fits};
ghost use Rattle.rounds.specs.Rounds.{plan_of};
ghost use Rattle.hunter.specs.Hunter.{steals, start_of, RoundBy, reported};

use handouts::{HandOuts, Log};
use judgement::EntryKind;
use model::{Bench, Refusal, Setup};
use orders::Verdict;

// The report: its order stands in the first `length` places. The library has no heap, so a count stands beside the array.
#[derive(Clone, Copy)]
pub struct Found {
    pub verdict: Verdict,
    pub order: [u32; 256],
    pub length: u32,
    pub repeats: u32,
    pub steps: u32,
    pub distance: u32,
}

// An order played: its steps and its repeats.
#[derive(Clone, Copy)]
pub struct Round {
    pub steps: u32,
    pub repeats: u32,
}

// Hand-outs less different put numbers, of `written` words of a log.
fn repeats_of(words: u32, written: u32, log: &[u32], seen: &mut [u32; 4096]) -> u32
    requires { length seen.old ≡ 4096 }
    ensures value { (W : World) → W.bench.words ≡ words → W.bench.written ≡ written → W.log ≡ log.now → result ≡ repeats_in W }
    ensures seen_len { length seen.new ≡ 4096 }
{
    let each = 3 + u64::from(words);
    let n = (u64::from(written) / each) as u32;
    let log = Log { words, memory: log };
    let outs = log.entries_of(EntryKind::HandOut as u32, n);
    let different = HandOuts::of(log, n, seen).different;
    outs.saturating_sub(different)
}

// Plays one order from a fresh bench, on a zeroed store and log; none where it needs more than `most` steps.
fn play_round(
    fresh: Bench,
    puts: &[bool],
    all: [u32; 8],
    given: u32,
    order: &mut [u32; 256],
    others: &mut [u32; 256],
    seen: &mut [u32; 4096],
    most: u32,
    store: &mut [u32],
    log: &mut [u32],
) -> Option<Round>
    requires good { Good (start_of fresh (length store.old) (length log.old) puts.now all) }
    requires fits { Fits fresh.workers (plan_of puts.now all) all }
    requires complete { Complete 256 (start_of fresh (length store.old) (length log.old) puts.now all) (first_of 256 (start_of fresh (length store.old) (length log.old) puts.now all) (take given order.old)) }
    requires given_bound { given ≤ 256 }
    requires order_len { length order.old ≡ 256 }
    requires others_len { length others.old ≡ 256 }
    requires seen_len { length seen.old ≡ 4096 }
    ensures { RoundBy (start_of fresh (length store.old) (length log.old) puts.now all) (take given order.old) most result order.new others.new seen.new }
{
    let words = store.len();
    let long = log.len();
    memory::zero(store, 0, words);
    memory::zero(log, 0, long);
    let played = rounds::play(fresh, puts, all, given, order, others, most, store, log)?;
    let repeats = repeats_of(played.words, played.written, log, seen);
    Some(Round {
        steps: played.steps,
        repeats,
    })
}

// An order is the best so far if it is the first one or has more repeats than those before.
fn better(given: u32, most: u32, repeats: u32) -> bool
    ensures { result ≡ (eqb given 0 or ltb most repeats) }
{
    given == 0 || most < repeats
}

// Plays the orders one after the other. `hands` are the takes and steals. The loop counts nothing: it ends with the budget or with the
// last order.
fn walk(
    fresh: Bench,
    puts: &[bool],
    all: [u32; 8],
    hands: u32,
    budget: u32,
    store: &mut [u32],
    log: &mut [u32],
) -> Found
    requires good { Good (start_of fresh (length store.old) (length log.old) puts.now all) }
    requires fits { Fits fresh.workers (plan_of puts.now all) all }
    requires all_value { repeats_in (start_of fresh (length store.old) (length log.old) puts.now all).world ≡ 0 }
    requires hands_value { hands ≡ takes_and_steals (plan_of puts.now all) }
    ensures { reported result ≡ report_of (start_of fresh (length store.old) (length log.old) puts.now all) budget (orders_of 256 (start_of fresh (length store.old) (length log.old) puts.now all)) }
{
    let mut order = [0u32; 256];
    let mut others = [0u32; 256];
    let mut seen = [0u32; 4096];
    let mut best = [0u32; 256];
    let mut length: u32 = 0;
    let mut repeats: u32 = 0;
    let mut left = budget;
    let mut given: u32 = 0;
    loop {
        let played = play_round(
            fresh,
            puts,
            all,
            given,
            &mut order,
            &mut others,
            &mut seen,
            left,
            store,
            log,
        );
        let Some(r) = played else {
            let far = hands.saturating_sub(1).saturating_sub(repeats);
            return Found {
                verdict: Verdict::Hunted,
                order: best,
                length,
                repeats,
                steps: budget,
                distance: far,
            };
        };
        left -= r.steps;
        if better(given, repeats, r.repeats) {
            best = order;
            length = r.steps;
            repeats = r.repeats;
        }
        given = turns::turn(&mut order, &others, r.steps);
        if given == 0 {
            let made = budget - left;
            return Found {
                verdict: Verdict::Hunted,
                order: best,
                length,
                repeats,
                steps: made,
                distance: 0,
            };
        }
    }
}

// The takes of the owner's list.
fn takes(puts: &[bool]) -> usize
    ensures { (result ≡ hands_in (map owners_next puts.now)) × (result ≤ length puts.now) }
{
    let mut n = 0;
    for put in puts {
        if !put {
            n += 1;
        }
    }
    n
}

// The steals of the thieves from place `from` of the seven on.
fn steals_from(each: [u32; 7], from: u32) -> u64
    requires { from ≤ 7 }
    ensures { (result ≡ operations (drop from (steals each))) × (result ≤ 30064771065) }
{
    let mut sum = 0;
    for i in from..7 {
        sum += u64::from(each[i as usize]);
    }
    sum
}

// What each worker is to do: the owner `count` operations, and the thieves their steals.
fn counted(count: u32, each: [u32; 7]) -> [u32; 8]
    ensures { result ≡ count ∷ each }
{
    [
        count, each[0], each[1], each[2], each[3], each[4], each[5], each[6],
    ]
}

// More than 64 operations.
fn too_many(count: usize, stolen: u64) -> bool
    requires { stolen ≤ 30064771065 }
    ensures { result ≡ ltb 64 (count + stolen) }
{
    64 < count || 64 < count as u64 + stolen
}

// A refused hunt reports an empty order and zeros.
fn refused(verdict: Verdict) -> Found
    ensures { reported result ≡ refusal verdict }
{
    Found {
        verdict,
        order: [0u32; 256],
        length: 0,
        repeats: 0,
        steps: 0,
        distance: 0,
    }
}

// Hunts on a store and a log that are all 0.
fn hunt_on(
    kind: u32,
    width: u32,
    size: u32,
    crew: u32,
    words: u32,
    long: u32,
    puts: &[bool],
    each: [u32; 7],
    budget: u32,
    store: &mut [u32],
    log: &mut [u32],
) -> Found
    requires store_value { store.old ≡ own_store long }
    requires log_value { log.old ≡ own_log }
    ensures { reported result ≡ hunt_of kind width size crew words long puts.now each budget }
{
    let setup = Setup {
        kind,
        width,
        size,
        crew,
        words,
        delayed: false,
    };
    let left = slots::usable(store);
    let stop = opening::admission_stop(setup, left);
    if let Err(why) = stop {
        return refused(Verdict::Barred { why });
    }
    let behind = crew.saturating_sub(1);
    let outside = steals_from(each, behind);
    if outside != 0 {
        let why = Refusal::NoSuchWorker;
        return refused(Verdict::Barred { why });
    }
    let stolen = steals_from(each, 0);
    let count = puts.len();
    if too_many(count, stolen) {
        return refused(Verdict::ManyOperations);
    }
    if 1000000 < budget {
        return refused(Verdict::LargeBudget);
    }
    let taken = takes(puts);
    let hands = taken as u32 + stolen as u32;
    let all = counted(count as u32, each);
    let bench = opening::new_bench(0, setup);
    walk(bench, puts, all, hands, budget, store, log)
}

// The hunt, told by single numbers as `hunt_of` is. The owner's list says at each place whether it is a put; `steals` are those of
// thief 1 to 7. Its store and its log are its own.
pub fn hunt(
    kind: u32,
    width: u32,
    size: u32,
    crew: u32,
    words: u32,
    long: u32,
    puts: &[bool],
    steals: [u32; 7],
    budget: u32,
) -> Found
    ensures { reported result ≡ hunt_of kind width size crew words long puts.now steals budget }
{
    let mut store = [0u32; 10235];
    let mut log = [0u32; 448];
    let n = own_length(long);
    hunt_on(
        kind,
        width,
        size,
        crew,
        words,
        long,
        puts,
        steals,
        budget,
        &mut store[..n],
        &mut log,
    )
}

// The words of the hunt's own store that are used.
fn own_length(long: u32) -> usize
    ensures { (result ≡ least long 10235) × (result ≤ 10235) }
{
    long.min(10235) as usize
}

// Judges a log that a running matcher wrote: whether its hand-outs are those of finished puts, and every finished put is handed
// out or still stored.
// Uses `model`, `judgement`, `puts` and `marks`. It is used by `judge_c`, which C and C++ call (include/bomqelir.h).

#![tactic(auto)]

ghost use Rattle.std.specs.Prelude.{◌≡◌, ◌/◌, length};
ghost use Rattle.judgement.specs.Judgement.{words_of, judged_words, judged, verdict_number};

use judgement::{Log, Ordered, Verdict};
use puts::Puts;

// The judgement of a log's entries and a list's numbers.
fn judge_entries(log: Log, list: &[u8]) -> Verdict
    ensures { result ≡ judged_words log.entry.words (words_of log.entry.bytes.now) log.entry.entries (words_of list.now) (length list.now / 4) }
{
    if !log.in_order() {
        return Verdict::No;
    }
    let mut places = [0; 4096];
    let ordered = Ordered { log };
    let puts = Puts::gather(ordered, &mut places);
    let mut seen = [false; 4096];
    let seen = &mut seen[..puts.places.len()];
    let Some(outs) = marks::hand_outs(&puts, seen) else {
        return Verdict::No;
    };
    let mut hints = [0; 4096];
    puts.note_hints(&mut hints);
    marks::mark_listed(list, &puts, &hints, seen);
    if !marks::all_marked(seen) {
        return Verdict::No;
    }
    Verdict::Accepted {
        handouts: outs.handouts,
        repeats: outs.handouts - outs.different,
    }
}

// The most bytes of a log or a list.
const LONGEST: usize = 65536;

// The judgement of a log's bytes, with so many payload words in an entry and the put numbers that are said to be stored still. Any
// count, bytes and lengths will do.
pub fn judge(words: u32, log: &[u8], list: &[u8]) -> Verdict
    ensures { result ≡ judged words log.now list.now }
{
    if !(1..=4).contains(&words) {
        return Verdict::PayloadWords;
    }
    if LONGEST < log.len() || LONGEST < list.len() {
        return Verdict::TooLong;
    }
    let payload = words as usize;
    let long = 4 * (3 + payload);
    if log.len() % long != 0 || list.len() % 4 != 0 {
        return Verdict::BadLength;
    }
    let log = Log {
        words: payload,
        bytes: log,
        entries: log.len() / long,
    };
    judge_entries(log, list)
}

// A verdict as one number: the refusal, 0 for no, else 2^32 plus 65,536 times the hand-outs plus the repeats.
fn verdict_number(verdict: Verdict) -> u64
    ensures { result ≡ verdict_number verdict }
{
    match verdict {
        Verdict::PayloadWords => 16,
        Verdict::TooLong => 15,
        Verdict::BadLength => 14,
        Verdict::No => 0,
        Verdict::Accepted { handouts, repeats } => {
            4294967296 + 65536 * u64::from(handouts) + u64::from(repeats)
        }
    }
}

// What callers in C and C++ are answered, by the exports of `judge_c`: see include/bomqelir.h. The first is for tasks of one payload
// word.
pub fn bomqelir_judge(log: &[u8], list: &[u8]) -> u64
    ensures { result ≡ verdict_number (judged 1 log.now list.now) }
{
    verdict_number(judge(1, log, list))
}

pub fn bomqelir_judge_words(words: u32, log: &[u8], list: &[u8]) -> u64
    ensures { result ≡ verdict_number (judged words log.now list.now) }
{
    verdict_number(judge(words, log, list))
}

// The judge for callers in C and C++, as a static library: see include/bomqelir.h.
// Uses `model`, `judgement` and `judge`. No crate uses it.

#![tactic(auto)]

ghost use Rattle.std.specs.Prelude.{◌≡◌};
ghost use Rattle.judgement.specs.Judgement.{judged, verdict_number};

// The first is for tasks of one payload word.
#[unsafe(no_mangle)]
pub extern "C" fn bomqelir_judge(log: &[u8], list: &[u8]) -> u64
    ensures { result ≡ verdict_number (judged 1 log.now list.now) }
{
    judge::bomqelir_judge(log, list)
}

#[unsafe(no_mangle)]
pub extern "C" fn bomqelir_judge_words(words: u32, log: &[u8], list: &[u8]) -> u64
    ensures { result ≡ verdict_number (judged words log.now list.now) }
{
    judge::bomqelir_judge_words(words, log, list)
}

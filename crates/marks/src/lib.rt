// The hand-outs of a log counted, and the finished puts marked that are handed out or listed.
// Uses `model`, `judgement` and `puts`. It is used by `judge`.

#![tactic(auto)]

ghost use Rattle.std.specs.Prelude.{◌≡◌, ◌≤◌, false, ℕ, ◌/◌, length, get_or};
ghost use Rattle.judgement.specs.Judgement.{words_of, all_below};
ghost use Rattle.marks.specs.Marks.{Marked, OutsBy, is_marked};

use judgement::EntryKind;
use puts::Puts;

// How many hand-outs there are, and of how many puts.
#[derive(Clone, Copy)]
pub struct Outs {
    pub handouts: u32,
    pub different: u32,
}

// The hand-outs counted, if each repeats an earlier finished put, and the puts that they hand out marked in `seen`, where nothing was
// marked before.
pub fn hand_outs(puts: &Puts, seen: &mut [bool]) -> Option<Outs>
    requires room { length puts.now.places.now ≤ length seen.old }
    requires by_index { (k : ℕ) → get_or seen.old k false ≡ false }
    ensures { OutsBy puts.now.log.words (words_of puts.now.log.bytes.now) puts.now.log.entries puts.now.places.now (length puts.now.places.now) result seen.new }
{
    let mut handouts = 0;
    let mut different = 0;
    for j in 0..puts.log.entries {
        if puts.log.is_kind(EntryKind::HandOut, j) {
            let k = puts.repeated(j)?;
            handouts += 1;
            if !seen[k] {
                seen[k] = true;
                different += 1;
            }
        }
    }
    Some(Outs {
        handouts,
        different,
    })
}

// The puts that the list names, marked in `seen` beside those that are handed out.
pub fn mark_listed(list: &[u8], puts: &Puts, hints: &[u32; 4096], seen: &mut [bool])
    requires room { length puts.now.places.now ≤ length seen.old }
    requires marked { Marked puts.now.log.words (words_of puts.now.log.bytes.now) puts.now.log.entries (words_of list.now) 0 puts.now.places.now (length puts.now.places.now) seen.old }
    ensures { Marked puts.now.log.words (words_of puts.now.log.bytes.now) puts.now.log.entries (words_of list.now) (length list.now / 4) puts.now.places.now (length puts.now.places.now) seen.new }
{
    // Where nothing was put, there is nothing to mark, however long the list is.
    if puts.places.is_empty() {
        return;
    }
    for i in 0..list.len() / 4 {
        if let Some(k) = puts.look_up(hints, judgement::word(list, i)) {
            seen[k] = true;
        }
    }
}

// Whether all are marked.
pub fn all_marked(seen: &[bool]) -> bool
    ensures { result ≡ all_below (is_marked seen.now) (length seen.now) }
{
    seen.iter().all(|&marked| marked)
}

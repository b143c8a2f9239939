// The judgement of a log that a running matcher wrote (specs/), the verdict's type, and the log's entries: their kinds, numbers and
// order.
// Uses `model`. It is used by `puts`, `marks`, `judge`, `judge_c`, `handouts`, `counts`, `hunter`, `accepted` and `yards`.

#![tactic(auto)]

ghost use Rattle.std.specs.Prelude.{◌≡◌, true, ◌+◌, ◌*◌, ◌≤◌, ◌<◌, length, get_or};
ghost use Rattle.model.specs.Tests.{◌and◌};
ghost use Rattle.model.specs.Tasks.{same_task};
ghost use Rattle.model.specs.Counts.{entry_at, is_kind};
ghost use Rattle.judgement.specs.Judgement.{words_of, all_below, known, rises, entry_bytes};
ghost use Rattle.judgement.specs.Kinds.{number_of};

pub use kind::{EntryKind, UnknownKind};

mod kind;

// What the judge answers: no such count of payload words; a list is too long, or its length is none of whole entries (of whole
// numbers); the log is not accepted; or it is, with its hand-outs and, among them, the repeats. It is no `Result`: the definitions
// `judged`, `verdict_number` and `counts_in` and the theorems `RunsJudged` and `RunsJudgedInYards` name its five cases, and `No` is an
// answer, not an error.
#[derive(Clone, Copy)]
pub enum Verdict {
    PayloadWords,
    TooLong,
    BadLength,
    No,
    Accepted { handouts: u32, repeats: u32 },
}

// Word `k` of the bytes, lowest byte first.
pub fn word(bytes: &[u8], k: usize) -> u32
    requires { 4 * k + 3 < length bytes.now }
    ensures { result ≡ get_or (words_of bytes.now) k 0 }
{
    let at = 4 * k;
    u32::from_le_bytes([bytes[at], bytes[at + 1], bytes[at + 2], bytes[at + 3]])
}

// The bytes of a log and its whole entries, each with so many payload words.
#[derive(Clone, Copy)]
pub struct Log<'a> {
    pub words: usize,
    pub bytes: &'a [u8],
    pub entries: usize,
    pub ghost narrow: { words ≤ 4 },
    pub ghost few: { entries ≤ 4096 },
    pub ghost whole: { entry_bytes words * entries ≤ length bytes.now },
}

impl Log<'_> {
    // Word `k` of an entry.
    fn word_of(&self, entry: usize, k: usize) -> u32
        requires { (entry < self.now.entries) × (k < 3 + self.now.words) }
        ensures { result ≡ get_or (words_of self.now.bytes.now) ((3 + self.now.words) * entry + k) 0 }
    {
        word(self.bytes, (3 + self.words) * entry + k)
    }

    // The number of an entry's kind, known or not.
    pub fn kind_at(&self, entry: usize) -> u32
        requires { entry < self.now.entries }
        ensures { result ≡ (entry_at self.now.words (words_of self.now.bytes.now) entry).kind }
    {
        self.word_of(entry, 0)
    }

    // Whether an entry is of this kind.
    pub fn is_kind(&self, kind: EntryKind, entry: usize) -> bool
        requires { entry < self.now.entries }
        ensures { result ≡ is_kind self.now.words (words_of self.now.bytes.now) (number_of kind) entry }
    {
        self.kind_at(entry) == kind as u32
    }

    // The put number of an entry.
    pub fn number_at(&self, entry: usize) -> u32
        requires { entry < self.now.entries }
        ensures { result ≡ (entry_at self.now.words (words_of self.now.bytes.now) entry).task.number }
    {
        self.word_of(entry, 2)
    }

    // Whether two entries have one task, number and payload.
    pub fn same_task(&self, entry: usize, other: usize) -> bool
        requires { (entry < self.now.entries) × (other < self.now.entries) }
        ensures { result ≡ same_task (entry_at self.now.words (words_of self.now.bytes.now) entry).task (entry_at self.now.words (words_of self.now.bytes.now) other).task }
    {
        for k in 0..self.words + 1 {
            if self.word_of(entry, 2 + k) != self.word_of(other, 2 + k) {
                return false;
            }
        }
        true
    }

    // Whether kinds are 1 to 5 and the numbers of kinds 1 and 4 rise. `floor` is one above the last of them, at first 0.
    pub fn in_order(&self) -> bool
        ensures { result ≡ (all_below (known self.now.words (words_of self.now.bytes.now)) self.now.entries and all_below (rises self.now.words (words_of self.now.bytes.now)) self.now.entries) }
    {
        let mut floor: u64 = 0;
        for j in 0..self.entries {
            let Ok(kind) = EntryKind::try_from(self.word_of(j, 0)) else {
                return false;
            };
            if kind.is_numbered() {
                let number = u64::from(self.number_at(j));
                if number < floor {
                    return false;
                }
                floor = number + 1;
            }
        }
        true
    }
}

// A log whose put numbers rise.
#[derive(Clone, Copy)]
pub struct Ordered<'a> {
    pub log: Log<'a>,
    pub ghost rising: { all_below (rises log.words (words_of log.bytes.now)) log.entries ≡ true },
}

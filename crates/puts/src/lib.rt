// The finished puts of a log: gathered, looked up by number, and told for each hand-out that repeats one.
// Uses `model` and `judgement`. It is used by `marks` and `judge`.

#![tactic(auto)]

ghost use Rattle.std.specs.Prelude.{◌≡◌, true, ℕ, ◌+◌, ◌*◌, ◌≤◌, ◌<◌, length, get_or};
ghost use Rattle.judgement.specs.Judgement.{words_of};
ghost use Rattle.puts.specs.Puts.{number_of_put, Rising, Gathered, Found, Repeated};

use judgement::{EntryKind, Log, Ordered};

// The finished puts of a log whose put numbers rise: their places among its entries, in order.
#[derive(Clone, Copy)]
pub struct Puts<'a> {
    pub log: Log<'a>,
    pub places: &'a [u32],
    pub ghost gathered: { Gathered log.words (words_of log.bytes.now) log.entries places.now (length places.now) },
    pub ghost rising: { Rising log.words (words_of log.bytes.now) places.now (length places.now) },
}

impl<'a> Puts<'a> {
    // Those of the log, at most as many as it has entries, are written to `room`.
    pub fn gather(ordered: Ordered<'a>, room: &'a mut [u32]) -> Self
        requires { ordered.log.entries ≤ length room.old }
        ensures { result.log ≡ ordered.entry.log }
    {
        let log = ordered.log;
        let mut count = 0;
        for j in 0..log.entries {
            if log.is_kind(EntryKind::Finished, j) {
                room[count] = j as u32;
                count += 1;
            }
        }
        Puts {
            log,
            places: &room[..count],
        }
    }
}

impl Puts<'_> {
    // The entry of the `k`-th of them.
    fn entry(&self, k: usize) -> usize
        requires { k < length self.now.places.now }
        ensures { (result ≡ get_or self.now.places.now k 0) × (result < self.now.log.entries) }
    {
        self.places[k] as usize
    }

    // Its number.
    fn number(&self, k: usize) -> u32
        requires { k < length self.now.places.now }
        ensures { result ≡ number_of_put self.now.log.words (words_of self.now.log.bytes.now) self.now.places.now k }
    {
        self.log.number_at(self.entry(k))
    }

    // Which of them has the number, found by halving, for their numbers rise. The library's `binary_search_by` is no plainer here: its
    // closure must take any word, and only places of entries can be read. A `match` on `cmp` makes the judge a quarter slower.
    fn find(&self, number: u32) -> Option<usize>
        ensures { Found self.now.log.words (words_of self.now.log.bytes.now) self.now.places.now number result }
    {
        let mut low = 0;
        let mut high = self.places.len();
        while low < high {
            let middle = low + (high - low) / 2;
            let here = self.number(middle);
            if here == number {
                return Some(middle);
            }
            if here < number {
                low = middle + 1;
            } else {
                high = middle;
            }
        }
        None
    }

    // Where each of them may be found, by its number's remainder: a hint, the last one's where several share it.
    pub fn note_hints(&self, hints: &mut [u32; 4096]) {
        for k in 0..self.places.len() {
            hints[(self.number(k) % 4096) as usize] = k as u32;
        }
    }

    // As `find`, where the hint is right without halving. Any hints will do: what one says is read again at its place.
    pub fn look_up(&self, hints: &[u32; 4096], number: u32) -> Option<usize>
        ensures { Found self.now.log.words (words_of self.now.log.bytes.now) self.now.places.now number result }
    {
        let hint = hints[(number % 4096) as usize] as usize;
        if hint < self.places.len() && self.number(hint) == number {
            return Some(hint);
        }
        self.find(number)
    }

    // Which of them hand-out `j` repeats, number and payload, if that put stands before it. It stands apart in the program: the largest
    // log is judged in 403 microseconds so, and in 467 where it is inlined.
    #[inline(never)]
    pub fn repeated(&self, j: usize) -> Option<usize>
        requires { j < self.now.log.entries }
        ensures { Repeated self.now.log.words (words_of self.now.log.bytes.now) self.now.places.now j result }
    {
        let k = self.find(self.log.number_at(j))?;
        let put = self.entry(k);
        let early = j <= put;
        if early || !self.log.same_task(put, j) {
            return None;
        }
        Some(k)
    }
}

// The program's output: text waits in a buffer, and is written where there is no room for more.
ghost use Rattle.std.specs.Prelude.{◌≡◌, ◌+◌, ◌≤◌, length, OnOk};

use model::{Anchor, Answer, Queue, Refusal, Store};
use std::io::{Print, Stdout};
use streams::Failure;

// The first `end` bytes wait. The buffer's size is written out where the ghost field needs it.
#[derive(Drop)]
pub struct Output {
    stdout: Stdout,
    bytes: [u8; 65536],
    end: usize,
    ghost inside: { end ≤ 65536 },
}

impl Output {
    pub fn new(stdout: Stdout) -> Output {
        Output {
            stdout,
            bytes: [0; 65536],
            end: 0,
        }
    }

    // Writes what waits.
    pub fn write(&mut self) -> Result<(), Failure>
        ensures { self.new.end ≡ 0 }
    {
        let end = self.end;
        self.end = 0;
        self.stdout
            .write_all(&self.bytes[..end])
            .map_err(Failure::Write)
    }

    // Sees to it that `need` bytes are free.
    fn room(&mut self, need: usize) -> Result<(), Failure>
        requires { need ≤ 65536 }
        ensures { OnOk result (self.new.end + need ≤ 65536) }
    {
        if self.bytes.len() - self.end < need {
            return self.write();
        }
        Ok(())
    }

    fn byte(&mut self, byte: u8) -> Result<(), Failure> {
        self.room(1)?;
        self.bytes[self.end] = byte;
        self.end += 1;
        Ok(())
    }

    // The line of an answer's words, of a bench with so many payload words.
    pub fn answer(&mut self, words: u32, answer: &[u32]) -> Result<(), Failure>
        requires { length answer.now ≡ 7 }
    {
        self.room(call_text::ANSWER)?;
        self.end = call_text::show(&mut self.bytes, self.end, words, answer);
        Ok(())
    }

    // The line of an answer.
    pub fn reply(&mut self, words: u32, answer: Answer) -> Result<(), Failure> {
        self.answer(words, &plays::words_of(answer))
    }

    // The line of a refusal by its number.
    pub fn refusal(&mut self, number: u32) -> Result<(), Failure> {
        self.answer(1, &[0, 3, number, 0, 0, 0, 0])
    }

    // Numbers of a line of many.
    fn words(&mut self, words: &[u32]) -> Result<(), Failure> {
        for &word in words {
            self.room(call_text::WORD)?;
            self.end = call_text::show_word(&mut self.bytes, self.end, word);
        }
        Ok(())
    }

    // A worker's restarts, or why it is refused.
    pub fn tally(&mut self, worker: u32, tally: Result<u32, Refusal>) -> Result<(), Failure> {
        match tally {
            Ok(restarts) => {
                self.room(call_text::ANSWER)?;
                self.end = call_text::show_restarts(&mut self.bytes, self.end, worker, restarts);
                Ok(())
            }
            Err(why) => self.refusal(queues::number_of(why)),
        }
    }

    // The written front of a log.
    pub fn front(&mut self, front: &[u32]) -> Result<(), Failure> {
        self.byte(b'L')?;
        self.words(front)?;
        self.byte(b'\n')
    }

    // The anchor, how many arrays are published and how many claimed, and offset and length of each of those.
    fn queue(&mut self, queue: &Queue) -> Result<(), Failure> {
        let anchor = queue.anchor;
        self.words(&[
            anchor.head,
            anchor.count,
            anchor.tag,
            queue.published,
            queue.claimed,
        ])?;
        let claimed = (queue.claimed as usize).min(queue.arrays.len());
        for array in &queue.arrays[..claimed] {
            self.words(&[array.offset, array.length])?;
        }
        Ok(())
    }

    fn anchor(&mut self, anchor: Anchor) -> Result<(), Failure> {
        self.words(&[3, anchor.head, anchor.count, anchor.tag])
    }

    // A store that waits: which place it is for, and the value.
    fn store(&mut self, queue: &Queue, words: u32, store: Store) -> Result<(), Failure> {
        match store {
            Store::StoreWord {
                place,
                slot,
                word,
                value,
            } => self.words(&[1, word_address(queue, words, place, slot, word), value]),
            // The array's place in the directory; so many are published then.
            Store::StoreNote { place } => self.words(&[2, place.wrapping_add(1)]),
            Store::StorePut { value } => self.anchor(value),
            Store::StoreOut { value } => self.anchor(value),
            Store::StoreHead { value } => self.words(&[4, value]),
            Store::StoreTail { value } => self.words(&[5, value]),
        }
    }

    // How many stores wait, and each, the oldest first; nothing of a bench that does not delay its stores.
    fn waiting(&mut self, state: &model::Bench) -> Result<(), Failure> {
        if !state.delayed {
            return Ok(());
        }
        let waiting = &state.waiting;
        self.words(&[waiting.count])?;
        let count = (waiting.count as usize).min(waiting.stores.len());
        for &store in &waiting.stores[..count] {
            self.store(&state.queue, state.words, store)?;
        }
        Ok(())
    }

    // What is shared, in the order that the form gives: the queue, how many put numbers are used and words written, each worker's
    // restarts, what waits, and the store's words. A crew of 0 is no bench.
    pub fn state(&mut self, state: &model::Bench, store: &[u32]) -> Result<(), Failure> {
        if state.crew == 0 {
            return self.refusal(12);
        }
        self.byte(b'S')?;
        self.queue(&state.queue)?;
        self.words(&[state.used, state.written])?;
        self.words(&state.restarts)?;
        self.waiting(state)?;
        self.words(&[state.aside])?;
        self.words(store)?;
        self.byte(b'\n')
    }
}

// Where a task's word lies in the store, of a bench with so many payload words. The sums fit where a state is the library's own.
fn word_address(queue: &Queue, words: u32, place: u32, slot: u32, word: u32) -> u32 {
    let array = queue.arrays[(place as usize).min(10)];
    let size = match words {
        1..=3 => words + 1,
        _ => 5,
    };
    array
        .offset
        .wrapping_add(slot.wrapping_mul(size))
        .wrapping_add(word)
}

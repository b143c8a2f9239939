// Lines of text: a command line's bytes read as a command, and a line of output written.
// Uses `model`. It is used by `replies`, `listing` and `call_text`.

#![tactic(auto)]

ghost use Rattle.std.specs.Prelude.{◌≡◌, ◌+◌, ◌≤◌, ◌<◌, List, ℕ, length, get_or, take, drop, IfSome, IsNone};
ghost use Rattle.text.specs.Numbers.{Placed};
ghost use Rattle.text.specs.Numbers.{plain as plain_of, value_of, decimal_of, line_of};
ghost use Rattle.text.specs.Outs.{out_values};
ghost use Rattle.text.specs.Words.{words, head, tail};
ghost use Rattle.text.specs.Commands.{key_of, these, values, formed, command_of};

use model::{Command, Payload, Task};

// The word that a line begins with.
#[derive(Clone, Copy, Debug, PartialEq, Eq)]
pub enum Key {
    Other,
    Queue,
    Put,
    Take,
    Steal,
    Step,
    Who,
    End,
}

// A queue has at most so many words of the store, and `step` makes at most so many steps.
const STORE: u32 = 10235;

const STEPS: u32 = 65535;

// Whether a word may be a number: not empty, and no zero before another digit.
fn plain(word: &[u8]) -> bool
    ensures { result ≡ plain_of word.now }
{
    match word {
        [] => false,
        [_] => true,
        [first, ..] => *first != b'0',
    }
}

// The number that a word is, if it is one.
pub fn number(word: &[u8]) -> Option<u32>
    ensures { result ≡ value_of word.now }
{
    if !plain(word) {
        return None;
    }
    let mut v: u32 = 0;
    for &b in word {
        if !b.is_ascii_digit() {
            return None;
        }
        v = v.checked_mul(10)?.checked_add(u32::from(b - b'0'))?;
    }
    Some(v)
}

// Where the word that starts at `at` ends.
pub fn word_end(line: &[u8], at: usize) -> usize
    requires { at ≤ length line.now }
    ensures word { result ≡ at + length (head (words (drop at line.now))) }
    ensures within { (at ≤ result) × (result ≤ length line.now) }
{
    for i in at..line.len() {
        if line[i] == b' ' {
            return i;
        }
    }
    line.len()
}

// A `match` on byte strings leaves 25 goals for its last arm, one for each way in which a word can differ, so the words are compared
// one after the other.
pub fn keyword(word: &[u8]) -> Key
    ensures { result ≡ key_of word.now }
{
    if word == b"queue".as_slice() {
        Key::Queue
    } else if word == b"put".as_slice() {
        Key::Put
    } else if word == b"take".as_slice() {
        Key::Take
    } else if word == b"steal".as_slice() {
        Key::Steal
    } else if word == b"step".as_slice() {
        Key::Step
    } else if word == b"who".as_slice() {
        Key::Who
    } else if word == b"end".as_slice() {
        Key::End
    } else {
        Key::Other
    }
}

// The k-th of the numbers; `other` where there is none.
fn value_at(v: &[u32], k: usize, other: u32) -> u32
    ensures { result ≡ get_or v.now k other }
{
    v.get(k).copied().unwrap_or(other)
}

// The keyword with the numbers behind it.
fn form(key: Key, v: &[u32]) -> Command
    ensures { result ≡ formed key v.now }
{
    let n = v.len();
    match key {
        Key::Queue if 5 <= n && n <= 6 && v[4] <= STORE => Command::Open {
            kind: v[0],
            width: v[1],
            size: v[2],
            workers: v[3],
            store: v[4],
            words: value_at(v, 5, 1),
        },
        Key::Put if 1 <= n && n <= 4 => Command::BeginPut {
            words: n as u32,
            payload: Payload {
                first: value_at(v, 0, 0),
                second: value_at(v, 1, 0),
                third: value_at(v, 2, 0),
                fourth: value_at(v, 3, 0),
            },
        },
        Key::Take if n == 0 => Command::BeginTake,
        Key::Steal if n == 1 => Command::BeginSteal { worker: v[0] },
        Key::Step if n == 2 && v[1] <= STEPS => Command::Steps {
            worker: v[0],
            times: v[1],
        },
        Key::Who if n == 1 => Command::Who { worker: v[0] },
        Key::End if n == 0 => Command::End,
        _ => Command::Bad,
    }
}

// Puts the numbers behind a line's first word into `v` from its start, and answers how many there are; none if one of the words is
// no number, or if there are more than `v` has room for.
pub fn numbers(line: &[u8], v: &mut [u32]) -> Option<usize>
    ensures some { IfSome result (λ n. (n ≤ length v.new) × (values (tail (words line.now)) ≡ these (take n v.new))) }
    ensures none { IsNone result → (ns : List ℕ) → values (tail (words line.now)) ≡ these ns → length v.old < length ns }
{
    numbers_behind(line, word_end(line, 0), v)
}

// The same where the caller knows the first word's end, so that the word is looked at once.
pub fn numbers_behind(line: &[u8], end: usize, v: &mut [u32]) -> Option<usize>
    requires { end ≡ length (head (words line.now)) }
    ensures some { IfSome result (λ n. (n ≤ length v.new) × (values (tail (words line.now)) ≡ these (take n v.new))) }
    ensures none { IsNone result → (ns : List ℕ) → values (tail (words line.now)) ≡ these ns → length v.old < length ns }
{
    let mut at = end;
    for n in 0..v.len() {
        if at == line.len() {
            return Some(n);
        }
        let from = at + 1;
        at = word_end(line, from);
        v[n] = number(&line[from..at])?;
    }
    if at == line.len() {
        return Some(v.len());
    }
    None
}

// What a line says. The numbers lie in an array, since the library allocates nothing, and go on as a slice.
pub fn parse(line: &[u8]) -> Command
    ensures { result ≡ command_of line.now }
{
    let end = word_end(line, 0);
    let key = keyword(&line[..end]);
    let mut v = [0u32; 6];
    let Some(n) = numbers_behind(line, end, &mut v) else {
        return Command::Bad;
    };
    form(key, &v[..n])
}

// Puts n's digits into out from at on, and answers where they end. `Display` would put them into a formatter's buffer, and the clause
// speaks of the caller's.
pub fn decimal(out: &mut [u8], at: usize, n: u64) -> usize
    requires { at + length (decimal_of n) ≤ length out.old }
    ensures { Placed out.old at (decimal_of n) result out.new }
{
    if n < 10 {
        out[at] = digit(n);
        return at + 1;
    }
    let last = n % 10;
    let end = decimal(out, at, n / 10);
    out[end] = digit(last);
    end + 1
}

fn digit(d: u64) -> u8
    requires { d < 10 }
    ensures { result ≡ 48 + d }
{
    b'0' + d as u8
}

// Puts a line of output into out from at on, and answers where it ends.
pub fn print(out: &mut [u8], at: usize, letter: u8, values: &[u64]) -> usize
    requires { at + length (line_of letter values.now) ≤ length out.old }
    ensures { Placed out.old at (line_of letter values.now) result out.new }
{
    out[at] = letter;
    let mut end = at + 1;
    for &value in values {
        out[end] = b' ';
        end = decimal(out, end + 1, value);
    }
    out[end] = b'\n';
    end + 1
}

// Puts the line of a hand-out: the worker, the put number, and the payload's words, of which there are `words`.
pub fn print_out(out: &mut [u8], at: usize, words: u32, worker: u32, task: Task) -> usize
    requires { at + length (line_of 72 (out_values words worker task)) ≤ length out.old }
    ensures { Placed out.old at (line_of 72 (out_values words worker task)) result out.new }
{
    let p = task.payload;
    let v = [
        u64::from(worker),
        u64::from(task.number),
        u64::from(p.first),
        u64::from(p.second),
        u64::from(p.third),
        u64::from(p.fourth),
    ];
    let n = 2 + words.min(4) as usize;
    print(out, at, b'H', &v[..n])
}

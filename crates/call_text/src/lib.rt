// The text of a list of library calls: a line's bytes read as what it asks for, and an answer's words written as a line. The form is
// in docs/CALLS.md. What is proved is that text is read and written safely; what it means is compared with the second simulator.
// Uses `model` and `text`. It is used by `calls`.

#![tactic(auto)]

ghost use Rattle.std.specs.Prelude.{◌≡◌, ◌+◌, ◌≤◌, ◌<◌, length, IfSome};

use model::{Operation, Payload, Setup};

// What a call does.
#[derive(Clone, Copy)]
pub enum Act {
    Step,
    Begin { operation: Operation },
    DropLink,
    Drain,
    Ask,
    DropAsk,
}

// A call. A drain is of no worker, and has 0.
#[derive(Clone, Copy)]
pub struct Call {
    pub worker: u32,
    pub act: Act,
}

// What a bench or a queue is asked for: a call made so many times, or to show its log's front, what is shared or a worker's restarts.
#[derive(Clone, Copy)]
pub enum Request {
    Front,
    State,
    Who { worker: u32 },
    Calls { call: Call, times: u32 },
}

// What a line says. A call is of the bench alone, or of the queue that the line names. A queue has the whole store where the line
// has no quota of words.
#[derive(Clone, Copy)]
pub enum ListLine {
    Memory { store: u32, log: u32 },
    Fresh { setup: Setup },
    Make { setup: Setup, quota: Option<u32> },
    Asks { asked: Request },
    AsksOf { queue: u32, asked: Request },
}

// The longest line of an answer: H and six numbers. A number with the space before it. Both have room for numbers of 64 bits.
pub const ANSWER: usize = 128;

pub const WORD: usize = 21;

// A longer line has no form.
pub const LINE: usize = 75;

// The most words of the store and of a log that a line may lend.
const STORE: u32 = 10300;

const LOG: u32 = 20000;

// The newline that ends the line which starts at `at`, if the buffer has it.
pub fn line_end(buf: &[u8], at: usize) -> Option<usize>
    requires { at ≤ length buf.now }
    ensures { IfSome result (λ end. (at ≤ end) × (end < length buf.now)) }
{
    let length = buf[at..].iter().position(|&b| b == b'\n')?;
    Some(at + length)
}

// A line's first word, and what stands behind its space, if it has one.
fn split(line: &[u8]) -> (&[u8], Option<&[u8]>) {
    let end = text::word_end(line, 0);
    if end == line.len() {
        return (line, None);
    }
    (&line[..end], Some(&line[end + 1..]))
}

fn calls(worker: u32, act: Act, times: u32) -> Option<ListLine> {
    let call = Call { worker, act };
    let asked = Request::Calls { call, times };
    Some(ListLine::Asks { asked })
}

fn asks(asked: Request) -> Option<ListLine> {
    Some(ListLine::Asks { asked })
}

// The first six: kind, tag width, size of the first array, workers, payload words, and 1 with delayed stores.
fn setup_of(v: &[u32; 7]) -> Setup {
    Setup {
        kind: v[0],
        width: v[1],
        size: v[2],
        crew: v[3],
        words: v[4],
        delayed: v[5] == 1,
    }
}

// What stands behind `begin`: a worker, an operation, and the words of a put's payload, one to four. Those that it has not are 0.
fn begun(line: &[u8]) -> Option<ListLine> {
    let (worker, rest) = split(line);
    let worker = text::number(worker)?;
    let rest = rest?;
    let (operation, _) = split(rest);
    let mut v = [0; 4];
    let n = text::numbers(rest, &mut v)?;
    let [first, second, third, fourth] = v;
    let payload = Payload {
        first,
        second,
        third,
        fourth,
    };
    let operation = match (operation, n) {
        (b"put", 1..=4) => Operation::Put { payload },
        (b"take", 0) => Operation::Take,
        (b"steal", 0) => Operation::Steal,
        (b"commit", 0) => Operation::Commit,
        _ => return None,
    };
    calls(worker, Act::Begin { operation }, 1)
}

// A line that names no queue: a keyword with as many numbers as it takes, those with a range within it. The sixth number of `fresh`
// may be left out, which means 0.
fn unnumbered(line: &[u8]) -> Option<ListLine> {
    let (word, rest) = split(line);
    if word == b"begin".as_slice() {
        return begun(rest?);
    }
    let mut v = [0; 7];
    let n = text::numbers(line, &mut v)?;
    match (word, &v[..n]) {
        (b"memory", &[store, log]) if store <= STORE && log <= LOG => {
            Some(ListLine::Memory { store, log })
        }
        (b"fresh", [_, _, _, _, _] | [_, _, _, _, _, 0 | 1]) => Some(ListLine::Fresh {
            setup: setup_of(&v),
        }),
        (b"make", [_, _, _, _, _, 0 | 1]) => Some(ListLine::Make {
            setup: setup_of(&v),
            quota: None,
        }),
        (b"make", &[_, _, _, _, _, 0 | 1, words]) => Some(ListLine::Make {
            setup: setup_of(&v),
            quota: Some(words),
        }),
        (b"step", &[worker, times]) => calls(worker, Act::Step, times),
        (b"drop", &[worker]) => calls(worker, Act::DropLink, 1),
        (b"ask", &[worker]) => calls(worker, Act::Ask, 1),
        (b"unask", &[worker]) => calls(worker, Act::DropAsk, 1),
        (b"drain", []) => calls(0, Act::Drain, 1),
        (b"who", &[worker]) => asks(Request::Who { worker }),
        (b"front", []) => asks(Request::Front),
        (b"state", []) => asks(Request::State),
        _ => None,
    }
}

// What a line says, if it has a form. One that begins with a number is of that queue.
pub fn parse(line: &[u8]) -> Option<ListLine> {
    let (word, rest) = split(line);
    let Some(queue) = text::number(word) else {
        return unnumbered(line);
    };
    match unnumbered(rest?)? {
        ListLine::Asks { asked } => Some(ListLine::AsksOf { queue, asked }),
        _ => None,
    }
}

// A letter and up to six numbers.
fn print(out: &mut [u8], at: usize, letter: u8, v: &[u32]) -> usize
    requires { (at + 128 ≤ length out.old) × (length v.now ≤ 6) }
    ensures { result ≤ at + 128 }
{
    let mut row = [0u64; 6];
    for (i, &n) in v.iter().enumerate() {
        row[i] = u64::from(n);
    }
    text::print(out, at, letter, &row[..v.len()])
}

// Puts the line of a worker's restarts.
pub fn show_restarts(out: &mut [u8], at: usize, worker: u32, restarts: u32) -> usize
    requires { at + 128 ≤ length out.old }
    ensures { result ≤ at + 128 }
{
    print(out, at, b'W', &[worker, restarts])
}

// Puts the line of an answer's words (a log entry's, with four of a payload) into the output from `at` on, and answers where it ends. Of a
// payload it shows `words`.
pub fn show(out: &mut [u8], at: usize, words: u32, answer: &[u32]) -> usize
    requires { (at + 128 ≤ length out.old) × (length answer.now ≡ 7) }
    ensures { result ≤ at + 128 }
{
    let worker = answer[1];
    let number = answer[2];
    match (answer[0], worker) {
        (1, _) => print(out, at, b'D', &[number]),
        (2, _) => print(out, at, b'H', &answer[1..3 + words.min(4) as usize]),
        (3, _) => print(out, at, b'E', &[worker]),
        (4, _) => print(out, at, b'F', &[number]),
        (5, _) => print(out, at, b'C', &[]),
        // An answer that ends no operation has which of them it is in its second word.
        (_, 0) => print(out, at, b'G', &[]),
        (_, 1) => print(out, at, b'A', &[]),
        (_, 2) => print(out, at, b'N', &[number]),
        _ => print(out, at, b'R', &[number]),
    }
}

// A number with a space before it, for a line of many.
pub fn show_word(out: &mut [u8], at: usize, n: u32) -> usize
    requires { at + 21 ≤ length out.old }
    ensures { result ≤ at + 21 }
{
    out[at] = b' ';
    text::decimal(out, at + 1, u64::from(n))
}

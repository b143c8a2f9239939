// Plays a list of library calls from standard input through the public face, a bench's or a yard's, and prints their answers. The
// form of both is in docs/CALLS.md. A line that is not of the form is told on standard error, and ends the program; what was played
// before is printed. Store and log are two lent slices in each function, for each call is lent other parts of them.
// Uses `queues`, `plays`, `call_text`, `streams` and `model`. It is a program, and no crate uses it.

#![tactic(auto)]

ghost use Rattle.std.specs.Prelude.{◌≡◌, ◌<◌, ◌≤◌, length, IfOk, IfSome};

use call_text::ListLine;
use output::Output;
use queues::{Bench, Yard};
use std::io::{Eprint, Stderr, Stdin};
use streams::{Failure, Input};

mod alone;
mod output;
mod yard;

// How many words of the store and of each log are lent.
#[derive(Clone, Copy)]
struct Lent {
    store: usize,
    log: usize,
}

// What a list is about: nothing before its first line, which lends the memory; then a bench alone, or the queues of a yard. The line
// behind the first says which.
#[derive(Clone, Copy)]
enum About {
    Nothing,
    Memory,
    Alone(Bench),
    Queues(Yard),
}

#[derive(Clone, Copy)]
struct Game {
    lent: Lent,
    about: About,
}

// What word 0 of the store and of a log holds at the start; each further word holds one more. So a word that nobody wrote shows
// where it stands.
const STORE: u32 = 3000000000;

const LOG: u32 = 4000000000;

// The places of the four logs: each queue has its own. A bench alone has the first.
const LOG_PLACE: usize = 20000;

fn number_words(words: &mut [u32], first: u32) {
    let mut number = first;
    for word in words {
        *word = number;
        number = number.wrapping_add(1);
    }
}

// The memory that is lent.
fn lend(words: u32, each: u32, store: &mut [u32], logs: &mut [u32]) -> Lent
    requires { 80000 ≤ length logs.old }
{
    let lent = Lent {
        store: (words as usize).min(store.len()),
        log: (each as usize).min(LOG_PLACE),
    };
    number_words(&mut store[..lent.store], STORE);
    for queue in 0..4 {
        let from = queue * LOG_PLACE;
        number_words(&mut logs[from..from + lent.log], LOG);
    }
    lent
}

// Before a line has made one: a refused fresh, which makes no bench.
fn no_bench(store: &mut [u32]) -> Bench {
    let nothing = model::Setup {
        kind: 0,
        width: 0,
        size: 0,
        crew: 0,
        words: 0,
        delayed: false,
    };
    Bench::fresh(nothing, store).bench
}

// Plays a line, and answers whether it stands where it may. `memory` is the first, and no other is. What is played is changed where it
// stands: a game is as large as a yard, and a line copies none.
fn play_line(
    game: &mut Game,
    line: ListLine,
    store: &mut [u32],
    logs: &mut [u32],
    out: &mut Output,
) -> Result<bool, Failure>
    requires { 80000 ≤ length logs.old }
{
    let words = game.lent.store.min(store.len());
    let log = game.lent.log.min(LOG_PLACE);
    match line {
        ListLine::Memory { store: words, log } => {
            let About::Nothing = game.about else {
                return Ok(false);
            };
            game.lent = lend(words, log, store, logs);
            game.about = About::Memory;
        }
        ListLine::Fresh { setup } => {
            let (About::Memory | About::Alone(_)) = game.about else {
                return Ok(false);
            };
            let made = Bench::fresh(setup, &mut store[..words]);
            out.reply(setup.words, made.answer)?;
            game.about = About::Alone(made.bench);
        }
        ListLine::Asks { asked } => {
            if let About::Memory = game.about {
                game.about = About::Alone(no_bench(store));
            }
            let About::Alone(bench) = &mut game.about else {
                return Ok(false);
            };
            alone::ask(bench, asked, &mut store[..words], &mut logs[..log], out)?;
        }
        ListLine::Make { setup, quota } => {
            if let About::Memory = game.about {
                game.about = About::Queues(Yard::bare());
            }
            let About::Queues(yard) = &mut game.about else {
                return Ok(false);
            };
            yard::make(yard, setup, quota, &mut store[..words], out)?;
        }
        ListLine::AsksOf { queue, asked } => {
            let About::Queues(yard) = &mut game.about else {
                return Ok(false);
            };
            let from = (queue as usize).min(3) * LOG_PLACE;
            let log = &mut logs[from..from + log];
            yard::ask(yard, queue, asked, &mut store[..words], log, out)?;
        }
    }
    Ok(true)
}

// Plays the lines that end in the buffer, and answers how many of its bytes they are; none at a line that has no form or stands where
// it may not. A line without an end that is longer than any of the form has none.
fn play_lines(
    game: &mut Game,
    buf: &[u8],
    store: &mut [u32],
    logs: &mut [u32],
    out: &mut Output,
) -> Result<Option<usize>, Failure>
    requires { 80000 ≤ length logs.old }
    ensures { IfOk result (λ played. IfSome played (λ used. used ≤ length buf.now)) }
{
    let mut used = 0;
    while let Some(end) = call_text::line_end(buf, used) {
        let Some(line) = call_text::parse(&buf[used..end]) else {
            return Ok(None);
        };
        if !play_line(game, line, store, logs, out)? {
            return Ok(None);
        }
        used = end + 1;
    }
    if call_text::LINE < buf.len() - used {
        return Ok(None);
    }
    Ok(Some(used))
}

fn run(
    input: &mut Stdin,
    errors: Stderr,
    buf: &mut [u8],
    store: &mut [u32],
    logs: &mut [u32],
    out: &mut Output,
) -> Result<(), Failure>
    requires { (75 < length buf.old) × (80000 ≤ length logs.old) }
{
    let mut game = Game {
        lent: Lent { store: 0, log: 0 },
        about: About::Nothing,
    };
    let mut have = 0;
    for _ in 0..u64::MAX {
        let input = streams::read_more(input, buf, have)?;
        let (Input::More(n) | Input::Last(n)) = input else {
            break;
        };
        let played = play_lines(&mut game, &buf[..n], store, logs, out)?;
        out.write()?;
        let Some(used) = played else {
            let _told = eprintln!(errors; "calls: not a line of the form");
            break;
        };
        if input == Input::Last(n) {
            break;
        }
        // A line that has begun goes to the front.
        have = (n - used).min(call_text::LINE);
        buf.copy_within(used..used + have, 0);
    }
    Ok(())
}

fn main(rt: HostRuntime) {
    let mut store = [0u32; 10300];
    let mut logs = [0u32; 80000];
    let mut buf = [0u8; 65536];
    let mut out = Output::new(rt.stdout());
    let played = run(
        &mut rt.stdin(),
        rt.stderr(),
        &mut buf,
        &mut store,
        &mut logs,
        &mut out,
    );
    if let Err(failure) = played {
        streams::tell(&rt.stderr(), failure);
    }
}

// The program `hunt`: reads one hunt from standard input, and prints the order found as a run for `bench`, then its report.
// Uses `hunter`, `orders`, `queues`, `streams`, `text` and `model`. It is a program, and no crate uses it.

#![tactic(auto)]

ghost use Rattle.std.specs.Prelude.{◌≤◌, ◌<◌, length, IfOk};

use hunter::Found;
use model::{Answer, Command, Operation, Payload, Refusal, Setup};
use orders::Verdict;
use queues::Bench;
use std::io::{Print, Stderr, Stdin, Stdout};
use streams::{Failure, Input};

// How far a hunt is told: no line was read yet; a queue is told; the hunt is asked for.
#[derive(Clone, Copy, PartialEq, Eq)]
enum Stage {
    NoLine,
    Told,
    Asked,
}

// The most operations of the owner's list that are kept: a hunt with that many is refused whatever they are.
const KEPT: usize = 65;

// The hunt as it is told. `numbers` counts those of the queue's line. The owner's list is the first `count` of `puts`, each
// whether it is a put; a program has no heap for a list that grows.
#[derive(Clone, Copy)]
struct Wish {
    stage: Stage,
    setup: Setup,
    long: u32,
    numbers: usize,
    puts: [bool; KEPT],
    count: usize,
    steals: [u32; 7],
    budget: u32,
}

// A longer line has no form.
const LINE: usize = 72;

// The first line: the queue.
fn with_queue(wish: &mut Wish, line: &[u8]) -> Result<(), Refusal> {
    let Command::Open {
        kind,
        width,
        size,
        workers,
        store,
        words,
    } = text::parse(line)
    else {
        return Err(Refusal::BadLine);
    };
    wish.stage = Stage::Told;
    wish.setup = Setup {
        kind,
        width,
        size,
        crew: workers,
        words,
        delayed: false,
    };
    wish.long = store;
    wish.numbers = line.iter().filter(|byte| **byte == b' ').count();
    Ok(())
}

// One operation more of the owner's list.
fn with_operation(wish: &mut Wish, put: bool) {
    if wish.count < KEPT {
        wish.puts[wish.count] = put;
        wish.count += 1;
    }
}

// A line behind the first.
fn with_more(wish: &mut Wish, line: &[u8]) -> Result<(), Refusal> {
    let mut numbers = [0u32; 2];
    let end = text::word_end(line, 0);
    let told = text::numbers_behind(line, end, &mut numbers);
    let [first, second] = numbers;
    let word = &line[..end];
    match told {
        Some(0) if word == b"put".as_slice() => with_operation(wish, true),
        Some(0) if word == b"take".as_slice() => with_operation(wish, false),
        Some(2) if word == b"steals".as_slice() && 0 < first && first <= 7 => {
            wish.steals[first as usize - 1] = second;
        }
        Some(1) if word == b"hunt".as_slice() => {
            wish.stage = Stage::Asked;
            wish.budget = first;
        }
        _ => return Err(Refusal::BadLine),
    }
    Ok(())
}

fn with_line(wish: &mut Wish, line: &[u8]) -> Result<(), Refusal> {
    match wish.stage {
        Stage::NoLine => with_queue(wish, line),
        _ => with_more(wish, line),
    }
}

// Reads the lines of the buffer that end in a newline, up to `hunt`. It answers how many bytes they are.
fn read_lines(wish: &mut Wish, buf: &[u8]) -> Result<usize, Refusal>
    ensures { IfOk result (λ used. used ≤ length buf.now) }
{
    let mut used = 0;
    for (at, byte) in buf.iter().enumerate() {
        if *byte == b'\n' && wish.stage != Stage::Asked {
            with_line(wish, &buf[used..at])?;
            used = at + 1;
        }
    }
    Ok(used)
}

fn no_wish() -> Wish {
    Wish {
        stage: Stage::NoLine,
        setup: Setup {
            kind: 0,
            width: 0,
            size: 0,
            crew: 0,
            words: 0,
            delayed: false,
        },
        long: 0,
        numbers: 0,
        puts: [false; KEPT],
        count: 0,
        steals: [0; 7],
        budget: 0,
    }
}

// Reads the hunt, line by line. A read that fails is told, and ends the hunt as a bad line does.
fn read_wish(input: &mut Stdin, errors: &Stderr, buf: &mut [u8]) -> Result<Wish, Refusal>
    requires { 72 < length buf.old }
{
    let mut wish = no_wish();
    let mut have = 0;
    for _ in 0..u64::MAX {
        let (n, last) = match streams::read_more(input, buf, have) {
            Ok(Input::More(n)) => (n, false),
            Ok(Input::Last(n)) => (n, true),
            Ok(Input::End) => break,
            Err(failure) => {
                streams::tell(errors, failure);
                break;
            }
        };
        let used = read_lines(&mut wish, &buf[..n])?;
        if wish.stage == Stage::Asked {
            return Ok(wish);
        }
        have = n - used;
        if last || LINE < have {
            break;
        }
        buf.copy_within(used..n, 0);
    }
    Err(Refusal::BadLine)
}

// The queue's line, as it came in.
fn tell_queue(output: Stdout, wish: &Wish) -> Result<(), Failure> {
    let Setup {
        kind,
        width,
        size,
        crew,
        words,
        ..
    } = wish.setup;
    let long = wish.long;
    print!(output; "queue {kind} {width} {size} {crew} {long}").map_err(Failure::Write)?;
    if wish.numbers == 6 {
        print!(output; " {words}").map_err(Failure::Write)?;
    }
    println!(output; "").map_err(Failure::Write)
}

// The n-th put has n as each of its words.
fn tell_put(output: Stdout, words: u32, n: u32) -> Result<(), Failure> {
    print!(output; "put").map_err(Failure::Write)?;
    for _ in 0..words {
        print!(output; " {n}").map_err(Failure::Write)?;
    }
    println!(output; "").map_err(Failure::Write)
}

// What the replay has told: the bench, how many of the owner's list are begun and how many of these are puts, and the steps of a
// worker that are not told yet.
#[derive(Clone, Copy)]
struct Replay {
    bench: Bench,
    begun: usize,
    puts: u32,
    worker: u32,
    times: u32,
}

// Tells the steps that are not told yet, if there are any.
fn tell_steps(output: Stdout, replay: &Replay) -> Result<(), Failure> {
    let Replay { worker, times, .. } = replay;
    if *times == 0 {
        return Ok(());
    }
    println!(output; "step {worker} {times}").map_err(Failure::Write)
}

// An idle worker's next operation, as it is told.
fn next_operation(
    output: Stdout,
    replay: &mut Replay,
    wish: &Wish,
    worker: u32,
) -> Result<Operation, Failure> {
    if 0 < worker {
        println!(output; "steal {worker}").map_err(Failure::Write)?;
        return Ok(Operation::Steal);
    }
    let put = wish.puts.get(replay.begun).copied().unwrap_or(false);
    replay.begun = replay.begun.saturating_add(1);
    if !put {
        println!(output; "take").map_err(Failure::Write)?;
        return Ok(Operation::Take);
    }
    replay.puts = replay.puts.saturating_add(1);
    tell_put(output, wish.setup.words, replay.puts)?;
    Ok(Operation::Put {
        payload: Payload {
            first: 0,
            second: 0,
            third: 0,
            fourth: 0,
        },
    })
}

// One step more of the order. An idle worker begins its next operation, and does its first line.
fn step_next(
    output: Stdout,
    replay: &mut Replay,
    wish: &Wish,
    worker: u32,
    store: &mut [u32],
    log: &mut [u32],
) -> Result<(), Failure> {
    let mut made = replay.bench.step(worker, store, log);
    let idle = matches!(
        made.answer,
        Answer::Refused {
            why: Refusal::IdleWorker
        }
    );
    if idle || worker != replay.worker {
        tell_steps(output, replay)?;
        replay.worker = worker;
        replay.times = 0;
    }
    if idle {
        let operation = next_operation(output, replay, wish, worker)?;
        let begun = replay.bench.begin(worker, operation, store, log);
        made = begun.bench.step(worker, store, log);
    }
    replay.bench = made.bench;
    replay.times = replay.times.saturating_add(1);
    Ok(())
}

// The steps of the order found.
fn order_of(found: &Found) -> &[u32] {
    &found.order[..found.order.len().min(found.length as usize)]
}

// Tells the order found as a run, and its report.
fn tell_order(
    output: Stdout,
    wish: &Wish,
    found: &Found,
    store: &mut [u32],
    log: &mut [u32],
) -> Result<(), Failure> {
    tell_queue(output, wish)?;
    let mut replay = Replay {
        bench: Bench::fresh(wish.setup, store).bench,
        begun: 0,
        puts: 0,
        worker: 0,
        times: 0,
    };
    for worker in order_of(found) {
        step_next(output, &mut replay, wish, *worker, store, log)?;
    }
    tell_steps(output, &replay)?;
    let Found {
        repeats,
        steps,
        distance,
        ..
    } = found;
    println!(output; "end\nM {repeats} {steps} {distance}").map_err(Failure::Write)
}

// The number of a refusal; a hunt that was hunted through has none.
fn number_of(verdict: Verdict) -> Option<u32> {
    match verdict {
        Verdict::Hunted => None,
        Verdict::Barred { why } => Some(queues::number_of(why)),
        Verdict::ManyOperations => Some(25),
        Verdict::LargeBudget => Some(26),
    }
}

fn hunt_for(wish: &Wish) -> Found {
    let s = wish.setup;
    hunter::hunt(
        s.kind,
        s.width,
        s.size,
        s.crew,
        s.words,
        wish.long,
        &wish.puts[..wish.count.min(KEPT)],
        wish.steals,
        wish.budget,
    )
}

fn run(
    output: Stdout,
    told: Result<Wish, Refusal>,
    store: &mut [u32],
    log: &mut [u32],
) -> Result<(), Failure> {
    let wish = match told {
        Ok(wish) => wish,
        Err(why) => {
            return println!(output; "R {}", queues::number_of(why)).map_err(Failure::Write);
        }
    };
    let found = hunt_for(&wish);
    if let Some(number) = number_of(found.verdict) {
        return println!(output; "R {number}").map_err(Failure::Write);
    }
    let n = store.len().min(wish.long as usize);
    tell_order(output, &wish, &found, &mut store[..n], log)
}

fn main(rt: HostRuntime) {
    let mut buf = [0u8; 4096];
    let mut store = [0u32; 10235];
    let mut log = [0u32; 448];
    let errors = rt.stderr();
    let told = read_wish(&mut rt.stdin(), &errors, &mut buf);
    if let Err(failure) = run(rt.stdout(), told, &mut store, &mut log) {
        streams::tell(&errors, failure);
    }
}

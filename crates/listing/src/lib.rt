// Lines of input played one after the other, and what they print, however the input is cut into buffers.
// Uses `model`, `theorems`, `stages`, `rooms`, `limits`, `state`, `machine`, `text` and `replies`. It is used by `bench`.

#![tactic(auto)]

ghost use Rattle.std.specs.Prelude.{◌≡◌, ◌+◌, ◌≤◌, length, drop};
ghost use Rattle.replies.specs.Sessions.{program_of, left_by};
ghost use Rattle.listing.specs.Listing.{until_newline};
ghost use Rattle.listing.specs.Consuming.{Reachable, ConsumedBy, CarriedBy};

use machine::Made;
use model::{Answer, Worker};
use replies::{LONGEST, Session};

// What consuming a buffer left: the session, how many bytes were played and how many written, and whether an accepted `end` was
// among them. The flag stands beside the values since the definition `ConsumedBy` reads all four after an `end` too.
#[derive(Clone, Copy)]
pub struct Consumed {
    pub session: Session,
    pub used: usize,
    pub wrote: usize,
    pub stops: bool,
}

// Where the line that starts at `at` ends: at a newline byte or at the buffer's end. Its clause is exact, as `consume`'s is; the program
// `calls` asks less of its own.
fn line_end(buf: &[u8], at: usize) -> usize
    requires { at ≤ length buf.now }
    ensures { result ≡ at + length (until_newline (drop at buf.now)) }
{
    for i in at..buf.len() {
        if buf[i] == b'\n' {
            return i;
        }
    }
    buf.len()
}

// Plays the lines of the buffer that end in a newline, as long as the output has room for another line's text. `step I M` is
// M steps, stopping at the first refusal. The bench stays in place where it can: a step that changes its worker's record alone
// replaces that record, a compare that fails counts a restart beside it, and what is refused leaves it alone. A bench that a
// `queue` of this program made is never foreign, so the limits are not tested at each step. The parts of the session are locals for
// that: a step writes them where they stand. The inner loop counts down, since what is proved of it (`Stepping`) takes the steps that
// are left; the outer one ends in four places and moves on by lines, so a range would count nothing.
pub fn consume(
    session: Session,
    buf: &[u8],
    store: &mut [u32],
    log: &mut [u32],
    out: &mut [u8],
) -> Consumed
    requires { Reachable (program_of session store.old log.old) }
    ensures consumed_by { ConsumedBy (program_of session store.old log.old) buf.now result store.new log.new out.new }
    ensures reachable { Reachable (left_by result.stops result.session store.new log.new) }
{
    let mut live = session.live;
    let mut long = session.long;
    let mut bench = session.bench;
    let mut used: usize = 0;
    let mut wrote: usize = 0;
    let mut stops = false;
    let most = out.len();
    'lines: while used < buf.len() {
        if most - wrote < LONGEST {
            break;
        }
        let end = line_end(buf, used);
        if end == buf.len() {
            break;
        }
        let command = text::parse(&buf[used..end]);
        used = end + 1;
        let asked = replies::ask(live, command);
        let Some((worker, times)) = asked else {
            let stop = replies::refused_at_once(live, bench, command);
            if let Err(why) = stop {
                let answer = Answer::Refused { why };
                wrote = replies::show(bench.words, answer, out, wrote);
                continue;
            }
            let p = replies::play(
                Session { live, long, bench },
                command,
                store,
                log,
                out,
                wrote,
            );
            live = p.session.live;
            long = p.session.long;
            bench = p.session.bench;
            wrote = p.end;
            if p.stops {
                stops = true;
                break;
            }
            continue;
        };
        let i = machine::place_of(worker);
        let n = replies::span(long, store);
        let mut left = times;
        while 0 < left {
            let own = bench.workers[i];
            let line = own.line;
            let kind = bench.kind;
            let queue = bench.queue;
            let room = rooms::room_at(line, queue, &store[..n]);
            let moved = machine::step_in(
                room,
                kind,
                bench.width,
                bench.words,
                bench.crew,
                queue,
                bench.written,
                worker,
                line,
                false,
                &mut store[..n],
                log,
            );
            let to = moved.line;
            let made = moved.made;
            left -= 1;
            let Made::Nothing = made else {
                if let Made::Refused { why } = made {
                    let answer = Answer::Refused { why };
                    wrote = replies::show(bench.words, answer, out, wrote);
                    continue 'lines;
                }
                if let Made::Fails = made {
                    let count = stages::one_more(bench.restarts[i]);
                    bench.restarts[i] = count;
                    bench.workers[i] = Worker { line: to };
                    continue;
                }
                let done = machine::settled(bench, i, to, made);
                let answer = done.answer;
                bench = done.bench;
                wrote = replies::show(bench.words, answer, out, wrote);
                continue;
            };
            bench.workers[i] = Worker { line: to };
        }
    }
    Consumed {
        session: Session { live, long, bench },
        used,
        wrote,
        stops,
    }
}

// Moves the bytes from `from` to `n`, a line that has begun, to the front of the buffer, and answers how many there are. Of more
// than 72 the first 72 are enough: a line that long is refused whatever follows.
pub fn carry(buf: &mut [u8], from: usize, n: usize) -> usize
    ensures { CarriedBy buf.old from n result buf.new }
{
    let to = n.min(buf.len());
    let k = to.saturating_sub(from).min(72);
    if 0 < k {
        buf.copy_within(from..from + k, 0);
    }
    k
}

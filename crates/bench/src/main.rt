// The bench program: reads lines from standard input and writes their listing to standard output. What it shows is proved in the
// crate `listing`, on slices; here it is read in chunks and written before the next read.
// Uses `replies`, `listing`, `streams` and `model`. It is a program, and no crate uses it.

#![tactic(auto)]

ghost use Rattle.std.specs.Prelude.{◌≡◌, ◌≤◌, ◌<◌, length, IfOk, IfSome};
ghost use Rattle.model.specs.Listing.{program_store, program_log};
ghost use Rattle.replies.specs.Sessions.{program_of};
ghost use Rattle.listing.specs.Consuming.{Reachable};

use replies::{LONGEST, Session};
use std::io::{Print, Stdin, Stdout};
use streams::{Failure, Input};

// Plays the lines among the first n bytes of the buffer, writes their text whenever the output is full and at the end, and keeps
// the line that has begun. It answers how many bytes that line has, and none after an accepted `end`.
fn play_some(
    output: Stdout,
    session: &mut Session,
    buf: &mut [u8],
    n: usize,
    store: &mut [u32],
    log: &mut [u32],
    out: &mut [u8],
) -> Result<Option<usize>, Failure>
    requires n_in_bounds { n ≤ length buf.old }
    requires reachable { Reachable (program_of session.old store.old log.old) }
    ensures have_bound { IfOk result (λ kept. IfSome kept (λ have. (have ≤ 72) × (have ≤ length buf.new))) }
    ensures reachable_2 { IfOk result (λ kept. IfSome kept (λ _. Reachable (program_of session.new store.new log.new))) }
{
    let mut from = 0;
    for _ in 0..u64::MAX {
        let f = listing::consume(*session, &buf[from..n], store, log, out);
        *session = f.session;
        from += f.used;
        output.write_all(&out[..f.wrote]).map_err(Failure::Write)?;
        if f.stops {
            break;
        }
        if LONGEST <= out.len() - f.wrote {
            return Ok(Some(listing::carry(buf, from, n)));
        }
    }
    Ok(None)
}

// Plays the input on the program's own store and log, as the definition of its listing has them.
fn run(
    input: &mut Stdin,
    output: Stdout,
    buf: &mut [u8],
    store: &mut [u32],
    log: &mut [u32],
    out: &mut [u8],
) -> Result<(), Failure>
    requires in_bounds { 72 < length buf.old }
    requires store_value { (store.old ≡ program_store) × (log.old ≡ program_log) }
{
    let mut session = replies::start();
    let mut have = 0;
    for _ in 0..u64::MAX {
        match streams::read_more(input, buf, have)? {
            Input::End => break,
            Input::Last(n) => {
                play_some(output, &mut session, buf, n, store, log, out)?;
                break;
            }
            Input::More(n) => match play_some(output, &mut session, buf, n, store, log, out)? {
                Some(kept) => have = kept,
                None => break,
            },
        }
    }
    Ok(())
}

fn main(rt: HostRuntime) {
    let mut store = [0u32; 10235];
    let mut log = [0u32; 16384];
    let mut buf = [0u8; 65536];
    let mut out = [0u8; 65536];
    let played = run(
        &mut rt.stdin(),
        rt.stdout(),
        &mut buf,
        &mut store,
        &mut log,
        &mut out,
    );
    if let Err(failure) = played {
        streams::tell(&rt.stderr(), failure);
    }
}

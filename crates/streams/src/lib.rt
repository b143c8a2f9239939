// What the programs share that play lines of standard input: a read behind a line that has begun, and how a read or a write that
// failed is told.
// It uses no crate of this repository, and is used by `calls`, `bench` and `hunt`.

#![tactic(auto)]

ghost use Rattle.std.specs.Prelude.{◌<◌, length, IfOk, OnErr};
ghost use Rattle.std.specs.Io.KnownBytes.{Keeps};
ghost use Rattle.streams.specs.Reading.{Holds};

use std::fmt;
use std::io::{Eprint, Error, Read};

// A read or a write that failed. A program ends there.
#[derive(Debug, Drop)]
pub enum Failure {
    Read(Error),
    Write(Error),
}

impl fmt::Display for Failure {
    fn fmt<W: fmt::Write>(&self, f: &mut fmt::Formatter<W>) -> fmt::Result {
        match self {
            Failure::Read(error) => write!(f, "read: {error}"),
            Failure::Write(error) => write!(f, "write: {error}"),
        }
    }
}

// What a read left in the buffer: so many bytes to play. `Last` has nothing behind it, and `End` nothing at all.
#[derive(Clone, Copy, Debug, PartialEq, Eq)]
pub enum Input {
    End,
    More(usize),
    Last(usize),
}

// Reads once, behind the first `have` bytes of the buffer. Waits only if there is nothing to read. At the input's end a line that
// no newline ends gets one, so that it is played as if it had ended.
pub fn read_more<R: Read>(reader: &mut R, buf: &mut [u8], have: usize) -> Result<Input, Failure>
    requires { have < length buf.old }
    ensures holds { IfOk result (λ input. Holds have buf.old (R.remaining reader.old) (R.remaining reader.new) input buf.new) }
    ensures none_lost { OnErr result (Keeps (R.remaining reader.old) (R.remaining reader.new)) }
{
    let got = reader.read(&mut buf[have..]).map_err(Failure::Read)?;
    if 0 < got {
        return Ok(Input::More(have + got));
    }
    if have == 0 {
        return Ok(Input::End);
    }
    buf[have] = b'\n';
    Ok(Input::Last(have + 1))
}

// Tells what failed on a program's standard error. If that cannot be written either, nothing more can be said.
pub fn tell<E: Eprint>(errors: &E, failure: Failure) {
    let _told = eprintln!(errors; "{failure}");
}

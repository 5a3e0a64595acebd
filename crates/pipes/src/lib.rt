// What the programs share of standard input and output: how they read, and what ends their work before the input has ended. A program writes by itself: of a
// write there is nothing to promise here.
#![tactic(auto)]

ghost use Rattle.std.specs.Prelude.{◌≤◌, length, IfOk};

use std::io::Read;
use std::{fmt, io};

// What ends a program's work.
#[derive(Drop)]
pub enum Failure {
    Read(io::Error),
    Write(io::Error),
}

impl fmt::Display for Failure {
    fn fmt<W: fmt::Write>(&self, f: &mut fmt::Formatter<W>) -> fmt::Result {
        match self {
            Failure::Read(why) => write!(f, "read: {why}"),
            Failure::Write(why) => write!(f, "write: {why}"),
        }
    }
}

// Some bytes of standard input, none where it has ended.
pub fn read(rt: &HostRuntime, buf: &mut [u8]) -> Result<usize, Failure>
    ensures { IfOk result (λ n. n ≤ length buf.new) }
{
    rt.stdin().read(buf).map_err(Failure::Read)
}

// Reads until the buffer is full or the input ends, and answers how many bytes came. The library's read_exact does not say how many.
pub fn read_full(rt: &HostRuntime, buf: &mut [u8]) -> Result<usize, Failure>
    ensures { IfOk result (λ n. n ≤ length buf.new) }
{
    let mut done = 0;
    while done < buf.len() {
        let came = read(rt, &mut buf[done..])?;
        if came == 0 {
            break;
        }
        done += came;
    }
    Ok(done)
}

// What every program has around its work: its arguments, an input read to its end, complaints, and text on standard output,
// of which all is written up to the first byte that cannot be, and nothing behind it.
#![tactic(auto)]

pub mod arguments;
pub mod line;
pub mod number;
pub mod program;

ghost use Rattle.std.specs.Prelude.{◌≡◌, ◌+◌, ◌≤◌, length, take, drop, true, is_ok};
ghost use Rattle.std.specs.Io.{WritesAtMost};
ghost use Rattle.std.specs.Io.KnownBytes.{WriteAppends};
ghost use Rattle.console.specs.Counts.{IsPrefixLen};
ghost use Rattle.console.specs.Input.{size_of, Gives, Reads};
ghost use Rattle.console.specs.Output.{Stays, Writes};

use crate::line::Line;
use std::fmt;
use std::fmt::Display;
use std::io::{Error, ErrorKind, IsTerminal, Read, Stdout, Write};

// How often a call that signals interrupt is made before it counts as failed. Two loops count these tries, since every loop
// has to end.
const TRIES: u32 = 1_000;

// Room for the longest text that is formatted.
const LINE: usize = 512;

// ---- input

// Why a read failed.
#[derive(Clone, Copy, Debug, PartialEq, Eq)]
pub enum Failure {
    // What was to be read is a folder.
    Folder,
    Other,
}

impl From<Error> for Failure {
    fn from(error: Error) -> Failure {
        match error.kind() {
            ErrorKind::IsADirectory => Failure::Folder,
            _ => Failure::Other,
        }
    }
}

fn interrupted(error: &Error) -> bool {
    error.kind() == ErrorKind::Interrupted
}

// A read into buf, made again where a signal interrupted it: how many bytes it gave, none at the end of the input.
fn read_piece<R: Read>(from: &mut R, buf: &mut [u8]) -> Result<usize, Failure>
    ensures in_bounds { IsPrefixLen (size_of result) buf.new }
    ensures bytes { Gives (R.remaining from.old) (R.remaining from.new) result buf.new }
{
    for tried in 0..TRIES {
        match from.read(buf) {
            Ok(n) => return Ok(n),
            Err(error) if interrupted(&error) => {}
            Err(error) => return Err(Failure::from(error)),
        }
    }
    Err(Failure::Other)
}

// A read into buf from index `done` on.
fn read_from<R: Read>(from: &mut R, buf: &mut [u8], done: usize) -> Result<usize, Failure>
    requires { done ≤ length buf.old }
    ensures in_bounds { done + size_of result ≤ length buf.old }
    ensures front { take done buf.new ≡ take done buf.old }
    ensures bytes { Gives (R.remaining from.old) (R.remaining from.new) result (drop done buf.new) }
{
    read_piece(from, &mut buf[done..])
}

// All bytes up to the end of the input or of the buffer. A read that fails settles it, whatever a later one would say.
// How much a read gave says where the next one starts, so no iterator has these steps.
pub fn read_input<R: Read>(from: &mut R, buf: &mut [u8]) -> Result<usize, Failure>
    ensures in_bounds { IsPrefixLen (size_of result) buf.new }
    ensures bytes { Reads (R.remaining from.old) (R.remaining from.new) result buf.new }
{
    let mut done: usize = 0;
    while done < buf.len() {
        let n = read_from(from, buf, done)?;
        if n == 0 {
            return Ok(done);
        }
        done += n;
    }
    Ok(done)
}

// ---- standard output and standard error

// Standard output, and whether all text so far was written.
#[derive(Clone, Copy)]
pub struct Out {
    to: Stdout,
    whole: bool,
}

impl Out {
    pub fn new(to: Stdout) -> Out
        ensures { result.whole ≡ true }
    {
        Out { to, whole: true }
    }

    pub fn is_whole(&self) -> bool
        ensures { result ≡ self.now.whole }
    {
        self.whole
    }
}

// A write of text, made again where a signal interrupted it: how many bytes it took.
fn write_piece<W: Write>(to: &mut W, text: &[u8]) -> Result<usize, Error>
    ensures in_bounds { WritesAtMost result text.now }
    ensures bytes { WriteAppends (W.contents to.old) (W.contents to.new) result text.now }
{
    for tried in 0..TRIES {
        match to.write(text) {
            Ok(n) => return Ok(n),
            Err(error) if interrupted(&error) => {}
            Err(error) => return Err(error),
        }
    }
    Err(Error::from(ErrorKind::Interrupted))
}

// The text up to the first byte that cannot be written, and nothing behind it. Where the library's `write_all` fails, nothing
// is known of what it wrote.
fn write_whole<W: Write>(to: &mut W, text: &[u8]) -> Result<(), Error>
    ensures { Writes (W.contents to.old) (W.contents to.new) (is_ok result) text.now }
{
    let mut rest = text;
    while !rest.is_empty() {
        let n = write_piece(to, rest)?;
        if n == 0 {
            return Err(Error::from(ErrorKind::WriteZero));
        }
        rest = &rest[n..];
    }
    Ok(())
}

// A program has no exit status, so this is the only sign that something went wrong.
pub fn complain(rt: &HostRuntime, text: &[u8]) {
    let _ = write_whole(&mut rt.stderr(), text);
}

// Whether a person may be looking at standard error.
pub fn watched(rt: &HostRuntime) -> bool {
    rt.stderr().is_terminal()
}

// A text behind one that was not written would be read as something else, so it is not written either.
pub fn say(out: &mut Out, text: &[u8])
    ensures { Stays out.old.whole out.new.whole }
{
    if out.whole {
        out.whole = write_whole(&mut out.to, text).is_ok();
    }
}

impl Out {
    // A formatted text by one write, which `write!` makes: it answers nothing, since the mark tells. What there is no room for
    // counts as not written.
    pub fn write_fmt<D: Display + Drop>(&mut self, text: D)
        ensures { Stays self.old.whole self.new.whole }
    {
        let mut line = Line::<LINE>::new();
        let fits = fmt::Write::write_fmt(&mut line, text).is_ok();
        say(self, line.text());
        self.whole = self.whole && fits;
    }
}

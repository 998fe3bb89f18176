// The frame of a program: what it says of itself, its arguments, its input, its complaints and the end of its output.
ghost use Rattle.std.specs.Prelude.{◌≤◌, length, IfSome};

use crate::arguments::{Asked, Stray};
use crate::line::{Line, cover};
use crate::{Failure, Out, arguments, complain, read_input, say};
use std::env::Env;
use std::fmt::{Display, Write};
use std::fs::File;
use std::io::{Error, Read, Stdin};
use std::{fs, io, str};

// Room for the longest name of a file and what is said of it.
const LINE: usize = 4_500;

// Room for the longest name of a file.
const PATH: usize = 4_096;

// Its name, the text of --help, what was not done because of a complaint, the option that it has, and how many names it takes
// at most.
#[derive(Clone, Copy)]
pub struct Program<'a> {
    pub name: &'a [u8],
    pub help: &'a [u8],
    pub undone: &'a [u8],
    pub option: Option<&'a [u8]>,
    pub names: usize,
}

// What an input is read from: standard input, or a file and the argument that names it. A file is closed where this is dropped.
#[derive(Drop)]
pub enum Source {
    Standard(Stdin),
    Named(File, usize),
}

impl Source {
    fn place(&self) -> Option<usize> {
        match self {
            Source::Standard(_) => None,
            Source::Named(_, place) => Some(*place),
        }
    }
}

impl Read for Source {
    fn read(&mut self, buf: &mut [u8]) -> io::Result<usize> {
        match self {
            Source::Standard(from) => from.read(buf),
            Source::Named(from, _) => from.read(buf),
        }
    }
}

// Why a file could not be opened.
#[derive(Clone, Copy, Debug, PartialEq, Eq)]
enum Unopened {
    Missing,
    Forbidden,
    // Its name is not UTF-8, which a name has to be for std to open it.
    NotText,
    Other,
}

const ENOENT: i32 = 2;

const EACCES: i32 = 13;

impl From<Error> for Unopened {
    fn from(error: Error) -> Unopened {
        match error.raw_os_error() {
            Some(ENOENT) => Unopened::Missing,
            Some(EACCES) => Unopened::Forbidden,
            _ => Unopened::Other,
        }
    }
}

// ---- files

// An opening that a signal interrupts is made again by std.
fn opened(rt: &HostRuntime, place: usize) -> Result<File, Unopened> {
    let mut path = [0u8; PATH];
    let Some(path) = arguments::copy(rt, place, &mut path) else {
        return Err(Unopened::Other);
    };
    let Ok(path) = str::from_utf8(path) else {
        return Err(Unopened::NotText);
    };
    Ok(fs::open(rt, path)?)
}

// Which argument names a file: - stands for standard input.
fn named(rt: &HostRuntime, place: Option<usize>) -> Option<usize> {
    place.filter(|place| !arguments::is(rt, *place, b"-"))
}

// No argument and - stand for standard input.
pub fn standard(rt: &HostRuntime, place: Option<usize>) -> bool {
    named(rt, place).is_none()
}

// ---- complaints

// An argument, as a terminal may show it; none where it is empty or too long.
fn shown<'a>(rt: &HostRuntime, place: usize, room: &'a mut [u8]) -> Option<&'a [u8]>
    ensures { IfSome result (λ text. length text.now ≤ length room.old) }
{
    let text = arguments::copy(rt, place, room)?;
    if text.is_empty() {
        return None;
    }
    cover(text);
    Some(text)
}

// Of an argument, or of standard input.
fn put_place<const N: usize>(rt: &HostRuntime, line: &mut Line<N>, place: Option<usize>)
    ensures { line.new.len ≤ N }
{
    let Some(place) = place else {
        line.put(b"standard input");
        return;
    };
    let mut room = [0u8; PATH];
    match shown(rt, place, &mut room) {
        Some(text) => line.put(text),
        None => line.put(b"a name that is empty or too long"),
    }
}

impl Program<'_> {
    // Of an argument, or of standard input.
    pub fn complain_of(&self, rt: &HostRuntime, place: Option<usize>, what: &[u8]) {
        let mut line = Line::<LINE>::new();
        line.put(self.name);
        line.put(b": ");
        put_place(rt, &mut line, place);
        line.put(what);
        self.complain_undone(rt, line);
    }

    // The end of every complaint.
    fn complain_undone<const N: usize>(&self, rt: &HostRuntime, before: Line<N>) {
        let mut line = before;
        line.put(b"; ");
        line.put(self.undone);
        line.put(b"\n");
        complain(rt, line.text());
    }

    fn complain_unopened(&self, rt: &HostRuntime, place: usize, why: Unopened) {
        let what: &[u8] = match why {
            Unopened::Missing => b" could not be opened: there is no such file",
            Unopened::Forbidden => b" could not be opened: it may not be read",
            Unopened::NotText => b" could not be opened: its name is not UTF-8",
            Unopened::Other => b" could not be opened",
        };
        self.complain_of(rt, Some(place), what);
    }

    pub fn complain_unread(&self, rt: &HostRuntime, source: &Source, why: Failure) {
        let place = source.place();
        let what: &[u8] = match why {
            Failure::Folder if place.is_some() => b" could not be read: it is a folder",
            _ => b" could not be read to its end",
        };
        self.complain_of(rt, place, what);
    }

    // That something is refused.
    pub fn refuse<D: Display + Drop>(&self, rt: &HostRuntime, refusal: D) {
        let mut line = Line::<160>::new();
        line.put(self.name);
        line.put(b": ");
        let _ = write!(line, "{refusal}");
        self.complain_undone(rt, line);
    }

    // ---- before the work

    fn print_version(&self, out: &mut Out) {
        let n = version::number();
        let mut line = Line::<64>::new();
        line.put(self.name);
        let _ = writeln!(line, " {}.{}.{}", n / 10_000, n / 100 % 100, n % 100);
        say(out, line.text());
    }

    fn print_help(&self, out: &mut Out) {
        say(out, self.help);
        say(
            out,
            b"
Where no FILE is named, or -, standard input is read. A FILE that begins with -
is named with ./ before it. --help prints this text and --version the version;
each stands alone. What goes wrong is told by a line on standard error, and
there is no exit status.
",
        );
    }

    // Looks at the arguments: whether there is work to do. Else what was asked for is printed, or what is wrong told.
    pub fn begin(&self, rt: &HostRuntime) -> bool {
        let mut out = Out::new(rt.stdout());
        match arguments::asked_for(rt, self.option, self.names) {
            Ok(Asked::Work) => return true,
            Ok(Asked::Help) => self.print_help(&mut out),
            Ok(Asked::Version) => self.print_version(&mut out),
            Err(Stray::Unknown(i)) => self.complain_of(
                rt,
                Some(i),
                b" is no option here, see --help",
            ),
            Err(Stray::Excess(i)) => self.complain_of(
                rt,
                Some(i),
                b" is one file too many, see --help",
            ),
        }
        self.end(rt, out, b"printed");
        false
    }

    // ---- input

    // What an argument names; where it could not be opened, that is told.
    pub fn open(&self, rt: &HostRuntime, place: Option<usize>) -> Option<Source> {
        let Some(place) = named(rt, place) else {
            return Some(Source::Standard(rt.stdin()));
        };
        match opened(rt, place) {
            Ok(file) => Some(Source::Named(file, place)),
            Err(why) => {
                self.complain_unopened(rt, place, why);
                None
            }
        }
    }

    // All that an argument names, at the start of the buffer; where it could not be read, that is told.
    pub fn read<'b>(
        &self,
        rt: &HostRuntime,
        place: Option<usize>,
        buf: &'b mut [u8],
    ) -> Option<&'b [u8]>
        ensures { IfSome result (λ bytes. length bytes.now ≤ length buf.old) }
    {
        let mut source = self.open(rt, place)?;
        match read_input(&mut source, buf) {
            Ok(size) => Some(&buf[..size]),
            Err(why) => {
                self.complain_unread(rt, &source, why);
                None
            }
        }
    }

    // The input of a program that takes one file, or standard input; none where there is no work, or something went wrong.
    pub fn input<'b>(&self, rt: &HostRuntime, buf: &'b mut [u8]) -> Option<&'b [u8]>
        ensures { IfSome result (λ bytes. length bytes.now ≤ length buf.old) }
    {
        if !self.begin(rt) {
            return None;
        }
        self.read(rt, arguments::name(rt, 0), buf)
    }

    // ---- output

    // Prints what `work` makes of the input.
    pub fn print<F: FnOnce(&mut Out, &[u8]) + Drop>(
        &self,
        rt: &HostRuntime,
        buf: &mut [u8],
        work: F,
    )
        requires { F.IsAlwaysCallable work }
    {
        let Some(input) = self.input(rt, buf) else {
            return;
        };
        let mut out = Out::new(rt.stdout());
        work(&mut out, input);
        self.end(rt, out, b"printed");
    }

    // Writes these bytes, which are all the output.
    pub fn write(&self, rt: &HostRuntime, bytes: &[u8]) {
        let mut out = Out::new(rt.stdout());
        say(&mut out, bytes);
        self.end(rt, out, b"written");
    }

    // What was `done`, printed or written, is told not to be whole unless all of it was.
    pub fn end(&self, rt: &HostRuntime, out: Out, done: &[u8]) {
        if out.is_whole() {
            return;
        }
        let mut line = Line::<256>::new();
        line.put(self.name);
        line.put(b": standard output could not be written to its end; what was ");
        line.put(done);
        line.put(b" is not whole\n");
        complain(rt, line.text());
    }
}

// The month in numbers: captures one behind another, a line for each as soon as it is read, and behind them the totals.
#![tactic(auto)]

mod plain;
mod table;

ghost use Rattle.std.specs.Prelude.{◌≡◌, ◌≤◌, length, IfOk};
ghost use Rattle.monthly.specs.Meaning.{Held};

use console::line::Line as Text;
use console::program::{Program, Source};
use console::{Failure, Out, arguments, complain, read_input, watched};
use monthly::{Line, Totals};
use plain::Plain;
use std::fmt::Write;
use table::Table;

const CSV: [u8; 5] = *b"--csv";

const MONTH: Program<'static> = Program {
    name: b"month",
    help: b"usage: month [FILE] [--csv]

Adds up captures of a Mobile DDR bus that stand one behind another. Prints a
line for each and a line of totals: events, judged, the verdict, beats read and
written, and the share of the bus as beats over twice the last cycle. --csv
prints a table with commas. docs/RULES.md, section 12.1, has every line.
",
    undone: b"there are no totals",
    option: Some(b"--csv"),
    names: 1,
};

// The longest capture. What a stream states beyond it is not read.
const ROOM: usize = capture::MOST;

// ---- the stream

// The bytes of the next capture, as far as there are any: its total word, and what that says.
fn next<'b>(from: &mut Source, buffer: &'b mut [u8; ROOM]) -> Result<&'b [u8], Failure>
    ensures { IfOk result (λ capture. length capture.now ≤ 64088) }
{
    let buffer = &mut buffer[..];
    let got = read_input(from, &mut buffer[..4])?;
    if got < 4 {
        return Ok(&buffer[..got]);
    }
    let n = monthly::wanted(words::word_at(buffer, 0));
    let more = read_input(from, &mut buffer[4..n])?;
    Ok(&buffer[..4 + more])
}

// ---- what is printed

// The lines in one of their two forms. The share of the bus is passed beside the totals.
pub trait Form {
    fn print_head(out: &mut Out);

    fn print_line(out: &mut Out, i: u64, line: Line);

    fn print_end(out: &mut Out, i: u64);

    fn print_sums(out: &mut Out, t: Totals, bus: u64);

    // In place of the totals.
    fn print_refusal(out: &mut Out);
}

fn print_totals<F: Form>(out: &mut Out, t: Totals)
    requires { Held t }
{
    F::print_sums(out, t, monthly::beats(t));
}

// ---- progress, where a person may be looking: a line that the next text covers

const OFTEN: u64 = 256;

fn show(rt: &HostRuntime, captures: u64) {
    if captures % OFTEN != 0 || !watched(rt) {
        return;
    }
    let mut line = Text::<64>::new();
    let _ = write!(line, "month: {captures} captures\r");
    complain(rt, line.text());
}

fn clear(rt: &HostRuntime, captures: u64) {
    if OFTEN <= captures && watched(rt) {
        complain(rt, b"                     \r");
    }
}

// ---- the walk

// Behind as many captures as there may be: the totals, or that there is more.
fn last<F: Form>(rt: &HostRuntime, out: &mut Out, from: &mut Source, t: Totals)
    requires { Held t }
{
    let mut byte = [0u8; 1];
    match read_input(from, &mut byte) {
        Ok(0) => print_totals::<F>(out, t),
        Ok(_) => F::print_refusal(out),
        Err(why) => MONTH.complain_unread(rt, from, why),
    }
}

// Answers how many captures there were. Nothing is read behind a line that could not be written. The totals count the
// captures, so the loop has no counter of its own.
fn walk<F: Form>(rt: &HostRuntime, out: &mut Out, from: &mut Source) -> u64 {
    let mut buffer = [0u8; ROOM];
    let mut totals = monthly::nothing();
    while monthly::has_room(totals) {
        let i = totals.captures;
        let capture = match next(from, &mut buffer) {
            Ok(capture) => capture,
            Err(why) => {
                MONTH.complain_unread(rt, from, why);
                return i;
            }
        };
        if capture.is_empty() {
            print_totals::<F>(out, totals);
            return i;
        }
        let line = monthly::told(capture);
        F::print_line(out, i, line);
        if !out.is_whole() {
            return i;
        }
        totals = monthly::add(totals, line);
        if monthly::ends(line.verdict) {
            F::print_end(out, i);
            print_totals::<F>(out, totals);
            return totals.captures;
        }
        show(rt, totals.captures);
    }
    last::<F>(rt, out, from, totals);
    totals.captures
}

fn run<F: Form>(rt: &HostRuntime, from: &mut Source) {
    let mut out = Out::new(rt.stdout());
    F::print_head(&mut out);
    let captures = walk::<F>(rt, &mut out, from);
    clear(rt, captures);
    MONTH.end(rt, out, b"printed");
}

fn main(rt: HostRuntime) {
    if !MONTH.begin(&rt) {
        return;
    }
    let Some(mut from) = MONTH.open(&rt, arguments::name(&rt, 0)) else {
        return;
    };
    if arguments::has(&rt, &CSV) {
        run::<Table>(&rt, &mut from);
    } else {
        run::<Plain>(&rt, &mut from);
    }
}

// Arguments and lines, as the programs use them: what the arguments in the file `args` ask of programs with other options and
// numbers of names, and lines at the limits of their numbers and their room.
#![tactic(auto)]

use console::arguments::{Asked, Stray, asked_for, has, name};
use console::line::{Line, cover};
use console::{Out, say};
use std::fmt::Write;

fn tell_asked(rt: &HostRuntime, out: &mut Out, option: Option<&[u8]>, names: usize) {
    match asked_for(rt, option, names) {
        Ok(Asked::Work) => writeln!(out, "work"),
        Ok(Asked::Help) => writeln!(out, "help"),
        Ok(Asked::Version) => writeln!(out, "version"),
        Err(Stray::Unknown(i)) => writeln!(out, "unknown {i}"),
        Err(Stray::Excess(i)) => writeln!(out, "excess {i}"),
    }
}

fn tell_has(rt: &HostRuntime, out: &mut Out, option: &[u8]) {
    if has(rt, option) {
        write!(out, "has ");
    } else {
        write!(out, "has not ");
    }
    say(out, option);
    writeln!(out);
}

// 0 where there is none.
fn tell_name(rt: &HostRuntime, out: &mut Out, k: usize) {
    writeln!(out, "name {k} is argument {}", name(rt, k).unwrap_or(0));
}

// Room for five bytes: the text and what fits of the number behind it, and nothing from there on.
fn tell_short(out: &mut Out) {
    let mut line = Line::<5>::new();
    line.put(b"abc");
    let _ = write!(line, "{}", 12_345);
    line.put(b"x");
    say(out, line.text());
    writeln!(out, ", end {}", line.text().len());
}

fn tell_covered(out: &mut Out) {
    let mut text = *b"tab\tbell\x07 ~\x7F\xC3\xA9\n";
    cover(&mut text);
    say(out, &text);
    writeln!(out);
}

fn main(rt: HostRuntime) {
    let mut out = Out::new(rt.stdout());
    tell_asked(&rt, &mut out, Some(b"--csv"), 2);
    tell_asked(&rt, &mut out, Some(b"--csv"), 3);
    tell_asked(&rt, &mut out, Some(b"--csv"), 1);
    tell_asked(&rt, &mut out, Some(b"--csv"), 0);
    tell_asked(&rt, &mut out, None, 2);
    tell_has(&rt, &mut out, b"--csv");
    tell_has(&rt, &mut out, b"--cs");
    tell_has(&rt, &mut out, b"first");
    tell_name(&rt, &mut out, 0);
    tell_name(&rt, &mut out, 1);
    tell_name(&rt, &mut out, 2);
    writeln!(out, "least {}", 0u64);
    writeln!(out, "largest {}", 18_446_744_073_709_551_615u64);
    tell_short(&mut out);
    tell_covered(&mut out);
}

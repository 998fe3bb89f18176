// What the arguments ask of a program. A name is an argument that does not begin with `-`, or `-` alone, which stands for
// standard input; any other is an option.
ghost use Rattle.std.specs.Prelude.{◌≤◌, length, IfSome};

use std::env::{Env, FillError};

#[derive(Clone, Copy, Debug, PartialEq, Eq)]
pub enum Asked {
    Work,
    Help,
    Version,
}

// The argument that stands for nothing: an option that the program does not have, or one name more than it takes.
#[derive(Clone, Copy, Debug, PartialEq, Eq)]
pub enum Stray {
    Unknown(usize),
    Excess(usize),
}

// ---- one argument

// Argument i at the start of the buffer; none where there is none or it is longer than the buffer.
pub(crate) fn copy<'a>(rt: &HostRuntime, i: usize, buf: &'a mut [u8]) -> Option<&'a mut [u8]>
    ensures { IfSome result (λ text. length text.now ≤ length buf.old) }
{
    let n = rt.arg(i, buf).ok()?;
    Some(&mut buf[..n])
}

// Argument i is this text, which is not empty and at most 16 bytes long.
pub fn is(rt: &HostRuntime, i: usize, text: &[u8]) -> bool {
    let mut word = [0u8; 16];
    match copy(rt, i, &mut word) {
        Some(word) => !text.is_empty() && *word == *text,
        None => false,
    }
}

// Of an argument that is longer than the buffer, its start stands there.
fn is_name(rt: &HostRuntime, i: usize) -> bool {
    let mut start = [0u8; 1];
    let is_one_byte = matches!(rt.arg(i, &mut start), Ok(1));
    start[0] != b'-' || is_one_byte
}

// ---- all arguments

fn is_there(rt: &HostRuntime, i: usize) -> bool {
    !matches!(rt.arg(i, &mut []), Err(FillError::NotPresent))
}

// How many there are, the program's own name among them.
fn count(rt: &HostRuntime) -> usize {
    (0..usize::MAX)
        .find(|i| !is_there(rt, *i))
        .unwrap_or(usize::MAX)
}

// How many names may follow argument i.
fn left_after(
    rt: &HostRuntime,
    i: usize,
    option: Option<&[u8]>,
    left: usize,
) -> Result<usize, Stray> {
    if option.is_some_and(|option| is(rt, i, option)) {
        return Ok(left);
    }
    if !is_name(rt, i) {
        return Err(Stray::Unknown(i));
    }
    left.checked_sub(1).ok_or(Stray::Excess(i))
}

// Of a program that takes so many names, or fewer, and an option or none.
pub fn asked_for(rt: &HostRuntime, option: Option<&[u8]>, names: usize) -> Result<Asked, Stray> {
    let n = count(rt);
    if n == 2 && is(rt, 1, b"--help") {
        return Ok(Asked::Help);
    }
    if n == 2 && is(rt, 1, b"--version") {
        return Ok(Asked::Version);
    }
    // Arguments go by their numbers.
    let mut left = names;
    for i in 1..n {
        left = left_after(rt, i, option, left)?;
    }
    Ok(Asked::Work)
}

// Whether the option is among the arguments.
pub fn has(rt: &HostRuntime, option: &[u8]) -> bool {
    (1..count(rt)).any(|i| is(rt, i, option))
}

// Which argument is name k, counted from 0.
pub fn name(rt: &HostRuntime, k: usize) -> Option<usize> {
    (1..count(rt)).filter(|i| is_name(rt, *i)).nth(k)
}

// Sums of cycles and times, wide enough to hold them; choices without a branch.
ghost use Rattle.std.specs.Prelude.{◌≡◌, cond, ◌+◌, ◌^◌, ◌%◌, leb};
ghost use Rattle.reading.specs.Search.{lesser, later};
ghost use Rattle.deadlines.specs.Deadlines.{pace_of};

use crate::Pace;
use settings::mode;

pub fn past(deadline: u64, t: u32) -> bool
    ensures { result ≡ leb deadline t }
{
    deadline <= u64::from(t)
}

// A function for each number of times: over a slice or an array of them the sum needs a proof of its own that it fits, and a call
// is no plainer.
pub fn after(t: u32, a: u32) -> u64
    ensures { result ≡ t + a }
{
    u64::from(t) + u64::from(a)
}

pub fn after2(t: u32, a: u32, b: u32) -> u64
    ensures { result ≡ t + a + b }
{
    u64::from(t) + u64::from(a) + u64::from(b)
}

// One cycle more, as a write's data begins.
pub fn data_after(t: u32, a: u32, b: u32) -> u64
    ensures { result ≡ t + 1 + a + b }
{
    u64::from(t) + 1 + u64::from(a) + u64::from(b)
}

pub fn data_after2(t: u32, a: u32, b: u32, c: u32) -> u64
    ensures { result ≡ t + 1 + a + b + c }
{
    u64::from(t) + 1 + u64::from(a) + u64::from(b) + u64::from(c)
}

// The library's `min` and `max` in the reading's words. Their clauses have words of their own: in place most callers' proofs would
// need the law that both are the same.
pub fn least(a: u64, b: u64) -> u64
    ensures { result ≡ lesser a b }
{
    a.min(b)
}

pub fn latest(a: u64, b: u64) -> u64
    ensures { result ≡ later a b }
{
    a.max(b)
}

// A choice without a branch, of two values that are there. With an `if` in place the compiler jumps, and a schedule of 2,000 requests
// takes a quarter more nanoseconds.
pub fn pick(c: bool, a: u64, b: u64) -> u64
    ensures { result ≡ cond c a b }
{
    if c { a } else { b }
}

// h and CL of a mode word.
pub fn pace(mode: u32) -> Pace
    ensures { result ≡ pace_of mode }
{
    [mode::half(mode), mode::latency(mode)]
}

// The number of rows that a part of some row bits has.
pub fn rows(bits: u32) -> u32
    ensures { result ≡ 2 ^ (bits % 32) }
{
    1 << (bits % 32)
}

// A bank of the four, and what is asked of all.
ghost use Rattle.std.specs.Prelude.{◌≡◌, ◌<◌};
ghost use Rattle.deadlines.specs.Deadlines.{all_idle};

use crate::Deadlines;
use crate::places::OPENED;

// A bank, by its number.
#[derive(Clone, Copy)]
pub struct Bank {
    pub number: usize,
    ghost of_four: { number < 4 },
}

pub fn all_idle(d: &Deadlines) -> bool
    ensures { result ≡ all_idle d.now }
{
    d[OPENED..OPENED + 4].iter().all(|opened| *opened == 0)
}

// The deadlines that are kept of a part, in an array that is lent: where each stands, and the sums they are made of.
#![tactic(auto)]

pub mod banks;
pub mod clock;
pub mod places;
pub mod sums;

// How many there are, and all of them. An array and no struct: the definitions of specs/Deadlines and the theorems about them read
// the deadlines as one list.
pub const KEPT: usize = 39;

pub type Deadlines = [u64; KEPT];

// Of the mode word in force, h and CL.
pub type Pace = [u32; 2];

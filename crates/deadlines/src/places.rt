// Where each deadline stands (specs/Deadlines).

// Of each bank.
pub const OPENED: usize = 0;

pub const OTHER: usize = 4;

pub const REST: usize = 8;

pub const COLUMN: usize = 12;

pub const CLOSE: usize = 16;

pub const WRITTEN: usize = 20;

pub const LOCKED: usize = 24;

// Of the part.
pub const BUSY: usize = 28;

pub const OVERDUE: usize = 29;

pub const BUS: usize = 30;

pub const READS: usize = 31;

pub const WRITES: usize = 32;

pub const END: usize = 33;

pub const LAST: usize = 34;

pub const WRITER: usize = 35;

// Of sleep.
pub const ASLEEP: usize = 36;

pub const WAKE: usize = 37;

pub const SELF: usize = 38;

// Of the mode word in force: h and CL.
pub const PAIRS: usize = 0;

pub const LATENCY: usize = 1;

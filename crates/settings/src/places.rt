// Where each setting stands, by document 01's numbers.
pub const LANE: usize = 0;

pub const ROW_BITS: usize = 1;

pub const COLUMN_BITS: usize = 2;

pub const MODE: usize = 3;

pub const T_RCD: usize = 4;

pub const T_RP: usize = 5;

pub const T_RAS: usize = 6;

pub const T_RC: usize = 7;

pub const T_RRD: usize = 8;

pub const T_WR: usize = 9;

pub const T_WTR: usize = 10;

pub const T_RFC: usize = 11;

pub const T_MRD: usize = 12;

pub const T_REFI: usize = 13;

pub const T_XP: usize = 14;

pub const T_XSR: usize = 15;

// Behind the settings, the edition of the rules.
pub const EDITION: usize = 16;

// Pin words: what the pins of an event ask for, and the pins that ask for a command.
#![tactic(auto)]

ghost use Rattle.std.specs.Prelude.{◌≡◌, ◌<◌};
ghost use Rattle.pins.specs.Pins.{code_of, wide_code_of, bank_of, address_of, ten_of, low_of, gives};

// The command pins as a number: CS#, RAS#, CAS#, WE#, CS# the lowest. The odd ones are DESELECT. Numbers and no enum: an event is
// dispatched by one jump on them, with no test before it (part/src/lib.rt), and the bank and the address are worked out only in
// the arms that need them.
pub const ACTIVE: u32 = 12;

pub const READ: u32 = 10;

pub const WRITE: u32 = 2;

pub const TERMINATE: u32 = 6;

pub const PRECHARGE: u32 = 4;

pub const REFRESH: u32 = 8;

pub const MODE_SET: u32 = 0;

pub const NOP: u32 = 14;

// Where the bank and the command pins stand in a pin word.
pub const BANK: u32 = 16_384;

pub const CODE: u32 = 65_536;

pub fn code(w: u32) -> u32
    ensures { result ≡ code_of w }
{
    w / CODE % 16
}

// With CKE low 16 is added.
pub const ACTIVE_LOW: u32 = 28;

pub const READ_LOW: u32 = 26;

pub const WRITE_LOW: u32 = 18;

pub const TERMINATE_LOW: u32 = 22;

pub const PRECHARGE_LOW: u32 = 20;

pub const REFRESH_LOW: u32 = 24;

pub const MODE_SET_LOW: u32 = 16;

pub const NOP_LOW: u32 = 30;

pub fn wide_code(w: u32) -> u32
    ensures { result ≡ wide_code_of w }
{
    w / CODE % 32
}

pub fn bank(w: u32) -> usize
    ensures { (result ≡ bank_of w) × (result < 4) }
{
    (w / BANK % 4) as usize
}

// A0-A13.
pub fn address(w: u32) -> u32
    ensures { (result ≡ address_of w) × (result < 16384) }
{
    w % BANK
}

// A10: on READ and WRITE it asks for auto precharge, on PRECHARGE it means all banks.
pub fn ten(w: u32) -> bool
    ensures { result ≡ ten_of w }
{
    w / 1024 % 2 == 1
}

// CKE is low.
pub fn low(w: u32) -> bool
    ensures { result ≡ low_of w }
{
    w / 1_048_576 % 2 == 1
}

// READ and WRITE give a burst. Two tests and no `matches!`: with that the rows that were open cost a tenth more.
pub fn gives_burst(w: u32) -> bool
    ensures { result ≡ gives w }
{
    let asked = code(w);
    if asked == READ {
        return true;
    }
    asked == WRITE
}

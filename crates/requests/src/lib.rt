// A request: whether it fits, and the pins of its commands. Pins that are not named are 0.
#![tactic(auto)]

ghost use Rattle.std.specs.Prelude.{◌≡◌, true, cond, ◌*◌, ◌^◌, ◌≤◌, ◌<◌};
ghost use Rattle.words.specs.Found.{place_of};
ghost use Rattle.reading.specs.Settings.{settings_of};
ghost use Rattle.reading.specs.Commands.{ACTIVE, PRECHARGE, pins_of};
ghost use Rattle.reading.specs.Schedule.{asks_write, first_cell, cell_bank, cell_row, cell_column, bad_request, column_pins, burst_pins};
ghost use Rattle.memory.specs.Serving.{Sized};
ghost use Rattle.requests.specs.Asked.{Asked, burst_code, cell_count, below, EachBelow};

use deadlines::banks::Bank;
use settings::Settings;
use settings::places::{COLUMN_BITS, ROW_BITS};
use words::both;

// The pins of each command that a schedule has, without bank and address.
pub const REFRESH_PINS: u32 = pins::CODE * pins::REFRESH;

// PRECHARGE with A10, of all banks.
pub const CLOSE_ALL_PINS: u32 = pins::CODE * pins::PRECHARGE + 1024;

const CLOSE_PINS: u32 = pins::CODE * pins::PRECHARGE;

const ACTIVE_PINS: u32 = pins::CODE * pins::ACTIVE;

const READ_PINS: u32 = pins::CODE * pins::READ;

const WRITE_PINS: u32 = pins::CODE * pins::WRITE;

// The numbers of so many bits.
fn numbers(bits: u32) -> u32
    requires { bits ≤ 14 }
    ensures value { result ≡ 2 ^ bits }
    ensures result_nonzero { (0 < result) × (result ≤ 16384) }
{
    deadlines::sums::rows(bits)
}

pub fn asks_write(q: u32) -> bool
    ensures { result ≡ asks_write q }
{
    q / 2_147_483_648 % 2 == 1
}

pub fn bank(s: &Settings, q: u32) -> u32
    requires { Sized (settings_of s.now) }
    ensures { result ≡ cell_bank (settings_of s.now) (first_cell q) }
{
    let columns = numbers(s[COLUMN_BITS]);
    let rows = numbers(s[ROW_BITS]);
    q % 134_217_728 / columns / rows
}

pub fn row(s: &Settings, q: u32) -> u32
    requires { Sized (settings_of s.now) }
    ensures value { result ≡ cell_row (settings_of s.now) (first_cell q) }
    ensures upper_bound { result < 16384 }
{
    let columns = numbers(s[COLUMN_BITS]);
    let rows = numbers(s[ROW_BITS]);
    q % 134_217_728 / columns % rows
}

fn column(s: &Settings, q: u32) -> u32
    requires { Sized (settings_of s.now) }
    ensures value { result ≡ cell_column (settings_of s.now) (first_cell q) }
    ensures upper_bound { result < 16384 }
{
    let columns = numbers(s[COLUMN_BITS]);
    q % 134_217_728 % columns
}

// A row of a bank, by its number on A0-A13.
#[derive(Clone, Copy)]
pub struct BankRow {
    pub bank: Bank,
    pub number: u32,
    ghost on_pins: { number < 16384 },
}

fn bank_pins(b: Bank) -> u32
    ensures { result ≡ 16384 * b.number }
{
    pins::BANK * (b.number as u32)
}

pub fn active_pins(row: BankRow) -> u32
    ensures { result ≡ pins_of ACTIVE row.bank.number row.number }
{
    row.number + bank_pins(row.bank) + ACTIVE_PINS
}

pub fn close_pins(b: Bank) -> u32
    ensures { result ≡ pins_of PRECHARGE b.number 0 }
{
    bank_pins(b) + CLOSE_PINS
}

// WRITE or READ on the command pins.
fn burst_code(write: bool) -> u32
    ensures value { result ≡ burst_code write }
    ensures upper_bound { result < 1048576 }
{
    if write { WRITE_PINS } else { READ_PINS }
}

// A10 asks for auto precharge.
fn ten(closed: bool) -> u32
    ensures value { result ≡ cond closed (2 ^ 10) 0 }
    ensures upper_bound { result ≤ 1024 }
{
    if closed { 1024 } else { 0 }
}

// Column bits 0-9 on A0-A9, bit 10 on A11.
fn column_pins(column: u32, closed: bool) -> u32
    requires { column < 16384 }
    ensures value { result ≡ column_pins closed column }
    ensures upper_bound { result < 65536 }
{
    column % 1024 + ten(closed) + 2048 * (column / 1024)
}

// Of the request's bank, with rows closed or left open.
pub fn burst_pins(s: &Settings, q: u32, b: Bank, closed: bool) -> u32
    requires asked { Asked (settings_of s.now) q }
    requires bank_value { b.number ≡ cell_bank (settings_of s.now) (first_cell q) }
    ensures { result ≡ burst_pins closed (settings_of s.now) q }
{
    let code = burst_code(asks_write(q));
    column_pins(column(s, q), closed) + bank_pins(b) + code
}

// The cells of the part, which has four banks.
fn cells(s: &Settings) -> u32
    requires { Sized (settings_of s.now) }
    ensures { result ≡ cell_count (settings_of s.now) }
{
    deadlines::sums::rows(2 + s[COLUMN_BITS] + s[ROW_BITS])
}

// Bits 27-30 are zero and the part has the cell: without the highest bit, which asks for a write, it is a cell's number.
fn fits(cells: u32, q: u32) -> bool
    ensures { result ≡ below cells q }
{
    q % 2_147_483_648 < cells
}

// Told without a branch for each request, as most lists fit.
fn all_fit(cells: u32, requests: &[u32]) -> bool
    ensures { result ≡ true → EachBelow cells requests.now }
{
    let mut fine = true;
    'requests: for q in requests {
        fine = both(fine, fits(cells, *q));
    }
    fine
}

// Refusal 5: over 2,000 requests, else the lowest that does not fit.
pub fn lowest_bad(s: &Settings, requests: &[u32]) -> Option<u32>
    requires { Sized (settings_of s.now) }
    ensures { place_of result ≡ bad_request (settings_of s.now) requests.now }
{
    if 2000 < requests.len() {
        return Some(2000);
    }
    let cells = cells(s);
    if all_fit(cells, requests) {
        return None;
    }
    'requests: for (i, q) in requests.iter().enumerate() {
        if !fits(cells, *q) {
            return Some(i as u32);
        }
    }
    None
}

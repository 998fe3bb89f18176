// Cells of small captures: case k of document 01 ("01" below), refusals 8 and 7, and every row of the published burst
// tables, written as the tables have it: length, starting column, type, order of the columns.
#![tactic(auto)]

ghost use Rattle.std.specs.Prelude.{◌≤◌};

use console::Out;
use refusal::Refusal;
use trials::{store, store_settings};

// The settings of 01's cases; the mode word is setting 3, at byte 36.
const SETTINGS: [u32; settings::COUNT] = [1, 13, 10, 0x32, 3, 3, 7, 10, 2, 3, 1, 12, 2, 1000];

const MODE: u32 = 36;

// Latency 3 with either order, to which the code of the length is added.
const SEQUENTIAL: u32 = 0x30;

const INTERLEAVED: u32 = 0x38;

// Pin words for bank 0: CAS# and WE# high; RAS# and WE# high.
const ACTIVE: u32 = 0x000C_0000;

const READ: u32 = 0x000A_0000;

// ---- captures

fn store_event(capture: &mut [u8], at: u32, cycle: u32, pins: u32)
    requires { at ≤ 96 }
{
    store(capture, at, cycle);
    store(capture, at + 4, pins);
}

fn store_header(capture: &mut [u8], total: u32, n: u32) {
    store(capture, 0, total);
    store(capture, 4, 14);
    store(capture, 8, 24);
    store(capture, 12, n);
    store(capture, 16, 80);
}

// ACTIVE at 0 and a READ; a capture of `total` bytes and n events.
fn store_capture(capture: &mut [u8], total: u32, n: u32, mode: u32, cycle: u32, column: u32) {
    store_header(capture, total, n);
    store_settings(capture, &SETTINGS);
    store(capture, MODE, mode);
    store_event(capture, 80, 0, ACTIVE);
    store_event(capture, 88, cycle, READ | column);
}

// ---- lines

// With a space between any two.
fn print_list(to: &mut Out, list: &[u32]) {
    for (i, cell) in list.iter().enumerate() {
        if 0 < i {
            write!(to, " ");
        }
        write!(to, "{cell}");
    }
    writeln!(to);
}

fn print_listed(to: &mut Out, answer: Result<u32, Refusal>, out: &[u32]) {
    match answer {
        Ok(cells) => print_list(to, &out[..out.len().min(cells as usize)]),
        Err(refusal) => writeln!(to, "{refusal}"),
    }
}

// The cells of ACTIVE 0 and one READ.
fn print_read(to: &mut Out, mode: u32, cycle: u32, column: u32) {
    let mut capture = [0u8; 96];
    let mut out = [0u32; 16];
    store_capture(&mut capture, 96, 2, mode, cycle, column);
    let answer = cells::burst_cells(&capture, &mut out);
    print_listed(to, answer, &out);
}

// "READ 3 column 5: cells 5, 6, 7, 4; interleaved 5, 4, 7, 6; with READ 4 column 8 the first gives 5, 6."
fn print_case_k(to: &mut Out) {
    write!(to, "READ 3 column 5: ");
    print_read(to, SEQUENTIAL | 2, 3, 5);
    write!(to, "interleaved: ");
    print_read(to, INTERLEAVED | 2, 3, 5);
    write!(to, "with READ 4 column 8: ");
    let mut capture = [0u8; 104];
    let mut out = [0u32; 16];
    store_capture(&mut capture, 104, 3, SEQUENTIAL | 2, 3, 5);
    store_event(&mut capture, 96, 4, READ | 8);
    let answer = cells::burst_cells(&capture, &mut out);
    print_listed(to, answer, &out);
}

// A list that is too short stays as it was.
fn print_short(to: &mut Out) {
    let mut capture = [0u8; 96];
    let mut out = [9u32; 3];
    store_capture(&mut capture, 96, 2, SEQUENTIAL | 2, 3, 5);
    let answer = cells::burst_cells(&capture, &mut out);
    print_listed(to, answer, &out);
    print_list(to, &out);
}

// The rows of a length, for its code in the mode word: each starting column is a number of the row.
fn print_rows(to: &mut Out, length: u32, code: u32) {
    for start in 0..length {
        write!(to, "{length},{start},sequential,");
        print_read(to, SEQUENTIAL | code, 3, start);
        write!(to, "{length},{start},interleaved,");
        print_read(to, INTERLEAVED | code, 3, start);
    }
}

fn main(rt: HostRuntime) {
    let mut to = Out::new(rt.stdout());
    print_case_k(&mut to);
    write!(to, "READ 2: ");
    print_read(&mut to, SEQUENTIAL | 2, 2, 5);
    write!(to, "room for 3: ");
    print_short(&mut to);
    print_rows(&mut to, 2, 1);
    print_rows(&mut to, 4, 2);
    print_rows(&mut to, 8, 3);
    print_rows(&mut to, 16, 4);
}

// A part run by our schedules, with closed rows and with open ones, on a window of eight cells: write from cell 2, read from cell 1, write from cell 1, read from
// cell 0, in bursts of 4, sequential. Words and masks are chosen so that every lane is stored and kept in turn.
//
// Lane code 2, every cell aabbccdd at first. Lane i is stored where bit i of the mask is 0.
//   write  cell 2  11121314  mask 0000  11121314      write  cell 1  51525354  mask 0110  51bbcc54
//          cell 3  21222324       0001  212223dd             cell 2  61626364       1001  11626314
//          cell 0  31323334       1110  aabbcc34             cell 3  71727374       1100  21227374
//          cell 1  41424344       1111  aabbccdd             cell 0  81828384       0011  8182cc34
//   read   cells 1 2 3 0                              read   cells 0 1 2 3
//
// Lane code 1, two lanes, every cell ccdd at first: the low halves, where bits 0 and 1 of the mask decide. So cell 1 becomes
// cc54, cell 2 becomes 6314, cell 3 becomes 7374, and cell 0 stays cc34.
#![tactic(auto)]

use console::Out;
use schedule::{CLOSED_ROWS, OPEN_ROWS};

const REQUESTS: [u32; 4] = [0x8000_0002, 1, 0x8000_0001, 0];

const WORDS: [u32; 8] = [
    0x1112_1314,
    0x2122_2324,
    0x3132_3334,
    0x4142_4344,
    0x5152_5354,
    0x6162_6364,
    0x7172_7374,
    0x8182_8384,
];

const MASKS: [u32; 8] = [
    0b0000, 0b0001, 0b1110, 0b1111, 0b0110, 0b1001, 0b1100, 0b0011,
];

// ---- lines

// With two digits a lane.
fn print_word(to: &mut Out, lane_code: u32, word: u32) {
    if lane_code == 1 {
        write!(to, " {word:04x}");
    } else {
        write!(to, " {word:08x}");
    }
}

// ---- the part

// The lane's bits where its bit of the mask is 0.
fn lane(bit: u32, bits: u32) -> u32 {
    if bit == 0 { bits } else { 0 }
}

// The bits that a write stores.
fn stored(lane_code: u32, mask: u32) -> u32 {
    let low = lane(mask % 2, 0xff) | lane(mask / 2 % 2, 0xff00);
    if lane_code == 1 {
        return low;
    }
    low | lane(mask / 4 % 2, 0x00ff_0000) | lane(mask / 8 % 2, 0xff00_0000)
}

fn element(list: &[u32], at: usize) -> u32 {
    list.get(at).copied().unwrap_or(0)
}

fn store(to: &mut Out, window: &mut [u32], cell: u32, word: u32, bits: u32) {
    match window.get_mut(cell as usize) {
        Some(held) => *held ^= (*held ^ word) & bits,
        None => write!(to, " WRONG"),
    }
}

// Whether an event is a WRITE.
fn is_write(capture: &[u8], event: usize) -> bool {
    if 7 < event {
        return false;
    }
    if capture.len() < 88 + 8 * event {
        return false;
    }
    pins::code(words::word_at(capture, 84 + 8 * event)) == pins::WRITE
}

// The event of burst b: without AUTO REFRESH each is behind an ACTIVE of its own, or all behind one.
fn burst_event(policy: u32, b: usize) -> usize {
    if 3 < b {
        return 0;
    }
    if policy == CLOSED_ROWS {
        return 2 * b + 1;
    }
    b + 1
}

// A beat of a write stores the given word; a beat of a read returns the cell's.
fn beat(to: &mut Out, lane_code: u32, writes: bool, given: usize, cell: u32, window: &mut [u32]) {
    if writes {
        let bits = stored(lane_code, element(&MASKS, given));
        store(to, window, cell, element(&WORDS, given), bits);
        return;
    }
    print_word(to, lane_code, element(&*window, cell as usize));
}

// The beats of the four bursts, in their order. Every other burst is a write and takes the next four words.
fn replay(
    to: &mut Out,
    lane_code: u32,
    policy: u32,
    capture: &[u8],
    cells: &[u32],
    window: &mut [u32],
) {
    for (j, cell) in cells.iter().enumerate() {
        let writes = is_write(capture, burst_event(policy, j / 4));
        let given = j / 8 * 4 + j % 4;
        beat(to, lane_code, writes, given, *cell, window);
    }
    writeln!(to);
}

fn print_window(to: &mut Out, lane_code: u32, window: &[u32]) {
    for word in window {
        print_word(to, lane_code, *word);
    }
    writeln!(to);
}

// ---- the run

fn play(to: &mut Out, lane_code: u32, policy: u32, out: &[u8], bytes: u32, old: u32) {
    let n = out.len().min(bytes as usize);
    let capture = &out[..n];
    let mut list = [0u32; 16];
    let mut window = [old; 8];
    let listed = cells::burst_cells(capture, &mut list);
    let Ok(cells) = listed else {
        writeln!(to, "WRONG: refused");
        return;
    };
    if cells != 16 {
        writeln!(to, "WRONG: cells");
        return;
    }
    write!(to, "read:");
    replay(to, lane_code, policy, capture, &list, &mut window);
    write!(to, "cells 0 to 7:");
    print_window(to, lane_code, &window);
}

fn run(to: &mut Out, lane_code: u32, policy: u32, expected: u32, old: u32) {
    let settings = [lane_code, 13, 10, 0x32, 3, 3, 7, 10, 2, 3, 1, 12, 2, 1000];
    let mut out = [0u8; 144];
    let answer = schedule::schedule(&settings, &REQUESTS, policy, &mut out);
    let Ok(bytes) = answer else {
        writeln!(to, "WRONG: refused");
        return;
    };
    if bytes != expected {
        writeln!(to, "WRONG: bytes");
        return;
    }
    play(to, lane_code, policy, &out, bytes, old);
}

fn main(rt: HostRuntime) {
    let mut to = Out::new(rt.stdout());
    run(&mut to, 2, CLOSED_ROWS, 144, 0xaabb_ccdd);
    run(&mut to, 1, CLOSED_ROWS, 144, 0xccdd);
    run(&mut to, 2, OPEN_ROWS, 120, 0xaabb_ccdd);
    run(&mut to, 1, OPEN_ROWS, 120, 0xccdd);
}

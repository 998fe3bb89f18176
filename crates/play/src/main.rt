// A capture played against a window of cells (docs/RULES.md, section 10.1): the input is the capture and behind it words, the
// first cell, how many words the window has, these, and to the end words and masks for its writes.
#![tactic(auto)]

use console::Out;
use console::program::Program;
use player::MOST_WINDOW;

const PLAY: Program<'static> = Program {
    name: b"play",
    help: b"usage: play [FILE]

Plays a clean capture of a Mobile DDR bus against a window of cells. Behind the
capture stand words of 32 bits: the first cell, how many words the window has,
these, and to the end words and masks for its writes. Prints `words COUNT`, each
word read as `word 0xWORD` and each cell of the window as `cell CELL 0xWORD`;
of what cannot be played `refused NUMBER place PLACE`.
",
    undone: b"nothing was played",
    option: None,
    names: 1,
};

// Sixteen words for each event may be read.
const MOST_READS: usize = 128_000;

// The longest input is 262,144 bytes, and one byte more shows that one is longer.
const ROOM: usize = 262_145;

const MOST_WRITES: usize = 65_536;

// ---- the input

// The word that starts at a byte; 0 where there is none.
fn word_at(bytes: &[u8], at: usize) -> u32 {
    if bytes.len() < 4 || bytes.len() - 4 < at {
        return 0;
    }
    words::word_at(bytes, at)
}

// With the words that the bytes are, as far as there are any.
fn fill(room: &mut [u32], bytes: &[u8]) {
    for (word, four) in room.iter_mut().zip(bytes.chunks_exact(4)) {
        *word = word_at(four, 0);
    }
}

// ---- the output

fn print_read(out: &mut Out, reads: &[u32]) {
    writeln!(out, "words {}", reads.len());
    for word in reads {
        writeln!(out, "word {word:#010x}");
    }
}

fn print_cells(out: &mut Out, first: u32, window: &[u32]) {
    for (cell, word) in (u64::from(first)..).zip(window) {
        writeln!(out, "cell {cell} {word:#010x}");
    }
}

// ---- the work

fn play(rt: &HostRuntime, capture: &[u8], first: u32, window: &mut [u32], writes: &[u32]) {
    let mut reads = [0u32; MOST_READS];
    let played = player::play(capture, first, window, writes, &mut reads);
    let mut out = Out::new(rt.stdout());
    match played {
        Ok(read) => {
            print_read(&mut out, &reads[..reads.len().min(read as usize)]);
            print_cells(&mut out, first, window);
        }
        Err(refusal) => writeln!(out, "{refusal}"),
    }
    PLAY.end(rt, out, b"printed");
}

// The capture, and behind it the window of so many words and what is left to its writes.
fn work(rt: &HostRuntime, capture: &[u8], first: u32, size: usize, behind: &[u8]) {
    let mut window = [0u32; MOST_WINDOW + 1];
    let mut writes = [0u32; MOST_WRITES];
    let window = &mut window[..size.min(MOST_WINDOW + 1)];
    let (own, rest) = behind.split_at((4 * window.len()).min(behind.len()));
    let writes = &mut writes[..(rest.len() / 4).min(MOST_WRITES)];
    fill(window, own);
    fill(writes, rest);
    play(rt, capture, first, window, writes);
}

// Where the first word says that the capture ends. What is too short for one has nothing behind it.
fn split(rt: &HostRuntime, input: &[u8]) {
    let total = word_at(input, 0) as usize;
    let (capture, rest) = input.split_at(total.min(input.len()));
    if input.len() < 80 || input.len() < total {
        work(rt, input, 0, 0, rest);
        return;
    }
    if rest.len() % 4 != 0 {
        PLAY.complain_of(rt, None, b" has some bytes over behind its last word");
        return;
    }
    if rest.len() < 8 {
        PLAY.complain_of(rt, None, b" ends before the window does");
        return;
    }
    let (head, behind) = rest.split_at(8);
    let first = word_at(head, 0);
    let size = word_at(head, 4) as usize;
    if size <= MOST_WINDOW && behind.len() / 4 < size {
        PLAY.complain_of(rt, None, b" ends before the window does");
        return;
    }
    work(rt, capture, first, size, behind);
}

fn main(rt: HostRuntime) {
    let mut buffer = [0u8; ROOM];
    let Some(input) = PLAY.input(&rt, &mut buffer) else {
        return;
    };
    if input.len() == ROOM {
        PLAY.complain_of(&rt, None, b" is too long");
        return;
    }
    split(&rt, input);
}

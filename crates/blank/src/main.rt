// A capture with its addresses blanked on standard output. What is no capture has no output: a refusal is told on standard
// error, so that it is never taken for one.
#![tactic(auto)]

use console::program::Program;

const BLANK: Program<'static> = Program {
    name: b"blank",
    help: b"usage: blank [FILE]

Writes a capture of a Mobile DDR bus to standard output, its row and column
addresses blanked; it is judged like the original. What is no capture has no
output, and standard error says `refused NUMBER place PLACE`.
",
    undone: b"nothing was written",
    option: None,
    names: 1,
};

// One byte more than the longest capture, so that a longer input is seen to be too long and nothing is blanked in part.
const ROOM: usize = capture::MOST + 1;

fn blank(rt: &HostRuntime, capture: &[u8]) {
    let mut room = [0u8; capture::MOST];
    match hidden::blank(capture, &mut room) {
        Ok(bytes) => BLANK.write(rt, &room[..bytes as usize]),
        Err(refusal) => BLANK.refuse(rt, refusal),
    }
}

fn main(rt: HostRuntime) {
    let mut buffer = [0u8; ROOM];
    if let Some(capture) = BLANK.input(&rt, &mut buffer) {
        blank(&rt, capture);
    }
}

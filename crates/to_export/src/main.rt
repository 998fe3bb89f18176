// A capture as an export of the handheld analyser on standard output. What is refused has no output: that is told on
// standard error, so that it is never taken for an export.
#![tactic(auto)]

use console::program::Program;

const TO_EXPORT: Program<'static> = Program {
    name: b"to_export",
    help: b"usage: to_export [FILE]

Writes a capture of a Mobile DDR bus to standard output as records of a handheld
analyser, with NOPs where events are further apart than its stamps can tell.
What is refused has no output, and standard error says
`refused NUMBER place PLACE`.
",
    undone: b"nothing was written",
    option: None,
    names: 1,
};

// One byte more than the longest capture, so that a longer input is seen to be too long and none is written in part.
const ROOM: usize = capture::MOST + 1;

fn convert(rt: &HostRuntime, capture: &[u8]) {
    let mut room = [0u8; exports::LONGEST];
    match exports::write(capture, &mut room) {
        Ok(bytes) => TO_EXPORT.write(rt, &room[..bytes as usize]),
        Err(refusal) => TO_EXPORT.refuse(rt, refusal),
    }
}

fn main(rt: HostRuntime) {
    let mut buffer = [0u8; ROOM];
    if let Some(capture) = TO_EXPORT.input(&rt, &mut buffer) {
        convert(&rt, capture);
    }
}

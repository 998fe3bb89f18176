// The report: what document 01 says of a capture.
#![tactic(auto)]

use console::program::Program;
use wording::verdict::print_verdict;

const REPORT: Program<'static> = Program {
    name: b"report",
    help: b"usage: report [FILE]

Judges a capture of a Mobile DDR bus. Prints `events N`, `judged J` and `clean`
or `broken rule R event E cycle T`, a line each; of what is no capture
`refused NUMBER place PLACE`.
",
    undone: b"nothing was judged",
    option: None,
    names: 1,
};

// One byte more than the longest capture, so that a longer input is seen to be too long and nothing is judged in part.
const ROOM: usize = capture::MOST + 1;

fn main(rt: HostRuntime) {
    let mut buffer = [0u8; ROOM];
    REPORT.print(&rt, &mut buffer, |out, capture| {
        print_verdict(out, judge::judge(capture));
    });
}

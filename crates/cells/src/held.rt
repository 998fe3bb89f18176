// A clean capture, what is told of it, and what its bursts are found by.
ghost use Rattle.std.proofs.Props.{props};
ghost use Rattle.reading.specs.Settings.{settings_of};
ghost use Rattle.cells.specs.Meaning as is;

use capture::held::Opened;

// An accepted capture of which no event breaks a rule.
#[derive(Clone, Copy)]
pub struct Clean<'a> {
    pub opened: Opened<'a>,
    ghost listable: { is.Listable opened.settings opened.events.bytes.now opened.events.count },
    ghost clean: { is.Clean (settings_of opened.settings) opened.events.bytes.now opened.events.count } by { Prim.hlevel props },
}

// The first cells of the rows that the banks were opened on, and the mode word.
#[derive(Clone, Copy)]
pub struct State {
    pub firsts: [u32; 4],
    pub mode: u32,
}

// The kept beats of a clean capture, by what they do.
#[derive(Clone, Copy)]
pub struct Beats {
    pub read: u32,
    pub written: u32,
}

// Why a call refuses what it is given (docs/RULES.md, section 11).
#![tactic(auto)]

ghost use Rattle.std.specs.Prelude.{◌≡◌, ◌<◌};
ghost use Rattle.refusal.specs.Refusal.{number_of, place_of};

use std::fmt;

// Each with its place, where that is not 0.
#[derive(Clone, Copy, Debug, PartialEq, Eq)]
pub enum Refusal {
    // The bytes are too few or too many, or not as many as the first word says.
    Length,
    Header,
    Setting(u32),
    Event(u32),
    Request(u32),
    // Refresh cannot be kept.
    Late(u32),
    // The lent buffer is too short: how long it has to be.
    Room(u32),
    // An event breaks a rule.
    Broken(u32),
    Policy,
    Export(u32),
    // An export cannot tell it.
    Distance,
    Question,
    Window(u32),
}

impl Refusal {
    pub fn number(self) -> u32
        ensures value { result ≡ number_of self }
        ensures small { result < 256 }
    {
        match self {
            Refusal::Length => 1,
            Refusal::Header => 2,
            Refusal::Setting(_) => 3,
            Refusal::Event(_) => 4,
            Refusal::Request(_) => 5,
            Refusal::Late(_) => 6,
            Refusal::Room(_) => 7,
            Refusal::Broken(_) => 8,
            Refusal::Policy => 10,
            Refusal::Export(_) => 11,
            Refusal::Distance => 12,
            Refusal::Question => 13,
            Refusal::Window(_) => 15,
        }
    }

    pub fn place(self) -> u32
        ensures { result ≡ place_of self }
    {
        match self {
            Refusal::Setting(place)
            | Refusal::Event(place)
            | Refusal::Request(place)
            | Refusal::Late(place)
            | Refusal::Room(place)
            | Refusal::Broken(place)
            | Refusal::Export(place)
            | Refusal::Window(place) => place,
            _ => 0,
        }
    }
}

impl fmt::Display for Refusal {
    fn fmt<W: fmt::Write>(&self, f: &mut fmt::Formatter<W>) -> fmt::Result {
        let number = self.number();
        let place = self.place();
        write!(f, "refused {number} place {place}")
    }
}

// What the pins of an event ask, in words.
use settings::Settings;
use settings::places::{COLUMN_BITS, ROW_BITS};
use std::fmt;
use std::fmt::Display;

#[derive(Clone, Copy)]
pub struct Command<'a> {
    pub settings: &'a Settings,
    pub pins: u32,
}

impl Command<'_> {
    // An accepted capture has at most 14 row bits and 11 column bits.
    fn column(&self) -> u32 {
        if 14 < self.settings[ROW_BITS] || 11 < self.settings[COLUMN_BITS] {
            return 0;
        }
        beats::column(self.settings, self.pins)
    }

    // Of a READ or a WRITE.
    fn fmt_burst<W: fmt::Write>(&self, f: &mut fmt::Formatter<W>, name: &str) -> fmt::Result {
        write!(
            f,
            "{name} bank {} column {}",
            pins::bank(self.pins),
            self.column()
        )?;
        if pins::ten(self.pins) {
            write!(f, " auto precharge")?;
        }
        Ok(())
    }

    fn fmt_precharge<W: fmt::Write>(&self, f: &mut fmt::Formatter<W>) -> fmt::Result {
        if pins::ten(self.pins) {
            write!(f, "PRECHARGE ALL")
        } else {
            write!(f, "PRECHARGE bank {}", pins::bank(self.pins))
        }
    }

    fn fmt_command<W: fmt::Write>(&self, f: &mut fmt::Formatter<W>) -> fmt::Result {
        let bank = pins::bank(self.pins);
        let address = pins::address(self.pins);
        match pins::code(self.pins) {
            pins::ACTIVE => write!(f, "ACTIVE bank {bank} row {address}"),
            pins::READ => self.fmt_burst(f, "READ"),
            pins::WRITE => self.fmt_burst(f, "WRITE"),
            pins::PRECHARGE => self.fmt_precharge(f),
            pins::TERMINATE => write!(f, "BURST TERMINATE"),
            pins::REFRESH => write!(f, "AUTO REFRESH"),
            // BA1,BA0 as document 01 writes them.
            pins::MODE_SET => write!(
                f,
                "MODE REGISTER SET register {bank:02b} value {address:#06x}"
            ),
            pins::NOP => write!(f, "NOP"),
            _ => write!(f, "DESELECT"),
        }
    }
}

impl Display for Command<'_> {
    fn fmt<W: fmt::Write>(&self, f: &mut fmt::Formatter<W>) -> fmt::Result {
        self.fmt_command(f)?;
        if pins::low(self.pins) {
            write!(f, ", CKE low")?;
        }
        Ok(())
    }
}

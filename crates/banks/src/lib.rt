// The four bank records, lent by the caller and filled in place, and what is found where a question about open rows is answered.
#![tactic(auto)]

ghost use Rattle.std.specs.Prelude.{◌≡◌, ◌<◌, length};
ghost use Rattle.reading.specs.Search.{lesser};
ghost use Rattle.banks.specs.Banks.{filled_of, filled_from};

use refusal::Refusal;

// Of a bank: how many openings stand before its own, and how many it has. In C: struct morgazell_bank.
#[repr(C)]
#[derive(Clone, Copy, Debug, PartialEq, Eq)]
pub struct Bank {
    pub before: u32,
    pub count: u32,
}

// What was found: the row that was open, or none where the bank was idle, and the records of the banks.
#[derive(Clone, Copy, Debug, PartialEq, Eq)]
pub struct Told {
    pub row: Option<u32>,
    pub banks: [Bank; 4],
}

// The update, by value: a refused call leaves the record as it is.
fn filled(b: Bank, told: &Result<Told, Refusal>, bank: usize) -> Bank
    requires { bank < 4 }
    ensures { result ≡ filled_of told.now b bank }
{
    match told {
        Ok(found) => found.banks[bank],
        Err(_) => b,
    }
}

// In place: the one function that stores into the records. Those behind the fourth are not touched.
pub fn fill(records: &mut [Bank], told: &Result<Told, Refusal>)
    ensures { records.new ≡ filled_from told.now records.old 0 (lesser (length records.old) 4) }
{
    let n = records.len().min(4);
    let first = &mut records[..n];
    for (bank, record) in first.iter_mut().enumerate() {
        *record = filled(*record, told, bank);
    }
}

// Captures that the test programs put together, word by word.
#![tactic(auto)]

ghost use Rattle.std.specs.Prelude.{◌≡◌};
ghost use Rattle.trials.specs.Stored.{stored, stored_from};

// A word, if there is room for it.
pub fn store(out: &mut [u8], at: u32, word: u32)
    ensures { out.new ≡ stored out.old at word }
{
    let place = at as usize;
    if out.len() < place + 4 {
        return;
    }
    words::put_word(out, place, word);
}

// Fourteen settings at their places in a capture.
pub fn store_settings(out: &mut [u8], list: &[u32; settings::COUNT])
    ensures { out.new ≡ stored_from out.old list.now 0 14 }
{
    for (i, word) in list.iter().enumerate() {
        store(out, 24 + 4 * i as u32, *word);
    }
}

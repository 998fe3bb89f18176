// A line of text in a fixed room, put together piece by piece, so that one call writes it.
ghost use Rattle.std.specs.Prelude.{◌≡◌, ◌≤◌, ◌-◌, ◌++◌, [], length, take};

use std::fmt;

// The text so far is the first `len` bytes.
#[derive(Clone, Copy)]
pub struct Line<const N: usize> {
    bytes: [u8; N],
    len: usize,
    ghost within: { len ≤ N },
}

impl<const N: usize> Line<N> {
    pub fn new() -> Line<N>
        ensures { take result.len result.bytes ≡ [] }
    {
        Line {
            bytes: [0; N],
            len: 0,
        }
    }

    pub fn text(&self) -> &[u8]
        ensures { result.now ≡ take self.now.len self.now.bytes }
    {
        &self.bytes[..self.len]
    }

    // What there is no room for is left out.
    pub fn put(&mut self, text: &[u8])
        ensures { take self.new.len self.new.bytes ≡ take self.old.len self.old.bytes ++ take (N - self.old.len) text.now }
    {
        let start = self.len;
        let n = text.len().min(N - start);
        let bytes = &mut self.bytes[..];
        bytes[start..start + n].copy_from_slice(&text[..n]);
        self.len = start + n;
    }
}

// An error where not all of a text had room.
impl<const N: usize> fmt::Write for Line<N> {
    ghost write_str_gives = { λ old text new. take new.len new.bytes ≡ take old.len old.bytes ++ text };

    fn write_str(&mut self, text: &str) -> fmt::Result {
        let room = N - self.len;
        self.put(text.as_bytes());
        if room < text.len() {
            return Err(fmt::Error);
        }
        Ok(())
    }
}

// A byte that no terminal should be sent becomes a question mark.
fn shown(byte: u8) -> u8 {
    if byte < b' ' || byte == 127 {
        return b'?';
    }
    byte
}

pub fn cover(text: &mut [u8]) {
    for byte in text.iter_mut() {
        *byte = shown(*byte);
    }
}

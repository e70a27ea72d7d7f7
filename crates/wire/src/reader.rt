// Bytes that are read from the front on, one number after another.
ghost use Rattle.std.specs.Prelude.{◌≡◌, ◌≤◌, IfOk, OnErr};
ghost use Rattle.wire.specs.Fields.{field};
ghost use Rattle.wire.specs.Number.{number_at};
ghost use Rattle.wire.specs.Readers.{Moves, ended};

use crate::field::read_field;
use crate::number::number_at;
use crate::refusal::{Cause, Refusal};

// The next number begins at `at`. What moves a reader says each time that the bytes stay: it relates before and after, so no invariant can.
#[derive(Clone, Copy)]
pub struct Reader<'a> {
    bytes: &'a [u8],
    at: usize,
}

impl<'a> Reader<'a> {
    pub fn new(bytes: &'a [u8]) -> Reader<'a>
        ensures bytes { result.bytes.now ≡ bytes.now }
        ensures at { result.at ≡ 0 }
    {
        Reader { bytes, at: 0 }
    }

    // Where the next number begins.
    pub fn at(&self) -> usize
        ensures { result ≡ self.now.at }
    {
        self.at
    }

    // The next number. After a refusal the reader stands where it stood.
    pub fn number(&mut self) -> Result<u16, Refusal>
        ensures moves { Moves result self.old.at self.new.at (number_at self.old.bytes.now self.old.at) }
        ensures bytes { self.new.bytes.now ≡ self.old.bytes.now }
    {
        let n;
        (n, self.at) = number_at(self.bytes, self.at)?;
        Ok(n)
    }

    // The next number, which lies from `low` to `high`.
    pub fn field(&mut self, low: u16, high: u16) -> Result<u16, Refusal>
        ensures moves { Moves result self.old.at self.new.at (field self.old.bytes.now self.old.at low high) }
        ensures within { IfOk result (λ n. (low ≤ n) × (n ≤ high)) }
        ensures bytes { self.new.bytes.now ≡ self.old.bytes.now }
    {
        let n;
        (n, self.at) = read_field(self.bytes, self.at, low, high)?;
        Ok(n)
    }

    // Refuses where bytes are left over.
    pub fn finish(&self) -> Result<(), Refusal>
        ensures { result ≡ ended self.now.bytes.now self.now.at }
    {
        if self.at < self.bytes.len() {
            return Err(Cause::BytesLeftOver.at(self.at));
        }
        Ok(())
    }
}

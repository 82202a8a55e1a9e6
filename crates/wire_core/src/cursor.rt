//! Reading bytes from left to right.

ghost use Rattle.std.specs.Prelude.{◌≡◌, ◌<◌, ◌^◌, length, OnErr};
ghost use Rattle.std.specs.Int.{w8, w16, w32, w64};
ghost use Rattle.wire_core.specs.Reading.{Reads, bytes_at, number_at, reading_of};

use std::marker::Model;

/// Fewer bytes were left than a read asked for.
#[derive(Clone, Copy, Debug, PartialEq, Eq)]
pub struct Short {
    /// Where the read began, counted from 0.
    pub at: u32,
    /// How many bytes it asked for.
    pub need: u32,
    /// How many bytes were left: fewer than `need`.
    pub have: u32,
}

/// A place in fewer than 2^32 bytes, from which numbers and bytes are read from left to right.
///
/// Contracts see it as a `Reading`: how many bytes were read, and the bytes to come. Numbers are
/// big endian. A read that is refused leaves the cursor where it is.
#[derive(Debug, Drop)]
pub struct Cursor<'a> {
    place: u32,
    rest: &'a [u8],
}

impl<'a> Model for Cursor<'a> {
    ghost use Rattle.std.specs.Prelude.{◌<◌, ◌+◌, ◌^◌, length};
    ghost use Rattle.wire_core.specs.Place.{Reading};

    ghost Value = { Reading };

    ghost view = { λ c. record { place = c.place; rest = c.rest.now } };

    ghost invariant = { λ c. c.place + length c.rest.now < 2 ^ 32 };
}

impl<'a> Cursor<'a> {
    /// A cursor at the first of the bytes.
    pub fn new(bytes: &'a [u8]) -> Cursor<'a>
        requires { length bytes.now < 2 ^ 32 }
        ensures { result ≡ reading_of bytes.now }
    {
        Cursor {
            place: 0,
            rest: bytes,
        }
    }

    /// How many bytes were read.
    pub fn place(&self) -> u32
        ensures { result ≡ self.now.place }
    {
        self.place
    }

    /// How many bytes are to come.
    pub fn left(&self) -> u32
        ensures { result ≡ length self.now.rest }
    {
        self.rest.len() as u32
    }

    /// The bytes to come, which stay to be read.
    pub fn rest(&self) -> &'a [u8]
        ensures { result.now ≡ self.now.rest }
    {
        self.rest
    }

    /// The next `n` bytes, which are not copied. `Short` where fewer are left.
    pub fn bytes(&mut self, n: u32) -> Result<&'a [u8], Short>
        ensures read { Reads (λ x. x.now) result self.new (bytes_at n self.old) }
        ensures err { OnErr result (self.new ≡ self.old) }
    {
        let have = self.left();
        if have < n {
            return Err(Short {
                at: self.place,
                need: n,
                have,
            });
        }
        let (front, rest) = self.rest.split_at(n as usize);
        self.place += n;
        self.rest = rest;
        Ok(front)
    }

    /// The next byte. `Short` where none is left.
    pub fn u8(&mut self) -> Result<u8, Short>
        ensures read { Reads (λ x. x) result self.new (number_at w8 self.old) }
        ensures err { OnErr result (self.new ≡ self.old) }
    {
        let front = self.bytes(1)?;
        Ok(front[0])
    }

    /// The number of the next two bytes, high byte first. `Short` where fewer are left.
    pub fn u16(&mut self) -> Result<u16, Short>
        ensures read { Reads (λ x. x) result self.new (number_at w16 self.old) }
        ensures err { OnErr result (self.new ≡ self.old) }
    {
        let front = self.bytes(2)?;
        Ok(u16::from_be_bytes([front[0], front[1]]))
    }

    /// The number of the next four bytes, high byte first. `Short` where fewer are left.
    pub fn u32(&mut self) -> Result<u32, Short>
        ensures read { Reads (λ x. x) result self.new (number_at w32 self.old) }
        ensures err { OnErr result (self.new ≡ self.old) }
    {
        let front = self.bytes(4)?;
        Ok(u32::from_be_bytes([front[0], front[1], front[2], front[3]]))
    }

    /// The number of the next eight bytes, high byte first. `Short` where fewer are left.
    pub fn u64(&mut self) -> Result<u64, Short>
        ensures read { Reads (λ x. x) result self.new (number_at w64 self.old) }
        ensures err { OnErr result (self.new ≡ self.old) }
    {
        let front = self.bytes(8)?;
        Ok(u64::from_be_bytes([
            front[0], front[1], front[2], front[3], front[4], front[5], front[6], front[7],
        ]))
    }
}

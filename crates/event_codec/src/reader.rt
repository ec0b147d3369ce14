//! A reader of bytes from left to right.
ghost use Rattle.std.specs.Prelude.{◌≡◌, ◌≤ℤ◌, IfOk};
ghost use Rattle.event_codec.specs.Formed.{Within};
ghost use Rattle.event_codec.specs.Reading.{Gives, any_byte, any_eight, any_four, any_word, between, coded_byte, four_upto};

use crate::codes::Coded;
use crate::errors::ReadError;
use crate::numbers::{read_between, read_eight, read_four};
use std::alloc::Global;
use std::marker::Model;

/// A reader of bytes. Contracts see the bytes that it hasn't read.
#[derive(Drop)]
pub struct Reader<'a> {
    alloc: Global,
    left: &'a [u8],
}

impl<'a> Model for Reader<'a> {
    ghost use Rattle.std.specs.Prelude.{List, ℕ};

    ghost Value = { List ℕ };

    ghost view = { λ r. r.left.now };
}

impl<'a> Reader<'a> {
    /// A reader of these bytes.
    pub fn new(alloc: Global, bytes: &'a [u8]) -> Reader<'a>
        ensures { result ≡ bytes.now }
    {
        Reader { alloc, left: bytes }
    }

    /// Returns the allocator for values that are read.
    pub fn alloc(&self) -> Global {
        self.alloc
    }

    /// Returns the bytes that aren't read.
    pub fn rest(&self) -> &'a [u8]
        ensures { result.now ≡ self.now }
    {
        self.left
    }

    /// Continues at these bytes.
    pub fn pass_to(&mut self, left: &'a [u8])
        ensures { self.new ≡ left.now }
    {
        self.left = left;
    }

    /// Reads a byte.
    pub fn byte(&mut self) -> Result<u8, ReadError>
        ensures { Gives result (any_byte self.old) self.new }
    {
        let [byte, rest @ ..] = self.left else {
            return Err(ReadError::Bad);
        };
        self.left = rest;
        Ok(*byte)
    }

    /// Reads a byte that is a code.
    pub fn read_coded<T: Coded>(&mut self) -> Result<T, ReadError>
        ensures { Gives result (coded_byte T.meaning self.old) self.new }
    {
        let [byte, rest @ ..] = self.left else {
            return Err(ReadError::Bad);
        };
        match T::of_code(*byte) {
            Some(item) => {
                self.left = rest;
                Ok(item)
            }
            None => Err(ReadError::Bad),
        }
    }

    /// Reads a number of four bytes, at most `most`.
    pub fn four_upto(&mut self, most: u32) -> Result<u32, ReadError>
        ensures { Gives result (four_upto most self.old) self.new }
    {
        match read_four(self.left, most) {
            Ok((number, rest)) => {
                self.left = rest;
                Ok(number)
            }
            Err(rest) => {
                self.left = rest;
                Err(ReadError::Bad)
            }
        }
    }

    /// Reads a number of four bytes.
    pub fn four(&mut self) -> Result<u32, ReadError>
        ensures { Gives result (any_four self.old) self.new }
    {
        self.four_upto(u32::MAX)
    }

    /// Reads a number of eight bytes.
    pub fn eight(&mut self) -> Result<u64, ReadError>
        ensures { Gives result (any_eight self.old) self.new }
    {
        match read_eight(self.left) {
            Ok((number, rest)) => {
                self.left = rest;
                Ok(number)
            }
            Err(rest) => {
                self.left = rest;
                Err(ReadError::Bad)
            }
        }
    }

    /// Reads a signed number of eight bytes, from `least` to `most`.
    pub fn between(&mut self, least: i64, most: i64) -> Result<i64, ReadError>
        requires { least ≤ℤ most }
        ensures read { Gives result (between least most self.old) self.new }
        ensures within { IfOk result (Within least most) }
    {
        match read_between(self.left, least, most) {
            Ok((number, rest)) => {
                self.left = rest;
                Ok(number)
            }
            Err(rest) => {
                self.left = rest;
                Err(ReadError::Bad)
            }
        }
    }

    /// Reads a signed number of eight bytes.
    pub fn word(&mut self) -> Result<i64, ReadError>
        ensures { Gives result (any_word self.old) self.new }
    {
        self.between(i64::MIN, i64::MAX)
    }
}

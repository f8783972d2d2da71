ghost use Rattle.std.specs.Prelude.{◌≡◌, ◌+◌, ◌-◌, ◌*◌, ◌^◌, ◌<◌, ◌≤◌, ◌↔◌, ◌++◌, length, take, IfOk, OnErr, IfErr, IsErr, OnOk, IsErrOf};
ghost use Rattle.layout.specs.Text.{num, bits_of};
ghost use Rattle.layout.specs.Reader.{left, moved};
ghost use Rattle.layout.specs.ToEnd.{window};
ghost use Rattle.layout.specs.Layout.{wrapped};
ghost use Rattle.layout.specs.Reading.{Gives, GivesUnless, Reads, ReadsUnless};
ghost use Rattle.bit_core.specs.Plain.{bits, octets, bit_run};
ghost use Rattle.bit_core.specs.Faults.{is_memory};

use crate::bits::Bits;
use crate::faults::{ReadFault, Short};
use crate::items::Octets;
use crate::slices::{bytes_at, number_at};
use std::alloc::Global;
use std::marker::Model;

/// Takes fields off the bits of a slice, or off a part of them.
///
/// Places are bits, counted from the first bit of the slice; the most significant bit of a byte is its first. A call that
/// is refused leaves the reader where it was.
///
/// ```text
/// let mut reader = BitReader::new(&[0xA5, 0xF0]);
/// reader.take(4)     // Ok(10)
/// reader.take(8)     // Ok(0x5F)
/// reader.take(5)     // Err(Short { at: 12 }), and reader.at() is 12
/// ```
#[derive(Drop)]
pub struct BitReader<'a> {
    bytes: &'a [u8],
    at: u64,
    end: u64,
}

impl<'a> Model for BitReader<'a> {
    ghost use Rattle.std.specs.Prelude.{◌≤◌, ◌*◌, length, take};
    ghost use Rattle.layout.specs.Text.{bits_of};
    ghost use Rattle.layout.specs.Reader.{Reader};

    ghost Value = { Reader };

    ghost view = { λ r. record { text = take r.end (bits_of r.bytes.now); at = r.at } };

    ghost invariant = { λ r. (r.at ≤ r.end) × (r.end ≤ 8 * length r.bytes.now) × (length r.bytes.now ≤ 16777216) };
}

impl<'a> BitReader<'a> {
    /// A reader at the first bit of a slice of at most 16,777,216 bytes.
    pub fn new(bytes: &'a [u8]) -> BitReader<'a>
        requires { length bytes.now ≤ 16777216 }
        ensures { result ≡ record { text = bits_of bytes.now; at = 0 } }
    {
        BitReader {
            bytes,
            at: 0,
            end: 8 * bytes.len() as u64,
        }
    }

    /// A reader of the bits of a slice of at most 16,777,216 bytes from the bit `from` up to the bit `to`, which is not
    /// read. Places are still counted from the first bit of the slice.
    pub fn within(bytes: &'a [u8], from: u64, to: u64) -> BitReader<'a>
        requires size { length bytes.now ≤ 16777216 }
        requires order { from ≤ to }
        requires end { to ≤ 8 * length bytes.now }
        ensures { result ≡ record { text = take to (bits_of bytes.now); at = from } }
    {
        BitReader {
            bytes,
            at: from,
            end: to,
        }
    }

    /// The place of the next bit, at most 134,217,728.
    pub fn at(&self) -> u64
        ensures at { result ≡ self.now.at }
        ensures within { self.now.at ≤ length self.now.text }
        ensures size { length self.now.text ≤ 134217728 }
    {
        self.at
    }

    /// The number of bits that are left.
    pub fn left(&self) -> u64
        ensures { result ≡ length (left self.now) }
    {
        self.end - self.at
    }

    /// A reader of the next n bits alone, of which at least so many are left. It counts places as this one does.
    pub fn ahead(&self, n: u64) -> BitReader<'a>
        requires { n ≤ length (left self.now) }
        ensures { result ≡ window self.now n }
    {
        BitReader {
            bytes: self.bytes,
            at: self.at,
            end: self.at + n,
        }
    }

    /// Goes back to a place, in bits, that the reader has passed or stands at.
    pub fn back_to(&mut self, at: u64)
        requires { at ≤ self.old.at }
        ensures { self.new ≡ record self.old { at = at } }
    {
        self.at = at;
    }

    /// Takes a number of at most 32 bits, most significant bit first.
    ///
    /// Errors: `Short` at the first of these bits, where fewer than n are left; nothing is taken.
    #[inline]
    pub fn take(&mut self, n: u32) -> Result<u32, Short>
        requires { n ≤ 32 }
        ensures below { IfOk result (λ v. v < 2 ^ n) }
        ensures spelled { IfOk result (λ v. left self.old ≡ num n v ++ left self.new) }
        ensures ok { OnOk result (self.new ≡ moved self.old n) }
        ensures short { IsErr result ↔ (length (left self.old) < n) }
        ensures fault { IfErr result (λ e. e.at ≡ self.old.at) }
        ensures err { OnErr result (self.new ≡ self.old) }

        // For the proofs of the readers above.
        ensures exact { Gives (bits n) self.old self.new result }
    {
        if self.left() < u64::from(n) {
            return Err(Short { at: self.at });
        }
        let value = number_at(self.bytes, self.at, n);
        self.at += u64::from(n);
        Ok(value)
    }

    /// Passes n bits without looking at them.
    ///
    /// Errors: `Short` at the first of these bits, where fewer than n are left; none is passed.
    pub fn skip(&mut self, n: u64) -> Result<(), Short>
        ensures ok { OnOk result (self.new ≡ moved self.old n) }
        ensures short { IsErr result ↔ (length (left self.old) < n) }
        ensures fault { IfErr result (λ e. e.at ≡ self.old.at) }
        ensures err { OnErr result (self.new ≡ self.old) }
    {
        if self.left() < n {
            return Err(Short { at: self.at });
        }
        self.at += n;
        Ok(())
    }

    /// Takes n bytes, which may begin at any bit.
    ///
    /// Errors: `Short` at the first of these bits, where fewer than 8 n are left, or out of memory; nothing is taken.
    pub fn take_bytes(&mut self, alloc: Global, n: u64) -> Result<Octets, ReadFault>
        ensures reads { ReadsUnless is_memory (wrapped ReadFault.Short (octets n)) self.old self.new result }

        // For the proofs of the readers above.
        ensures exact { GivesUnless is_memory (wrapped ReadFault.Short (octets n)) self.old self.new result }
    {
        if self.left() / 8 < n {
            return Err(ReadFault::Short(Short { at: self.at }));
        }
        let bytes = bytes_at(alloc, self.bytes, self.at, n)?;
        self.at += 8 * n;
        Ok(Octets::from_vec(bytes))
    }

    /// Takes n bits as they are.
    ///
    /// Errors: `Short` at the first of these bits, where fewer than n are left, or out of memory; nothing is taken.
    pub fn take_bits(&mut self, alloc: Global, n: u64) -> Result<Bits, ReadFault>
        ensures reads { ReadsUnless is_memory (wrapped ReadFault.Short (bit_run n)) self.old self.new result }

        // For the proofs of the readers above.
        ensures exact { GivesUnless is_memory (wrapped ReadFault.Short (bit_run n)) self.old self.new result }
    {
        if self.left() < n {
            return Err(ReadFault::Short(Short { at: self.at }));
        }
        let bits = Bits::of_bytes(alloc, self.bytes, self.at, n)?;
        self.at += n;
        Ok(bits)
    }
}

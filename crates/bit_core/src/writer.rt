ghost use Rattle.std.specs.Prelude.{◌≡◌, ◌+◌, ◌*◌, ◌/◌, ◌^◌, ◌<◌, ◌≤◌, ◌++◌, ◌∷◌, [], ℕ, length, take, drop, slice_index, IfOk, OnErr, OnOk};
ghost use Rattle.layout.specs.Text.{num, bits_of, pad, value_after};
ghost use Rattle.bit_core.specs.Words.{zeros};

use crate::bits::Bits;
use crate::items::Octets;
use crate::words::{MOST_BITS, cut_words, in_range, push_from, push_word, push_words, whole_bytes};
use std::alloc::{AllocError, Global};
use std::marker::Model;

/// Holds the bits that were put into it, the first one first, and makes bytes of them.
///
/// The one error of each call is out of memory, or of room for more than 2^62 bits. A refused put leaves the writer as it
/// was.
///
/// ```text
/// let mut writer = BitWriter::new(alloc);
/// writer.put(5, 3)?;       // 101
/// writer.put(0x5F, 8)?;    // 101 0101 1111
/// writer.finish()          // the bytes 1010 1011, 1110 0000
/// ```
#[derive(Drop)]
pub struct BitWriter {
    words: Vec<u64>,
    len: u64,
}

impl Model for BitWriter {
    ghost use Rattle.std.specs.Prelude.{List, Bool, ◌≤◌};
    ghost use Rattle.bit_core.specs.Words.{text_of, IsPacked};

    ghost Value = { List Bool };

    ghost view = { λ w. text_of w.len w.words.items };

    ghost invariant = { λ w. IsPacked w.words.items w.len × (w.len ≤ 4611686018427387904) };
}

impl BitWriter {
    /// No bits.
    pub fn new(alloc: Global) -> BitWriter
        ensures { result ≡ [] }
    {
        BitWriter {
            words: Vec::new(alloc),
            len: 0,
        }
    }

    /// The number of bits.
    pub fn len(&self) -> u64
        ensures { result ≡ length self.now }
    {
        self.len
    }

    /// The bits in words of 64, the first bit highest; the bits of the last word that are not used are 0.
    pub fn words(&self) -> &[u64]
        ensures count { length result.now ≡ (length self.now + 63) / 64 }
        ensures each { (i : ℕ) → i < length result.now → slice_index result.now i ≡ value_after 0 (take 64 (drop (64 * i) self.now ++ zeros 64)) }
    {
        in_range(&self.words)
    }

    /// Cuts all but the first bits, `len` of them. A write of several fields that is refused goes back with it.
    pub fn truncate(&mut self, len: u64)
        requires { len ≤ length self.old }
        ensures { self.new ≡ take len self.old }
    {
        cut_words(&mut self.words, len);
        self.len = len;
    }

    /// Puts one bit: 1 for true.
    ///
    /// Errors: out of memory, or of room for more than 2^62 bits; nothing is put.
    #[inline]
    pub fn put_flag(&mut self, bit: bool) -> Result<(), AllocError>
        ensures ok { OnOk result (self.new ≡ self.old ++ bit ∷ []) }
        ensures err { OnErr result (self.new ≡ self.old) }
    {
        self.put(u32::from(bit), 1)
    }

    /// Puts a number of at most 32 bits, most significant bit first.
    ///
    /// Errors: out of memory, or of room for more than 2^62 bits; nothing is put.
    #[inline]
    pub fn put(&mut self, value: u32, n: u32) -> Result<(), AllocError>
        requires short { n ≤ 32 }
        requires below { value < 2 ^ n }
        ensures ok { OnOk result (self.new ≡ self.old ++ num n value) }
        ensures err { OnErr result (self.new ≡ self.old) }
    {
        if n == 0 {
            return Ok(());
        }
        if self.len > MOST_BITS - u64::from(n) {
            return Err(AllocError);
        }
        push_word(&mut self.words, self.len, u64::from(value) << (64 - n), n)?;
        self.len += u64::from(n);
        Ok(())
    }

    /// Puts bits as they are.
    ///
    /// Errors: out of memory, or of room for more than 2^62 bits; nothing is put.
    pub fn put_bits(&mut self, bits: &Bits) -> Result<(), AllocError>
        ensures ok { OnOk result (self.new ≡ self.old ++ bits.now) }
        ensures err { OnErr result (self.new ≡ self.old) }
    {
        let n = bits.len();
        if n > MOST_BITS - self.len {
            return Err(AllocError);
        }
        let result = push_words(&mut self.words, self.len, bits.packed(), n);
        if result.is_ok() {
            self.len += n;
        } else {
            cut_words(&mut self.words, self.len);
        }
        result
    }

    /// Puts bytes, the most significant bit of each first. They may begin at any bit.
    ///
    /// Errors: out of memory, or of room for more than 2^62 bits; nothing is put.
    pub fn put_bytes(&mut self, bytes: &[u8]) -> Result<(), AllocError>
        ensures ok { OnOk result (self.new ≡ self.old ++ bits_of bytes.now) }
        ensures err { OnErr result (self.new ≡ self.old) }
    {
        if bytes.len() as u64 > (MOST_BITS - self.len) / 8 {
            return Err(AllocError);
        }
        let n = 8 * bytes.len() as u64;
        let result = push_from(&mut self.words, self.len, bytes, 0, n);
        if result.is_ok() {
            self.len += n;
        } else {
            cut_words(&mut self.words, self.len);
        }
        result
    }

    /// The bits as a list. Nothing is copied.
    pub fn into_bits(self) -> Bits
        ensures { result ≡ self }
    {
        let BitWriter { words, len } = self;
        Bits::from_words(words, len)
    }

    /// The bytes that the bits spell, with the fewest zeros behind them that fill the last byte, at most 7.
    ///
    /// Errors: out of memory; the bits are gone.
    pub fn finish(self) -> Result<Octets, AllocError>
        ensures { IfOk result (λ octets. bits_of octets ≡ pad self) }
    {
        let alloc = *self.words.allocator();
        let bytes = whole_bytes(alloc, &self.words, self.len)?;
        Ok(Octets::from_vec(bytes))
    }
}

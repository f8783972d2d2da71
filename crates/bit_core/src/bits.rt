ghost use Rattle.std.specs.Prelude.{◌≡◌, ◌+◌, ◌*◌, ◌/◌, ◌<◌, ◌≤◌, ◌↔◌, ◌++◌, ◌∷◌, [], ℕ, length, take, drop, slice_get, slice_index, IsTrue, IfOk, OnOk, OnErr};
ghost use Rattle.layout.specs.Text.{bits_of, value_after};
ghost use Rattle.bit_core.specs.Trim.{trimmed};
ghost use Rattle.bit_core.specs.Words.{zeros, spread, text_of, Holds, IsPacked};

use crate::words::{MOST_BITS, cut_words, in_range, push_word, words_at};
use std::alloc::{AllocError, Global};
use std::marker::Model;

/// A list of bits, at most 2^62 of them. Contracts see the list of truth values; how it is kept is private to this crate.
#[derive(Debug, Drop)]
pub struct Bits {
    words: Vec<u64>,
    len: u64,
}

impl Model for Bits {
    ghost use Rattle.std.specs.Prelude.{List, Bool, ◌≤◌};
    ghost use Rattle.bit_core.specs.Words.{text_of, IsPacked};

    ghost Value = { List Bool };

    ghost view = { λ b. text_of b.len b.words.items };

    ghost invariant = { λ b. IsPacked b.words.items b.len × (b.len ≤ 4611686018427387904) };
}

fn same_words(a: &[u64], b: &[u64]) -> bool
    ensures { IsTrue result ↔ (a.now ≡ b.now) }
{
    a == b
}

/// How many bits there are up to and with the last 1.
fn len_to_last_one(words: &[u64]) -> u64
    requires { 64 * length words.now ≤ 4611686018427387967 }
    ensures within { result ≤ 64 * length words.now }
    ensures trimmed { text_of result words.now ≡ trimmed (spread words.now) }
{
    let mut count = words.len();
    while count > 0 {
        let word = words[count - 1];
        if word != 0 {
            return 64 * count as u64 - u64::from(word.trailing_zeros());
        }
        count -= 1;
    }
    0
}

impl Bits {
    /// No bits.
    pub fn new(alloc: Global) -> Bits
        ensures { result ≡ [] }
    {
        Bits {
            words: Vec::new(alloc),
            len: 0,
        }
    }

    /// The bits that packed words hold.
    pub(crate) fn from_words(words: Vec<u64>, len: u64) -> Bits
        requires packed { IsPacked words.items len }
        requires few { len ≤ 4611686018427387904 }
        ensures { result ≡ text_of len words.items }
    {
        Bits { words, len }
    }

    /// The n bits of bytes from a bit on.
    pub(crate) fn of_bytes(alloc: Global, bytes: &[u8], at: u64, n: u64) -> Result<Bits, AllocError>
        requires short { 8 * length bytes.now ≤ 4611686018427387904 }
        requires within { at + n ≤ 8 * length bytes.now }
        ensures { IfOk result (λ bits. bits ≡ take n (drop at (bits_of bytes.now))) }
    {
        let words = words_at(alloc, bytes, at, n)?;
        Ok(Bits { words, len: n })
    }

    /// The number of bits.
    pub fn len(&self) -> u64
        ensures { result ≡ length self.now }
    {
        self.len
    }

    /// The words that the bits are kept in, for what it is to hold them.
    pub(crate) fn packed(&self) -> &[u64]
        ensures holds { Holds result.now (length self.now) self.now }
        ensures limit { length self.now ≤ 4611686018427387904 }
    {
        &self.words
    }

    /// The bits in words of 64, the first bit highest; the bits of the last word that are not used are 0.
    pub fn words(&self) -> &[u64]
        ensures count { length result.now ≡ (length self.now + 63) / 64 }
        ensures each { (i : ℕ) → i < length result.now → slice_index result.now i ≡ value_after 0 (take 64 (drop (64 * i) self.now ++ zeros 64)) }
    {
        in_range(&self.words)
    }

    /// The bit at a place, counted from 0; `None` exactly where there is none.
    #[inline]
    pub fn get(&self, i: u64) -> Option<bool>
        ensures { result ≡ slice_get self.now i }
    {
        if i >= self.len {
            return None;
        }
        let word = self.words[(i / 64) as usize];
        Some((word >> (63 - i % 64)) & 1 == 1)
    }

    /// Adds a bit at the end.
    ///
    /// The one error is out of memory, or of room where there are 2^62 bits, and leaves the list as it was.
    #[inline]
    pub fn push(&mut self, bit: bool) -> Result<(), AllocError>
        ensures ok { OnOk result (self.new ≡ self.old ++ bit ∷ []) }
        ensures err { OnErr result (self.new ≡ self.old) }
    {
        if self.len >= MOST_BITS {
            return Err(AllocError);
        }
        push_word(&mut self.words, self.len, u64::from(bit) << 63, 1)?;
        self.len += 1;
        Ok(())
    }

    /// Whether the two lists are equal.
    pub fn same(&self, other: &Bits) -> bool
        ensures { IsTrue result ↔ (self.now ≡ other.now) }
    {
        self.len == other.len && same_words(in_range(&self.words), in_range(&other.words))
    }

    /// Cuts all zeros at the end.
    pub fn trim(&mut self)
        ensures { self.new ≡ trimmed self.old }
    {
        let len = len_to_last_one(&self.words);
        cut_words(&mut self.words, len);
        self.len = len;
    }

    /// A copy of the bits. The one error is out of memory.
    pub fn copy(&self, alloc: Global) -> Result<Bits, AllocError>
        ensures { IfOk result (λ bits. bits ≡ self.now) }
    {
        let words = Vec::from_slice(alloc, &self.words)?;
        Ok(Bits {
            words,
            len: self.len,
        })
    }
}

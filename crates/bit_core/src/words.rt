// Bits packed into words of 64, the first bit highest, with 0 in each bit of the last word that is not used.
ghost use Rattle.std.specs.Prelude.{◌≡◌, ◌+◌, ◌-◌, ◌*◌, ◌/◌, ◌<◌, ◌≤◌, ◌++◌, ℕ, length, take, drop, slice_index, IfOk, OnOk, OnErr};
ghost use Rattle.layout.specs.Text.{num, bits_of, pad};
ghost use Rattle.bit_core.specs.Words.{zeros, spread, text_of, IsPacked, Holds, Reaches, IsFront};

use crate::slices::{peek, word_across};
use std::alloc::{AllocError, Global};

/// The most bits that a list or a writer holds, 2^62.
pub const MOST_BITS: u64 = 4611686018427387904;

/// Words as they are, for what their type says of them.
#[inline(always)]
pub fn in_range(words: &[u64]) -> &[u64]
    ensures same { result.now ≡ words.now }
    ensures range { (i : ℕ) → slice_index words.now i < 18446744073709551616 }
{
    words
}

/// The first n bits of a word, and 0 behind them.
#[inline(always)]
pub fn front_of(word: u64, n: u32) -> u64
    requires some { 0 < n }
    requires within { n ≤ 64 }
    ensures { num 64 result ≡ take n (num 64 word) ++ zeros (64 - n) }
{
    let rest = 64 - n;
    (word >> rest) << rest
}

/// Puts the first n bits of a word, whose other bits are 0, behind the bits that the words hold.
#[inline(always)]
pub fn push_word(words: &mut Vec<u64>, len: u64, word: u64, n: u32) -> Result<(), AllocError>
    requires within { n ≤ 64 }
    requires packed { IsPacked words.old.items len }
    requires front { IsFront n word }
    ensures ok { OnOk result (Holds words.new.items (len + n) (text_of len words.old.items ++ take n (num 64 word))) }
    ensures err { OnErr result (words.new.items ≡ words.old.items) }
{
    let used = (len % 64) as u32;
    if used == 0 {
        if n > 0 {
            words.push(word)?;
        }
        return Ok(());
    }
    let room = 64 - used;
    if n > room {
        words.push(word << room)?;
    }
    let last = (len / 64) as usize;
    words[last] |= word >> used;
    Ok(())
}

/// Cuts all but the first bits, `len` of them.
pub fn cut_words(words: &mut Vec<u64>, len: u64)
    requires { len ≤ 64 * length words.old.items }
    ensures { Holds words.new.items len (text_of len words.old.items) }
{
    let whole = (len / 64) as usize;
    let used = (len % 64) as u32;
    if used == 0 {
        words.truncate(whole);
    } else {
        words.truncate(whole + 1);
        words[whole] = front_of(words[whole], used);
    }
}

/// Puts n bits of bytes, from a bit on, behind the bits that the words hold. A call that is refused may leave some of them.
pub fn push_from(
    words: &mut Vec<u64>,
    len: u64,
    bytes: &[u8],
    at: u64,
    n: u64,
) -> Result<(), AllocError>
    requires packed { IsPacked words.old.items len }
    requires small { len ≤ 4611686018427387904 }
    requires short { 8 * length bytes.now ≤ 4611686018427387904 }
    requires within { at + n ≤ 8 * length bytes.now }
    ensures ok { OnOk result (Holds words.new.items (len + n) (text_of len words.old.items ++ take n (drop at (bits_of bytes.now)))) }
    ensures err { OnErr result (Reaches words.new.items len (text_of len words.old.items)) }
{
    let whole = n / 64;
    for i in 0..whole {
        push_word(words, len + 64 * i, peek(bytes, at + 64 * i), 64)?;
    }
    let rest = (n % 64) as u32;
    if rest > 0 {
        let last = front_of(peek(bytes, at + 64 * whole), rest);
        push_word(words, len + 64 * whole, last, rest)?;
    }
    Ok(())
}

/// Writes n bits of bytes, from a bit on, as words.
fn put_words(bytes: &[u8], at: u64, n: u64, out: &mut [u64])
    requires some { 0 < n }
    requires short { 8 * length bytes.now ≤ 4611686018427387904 }
    requires within { at + n ≤ 8 * length bytes.now }
    requires count { length out.old ≡ (n + 63) / 64 }
    ensures { Holds out.new n (take n (drop at (bits_of bytes.now))) }
{
    let from = (at / 8) as usize;
    let skipped = (at % 8) as u32;
    let last = ((n - 1) / 64) as usize;
    for i in 0..last {
        out[i] = word_across(bytes, from + 8 * i, skipped);
    }
    let passed = 64 * last as u64;
    out[last] = front_of(peek(bytes, at + passed), (n - passed) as u32);
}

/// The words that hold n bits of bytes, from a bit on.
pub fn words_at(alloc: Global, bytes: &[u8], at: u64, n: u64) -> Result<Vec<u64>, AllocError>
    requires short { 8 * length bytes.now ≤ 4611686018427387904 }
    requires within { at + n ≤ 8 * length bytes.now }
    ensures { IfOk result (λ words. Holds words.items n (take n (drop at (bits_of bytes.now)))) }
{
    if n == 0 {
        return Ok(Vec::new(alloc));
    }
    let count = n.div_ceil(64) as usize;
    let mut words = Vec::with_capacity(alloc, count)?;
    words.resize(count, 0)?;
    put_words(bytes, at, n, &mut words);
    Ok(words)
}

/// Puts the n bits that other words hold behind the bits that the words hold. A call that is refused may leave some of them.
pub fn push_words(words: &mut Vec<u64>, len: u64, more: &[u64], n: u64) -> Result<(), AllocError>
    requires packed { IsPacked words.old.items len }
    requires small { len ≤ 4611686018427387904 }
    requires short { n ≤ 4611686018427387904 }
    requires more { IsPacked more.now n }
    ensures ok { OnOk result (Holds words.new.items (len + n) (text_of len words.old.items ++ text_of n more.now)) }
    ensures err { OnErr result (Reaches words.new.items len (text_of len words.old.items)) }
{
    let whole = n / 64;
    for i in 0..whole {
        push_word(words, len + 64 * i, more[i as usize], 64)?;
    }
    let rest = (n % 64) as u32;
    if rest > 0 {
        push_word(words, len + 64 * whole, more[whole as usize], rest)?;
    }
    Ok(())
}

/// The bytes of words.
fn all_bytes(alloc: Global, words: &[u64]) -> Result<Vec<u8>, AllocError>
    requires { 64 * length words.now < 4611686018427387968 }
    ensures { IfOk result (λ bytes. bits_of bytes.items ≡ spread words.now) }
{
    let mut out = Vec::with_capacity(alloc, 8 * words.len())?;
    for word in words {
        let bytes = word.to_be_bytes();
        out.extend_from_slice(&bytes)?;
    }
    Ok(out)
}

/// The bytes of the bits that words hold, with the fewest zeros behind them that fill the last byte.
pub fn whole_bytes(alloc: Global, words: &[u64], len: u64) -> Result<Vec<u8>, AllocError>
    requires packed { IsPacked words.now len }
    requires small { len ≤ 4611686018427387904 }
    ensures { IfOk result (λ bytes. bits_of bytes.items ≡ pad (text_of len words.now)) }
{
    let mut out = all_bytes(alloc, words)?;
    out.truncate(len.div_ceil(8) as usize);
    Ok(out)
}

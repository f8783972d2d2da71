// Numbers, words and bytes at any place of a slice.
ghost use Rattle.std.specs.Prelude.{◌≡◌, ◌+◌, ◌*◌, ◌^◌, ◌<◌, ◌≤◌, ◌/◌, ◌++◌, length, get_or, take, drop, IfOk, ℕ};
ghost use Rattle.layout.specs.Text.{num, bits_of};
ghost use Rattle.bit_core.specs.Words.{ShowsFrom};

use std::alloc::{AllocError, Global};

/// The 64 bits from a byte near the end of a slice on, 0 where there is none.
#[cold]
fn last_bytes(bytes: &[u8], at: usize) -> u64
    requires { at ≤ length bytes.now }
    ensures { ShowsFrom 64 result (bits_of bytes.now) (8 * at) }
{
    let mut word: u64 = 0;
    for i in 0..8usize {
        let byte = if i < bytes.len() - at {
            bytes[at + i]
        } else {
            0
        };
        word = (word << 8) | u64::from(byte);
    }
    word
}

/// The 64 bits from a byte on, which all stand there.
#[inline(always)]
fn eight_bytes(bytes: &[u8], at: usize) -> u64
    requires { at + 8 ≤ length bytes.now }
    ensures { ShowsFrom 64 result (bits_of bytes.now) (8 * at) }
{
    u64::from_be_bytes([
        bytes[at],
        bytes[at + 1],
        bytes[at + 2],
        bytes[at + 3],
        bytes[at + 4],
        bytes[at + 5],
        bytes[at + 6],
        bytes[at + 7],
    ])
}

/// The 64 bits from a byte on, 0 where there is none.
#[inline(always)]
fn window(bytes: &[u8], at: usize) -> u64
    requires { at ≤ length bytes.now }
    ensures { ShowsFrom 64 result (bits_of bytes.now) (8 * at) }
{
    if bytes.len() - at >= 8 {
        eight_bytes(bytes, at)
    } else {
        last_bytes(bytes, at)
    }
}

/// The 64 bits from a bit on, 0 where there is none.
#[inline(always)]
pub fn peek(bytes: &[u8], at: u64) -> u64
    requires small { 8 * length bytes.now ≤ 4611686018427387904 }
    requires within { at ≤ 8 * length bytes.now }
    ensures { ShowsFrom 64 result (bits_of bytes.now) at }
{
    let byte = (at / 8) as usize;
    let skipped = (at % 8) as u32;
    let word = window(bytes, byte);
    let next = if bytes.len() - byte > 8 {
        bytes[byte + 8]
    } else {
        0
    };
    (word << skipped) | (u64::from(next) >> (8 - skipped))
}

/// The 64 bits behind the first bits of a byte, up to seven of them, where nine bytes stand from that byte on. It tests
/// nothing, and serves loops.
#[inline(always)]
pub fn word_across(bytes: &[u8], byte: usize, skipped: u32) -> u64
    requires within { byte + 8 < length bytes.now }
    requires few { skipped < 8 }
    ensures { ShowsFrom 64 result (bits_of bytes.now) (8 * byte + skipped) }
{
    let word = eight_bytes(bytes, byte);
    (word << skipped) | (u64::from(bytes[byte + 8]) >> (8 - skipped))
}

/// The number that n bits spell.
#[inline(always)]
pub fn number_at(bytes: &[u8], at: u64, n: u32) -> u32
    requires small { length bytes.now ≤ 16777216 }
    requires short { n ≤ 32 }
    requires within { at + n ≤ 8 * length bytes.now }
    ensures below { result < 2 ^ n }
    ensures spelled { num n result ≡ take n (drop at (bits_of bytes.now)) }
{
    let word = window(bytes, (at / 8) as usize) << (at % 8);
    (word >> 1 >> (63 - n)) as u32
}

/// The byte behind the first bits of a byte, up to seven of them.
#[inline(always)]
fn byte_across(first: u8, second: u8, skipped: u32) -> u8
    requires some { 0 < skipped }
    requires within { skipped < 8 }
    ensures { num 8 result ≡ take 8 (drop skipped (num 8 first ++ num 8 second)) }
{
    (first << skipped) | (second >> (8 - skipped))
}

/// Writes the bytes that begin behind the first bits of a byte.
fn put_across(bytes: &[u8], skipped: u32, out: &mut [u8])
    requires some { 0 < skipped }
    requires within { skipped < 8 }
    requires more { length bytes.now ≡ length out.old + 1 }
    ensures bytes { (i : ℕ) → get_or out.new i 0 < 256 }
    ensures same { bits_of out.new ≡ take (8 * length out.new) (drop skipped (bits_of bytes.now)) }
{
    for i in 0..out.len() {
        out[i] = byte_across(bytes[i], bytes[i + 1], skipped);
    }
}

/// Copies n bytes that begin at any bit.
pub fn bytes_at(alloc: Global, bytes: &[u8], at: u64, n: u64) -> Result<Vec<u8>, AllocError>
    requires small { length bytes.now ≤ 16777216 }
    requires within { at + 8 * n ≤ 8 * length bytes.now }
    ensures many { IfOk result (λ copied. length copied.items ≡ n) }
    ensures bytes { IfOk result (λ copied. (i : ℕ) → get_or copied.items i 0 < 256) }
    ensures same { IfOk result (λ copied. bits_of copied.items ≡ take (8 * n) (drop at (bits_of bytes.now))) }
{
    let from = (at / 8) as usize;
    let skipped = (at % 8) as u32;
    let many = n as usize;
    if skipped == 0 {
        let copied = Vec::from_slice(alloc, &bytes[from..from + many])?;
        return Ok(copied);
    }
    let mut copied = Vec::with_capacity(alloc, many)?;
    copied.resize(many, 0)?;
    put_across(&bytes[from..from + many + 1], skipped, &mut copied);
    Ok(copied)
}

//   otherDataLenEsc   1   1 where another pair stands behind this one
//   otherDataLenTmp   8   for each pair, most significant first
ghost use Rattle.std.specs.Prelude.{◌≡◌, ◌≤◌, ◌<◌, ◌^◌, ◌++◌, ◌∷◌, false, OnOk};
ghost use Rattle.layout.specs.Text.{num};
ghost use Rattle.layout.specs.Reading.{Gives};
ghost use Rattle.bit_core.specs.Writer.{Extends};
ghost use Rattle.latm.specs.Pairs.{pair, is_last, run, more_text, run_text};

use bit_core::{BitReader, BitWriter, Short, flag, put_small, small};
use std::alloc::AllocError;

/// Pairs up to the last one, or up to the first at which the number exceeds the largest length.
#[derive(Clone, Copy, Debug)]
pub struct Run {
    /// How many pairs there are, at least 1.
    pub count: u32,
    /// The number that their bytes spell.
    pub bits: u32,
    /// Whether another pair is said to stand behind them.
    pub more: bool,
}

fn read_pair(reader: &mut BitReader) -> Result<(bool, u8), Short>
    ensures { Gives pair reader.old reader.new result }
{
    let more = flag(reader)?;
    let byte = small(reader, 8)?;
    Ok((more, byte))
}

/// Whether a run ends at a pair: no other one stands behind it, or the number is too large.
fn is_last(more: bool, bits: u32) -> bool
    ensures { result ≡ is_last more bits }
{
    bits > 65535 || !more
}

/// Reads pairs. On error some fields may already be consumed.
pub fn read_run(reader: &mut BitReader) -> Result<Run, Short>
    ensures { Gives run reader.old reader.new result }
{
    let start = reader.at();
    let mut count: u32 = 0;
    let mut bits: u32 = 0;
    'pairs: loop {
        let (more, byte) = match read_pair(reader) {
            Ok(pair) => pair,
            Err(_) => return Err(Short { at: start }),
        };
        count += 1;
        bits = bits * 256 + u32::from(byte);
        if is_last(more, bits) {
            return Ok(Run { count, bits, more });
        }
    }
}

fn write_pair(more: bool, byte: u8, writer: &mut BitWriter) -> Result<(), AllocError>
    ensures ok { OnOk result (writer.new ≡ writer.old ++ more ∷ num 8 byte) }
    ensures kept { Extends writer.old writer.new }
{
    writer.put_flag(more)?;
    put_small(writer, byte, 8)
}

/// Writes so many pairs of 0, behind each of which another pair stands. On error some fields may already be written.
fn write_zeros(count: u32, writer: &mut BitWriter) -> Result<(), AllocError>
    ensures ok { OnOk result (writer.new ≡ writer.old ++ more_text count 0) }
    ensures kept { Extends writer.old writer.new }
{
    for _ in 0..count {
        write_pair(true, 0, writer)?;
    }
    Ok(())
}

/// Writes the pairs before the last one: zeros, and the upper byte of the number, which has 16 bits.
fn write_upper(count: u32, byte: u8, writer: &mut BitWriter) -> Result<(), AllocError>
    ensures ok { OnOk result (writer.new ≡ writer.old ++ more_text count byte) }
    ensures kept { Extends writer.old writer.new }
{
    if count > 0 {
        write_zeros(count - 1, writer)?;
        write_pair(true, byte, writer)?;
    }
    Ok(())
}

/// Writes a number of at most 16 bits in so many pairs. On error some fields may already be written.
pub fn write_pairs(count: u32, bits: u32, writer: &mut BitWriter) -> Result<(), AllocError>
    requires some { 1 ≤ count }
    requires held { bits < 256 ^ count }
    requires largest { bits ≤ 65535 }
    ensures ok { OnOk result (writer.new ≡ writer.old ++ run_text (record { count = count; bits = bits; more = false })) }
    ensures kept { Extends writer.old writer.new }
{
    write_upper(count - 1, (bits / 256) as u8, writer)?;
    write_pair(false, (bits % 256) as u8, writer)
}

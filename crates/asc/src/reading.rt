// The fields of an AudioSpecificConfig, read in their order.
ghost use Rattle.std.specs.Prelude.{◌≡◌, ◌<◌, IfOk};
ghost use Rattle.layout.specs.Layout.{FitsOption};
ghost use Rattle.layout.specs.Reading.{Gives, GivesUnless};
ghost use Rattle.layout.specs.ToEnd.{tail};
ghost use Rattle.asc.specs.Faults.{is_memory};
ghost use Rattle.asc.specs.Asc.{type_fields, type_of, object_type, explicit, head, plain_fields, counted_fields, too_long};

use crate::asc_config::Asc;
use crate::fault::AscFault;
use bit_core::{BitReader, Bits, Short, small};
use std::alloc::Global;
use usac_cfg::UsacConfig;

/// The fields but the tail.
#[derive(Drop)]
pub struct Head {
    pub index: u8,
    pub explicit_rate: u32,
    pub channels: u8,
    pub usac: UsacConfig,
}

/// Reads the fields of an object type. On error the first of them may already be consumed.
fn read_type_fields(reader: &mut BitReader) -> Result<(u32, Option<u32>), Short>
    ensures gives { Gives type_fields reader.old reader.new result }
    ensures small { IfOk result (λ x. (x.0 < 32) × FitsOption (λ m. m < 64) x.1) }
{
    let first = reader.take(5)?;
    if first == 31 {
        let second = reader.take(6)?;
        return Ok((first, Some(second)));
    }
    Ok((first, None))
}

fn type_number(first: u32, second: Option<u32>) -> u32
    requires { (first < 32) × FitsOption (λ m. m < 64) second }
    ensures { result ≡ type_of (first, second) }
{
    match second {
        None => first,
        Some(second) => 32 + second,
    }
}

fn read_type(reader: &mut BitReader) -> Result<(), AscFault>
    ensures { GivesUnless is_memory object_type reader.old reader.new result }
{
    let at = reader.at();
    match read_type_fields(reader) {
        Ok((first, second)) => {
            let kind = type_number(first, second);
            if kind != 42 {
                return Err(AscFault::NotUsac { at, kind });
            }
            Ok(())
        }
        Err(_) => Err(AscFault::Short { at }),
    }
}

fn read_explicit(reader: &mut BitReader, there: bool) -> Result<u32, AscFault>
    ensures { GivesUnless is_memory (explicit there) reader.old reader.new result }
{
    if there {
        let rate = reader.take(24)?;
        return Ok(rate);
    }
    Ok(0)
}

fn read_head(alloc: Global, reader: &mut BitReader) -> Result<Head, AscFault>
    ensures { GivesUnless is_memory head reader.old reader.new result }
{
    read_type(reader)?;
    let index = small(reader, 4)?;
    let explicit_rate = read_explicit(reader, index == 15)?;
    let channels = small(reader, 4)?;
    let usac = UsacConfig::read(alloc, reader)?;
    Ok(Head {
        index,
        explicit_rate,
        channels,
        usac,
    })
}

/// Reads all bits up to the reader's end, at most 7.
fn read_tail(alloc: Global, reader: &mut BitReader) -> Result<Bits, AscFault>
    ensures { GivesUnless is_memory (tail too_long 7) reader.old reader.new result }
{
    let at = reader.at();
    let left = reader.left();
    if left > 7 {
        return Err(AscFault::TailTooLong { at });
    }
    let bits = reader.take_bits(alloc, left)?;
    Ok(bits)
}

/// Reads a configuration without a tail. On error some fields may already be consumed.
pub fn read_plain_fields(alloc: Global, reader: &mut BitReader) -> Result<Asc, AscFault>
    ensures { GivesUnless is_memory plain_fields reader.old reader.new result }
{
    let head = read_head(alloc, reader)?;
    let Head {
        index,
        explicit_rate,
        channels,
        usac,
    } = head;
    Ok(Asc {
        index,
        explicit_rate,
        channels,
        usac,
        tail: Bits::new(alloc),
    })
}

/// Reads a configuration with its tail. On error some fields may already be consumed.
pub fn read_counted_fields(alloc: Global, reader: &mut BitReader) -> Result<Asc, AscFault>
    ensures { GivesUnless is_memory counted_fields reader.old reader.new result }
{
    let head = read_head(alloc, reader)?;
    let tail = read_tail(alloc, reader)?;
    let Head {
        index,
        explicit_rate,
        channels,
        usac,
    } = head;
    Ok(Asc {
        index,
        explicit_rate,
        channels,
        usac,
        tail,
    })
}

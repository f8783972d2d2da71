ghost use Rattle.std.specs.Prelude.{IfOk};
ghost use Rattle.asc.specs.Asc.{IsWellFormed};

use crate::{Asc, AscFault};
use bit_core::{BitReader, BitWriter};
use std::process::Abort;
use std::test::Fail;
use usac_cfg::CfgFault;
use vectors::{ASC_EXPLICIT_RATE, ASC_STREAM_1, ASC_WITH_TAIL, ConfigRow, bytes_of};

fn read_row(rt: &(impl Abort + AllocGlobal), row: ConfigRow) -> Result<Asc, Fail>
    ensures { IfOk result (λ asc. IsWellFormed asc) }
{
    let (bits, text) = row;
    let bytes = bytes_of(rt.alloc(), text)?;
    assert!(rt; bytes.len() <= 11);
    let mut reader = BitReader::new(&bytes);
    let asc = Asc::read(rt.alloc(), &mut reader)?;
    assert_eq!(rt; reader.at(), bits, "{text}");
    assert_eq!(rt; asc.tail.len(), 0, "{text}");
    Ok(asc)
}

fn read_counted_row(rt: &(impl Abort + AllocGlobal), row: ConfigRow) -> Result<Asc, Fail>
    ensures { IfOk result (λ asc. IsWellFormed asc) }
{
    let (bits, text) = row;
    let bytes = bytes_of(rt.alloc(), text)?;
    assert!(rt; bytes.len() <= 11);
    assert!(rt; bits <= 8 * bytes.len() as u64);
    let mut reader = BitReader::within(&bytes, 0, bits);
    let asc = Asc::read_counted(rt.alloc(), &mut reader)?;
    assert_eq!(rt; reader.at(), bits, "{text}");
    Ok(asc)
}

fn check_written(rt: &(impl Abort + AllocGlobal), asc: &Asc, row: ConfigRow) -> Result<(), Fail>
    requires { IsWellFormed asc.now }
{
    let (bits, text) = row;
    let mut writer = BitWriter::new(rt.alloc());
    asc.write(&mut writer)?;
    assert_eq!(rt; writer.len(), bits, "{text}");
    let bytes = bytes_of(rt.alloc(), text)?;
    assert_eq!(rt; writer.finish()?.as_slice(), bytes.as_slice(), "{text}");
    Ok(())
}

#[test]
fn configurations_are_read_copied_and_written(rt: HostRuntime) -> Result<(), Fail> {
    // the index, the explicit rate, the channels, and the rate of the stream
    let rows = [
        (ASC_STREAM_1, (3, 0, 1, 48000)),
        (ASC_EXPLICIT_RATE, (15, 44056, 1, 48000)),
    ];
    for (row, wanted) in rows {
        let asc = read_row(&rt, row)?;
        let found = (asc.index, asc.explicit_rate, asc.channels, asc.usac.rate());
        assert_eq!(rt; found, wanted, "{}", row.1);
        check_written(&rt, &asc, row)?;
        let copy = asc.copy(rt.alloc())?;
        check_written(&rt, &copy, row)?;
    }
    Ok(())
}

#[test]
fn counted_configurations_keep_their_tails(rt: HostRuntime) -> Result<(), Fail> {
    for (row, bits) in [(ASC_STREAM_1, 0), (ASC_WITH_TAIL, 7)] {
        let asc = read_counted_row(&rt, row)?;
        assert_eq!(rt; asc.usac.stream_id(), Some(1), "{}", row.1);
        assert_eq!(rt; asc.tail.len(), bits, "{}", row.1);
        check_written(&rt, &asc, row)?;
        let copy = asc.copy(rt.alloc())?;
        check_written(&rt, &copy, row)?;
    }
    Ok(())
}

// The name of a fault, its place, and the object type where that is at fault.
fn named(fault: &AscFault) -> Option<(&'static str, u64, u32)> {
    match fault {
        AscFault::Short { at } => Some(("Short", *at, 0)),
        AscFault::NotUsac { at, kind } => Some(("NotUsac", *at, *kind)),
        AscFault::Cfg(CfgFault::Short { at }) => Some(("Cfg(Short)", *at, 0)),
        AscFault::Cfg(CfgFault::RateReserved { at }) => Some(("Cfg(RateReserved)", *at, 0)),
        AscFault::Cfg(_) => None,
        AscFault::TailTooLong { at } => Some(("TailTooLong", *at, 0)),
        AscFault::Memory(_) => None,
    }
}

#[test]
fn other_texts_are_refused(rt: HostRuntime) -> Result<(), Fail> {
    // a text, so many bits of it, and its fault
    let rows = [
        // 00010: object type 2
        (b"\x10".as_slice(), 5, ("NotUsac", 0, 2)),
        // 11111 011111: object type 32 + 31
        (b"\xFB\xE0", 11, ("NotUsac", 0, 63)),
        // 1111, and 11111 00101: an object type without its last bit
        (b"\xF0", 4, ("Short", 0, 0)),
        (b"\xF9\x40", 10, ("Short", 0, 0)),
        // samplingFrequencyIndex without its last bit
        (b"\xF9\x46", 14, ("Short", 11, 0)),
        // index 15, and samplingFrequency without its last bit
        (b"\xF9\x5E\x00\x00\x00", 38, ("Short", 15, 0)),
        // channelConfiguration without its last bit
        (b"\xF9\x46\x20", 18, ("Short", 15, 0)),
        // coreSbrFrameLengthIndex without its last bit
        (b"\xF9\x46\x23\x20", 26, ("Cfg(Short)", 24, 0)),
        // usacSamplingFrequencyIndex 13
        (b"\xF9\x46\x2D", 24, ("Cfg(RateReserved)", 19, 0)),
    ];
    for (text, bits, wanted) in rows {
        assert!(rt; text.len() <= 5);
        assert!(rt; bits <= 8 * text.len() as u64);
        let mut reader = BitReader::within(text, 0, bits);
        let plain = match Asc::read(rt.alloc(), &mut reader) {
            Err(fault) => named(&fault),
            Ok(_) => None,
        };
        assert_eq!(rt; plain, Some(wanted), "{bits} bits");
        let counted = match Asc::read_counted(rt.alloc(), &mut reader) {
            Err(fault) => named(&fault),
            Ok(_) => None,
        };
        assert_eq!(rt; counted, Some(wanted), "{bits} bits");
        assert_eq!(rt; reader.at(), 0, "{bits} bits");
    }
    Ok(())
}

#[test]
fn a_tail_has_seven_bits_at_most(rt: HostRuntime) -> Result<(), Fail> {
    let bytes = bytes_of(rt.alloc(), ASC_WITH_TAIL.1)?;
    assert!(rt; bytes.len() == 11);
    let mut reader = BitReader::within(&bytes, 0, 87);
    let found = match Asc::read_counted(rt.alloc(), &mut reader) {
        Err(fault) => named(&fault),
        Ok(_) => None,
    };
    assert_eq!(rt; found, Some(("TailTooLong", 79, 0)));
    assert_eq!(rt; reader.at(), 0);
    Ok(())
}

ghost use Rattle.std.specs.Prelude.{◌≡◌, ◌≤◌, ◌%◌, length, IfOk};
ghost use Rattle.asc.specs.Asc.{IsWellFormed as IsAscWellFormed};
ghost use Rattle.layout.specs.Layout.{FitsOption};
ghost use Rattle.latm.specs.MuxConfig.{IsWellFormed};
ghost use Rattle.latm.specs.Written.{element_text};

use crate::{
    MuxConfig, MuxElement, MuxElements, MuxFault, MuxField, Stream, WriteFault, canonical, framed,
    read_element, write_element,
};
use asc::{Asc, AscFault};
use bit_core::{BitReader, BitWriter};
use std::alloc::Global;
use std::process::Abort;
use std::test::Fail;
use vectors::bytes_of;

// An element of version 1: taraBufferFullness 255 in four bytes, ascLen 79, the access unit A0.
const VERSION_1: &str = "58000007FC00027FCA311908E600C7200011FE00D000";

// A canonical element with the same configuration and access unit, and one without a configuration.
const OPENING: &str = "2000F94623211CC018E400023FC01A00";

const SAME: &str = "808800";

// The same configuration for two slots, with the access units A0 and 10.
const TWO_SLOTS: &str = "2080F94623211CC018E400023FC01A001100";

// The element of version 1 whose ascLen counts 7 bits more, 1010101.
const SEVEN_MORE: &str = "58000007FC0002B7CA311908E600C720001AA3FC01A0";

// Fronts of elements with 65,535 bits of other data: their number in two pairs in 18 bits, and as a value in 18 bits.
const MOST_PAIRS: &str = "2000F94623211CC018E400023FFFF7F80680";

const MOST_VALUE: &str = "58000007FC00027FCA311908E600C7200011FF7FFFC03400";

// What is read can be written.
fn read_bytes(
    alloc: Global,
    in_force: Option<&MuxConfig>,
    bytes: &[u8],
) -> Result<MuxElement, MuxFault>
    requires { length bytes.now ≤ 16777216 }
    ensures config { IfOk result (λ element. FitsOption IsWellFormed element.config) }
    ensures whole { IfOk result (λ element. length (element_text element) % 8 ≡ 0) }
{
    read_element(alloc, in_force, bytes)
}

fn read_row(
    rt: &(impl Abort + AllocGlobal),
    in_force: Option<&MuxConfig>,
    text: &str,
) -> Result<MuxElement, Fail> {
    let bytes = bytes_of(rt.alloc(), text)?;
    assert!(rt; bytes.len() <= 64);
    let element = read_element(rt.alloc(), in_force, &bytes)?;
    Ok(element)
}

// The one slot of an element is this byte.
fn check_slot(rt: &(impl Abort + AllocGlobal), element: &MuxElement, byte: u8) -> Result<(), Fail> {
    assert_eq!(rt; element.slots.len(), 1);
    match element.slots.get(0) {
        Some(slot) => assert_eq!(rt; slot.as_slice(), [byte].as_slice()),
        None => panic!(rt; "no slot"),
    }
    Ok(())
}

#[test]
fn elements_are_read_under_the_configuration_in_force(rt: HostRuntime) -> Result<(), Fail> {
    let first = read_row(&rt, None, OPENING)?;
    check_slot(&rt, &first, 0xA0)?;
    match &first.config {
        Some(config) => {
            let second = read_row(&rt, Some(config), SAME)?;
            check_slot(&rt, &second, 0x10)?;
            let other = read_row(&rt, Some(config), VERSION_1)?;
            check_slot(&rt, &other, 0xA0)?;
        }
        None => panic!(rt; "no configuration"),
    }
    Ok(())
}

#[test]
fn a_configuration_of_version_1_is_read_and_written(rt: HostRuntime) -> Result<(), Fail> {
    let bytes = bytes_of(rt.alloc(), VERSION_1)?;
    assert!(rt; bytes.len() == 22);
    let mut reader = BitReader::within(&bytes, 1, 176);
    let config = MuxConfig::read(rt.alloc(), &mut reader)?;
    assert_eq!(rt; config.version, 1);
    assert_eq!(rt; config.sub_frames, 0);
    assert_eq!(rt; config.fullness, 255);
    let mut writer = BitWriter::new(rt.alloc());
    config.write(&mut writer)?;
    assert_eq!(rt; writer.len(), reader.at() - 1);
    Ok(())
}

fn named(fault: &MuxFault) -> Option<(&'static str, u64)> {
    match fault {
        MuxFault::NoConfig => Some(("NoConfig", 0)),
        MuxFault::OutOfProfile { at, field } => match field {
            MuxField::AudioMuxVersionA => Some(("audioMuxVersionA", *at)),
            MuxField::AllStreamsSameTimeFraming => Some(("allStreamsSameTimeFraming", *at)),
            MuxField::NumProgram => Some(("numProgram", *at)),
            MuxField::NumLayer => Some(("numLayer", *at)),
            MuxField::FrameLengthType => Some(("frameLengthType", *at)),
            MuxField::OtherDataLenBits => Some(("otherDataLenBits", *at)),
        },
        MuxFault::Short { at } => Some(("Short", *at)),
        MuxFault::Asc(AscFault::NotUsac { at, .. }) => Some(("NotUsac", *at)),
        MuxFault::Asc(AscFault::TailTooLong { at }) => Some(("TailTooLong", *at)),
        MuxFault::Asc(_) => None,
        MuxFault::Memory(_) => None,
    }
}

#[test]
fn other_texts_are_refused(rt: HostRuntime) -> Result<(), Fail> {
    let rows = [
        ("", ("Short", 0)),
        (SAME, ("NoConfig", 0)),
        // 0 1 1: version 1 with audioMuxVersionA 1
        ("60", ("audioMuxVersionA", 2)),
        ("00", ("allStreamsSameTimeFraming", 2)),
        // five bits of numSubFrames
        ("20", ("Short", 3)),
        // numProgram 8, and numLayer 4
        ("2040", ("numProgram", 9)),
        ("2004", ("numLayer", 13)),
        // object type 2
        ("200010", ("NotUsac", 16)),
        // 8 bits behind the UsacConfig of a counted configuration
        (
            "58000007FC0002BFCA311908E600C720001AA1FE00D000",
            ("TailTooLong", 140),
        ),
        // frameLengthType 4
        ("2000F94623211CC018E400033FC01A00", ("frameLengthType", 95)),
        // 65,536 in three pairs, and as a value of three bytes
        (
            "2000F94623211CC018E400023FF01800000340",
            ("otherDataLenBits", 107),
        ),
        (
            "58000007FC00027FCA311908E600C7200011FF804000003400",
            ("otherDataLenBits", 152),
        ),
    ];
    for (text, wanted) in rows {
        let bytes = bytes_of(rt.alloc(), text)?;
        assert!(rt; bytes.len() <= 32);
        let found = match read_element(rt.alloc(), None, &bytes) {
            Err(fault) => named(&fault),
            Ok(_) => None,
        };
        assert_eq!(rt; found, Some(wanted), "{text}");
    }
    Ok(())
}

#[test]
fn slots_that_go_beyond_the_end_are_refused(rt: HostRuntime) -> Result<(), Fail> {
    let opening = read_row(&rt, None, OPENING)?;
    // a length that goes on, and a slot of 6 bytes
    for (bytes, wanted) in [([0xFF, 0xFF, 0xFF], 1), ([0x83, 0, 0], 9)] {
        let found = match &opening.config {
            Some(config) => read_element(rt.alloc(), Some(config), &bytes),
            None => panic!(rt; "no configuration"),
        };
        match found {
            Err(fault) => assert_eq!(rt; named(&fault), Some(("Short", wanted))),
            Ok(_) => panic!(rt; "no fault"),
        }
    }
    Ok(())
}

#[test]
fn elements_are_written_as_they_were_read(rt: HostRuntime) -> Result<(), Fail> {
    for text in [OPENING, VERSION_1, TWO_SLOTS, SEVEN_MORE] {
        let bytes = bytes_of(rt.alloc(), text)?;
        assert!(rt; bytes.len() <= 32);
        let element = read_bytes(rt.alloc(), None, &bytes)?;
        let written = write_element(rt.alloc(), &element)?;
        assert_eq!(rt; written.as_slice(), bytes.as_slice());
        let frame = framed(rt.alloc(), &element)?;
        assert_eq!(rt; frame.len(), written.len() + 3);
        assert_eq!(rt; frame.as_slice().get(3..), Some(bytes.as_slice()));
    }
    Ok(())
}

#[test]
fn other_data_has_at_most_65535_bits(rt: HostRuntime) -> Result<(), Fail> {
    for (text, tail) in [(MOST_PAIRS, 723), (MOST_VALUE, 678)] {
        let mut bytes = bytes_of(rt.alloc(), text)?;
        bytes.resize(8300, 0)?;
        let element = read_element(rt.alloc(), None, &bytes)?;
        assert_eq!(rt; element.other.len(), 65535);
        assert_eq!(rt; element.tail.len(), tail);
    }
    Ok(())
}

#[test]
fn frames_are_the_slots(rt: HostRuntime) -> Result<(), Fail> {
    let mut stream = Stream {
        elements: MuxElements::new(rt.alloc()),
    };
    assert_eq!(rt; stream.frames(), 0);
    stream.elements.push(read_row(&rt, None, TWO_SLOTS)?)?;
    assert_eq!(rt; stream.au(0), Some([0xA0].as_slice()));
    assert_eq!(rt; stream.au(1), Some([0x10].as_slice()));
    assert_eq!(rt; stream.au(2), None);
    match stream.config(1) {
        Some(config) => assert_eq!(rt; config.stream_id(), Some(1)),
        None => panic!(rt; "no configuration"),
    }
    assert!(rt; stream.config(2).is_none());
    Ok(())
}

fn opening_asc(rt: &(impl Abort + AllocGlobal)) -> Result<Asc, Fail>
    ensures { IfOk result (λ asc. IsAscWellFormed asc) }
{
    let bytes = bytes_of(rt.alloc(), OPENING)?;
    assert!(rt; bytes.len() == 16);
    let mut reader = BitReader::within(&bytes, 16, 128);
    let asc = Asc::read(rt.alloc(), &mut reader)?;
    Ok(asc)
}

#[test]
fn access_units_are_framed_in_the_canonical_mux(rt: HostRuntime) -> Result<(), Fail> {
    let asc = opening_asc(&rt)?;
    let first = canonical(rt.alloc(), Some(&asc), &[0xA0])?;
    let wanted = bytes_of(rt.alloc(), "56E0102000F94623211CC018E400023FC01A00")?;
    assert_eq!(rt; first.as_slice(), wanted.as_slice());
    let second = canonical(rt.alloc(), None, &[0x10])?;
    let wanted = bytes_of(rt.alloc(), "56E003808800")?;
    assert_eq!(rt; second.as_slice(), wanted.as_slice());
    Ok(())
}

#[test]
fn an_access_unit_has_at_most_8158_bytes(rt: HostRuntime) -> Result<(), Fail> {
    let mut au = Vec::new(rt.alloc());
    au.resize(8158, 0)?;
    let frame = canonical(rt.alloc(), None, &au)?;
    assert_eq!(rt; frame.len(), 8194);
    au.resize(8159, 0)?;
    match canonical(rt.alloc(), None, &au) {
        Err(WriteFault::TooLong) => Ok(()),
        Err(fault) => Err(fault)?,
        Ok(_) => panic!(rt; "too long"),
    }
}

ghost use Rattle.std.specs.Prelude.{◌≤◌};

use crate::{EscFault, Escaped, LatmValue, SlotLength, laws};
use bit_core::{BitReader, BitWriter, Short};
use std::process::Abort;
use std::test::Fail;
use vectors::{ESCAPED_2_4_0, ESCAPED_4_8_16, ESCAPED_8_16_0, NumberRow, bytes_of};

// Reads each number of the rows, behind no bits, and writes it again.
fn check_escaped<const A: u32, const B: u32, const C: u32>(
    rt: &(impl Abort + AllocGlobal),
    rows: &[NumberRow],
) -> Result<(), Fail>
    requires first { (1 ≤ A) × (A ≤ 16) }
    requires second { (1 ≤ B) × (B ≤ 16) }
    requires third { C ≤ 16 }
{
    let alloc = rt.alloc();
    for (value, bits, text) in rows {
        let bytes = bytes_of(alloc, text)?;
        assert!(rt; bytes.len() <= 4);
        assert!(rt; *bits <= 8 * bytes.len() as u64);
        let mut reader = BitReader::within(&bytes, 0, *bits);
        assert_eq!(rt; Escaped::<A, B, C>::read(&mut reader), Ok(*value), "{text}");
        assert_eq!(rt; reader.at(), *bits, "{text}");
        let mut writer = BitWriter::new(alloc);
        Escaped::<A, B, C>::write(*value, &mut writer)?;
        assert_eq!(rt; writer.len(), *bits, "{text}");
        assert_eq!(rt; writer.finish()?.as_slice(), bytes.as_slice(), "{text}");
    }
    Ok(())
}

#[test]
fn escaped_numbers(rt: HostRuntime) -> Result<(), Fail> {
    check_escaped::<4, 8, 16>(&rt, ESCAPED_4_8_16)?;
    check_escaped::<8, 16, 0>(&rt, ESCAPED_8_16_0)?;
    check_escaped::<2, 4, 0>(&rt, ESCAPED_2_4_0)
}

#[test]
fn escaped_numbers_are_refused(rt: HostRuntime) -> Result<(), Fail> {
    let mut reader = BitReader::within(b"\xFF\xF0", 0, 11);
    assert_eq!(rt;
        Escaped::<4, 8, 16>::read(&mut reader),
        Err(Short { at: 0 })
    );
    assert_eq!(rt; reader.at(), 0);
    let mut writer = BitWriter::new(rt.alloc());
    let over = Escaped::<4, 8, 16>::write(65806, &mut writer);
    assert!(rt; matches!(over, Err(EscFault::TooLarge)));
    let over = Escaped::<8, 16, 0>::write(65791, &mut writer);
    assert!(rt; matches!(over, Err(EscFault::TooLarge)));
    assert_eq!(rt; writer.len(), 0);
    Ok(())
}

#[test]
fn latm_values_and_slot_lengths_are_written(rt: HostRuntime) -> Result<(), Fail> {
    let alloc = rt.alloc();
    let mut writer = BitWriter::new(alloc);
    let value = LatmValue {
        bytes: 4,
        value: 255,
    };
    value.write(&mut writer)?;
    assert_eq!(rt; writer.len(), 34);
    assert_eq!(rt;
        writer.finish()?.as_slice(),
        b"\xC0\x00\x00\x3F\xC0".as_slice()
    );
    for (length, bytes) in [
        (254, b"\xFE".as_slice()),
        (255, b"\xFF\x00"),
        (510, b"\xFF\xFF\x00"),
        (520, b"\xFF\xFF\x0A"),
    ] {
        let mut writer = BitWriter::new(alloc);
        SlotLength::write(length, &mut writer)?;
        assert_eq!(rt; writer.finish()?.as_slice(), bytes, "{length}");
    }
    Ok(())
}

#[test]
fn latm_values_are_read(rt: HostRuntime) {
    // bytes, the bits up to which they are read, the answer, and where the reader is then
    let rows = [
        (
            b"\xC0\x00\x00\x3F\xC0".as_slice(),
            34,
            Ok(LatmValue {
                bytes: 4,
                value: 255,
            }),
            34,
        ),
        (
            b"\x3F\xC0",
            10,
            Ok(LatmValue {
                bytes: 1,
                value: 255,
            }),
            10,
        ),
        (b"\xC0\x00\x00\x3F\xC0", 33, Err(Short { at: 0 }), 0),
        (b"\xC0", 1, Err(Short { at: 0 }), 0),
    ];
    for (bytes, to, wanted, at) in rows {
        assert!(rt; bytes.len() <= 5);
        assert!(rt; to <= 8 * bytes.len() as u64);
        let mut reader = BitReader::within(bytes, 0, to);
        assert_eq!(rt; LatmValue::read(&mut reader), wanted, "{bytes:?}");
        assert_eq!(rt; reader.at(), at, "{bytes:?}");
    }
}

#[test]
fn the_laws_are_called() {
    laws::escaped_has_one_spelling::<4, 8, 16>();
    laws::latm_value_has_one_spelling();
    laws::slot_length_has_one_spelling();
}

#[test]
fn slot_lengths_are_read(rt: HostRuntime) {
    // bytes, the bits from and up to which they are read, the answer, and where the reader is then
    let rows = [
        (b"\xFE".as_slice(), 0, 8, Ok(254), 8),
        (b"\xFF\x00", 0, 16, Ok(255), 16),
        (b"\xFF\xFF\x00", 0, 24, Ok(510), 24),
        (b"\xFF\xFF\x0A\xFF", 0, 32, Ok(520), 24),
        (b"\xFF", 0, 8, Err(Short { at: 0 }), 0),
        (b"", 0, 0, Err(Short { at: 0 }), 0),
        // the same behind three bits
        (b"\x1F\xC0", 3, 16, Ok(254), 11),
        (b"\x1F\xE0\x00", 3, 24, Ok(255), 19),
        (b"\x1F\xFF\xE0\x00", 3, 32, Ok(510), 27),
        (b"\x1F\xFF\xE1\x40", 3, 32, Ok(520), 27),
        (b"\x1F\xE0", 3, 11, Err(Short { at: 3 }), 3),
        (b"\x1F\xE0", 3, 3, Err(Short { at: 3 }), 3),
    ];
    for (bytes, from, to, wanted, at) in rows {
        assert!(rt; bytes.len() <= 4);
        assert!(rt; from <= to);
        assert!(rt; to <= 8 * bytes.len() as u64);
        let mut reader = BitReader::within(bytes, from, to);
        assert_eq!(rt; SlotLength::read(&mut reader), wanted, "{bytes:?}");
        assert_eq!(rt; reader.at(), at, "{bytes:?}");
    }
}

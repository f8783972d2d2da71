use crate::{BitReader, BitWriter, Bits, Octets, ReadFault, Short, flag, small};
use std::alloc::{AllocError, Global};
use std::test::Fail;

// 1010 0101 1111 0000 0000 1111
const BYTES: [u8; 3] = [0xA5, 0xF0, 0x0F];

#[test]
fn reader_takes_numbers(rt: HostRuntime) {
    let mut reader = BitReader::new(&BYTES);
    assert_eq!(rt; reader.take(4), Ok(10));
    assert_eq!(rt; reader.take(8), Ok(0x5F));
    assert_eq!(rt; (reader.at(), reader.left()), (12, 12));
    assert_eq!(rt; reader.take(32), Err(Short { at: 12 }));
    assert_eq!(rt; reader.skip(12), Ok(()));
    assert_eq!(rt; reader.skip(1), Err(Short { at: 24 }));
    let mut part = BitReader::within(&BYTES, 4, 12);
    assert_eq!(rt; (part.at(), part.left()), (4, 8));
    assert_eq!(rt; part.take(8), Ok(0x5F));
    assert_eq!(rt; flag(&mut part), Err(Short { at: 12 }));
    part.back_to(4);
    assert_eq!(rt; flag(&mut part), Ok(false));
    assert_eq!(rt; small(&mut part, 3), Ok(5));
}

#[test]
fn reader_takes_bytes_and_bits(rt: HostRuntime) -> Result<(), Fail> {
    let alloc = rt.alloc();
    for (from, wanted) in [(16, [0x0F].as_slice()), (1, &[0x4B, 0xE0])] {
        let mut reader = BitReader::new(&BYTES);
        reader.skip(from)?;
        let bytes = reader.take_bytes(alloc, wanted.len() as u64)?;
        assert_eq!(rt; bytes.as_slice(), wanted, "from {from}");
    }
    let mut reader = BitReader::within(&BYTES, 1, 24);
    let refusal = reader.take_bytes(alloc, 3);
    assert!(rt; matches!(refusal, Err(ReadFault::Short(Short { at: 1 }))));
    assert_eq!(rt; reader.at(), 1);
    reader.back_to(0);
    let bits = reader.take_bits(alloc, 5)?;
    assert!(rt; bits.same(&bits_of(alloc, &[true, false, true, false, false])?));
    Ok(())
}

fn bits_of(alloc: Global, items: &[bool]) -> Result<Bits, AllocError> {
    let mut bits = Bits::new(alloc);
    for bit in items {
        bits.push(*bit)?;
    }
    Ok(bits)
}

#[test]
fn bits_are_trimmed(rt: HostRuntime) -> Result<(), Fail> {
    let alloc = rt.alloc();
    let mut bits = bits_of(alloc, &[true, false, true, false, false])?;
    bits.trim();
    assert_eq!(rt; bits.len(), 3);
    assert_eq!(rt; (bits.get(1), bits.get(9)), (Some(false), None));
    assert!(rt; bits.same(&bits.copy(alloc)?));
    assert!(rt; bits.same(&bits_of(alloc, &[true, false, true])?));
    assert!(rt; !bits.same(&bits_of(alloc, &[true, false])?));
    Ok(())
}

#[test]
fn bits_are_taken_across_words(rt: HostRuntime) -> Result<(), Fail> {
    let bytes = [0xFFu8; 17];
    let mut reader = BitReader::within(&bytes, 3, 133);
    let bits = reader.take_bits(rt.alloc(), 130)?;
    assert_eq!(rt; (bits.len(), reader.left()), (130, 0));
    let words = [u64::MAX, u64::MAX, 0xC000_0000_0000_0000];
    assert_eq!(rt; bits.words(), words.as_slice());
    Ok(())
}

#[test]
fn words_are_trimmed(rt: HostRuntime) -> Result<(), Fail> {
    let alloc = rt.alloc();
    let mut bits = bits_of(alloc, &[true])?;
    for _ in 0..129 {
        bits.push(false)?;
    }
    assert_eq!(rt; (bits.len(), bits.words().len()), (130, 3));
    bits.trim();
    assert_eq!(rt; bits.len(), 1);
    assert!(rt; bits.same(&bits_of(alloc, &[true])?));
    assert_eq!(rt; bits.words(), [0x8000_0000_0000_0000].as_slice());
    Ok(())
}

#[test]
fn octets_are_listed(rt: HostRuntime) -> Result<(), Fail> {
    let alloc = rt.alloc();
    let mut pushed = Octets::new(alloc);
    for byte in [1, 2] {
        pushed.push(byte)?;
    }
    let held = Octets::from_vec([1, 2].to_vec(alloc)?);
    for octets in [pushed, held, Octets::copy_of(alloc, &[1, 2])?] {
        assert_eq!(rt; octets.as_slice(), [1, 2].as_slice());
        assert_eq!(rt; octets.len(), 2);
        assert_eq!(rt; (octets.get(1), octets.get(2)), (Some(&2), None));
        assert_eq!(rt;
            octets.copy(alloc)?.into_vec().as_slice(),
            [1, 2].as_slice()
        );
    }
    Ok(())
}

#[test]
fn writer_puts_words_off_a_byte(rt: HostRuntime) -> Result<(), Fail> {
    let alloc = rt.alloc();
    let bytes = [0x12, 0x34, 0x56, 0x78, 0x9A, 0xBC, 0xDE, 0xF0, 0x11, 0x22];
    let mut writer = BitWriter::new(alloc);
    writer.put(0xF, 4)?;
    writer.put_bytes(&bytes)?;
    let mut reader = BitReader::new(&bytes);
    reader.skip(4)?;
    writer.put_bits(&reader.take_bits(alloc, 68)?)?;
    let words = [
        0xF123_4567_89AB_CDEF,
        0x0112_2234_5678_9ABC,
        0xDEF0_1100_0000_0000,
    ];
    assert_eq!(rt; writer.words(), words.as_slice());
    writer.truncate(67);
    assert_eq!(rt; writer.words(), [0xF123_4567_89AB_CDEF, 0].as_slice());
    writer.put_flag(true)?;
    let octets = writer.finish()?;
    let wanted = [0xF1, 0x23, 0x45, 0x67, 0x89, 0xAB, 0xCD, 0xEF, 0x10];
    assert_eq!(rt; octets.as_slice(), wanted.as_slice());
    Ok(())
}

// No clause says that memory suffices.
#[test]
fn writer_puts_many_bytes(rt: HostRuntime) -> Result<(), Fail> {
    let alloc = rt.alloc();
    for (many, len) in [(65_535, 524_280), (65_536, 524_288)] {
        let mut bytes = vec![in alloc; 0xA5; many]?;
        let mut writer = BitWriter::new(alloc);
        writer.put_bytes(&bytes)?;
        assert_eq!(rt; writer.len(), len, "of {many} bytes");
        writer.put(0x12, 8)?;
        writer.put_bytes(&[0x34])?;
        bytes.extend_from_slice(&[0x12, 0x34])?;
        let octets = writer.finish()?;
        assert_eq!(rt; octets.as_slice(), bytes.as_slice(), "of {many} bytes");
    }
    Ok(())
}

#[test]
fn writer_puts_fields_together(rt: HostRuntime) -> Result<(), Fail> {
    let alloc = rt.alloc();
    let empty = BitWriter::new(alloc).finish()?;
    assert_eq!(rt; empty.len(), 0);
    let mut writer = BitWriter::new(alloc);
    writer.put(5, 3)?;
    assert!(rt;
        writer
            .into_bits()
            .same(&bits_of(alloc, &[true, false, true])?)
    );
    let mut writer = BitWriter::new(alloc);
    for (value, n, len) in [(5, 3, 3), (0, 0, 3), (0x5F, 8, 11)] {
        writer.put(value, n)?;
        assert_eq!(rt; writer.len(), len, "after {value} of {n} bits");
    }
    writer.put_bits(&bits_of(alloc, &[true, false, true])?)?;
    writer.put_bytes(&[0xA5])?;
    assert_eq!(rt; writer.len(), 22);

    // 101 0101 1111 101 1010 0101, and two zeros
    let bytes = writer.finish()?;
    assert_eq!(rt; bytes.as_slice(), [0xAB, 0xF6, 0x94].as_slice());
    Ok(())
}

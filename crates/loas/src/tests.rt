// Worked streams, in pieces of several sizes.
ghost use Rattle.loas.specs.Pieces.{joined};
ghost use Rattle.std.specs.Prelude.{◌≡◌, ◌<◌, IfOk};

use crate::{Front, Loas, LoasFault, frames_of, with_header};
use bit_core::Octets;
use std::alloc::{AllocError, Global};
use std::process::Abort;
use std::test::Fail;
use vectors::{EIGHT_FRAMES, bytes_of};

// How a stream ends.
#[derive(Clone, Copy, Debug, PartialEq, Eq)]
enum End {
    Whole,
    SyncLost(u64),
    Truncated(u64),
    NoMemory,
}

fn end_of(fault: &Option<LoasFault>) -> End {
    match fault {
        None => End::Whole,
        Some(LoasFault::SyncLost { byte }) => End::SyncLost(*byte),
        Some(LoasFault::Truncated { byte }) => End::Truncated(*byte),
        Some(LoasFault::Memory(_)) => End::NoMemory,
    }
}

// The bytes in pieces of one size.
fn cut(alloc: Global, bytes: &[u8], size: usize) -> Result<Vec<Octets>, AllocError>
    requires { 0 < size }
    ensures { IfOk result (λ pieces. joined pieces.items ≡ bytes.now) }
{
    let mut pieces = Vec::new(alloc);
    let mut rest = bytes;
    'pieces: while !rest.is_empty() {
        let (piece, behind) = rest.split_at(size.min(rest.len()));
        pieces.push(Octets::copy_of(alloc, piece)?)?;
        rest = behind;
    }
    Ok(pieces)
}

// The frames of the stream, by offset and element, and its end, in pieces of each size.
fn check(
    rt: &(impl Abort + AllocGlobal),
    bytes: &[u8],
    frames: &[(u64, &[u8])],
    end: End,
) -> Result<(), Fail> {
    let alloc = rt.alloc();
    for size in [1usize, 2, 19, 10_000] {
        assert!(rt; size > 0);
        let pieces = cut(alloc, bytes, size)?;
        let found = frames_of(alloc, &pieces)?;
        assert_eq!(rt; found.frames.len(), frames.len());
        for (frame, (at, element)) in found.frames.iter().zip(frames) {
            assert_eq!(rt; frame.at, *at);
            assert_eq!(rt; frame.element.as_slice(), *element);
        }
        assert_eq!(rt; end_of(&found.fault), end);
    }
    Ok(())
}

const FRAMES: [(u64, &[u8]); 8] = [
    (
        0,
        b"\x20\x00\xF9\x46\x23\x21\x1C\xC0\x18\xE4\x00\x02\x3F\xC0\x1A\x00",
    ),
    (19, b"\x80\x88\x00"),
    (25, b"\x80\x84\x00"),
    (31, b"\x80\xC2\x00"),
    (37, b"\x80\xC1\x00"),
    (43, b"\x80\x80\x80"),
    (49, b"\x80\x98\x00"),
    (55, b"\x80\x8C\x00"),
];

#[test]
fn finds_the_frames(rt: HostRuntime) -> Result<(), Fail> {
    let alloc = rt.alloc();
    let whole = bytes_of(alloc, EIGHT_FRAMES)?;
    assert_eq!(rt; whole.len(), 61);
    let mut front = Vec::from_slice(alloc, &whole)?;
    front.truncate(60);
    let mut lost = Vec::from_slice(alloc, &whole)?;
    lost[19] = 0x57;
    let longest = vec![in alloc; 0xFF; 8191]?;
    let mut long = Vec::from_slice(alloc, b"\x56\xFF\xFF")?;
    long.extend_from_slice(&longest)?;
    check(&rt, &whole, &FRAMES, End::Whole)?;
    check(&rt, &front, &FRAMES[..7], End::Truncated(55))?;
    check(&rt, &lost, &FRAMES[..1], End::SyncLost(19))?;
    check(&rt, b"", &[], End::Whole)?;
    check(&rt, b"\x56", &[], End::Truncated(0))?;
    check(&rt, b"\x56\xDF", &[], End::SyncLost(0))?;
    check(&rt, b"\x56\xE0\x00", &[(0, b"")], End::Whole)?;
    check(&rt, &long, &[(0, &longest)], End::Whole)
}

#[test]
fn lends_a_frame(rt: HostRuntime) -> Result<(), Fail> {
    let mut framer = Loas::new(rt.alloc());
    framer.push(b"\x56\xE0\x02\xAB\xCD\x56")?;
    assert_eq!(rt; framer.pushed(), 6);
    let Front::Frame(length) = framer.front() else {
        panic!(rt; "no frame");
    };
    assert_eq!(rt; framer.element(length), b"\xAB\xCD".as_slice());
    framer.pass(length);
    assert_eq!(rt; framer.at(), 5);
    assert!(rt; matches!(framer.next(rt.alloc()), Ok(None)));
    assert!(rt; matches!(framer.end(), Err(LoasFault::Truncated { byte: 5 })));
    Ok(())
}

#[test]
fn a_header_counts_the_bytes(rt: HostRuntime) -> Result<(), Fail> {
    let alloc = rt.alloc();
    let frame = with_header(alloc, b"\x80\x88\x00")?;
    assert_eq!(rt; frame.as_slice(), b"\x56\xE0\x03\x80\x88\x00".as_slice());
    Ok(())
}

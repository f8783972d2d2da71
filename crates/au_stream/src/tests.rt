// Worked streams, read in pieces of several sizes.
ghost use Rattle.std.specs.Prelude.{◌≤◌};

use crate::{AuReader, Event, StreamFault, read_stream};
use latm::MuxFault;
use loas::LoasFault;
use outside::{FromShelf, MemShelf, Shelf, Source};
use std::alloc::Global;
use std::process::Abort;
use std::test::Fail;
use vectors::{EIGHT_FRAMES, bytes_of};

// An element whose configuration has no identifier of the stream, with the access unit A0.
const FIRST: &str = "56E00B2000F9462321010FF00680";

// An element without a configuration, with the access unit 10.
const SAME: &str = "56E003808800";

// An element whose configuration has the identifier 1, with the access unit A0.
const OTHER: &str = "56E0102000F94623211CC018E400023FC01A00";

// The first configuration for two slots, with the access units A0 and 10.
const TWO_SLOTS: &str = "56E00D2080F9462321010FF006800440";

// A frame that is wanted. Its access unit is one byte; `id` is the identifier of the stream in its configuration.
#[derive(Clone, Copy)]
struct Wanted {
    changed: bool,
    opens: bool,
    au: u8,
    id: Option<u16>,
}

// The first frame of an element with a configuration.
const fn opening(changed: bool, id: Option<u16>) -> Wanted {
    Wanted {
        changed,
        opens: true,
        au: 0xA0,
        id,
    }
}

// A frame that does not open.
const fn going_on(au: u8, id: Option<u16>) -> Wanted {
    Wanted {
        changed: false,
        opens: false,
        au,
        id,
    }
}

// How a source ends.
#[derive(Clone, Copy, Debug, PartialEq, Eq)]
enum End {
    Whole,
    ReadFault,
    TooLarge,
    SyncLost(u64),
    Truncated(u64),
    NoConfig(u64),
    BadElement(u64),
    NoMemory,
}

fn end_of(fault: &StreamFault) -> End {
    match fault {
        StreamFault::ReadFault => End::ReadFault,
        StreamFault::TooLarge => End::TooLarge,
        StreamFault::Loas(LoasFault::SyncLost { byte }) => End::SyncLost(*byte),
        StreamFault::Loas(LoasFault::Truncated { byte }) => End::Truncated(*byte),
        StreamFault::Loas(LoasFault::Memory(_)) => End::NoMemory,
        StreamFault::Mux { frame, fault } => match fault {
            MuxFault::NoConfig => End::NoConfig(*frame),
            _ => End::BadElement(*frame),
        },
        StreamFault::Memory(_) => End::NoMemory,
    }
}

// The event is the frame with that number, and its configuration is lent.
fn check_event(rt: &impl Abort, reader: &AuReader, number: u64, event: &Event, wanted: Wanted) {
    assert_eq!(rt; event.frame, number);
    assert_eq!(rt; event.changed, wanted.changed, "frame {number}");
    assert_eq!(rt; event.opens, wanted.opens, "frame {number}");
    assert_eq!(rt; event.au.as_slice(), [wanted.au].as_slice());
    assert!(rt; reader.mux().is_some());
    assert!(rt; reader.asc().is_some());
    match reader.config() {
        Some(config) => assert_eq!(rt; config.stream_id(), wanted.id, "frame {number}"),
        None => panic!(rt; "no configuration"),
    }
}

// The frames of the bytes and their end, where a read gives so many bytes, and the reads of those numbers fail.
fn check_reader(
    rt: &(impl Abort + AllocGlobal),
    piece: usize,
    failing: &[u64],
    bytes: &[u8],
    frames: &[Wanted],
    end: End,
) -> Result<(), Fail>
    requires { 1 ≤ piece }
{
    let alloc = rt.alloc();
    let mut shelf = MemShelf::new(alloc, piece, failing)?;
    shelf.add("in", bytes)?;
    let id = shelf.begin(alloc, "in")?;
    let mut source = FromShelf::new(&mut shelf, id);
    let mut reader = AuReader::new(alloc);
    assert!(rt; reader.mux().is_none());
    assert!(rt; reader.asc().is_none());
    assert!(rt; reader.config().is_none());
    for (number, wanted) in frames.iter().enumerate() {
        match reader.next(alloc, &mut source)? {
            Some(event) => check_event(rt, &reader, number as u64, &event, *wanted),
            None => panic!(rt; "no frame {number}"),
        }
    }
    let found = match reader.next(alloc, &mut source) {
        Ok(Some(_)) => panic!(rt; "one frame more"),
        Ok(None) => End::Whole,
        Err(fault) => end_of(&fault),
    };
    assert_eq!(rt; found, end);
    assert_eq!(rt; reader.failed(), end != End::Whole);
    assert!(rt; matches!(reader.next(alloc, &mut source), Ok(None)));
    Ok(())
}

// What reading the bytes whole gives: these frames, or that refusal.
fn check_whole(
    rt: &(impl Abort + AllocGlobal),
    piece: usize,
    bytes: &[u8],
    frames: &[Wanted],
    end: End,
) -> Result<(), Fail>
    requires { 1 ≤ piece }
{
    let alloc = rt.alloc();
    let mut shelf = MemShelf::new(alloc, piece, &[])?;
    shelf.add("in", bytes)?;
    let id = shelf.begin(alloc, "in")?;
    let mut source = FromShelf::new(&mut shelf, id);
    let stream = match read_stream(alloc, &mut source) {
        Ok(stream) => stream,
        Err(fault) => {
            assert_eq!(rt; end_of(&fault), end);
            return Ok(());
        }
    };
    assert_eq!(rt; end, End::Whole);
    assert_eq!(rt; stream.frames(), frames.len() as u64);
    for (number, wanted) in frames.iter().enumerate() {
        assert_eq!(rt; stream.au(number as u64), Some([wanted.au].as_slice()));
        match stream.config(number as u64) {
            Some(config) => assert_eq!(rt; config.stream_id(), wanted.id, "frame {number}"),
            None => panic!(rt; "no configuration"),
        }
    }
    Ok(())
}

// The same for a text of hex digits, both ways, in pieces of each size.
fn check(
    rt: &(impl Abort + AllocGlobal),
    text: &str,
    frames: &[Wanted],
    end: End,
) -> Result<(), Fail> {
    let bytes = bytes_of(rt.alloc(), text)?;
    for piece in [1usize, 2, 19] {
        assert!(rt; piece > 0);
        check_reader(rt, piece, &[], &bytes, frames, end)?;
        check_whole(rt, piece, &bytes, frames, end)?;
    }
    Ok(())
}

#[test]
fn gives_the_frames(rt: HostRuntime) -> Result<(), Fail> {
    let alloc = rt.alloc();
    check(&rt, "", &[], End::Whole)?;
    let two = format!(in alloc; "{FIRST}{SAME}")?;
    check(
        &rt,
        &two,
        &[opening(true, None), going_on(0x10, None)],
        End::Whole,
    )?;
    check(&rt, &two[..38], &[opening(true, None)], End::Truncated(14))?;
    check(
        &rt,
        TWO_SLOTS,
        &[opening(true, None), going_on(0x10, None)],
        End::Whole,
    )?;
    let eight = [
        opening(true, Some(1)),
        going_on(0x10, Some(1)),
        going_on(0x08, Some(1)),
        going_on(0x84, Some(1)),
        going_on(0x82, Some(1)),
        going_on(0x01, Some(1)),
        going_on(0x30, Some(1)),
        going_on(0x18, Some(1)),
    ];
    check(&rt, EIGHT_FRAMES, &eight, End::Whole)
}

#[test]
fn tells_a_change(rt: HostRuntime) -> Result<(), Fail> {
    let text = format!(in rt.alloc(); "{FIRST}{FIRST}{OTHER}{SAME}")?;
    let frames = [
        opening(true, None),
        opening(false, None),
        opening(true, Some(1)),
        going_on(0x10, Some(1)),
    ];
    check(&rt, &text, &frames, End::Whole)
}

#[test]
fn refuses_other_bytes(rt: HostRuntime) -> Result<(), Fail> {
    let alloc = rt.alloc();
    check(&rt, "00", &[], End::SyncLost(0))?;
    check(&rt, SAME, &[], End::NoConfig(0))?;
    let lost = format!(in alloc; "{FIRST}{SAME}5600")?;
    check(
        &rt,
        &lost,
        &[opening(true, None), going_on(0x10, None)],
        End::SyncLost(20),
    )?;
    let short = format!(in alloc; "{TWO_SLOTS}56E00180")?;
    check(
        &rt,
        &short,
        &[opening(true, None), going_on(0x10, None)],
        End::BadElement(2),
    )
}

#[test]
fn answers_a_read_that_fails(rt: HostRuntime) -> Result<(), Fail> {
    let alloc = rt.alloc();
    let text = format!(in alloc; "{FIRST}{SAME}")?;
    let bytes = bytes_of(alloc, &text)?;
    check_reader(&rt, 1, &[2], &bytes, &[], End::ReadFault)?;
    check_reader(
        &rt,
        19,
        &[2],
        &bytes,
        &[opening(true, None)],
        End::ReadFault,
    )?;
    check_reader(
        &rt,
        19,
        &[3],
        &bytes,
        &[opening(true, None), going_on(0x10, None)],
        End::ReadFault,
    )
}

// The example at `AuReader`.
fn longest<S: Source>(alloc: Global, source: &mut S) -> Result<u64, StreamFault> {
    let mut reader = AuReader::new(alloc);
    let mut longest = 0;
    while let Some(event) = reader.next(alloc, source)? {
        longest = longest.max(event.au.len());
    }
    Ok(longest)
}

#[test]
fn the_example_finds_the_longest(rt: HostRuntime) -> Result<(), Fail> {
    let alloc = rt.alloc();
    let mut shelf = MemShelf::new(alloc, 8192, &[])?;
    shelf.add("in", &bytes_of(alloc, EIGHT_FRAMES)?)?;
    let id = shelf.begin(alloc, "in")?;
    let found = longest(alloc, &mut FromShelf::new(&mut shelf, id))?;
    assert_eq!(rt; found, 1);
    Ok(())
}

#[test]
fn a_frame_is_found_where_it_stands(rt: HostRuntime) -> Result<(), Fail> {
    let alloc = rt.alloc();
    let mut shelf = MemShelf::new(alloc, 8192, &[])?;
    shelf.add("in", &bytes_of(alloc, TWO_SLOTS)?)?;
    let id = shelf.begin(alloc, "in")?;
    let mut source = FromShelf::new(&mut shelf, id);
    let mut reader = AuReader::new(alloc);
    for (number, au) in [0xA0u8, 0x10].iter().enumerate() {
        let Some(head) = reader.find(alloc, &mut source)? else {
            panic!(rt; "no frame {number}");
        };
        let view = reader.view(head);
        assert_eq!(rt; view.frame(), number as u64);
        assert_eq!(rt; view.changed(), number == 0);
        assert_eq!(rt; view.opens(), number == 0);
        assert_eq!(rt; view.len(), 1);
        assert_eq!(rt; view.reader().take(8)?, u32::from(*au));
        assert_eq!(rt; view.au(alloc)?.as_slice(), [*au].as_slice());
        assert!(rt; reader.mux().is_some());
        reader.pass();
    }
    assert!(rt; matches!(reader.find(alloc, &mut source), Ok(None)));
    Ok(())
}

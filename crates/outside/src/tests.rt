ghost use Rattle.std.specs.Prelude.{◌≤◌};

use crate::{DeviceFault, FileShelf, FromShelf, MemShelf, MemSink, Shelf, Sink, Source, StdSink};
use std::fs;
use std::io::BufWriter;
use std::process::Abort;
use std::test::Fail;

// Reads `abc` two bytes at a time; `None` stands for a read that fails.
fn check_reads(
    rt: &(impl Abort + AllocGlobal),
    piece: usize,
    failing: &[u64],
    wanted: &[Option<usize>],
    faults: u64,
) -> Result<(), Fail>
    requires { 1 ≤ piece }
{
    let alloc = rt.alloc();
    let mut shelf = MemShelf::new(alloc, piece, failing)?;
    shelf.add("name", b"abc")?;
    let id = shelf.begin(alloc, "name")?;
    let mut given = Vec::new(alloc);
    for want in wanted {
        let mut into = [0; 2];
        let count = shelf.read(id, &mut into).ok();
        assert_eq!(rt; count, *want, "pieces of {piece}");
        given.extend_from_slice(&into[..count.unwrap_or(0)])?;
    }
    assert_eq!(rt; given.as_slice(), b"abc".as_slice(), "pieces of {piece}");
    assert_eq!(rt; shelf.taken(id), 3);
    assert_eq!(rt; shelf.faults(), faults);
    Ok(())
}

#[test]
fn shelf_reads_in_pieces(rt: HostRuntime) -> Result<(), Fail> {
    check_reads(&rt, 1, &[], &[Some(1), Some(1), Some(1), Some(0)], 0)?;
    check_reads(&rt, 3, &[], &[Some(2), Some(1), Some(0)], 0)?;
    check_reads(&rt, 3, &[2], &[Some(2), None, Some(1), Some(0)], 1)?;
    check_reads(
        &rt,
        1,
        &[3, 1],
        &[None, Some(1), None, Some(1), Some(1), Some(0)],
        2,
    )
}

#[test]
fn shelf_begins_by_name(rt: HostRuntime) -> Result<(), Fail> {
    let alloc = rt.alloc();
    let mut shelf = MemShelf::new(alloc, 3, &[])?;
    shelf.add("held", b"abcd")?;
    assert!(rt; matches!(shelf.begin(alloc, "other"), Err(DeviceFault::Failed)));
    assert_eq!(rt; shelf.faults(), 1);
    let first = shelf.begin(alloc, "held")?;
    let second = shelf.begin(alloc, "held")?;
    assert_eq!(rt; (first, second), (0, 1));
    let mut into = [0; 2];
    assert_eq!(rt; shelf.read(first, &mut into)?, 2);
    assert_eq!(rt; &into, b"ab");
    assert_eq!(rt; (shelf.taken(first), shelf.taken(second)), (2, 0));
    let mut source = FromShelf::new(&mut shelf, second);
    assert_eq!(rt; source.read(&mut into)?, 2);
    assert_eq!(rt; &into, b"ab");
    assert_eq!(rt; source.faults(), 1);
    Ok(())
}

// Writes `abcd` until it is taken; `None` stands for a write that fails.
fn check_writes(
    rt: &(impl Abort + AllocGlobal),
    piece: usize,
    failing: &[u64],
    wanted: &[Option<usize>],
    faults: u64,
) -> Result<(), Fail>
    requires { 1 ≤ piece }
{
    let mut sink = MemSink::new(rt.alloc(), piece, failing)?;
    let mut rest: &[u8] = b"abcd";
    for want in wanted {
        let count = sink.write(rest).ok();
        assert_eq!(rt; count, *want, "pieces of {piece}");
        rest = &rest[count.unwrap_or(0)..];
    }
    sink.flush()?;
    assert_eq!(rt; sink.bytes(), b"abcd".as_slice(), "pieces of {piece}");
    assert_eq!(rt; sink.faults(), faults);
    Ok(())
}

#[test]
fn sink_writes_in_pieces(rt: HostRuntime) -> Result<(), Fail> {
    check_writes(
        &rt,
        1,
        &[],
        &[Some(1), Some(1), Some(1), Some(1), Some(0)],
        0,
    )?;
    check_writes(&rt, 3, &[], &[Some(3), Some(1)], 0)?;
    check_writes(&rt, 3, &[1, 3], &[None, Some(3), None, Some(1)], 2)
}

#[test]
fn a_file_is_read(rt: HostRuntime) -> Result<(), Fail> {
    let path = "outside_test_read";
    fs::write(&rt, path, b"abc")?;
    let mut shelf = FileShelf::new(&rt, rt.alloc());
    assert!(rt; shelf.begin(rt.alloc(), "outside_test_no_file").is_err());
    let id = shelf.begin(rt.alloc(), path)?;
    assert_eq!(rt; (id, shelf.faults()), (0, 1));
    let mut into = [0; 4];
    assert_eq!(rt; shelf.read(id, &mut into)?, 3);
    assert_eq!(rt; &into[..3], b"abc".as_slice());
    assert_eq!(rt; shelf.read(id, &mut into)?, 0);
    fs::remove_file(&rt, path)?;
    Ok(())
}

#[test]
fn a_file_is_written(rt: HostRuntime) -> Result<(), Fail> {
    let path = "outside_test_written";
    let mut sink = StdSink::new(fs::create(&rt, path)?);
    assert_eq!(rt; sink.write(b"abc")?, 3);
    sink.flush()?;
    assert_eq!(rt; sink.faults(), 0);
    assert_eq!(rt; fs::read(&rt, path)?.as_slice(), b"abc".as_slice());
    fs::remove_file(&rt, path)?;
    Ok(())
}

#[test]
fn a_writer_holds_short_pieces_back(rt: HostRuntime) -> Result<(), Fail> {
    let path = "outside_test_held";
    let writer = BufWriter::with_capacity(rt.alloc(), 8, fs::create(&rt, path)?)?;
    let mut sink = StdSink::new(writer);
    for (piece, there) in [
        ("abc", ""),
        ("defgh", ""),
        ("i", "abcdefgh"),
        ("jklmnopq", "abcdefghijklmnopq"),
    ] {
        assert_eq!(rt; sink.write(piece.as_bytes())?, piece.len());
        assert_eq!(rt;
            fs::read(&rt, path)?.as_slice(),
            there.as_bytes(),
            "behind {piece}"
        );
    }
    assert_eq!(rt; sink.write(b"r")?, 1);
    sink.flush()?;
    assert_eq!(rt;
        fs::read(&rt, path)?.as_slice(),
        b"abcdefghijklmnopqr".as_slice()
    );
    assert_eq!(rt; sink.faults(), 0);
    fs::remove_file(&rt, path)?;
    Ok(())
}

// A row: what a run of the program is given, and what comes of it.
use core_iface::{Core, FaultyCore, FoldCore};
use outside::{MemShelf, MemSink};
use std::alloc::{AllocError, Global};
use std::process::Abort;
use std::test::Fail;
use vectors::bytes_of;
use xheaac_tool::run;

pub const USAGE: &str =
    "usage: xheaac show|check|play FILE | start FILE FRAME | plan|splice|switch FILE POS [FILE POS]... | insert FILE K FADE TARGETS | strip FILE TAIL TARGETS | make START FRAMES\n";

// The number of the call that fails, from 1 on, of each object; 0 where none does.
#[derive(Clone, Copy)]
pub struct Failing {
    pub read: u64,
    pub write: u64,
    pub note: u64,
    pub core: u64,
}

pub const NOTHING: Failing = Failing {
    read: 0,
    write: 0,
    note: 0,
    core: 0,
};

// How much the devices take and give at once: 5000 bytes, or one.
#[derive(Clone, Copy)]
pub enum Pieces {
    Large,
    Bytes,
}

// What a run is given, what it notes and answers, and how many units it feeds.
#[derive(Clone, Copy)]
pub struct Row<'a> {
    pub words: &'a [&'a str],
    /// The bytes of the file `in`, in parts of hexadecimal digits.
    pub file: &'a [&'a str],
    /// Those of the file `more`.
    pub more: &'a [&'a str],
    pub failing: Failing,
    pub note: &'a str,
    pub status: u8,
    pub fed: u64,
}

// `play` of a stream; the status is that of the note.
pub fn playing<'a>(file: &'a [&'a str], note: &'a str, fed: u64) -> Row<'a> {
    Row {
        words: &["play", "in"],
        file,
        more: &[],
        failing: NOTHING,
        note,
        status: if note.is_empty() { 0 } else { 1 },
        fed,
    }
}

// The bytes of parts of hexadecimal digits.
pub fn joined(alloc: Global, parts: &[&str]) -> Result<Vec<u8>, Fail> {
    let mut bytes = Vec::new(alloc);
    for part in parts {
        bytes.extend_from_slice(&bytes_of(alloc, part)?)?;
    }
    Ok(bytes)
}

// So many bytes 0, as hexadecimal digits.
pub fn zeros(alloc: Global, bytes: usize) -> Result<String, AllocError> {
    let mut text = String::new(alloc);
    for _ in 0..bytes {
        text.push_str("00")?;
    }
    Ok(text)
}

// The bytes of lines.
pub fn lines_of(alloc: Global, lines: &[&str]) -> Result<Vec<u8>, AllocError> {
    let mut bytes = Vec::new(alloc);
    for line in lines {
        bytes.extend_from_slice(line.as_bytes())?;
    }
    Ok(bytes)
}

// The bytes of the samples of mono frames: those of each are its value, the value and 1, and so on.
pub fn samples_of(alloc: Global, values: &[u16]) -> Result<Vec<u8>, AllocError> {
    let mut bytes = Vec::new(alloc);
    for value in values {
        for time in 0..1024u16 {
            bytes.extend_from_slice(&value.wrapping_add(time).to_le_bytes())?;
        }
    }
    Ok(bytes)
}

// Runs the program where the devices take and give such pieces, and that output is wanted.
pub fn check_row(
    rt: &(impl Abort + AllocGlobal),
    pieces: Pieces,
    row: &Row<'_>,
    wanted: &[u8],
) -> Result<(), Fail> {
    let alloc = rt.alloc();
    let piece = match pieces {
        Pieces::Large => 5000,
        Pieces::Bytes => 1,
    };
    let mut shelf = MemShelf::new(alloc, piece, &[row.failing.read])?;
    shelf.add("in", &joined(alloc, row.file)?)?;
    shelf.add("more", &joined(alloc, row.more)?)?;
    let mut out = MemSink::new(alloc, piece, &[row.failing.write])?;
    let mut note = MemSink::new(alloc, piece, &[row.failing.note])?;
    let mut core = FaultyCore::new(alloc, FoldCore::new(), &[row.failing.core])?;
    let mut words = Vec::new(alloc);
    for word in row.words {
        words.push(String::from_str(alloc, word)?)?;
    }
    let status = run(alloc, &words, &mut shelf, &mut out, &mut note, &mut core);
    assert_eq!(rt; status, row.status, "{}", row.note);
    assert_eq!(rt; out.bytes(), wanted);
    assert_eq!(rt; note.bytes(), row.note.as_bytes());
    assert_eq!(rt; core.fed(), row.fed);
    Ok(())
}

// In large pieces, and in pieces of one byte.
pub fn check_both(
    rt: &(impl Abort + AllocGlobal),
    row: &Row<'_>,
    wanted: &[u8],
) -> Result<(), Fail> {
    check_row(rt, Pieces::Large, row, wanted)?;
    check_row(rt, Pieces::Bytes, row, wanted)
}

// The calls beside `run`: the commands without their note, a command line whose words may be missing, and the program of
// docs/PLAYER.md.
use crate::cases::{USAGE, joined, samples_of};
use crate::program::play_source;
use crate::streams::{JOINED, PLAIN};
use commands::Outcome;
use core_iface::{Core, FoldCore};
use outside::{FromShelf, MemShelf, MemSink, Shelf};
use std::alloc::AllocError;
use std::process::Abort;
use std::test::Fail;
use xheaac_tool::{WordsFault, do_check, do_play, do_show, run_line};

const SHOWN: &str =
    "mux version=0 subframes=1 fullness=255 other=- crc=-\nasc index=3 rate=- channels=1 tail=0\nusac rate=48000 frame=1024 channels=1 elements=1 extensions=0 id=-\nelement 0 single tw=0 nf=1\nframe 0 independent=1 bytes=1 leading=none\nframe 1 independent=0 bytes=1 leading=none\n";

const CHECKED: &str = "frames 2, configurations 1, independent 1, immediate 0\n";

#[test]
fn shows_without_note(rt: HostRuntime) -> Result<(), Fail> {
    let alloc = rt.alloc();
    let mut shelf = MemShelf::new(alloc, 5000, &[])?;
    shelf.add("in", &joined(alloc, PLAIN)?)?;
    let mut out = MemSink::new(alloc, 5000, &[])?;
    let mut words = Vec::new(alloc);
    words.push(String::from_str(alloc, "show")?)?;
    words.push(String::from_str(alloc, "in")?)?;
    let mut core = FoldCore::new();
    let outcome = do_show(alloc, &words, &mut shelf, &mut out, &mut core);
    assert!(rt; matches!(outcome, Outcome::Done));
    assert_eq!(rt; out.bytes(), SHOWN.as_bytes());
    assert_eq!(rt; core.fed(), 0);
    Ok(())
}

#[test]
fn checks_without_note(rt: HostRuntime) -> Result<(), Fail> {
    let alloc = rt.alloc();
    let mut shelf = MemShelf::new(alloc, 5000, &[])?;
    shelf.add("in", &joined(alloc, PLAIN)?)?;
    let mut out = MemSink::new(alloc, 5000, &[])?;
    let mut words = Vec::new(alloc);
    words.push(String::from_str(alloc, "check")?)?;
    words.push(String::from_str(alloc, "in")?)?;
    let mut core = FoldCore::new();
    let outcome = do_check(alloc, &words, &mut shelf, &mut out, &mut core);
    assert!(rt; matches!(outcome, Outcome::Done));
    assert_eq!(rt; out.bytes(), CHECKED.as_bytes());
    assert_eq!(rt; core.fed(), 0);
    Ok(())
}

#[test]
fn plays_without_note(rt: HostRuntime) -> Result<(), Fail> {
    let alloc = rt.alloc();
    let mut shelf = MemShelf::new(alloc, 5000, &[])?;
    shelf.add("in", &joined(alloc, PLAIN)?)?;
    let mut out = MemSink::new(alloc, 5000, &[])?;
    let mut words = Vec::new(alloc);
    words.push(String::from_str(alloc, "play")?)?;
    words.push(String::from_str(alloc, "in")?)?;
    let mut core = FoldCore::new();
    let outcome = do_play(alloc, &words, &mut shelf, &mut out, &mut core);
    assert!(rt; matches!(outcome, Outcome::Done));
    let samples = samples_of(alloc, &[2, 13])?;
    assert_eq!(rt; out.bytes(), samples.as_slice());
    assert_eq!(rt; core.fed(), 2);
    Ok(())
}

// Runs the program, where the shelf holds the plain stream as `in`.
fn check_line(
    rt: &(impl Abort + AllocGlobal),
    words: Result<Vec<String>, WordsFault>,
    status: u8,
    wanted: &[u8],
    text: &str,
    fed: u64,
) -> Result<(), Fail> {
    let alloc = rt.alloc();
    let mut shelf = MemShelf::new(alloc, 5000, &[])?;
    shelf.add("in", &joined(alloc, PLAIN)?)?;
    let mut out = MemSink::new(alloc, 5000, &[])?;
    let mut note = MemSink::new(alloc, 5000, &[])?;
    let mut core = FoldCore::new();
    let answer = run_line(alloc, words, &mut shelf, &mut out, &mut note, &mut core);
    assert_eq!(rt; answer, status);
    assert_eq!(rt; out.bytes(), wanted);
    assert_eq!(rt; note.bytes(), text.as_bytes());
    assert_eq!(rt; core.fed(), fed);
    Ok(())
}

#[test]
fn runs_command_lines(rt: HostRuntime) -> Result<(), Fail> {
    let alloc = rt.alloc();
    let samples = samples_of(alloc, &[2, 13])?;
    let mut words = Vec::new(alloc);
    words.push(String::from_str(alloc, "play")?)?;
    words.push(String::from_str(alloc, "in")?)?;
    check_line(&rt, Ok(words), 0, &samples, "", 2)?;
    check_line(&rt, Err(WordsFault::NotText), 2, b"", USAGE, 0)?;
    check_line(
        &rt,
        Err(WordsFault::Memory(AllocError)),
        6,
        b"",
        "out of memory\n",
        0,
    )
}

// The first sample of each frame.
const LEVELS: [i16; 8] = [1, 7, 28, 40, 15, 20, 74, 239];

#[test]
fn the_program_plays_a_join(rt: HostRuntime) -> Result<(), Fail> {
    let alloc = rt.alloc();
    let mut shelf = MemShelf::new(alloc, 8192, &[])?;
    shelf.add("in", &joined(alloc, JOINED)?)?;
    let id = shelf.begin(alloc, "in")?;
    let samples = play_source(alloc, &mut FromShelf::new(&mut shelf, id))?;
    assert_eq!(rt; samples.len(), 8192);
    for i in 0..8usize {
        assert_eq!(rt;
            samples.get(1024 * i).copied(),
            Some(LEVELS[i]),
            "frame {i}"
        );
    }
    Ok(())
}

// Worked rows of the faults of each object, on `play`, and of words that are no command.
use crate::cases::Pieces::{Bytes, Large};
use crate::cases::{Failing, NOTHING, Pieces, Row, USAGE, check_row, playing, samples_of};
use crate::streams::{FADED, PLAIN};
use std::process::Abort;
use std::test::Fail;
use vectors::EIGHT_FRAMES;

const EIGHT: &[&str] = &[EIGHT_FRAMES];

// The object of which a call fails.
#[derive(Clone, Copy)]
enum Object {
    Shelf,
    Out,
    Core,
}

// A stream, how much is taken at once, the numbers of the calls each of which fails once, from one up to before another, the
// status, the first sample of each frame that is written, and how many units are fed.
type Failed = (
    &'static [&'static str],
    Pieces,
    u64,
    u64,
    u8,
    &'static [u16],
    u64,
);

const READS: &[Failed] = &[
    (PLAIN, Large, 1, 2, 3, &[], 0),
    (PLAIN, Large, 2, 3, 3, &[2, 13], 2),
    (PLAIN, Large, 3, 4, 0, &[2, 13], 2),
    // the first frame is there behind 14 reads, the second behind 20, and the end at the 21st
    (PLAIN, Bytes, 1, 15, 3, &[], 0),
    (PLAIN, Bytes, 15, 21, 3, &[2], 1),
    (PLAIN, Bytes, 21, 22, 3, &[2, 13], 2),
    (PLAIN, Bytes, 22, 23, 0, &[2, 13], 2),
    (EIGHT, Bytes, 20, 21, 3, &[1], 1),
];

// one write a frame
const WRITES: &[Failed] = &[
    (PLAIN, Large, 1, 2, 4, &[], 1),
    (PLAIN, Large, 2, 3, 4, &[2], 2),
    (PLAIN, Large, 3, 4, 0, &[2, 13], 2),
    (EIGHT, Large, 2, 3, 4, &[1], 2),
];

const CORES: &[Failed] = &[
    // a reset, and one step a frame
    (PLAIN, Large, 1, 3, 5, &[], 0),
    (PLAIN, Bytes, 1, 3, 5, &[], 0),
    (PLAIN, Large, 3, 4, 5, &[2], 1),
    (PLAIN, Bytes, 3, 4, 5, &[2], 1),
    (PLAIN, Large, 4, 5, 0, &[2, 13], 2),
    (PLAIN, Bytes, 4, 5, 0, &[2, 13], 2),
    (EIGHT, Large, 4, 5, 5, &[1, 7], 2),
    (EIGHT, Bytes, 4, 5, 5, &[1, 7], 2),
    // behind a reset and four steps: a flush, a reset, the step of the carried unit, and that of the frame
    (FADED, Large, 6, 9, 5, &[1, 7, 28, 40], 4),
    (FADED, Large, 9, 10, 5, &[1, 7, 28, 40], 5),
];

fn failing(object: Object, number: u64) -> Failing {
    match object {
        Object::Shelf => Failing {
            read: number,
            ..NOTHING
        },
        Object::Out => Failing {
            write: number,
            ..NOTHING
        },
        Object::Core => Failing {
            core: number,
            ..NOTHING
        },
    }
}

// `play` of a file where that fails.
fn stopped(file: &'static [&'static str], failing: Failing, status: u8, fed: u64) -> Row<'static> {
    let note = match status {
        3 => "read fault\n",
        4 => "write fault\n",
        5 => "core fault\n",
        _ => "",
    };
    Row {
        failing,
        status,
        ..playing(file, note, fed)
    }
}

fn check_failed(
    rt: &(impl Abort + AllocGlobal),
    object: Object,
    rows: &[Failed],
) -> Result<(), Fail> {
    for (file, pieces, from, until, status, firsts, fed) in rows {
        let wanted = samples_of(rt.alloc(), firsts)?;
        for number in *from..*until {
            let row = stopped(file, failing(object, number), *status, *fed);
            check_row(rt, *pieces, &row, &wanted)?;
        }
    }
    Ok(())
}

#[test]
fn objects_fail(rt: HostRuntime) -> Result<(), Fail> {
    check_failed(&rt, Object::Shelf, READS)?;
    check_failed(&rt, Object::Out, WRITES)?;
    check_failed(&rt, Object::Core, CORES)?;
    // one write a byte: at the ends of each run of 64 bytes
    let samples = samples_of(rt.alloc(), &[2, 13])?;
    for block in 0..64usize {
        for written in [64 * block, 64 * block + 63] {
            let fed = if written < 2048 { 1 } else { 2 };
            let row = stopped(PLAIN, failing(Object::Out, written as u64 + 1), 4, fed);
            check_row(
                &rt,
                Pieces::Bytes,
                &row,
                samples.get(..written).unwrap_or(&[]),
            )?;
        }
    }
    Ok(())
}

// The words, the file, the number of the read that fails, what note is told, and the status; a note that fails at once, and one
// that fails behind five bytes.
const NOTED: &[(&[&str], &[&str], u64, &str, u8)] = &[
    (
        &["play", "in"],
        &["00"],
        0,
        "refused: byte 0: sync lost\n",
        1,
    ),
    (&["play", "in"], PLAIN, 1, "read fault\n", 3),
    (&["play", "other"], PLAIN, 0, "read fault\n", 3),
    (&["play"], PLAIN, 0, USAGE, 2),
    (&["play", "a", "b"], PLAIN, 0, USAGE, 2),
    (&[], PLAIN, 0, USAGE, 2),
    (&["--help"], PLAIN, 0, USAGE, 2),
];

#[test]
fn notes_what_stopped_it(rt: HostRuntime) -> Result<(), Fail> {
    for (words, parts, read, text, status) in NOTED {
        for (failing, note) in [(0, *text), (1, ""), (6, text.get(..5).unwrap_or(""))] {
            let row = Row {
                words,
                file: parts,
                more: &[],
                failing: Failing {
                    read: *read,
                    note: failing,
                    ..NOTHING
                },
                note,
                status: *status,
                fed: 0,
            };
            check_row(&rt, Pieces::Bytes, &row, b"")?;
        }
    }
    Ok(())
}

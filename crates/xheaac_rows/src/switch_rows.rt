// Worked rows of `switch`.
use crate::cases::Pieces::Large;
use crate::cases::{Failing, NOTHING, Row, USAGE, check_both, check_row, joined};
use crate::counted::CountedShelf;
use crate::streams::{
    BARE, BEFORE, BEHIND, CARRIES_BOTH, CARRIES_ONE, IMMEDIATE, IMMEDIATE_FRAME, JOINED, OWN,
};
use core_iface::{Core, FoldCore};
use outside::{MemShelf, MemSink};
use std::alloc::{AllocError, Global};
use std::process::Abort;
use std::test::Fail;
use vectors::EIGHT_FRAMES;
use xheaac_tool::run;

// A block of 1024 samples: a ramp from a value on; or a ramp from the second value on, which is not below the first, and into
// which one from the first on fades.
#[derive(Clone, Copy)]
enum Block {
    Ramp(u16),
    Fade(u16, u16),
}

use Block::{Fade, Ramp};

// The words, the bytes of the files `in` and `more`, what is written, how many units are fed, and the note.
type Switched = (
    &'static [&'static str],
    &'static [&'static str],
    &'static [&'static str],
    &'static [Block],
    u64,
    &'static str,
);

const EIGHT: &[&str] = &[EIGHT_FRAMES];

const AT_4096: &[&str] = &["switch", "in", "0", "more", "4096"];

// The joining frame of `IMMEDIATE`, where it asks for a fade.
const FADING: &[&str] = &[OWN, "56E01187E0C81908E600C72000209000181C0000", BEHIND];

// A stream that goes on at its sixth frame: that carries the unit 88 before it, and asks for a fade.
const LAST: &[&str] = &[
    "56E0102000F94623211CC018E400063FC01A0056E00380800056E00380800056E00380800056E00380C400",
    "56E01187E0C81908E600C7200030900018810000",
    "56E00380800056E003808000",
];

// The first four of `EIGHT`, all of them, and the last four of `IMMEDIATE`.
const FOUR: &[Block] = &[Ramp(1), Ramp(7), Ramp(28), Ramp(40)];

const ALL_EIGHT: &[Block] = &[
    Ramp(1),
    Ramp(7),
    Ramp(28),
    Ramp(40),
    Ramp(13),
    Ramp(31),
    Ramp(108),
    Ramp(335),
];

const TAIL: &[Block] = &[Ramp(15), Ramp(20), Ramp(74), Ramp(239)];

// What is written where the joining frame asks for a fade.
const FADED: &[Block] = &[
    Ramp(1),
    Ramp(7),
    Ramp(28),
    Ramp(40),
    Fade(8, 15),
    Ramp(20),
    Ramp(74),
    Ramp(239),
];

const SWITCHED: &[Switched] = &[
    (
        AT_4096,
        EIGHT,
        IMMEDIATE,
        &[
            Ramp(1),
            Ramp(7),
            Ramp(28),
            Ramp(40),
            Ramp(15),
            Ramp(20),
            Ramp(74),
            Ramp(239),
        ],
        9,
        "",
    ),
    (AT_4096, EIGHT, FADING, FADED, 9, ""),
    // one frame of 2048 samples, which carries two units
    (
        AT_4096,
        EIGHT,
        CARRIES_BOTH,
        &[Ramp(1), Ramp(7), Ramp(28), Ramp(40), Ramp(16), Ramp(1040)],
        7,
        "",
    ),
    // one stream, from its first frame on; and from within it, where nothing is there to fade
    (&["switch", "in", "0"], EIGHT, &[], ALL_EIGHT, 8, ""),
    (&["switch", "in", "4096"], IMMEDIATE, &[], TAIL, 5, ""),
    (&["switch", "in", "4096"], FADING, &[], TAIL, 5, ""),
];

// A second file that is refused where it is joined, or before, and the note; the four frames before the join are written.
type Unsound = (&'static [&'static str], &'static str);

const UNSOUND: &[Unsound] = &[
    (
        CARRIES_ONE,
        "refused: piece 1: frame 2: too few units: 1 of 2\n",
    ),
    (BARE, "refused: piece 1: frame 4: no preroll\n"),
    (EIGHT, "refused: piece 1: frame 4: same configuration\n"),
    // it carries 83, and 81 stands before it
    (
        &[OWN, "56E01187E0C81908E600C72000201000183C0000", BEHIND],
        "refused: piece 1: frame 4: foreign preroll unit 0\n",
    ),
    // usacSamplingFrequencyIndex 4
    (
        &["56E00F2000F94624211CC018E400043FC000"],
        "refused: piece 1: rate differs\n",
    ),
];

const REFUSED: &[Switched] = &[
    (
        &["switch", "in", "0", "more", "4000"],
        EIGHT,
        IMMEDIATE,
        &[],
        0,
        "refused: piece 0: no frame at 4000\n",
    ),
    (
        &["switch", "in", "0", "more", "8192"],
        EIGHT,
        IMMEDIATE,
        ALL_EIGHT,
        8,
        "refused: piece 1: past end\n",
    ),
    (
        &["switch", "none", "4096", "none", "4096"],
        &[],
        &[],
        &[],
        0,
        "refused: piece 1: positions do not rise\n",
    ),
    // what stands behind a piece is read too
    (
        AT_4096,
        JOINED,
        IMMEDIATE,
        FOUR,
        4,
        "refused: piece 0: frame 4: configuration changes\n",
    ),
    (
        AT_4096,
        &[EIGHT_FRAMES, "57"],
        IMMEDIATE,
        FOUR,
        4,
        "refused: piece 0: byte 61: sync lost\n",
    ),
    // the second file is at fault behind the joining frame
    (
        AT_4096,
        EIGHT,
        &[OWN, IMMEDIATE_FRAME, "56E0038084"],
        &[Ramp(1), Ramp(7), Ramp(28), Ramp(40), Ramp(15)],
        6,
        "refused: piece 1: byte 57: truncated\n",
    ),
    // the shelf does not hold the second file; it is begun when its turn comes
    (
        &["switch", "in", "0", "none", "4096"],
        EIGHT,
        &[],
        FOUR,
        4,
        "read fault\n",
    ),
    (&["switch"], EIGHT, &[], &[], 0, USAGE),
    (&["switch", "in"], EIGHT, &[], &[], 0, USAGE),
];

// The number of the read that fails, that of the write, how many blocks of `FADED` are written, how many units are fed, and the
// note.
type Failed = (u64, u64, usize, u64, &'static str);

const FAILED: &[Failed] = &[
    // two reads of each file
    (1, 0, 0, 0, "read fault\n"),
    (2, 0, 4, 4, "read fault\n"),
    (3, 0, 4, 4, "read fault\n"),
    (4, 0, 8, 9, "read fault\n"),
    (5, 0, 8, 9, ""),
    // one write a frame, behind its step
    (0, 1, 0, 1, "write fault\n"),
    (0, 5, 4, 6, "write fault\n"),
    (0, 8, 7, 9, "write fault\n"),
    (0, 9, 8, 9, ""),
];

// The numbers of the calls of the core each of which fails once, from one up to before another, how many blocks of `FADED` are
// written, and how many units are fed.
type FailedCore = (u64, u64, usize, u64);

const CORES: &[FailedCore] = &[
    // a reset, and the step of each frame
    (1, 3, 0, 0),
    (3, 4, 1, 1),
    (4, 5, 2, 2),
    (5, 6, 3, 3),
    // a flush, a reset, the step of the carried unit, and those of the frame and of the ones behind it
    (6, 9, 4, 4),
    (9, 10, 4, 5),
    (10, 11, 5, 6),
    (11, 12, 6, 7),
    (12, 13, 7, 8),
    // no call has this number
    (13, 14, 8, 9),
];

// A block, a time, and its sample there.
const SAMPLES: &[(Block, u16, u16)] = &[
    (Fade(8, 15), 0, 8),
    (Fade(8, 15), 64, 75),
    (Fade(8, 15), 127, 141),
    (Fade(8, 15), 128, 143),
    (Fade(6, 10), 0, 6),
    (Fade(6, 10), 64, 72),
    (Fade(6, 10), 128, 138),
];

// A run over three files, in pieces of one byte: the words, the number of the write that fails, what is written, how many units
// are fed, the note, the status, how many files are begun, and how many bytes of them are taken.
type Counted = (
    &'static [&'static str],
    u64,
    &'static [Block],
    u64,
    &'static str,
    u8,
    u64,
    u64,
);

const COUNTED: &[Counted] = &[
    // two fades; each file is read to its end
    (
        &["switch", "in", "0", "more", "4096", "last", "5120"],
        0,
        &[
            Ramp(1),
            Ramp(7),
            Ramp(28),
            Ramp(40),
            Fade(8, 15),
            Fade(6, 10),
            Ramp(20),
            Ramp(60),
        ],
        10,
        "",
        0,
        3,
        211,
    ),
    // the first frame is written before more than its 19 bytes are taken
    (AT_4096, 1, &[], 1, "write fault\n", 4, 1, 19),
];

// The sample of a block at a time.
fn sample(block: Block, time: u16) -> u16 {
    match block {
        // (old + time) * (128 - time) + (new + time) * time over 128, rounded down
        Fade(old, new) if time < 128 => {
            let risen = new.wrapping_sub(old).wrapping_mul(time) / 128;
            old.wrapping_add(time).wrapping_add(risen)
        }
        Ramp(new) | Fade(_, new) => new.wrapping_add(time),
    }
}

fn bytes_of_blocks(alloc: Global, blocks: &[Block]) -> Result<Vec<u8>, AllocError> {
    let mut bytes = Vec::new(alloc);
    for block in blocks {
        for time in 0..1024u16 {
            bytes.extend_from_slice(&sample(*block, time).to_le_bytes())?;
        }
    }
    Ok(bytes)
}

fn status_of(note: &str) -> u8 {
    match note {
        "" => 0,
        "read fault\n" => 3,
        "write fault\n" => 4,
        "core fault\n" => 5,
        _ if note == USAGE => 2,
        _ => 1,
    }
}

// `switch` of those files; the status is that of the note.
fn switching<'a>(
    words: &'a [&'a str],
    file: &'a [&'a str],
    more: &'a [&'a str],
    note: &'a str,
    fed: u64,
) -> Row<'a> {
    Row {
        words,
        file,
        more,
        failing: NOTHING,
        note,
        status: status_of(note),
        fed,
    }
}

// `switch` with a fade, where that call fails: so many blocks are written.
fn check_failed(
    rt: &(impl Abort + AllocGlobal),
    failing: Failing,
    blocks: usize,
    fed: u64,
    note: &str,
) -> Result<(), Fail> {
    let row = Row {
        failing,
        ..switching(AT_4096, EIGHT, FADING, note, fed)
    };
    let wanted = bytes_of_blocks(rt.alloc(), FADED.get(..blocks).unwrap_or(&[]))?;
    check_row(rt, Large, &row, &wanted)
}

fn check_counted(rt: &(impl Abort + AllocGlobal), counted: &Counted) -> Result<(), Fail> {
    let alloc = rt.alloc();
    let (words, write, blocks, fed, text, status, begun, taken) = counted;
    let mut shelf = MemShelf::new(alloc, 1, &[])?;
    shelf.add("in", &joined(alloc, EIGHT)?)?;
    shelf.add("more", &joined(alloc, FADING)?)?;
    shelf.add("last", &joined(alloc, LAST)?)?;
    let mut shelf = CountedShelf {
        shelf,
        begun: 0,
        taken: 0,
    };
    let mut out = MemSink::new(alloc, 1, &[*write])?;
    let mut note = MemSink::new(alloc, 1, &[])?;
    let mut core = FoldCore::new();
    let mut line = Vec::new(alloc);
    for word in *words {
        line.push(String::from_str(alloc, word)?)?;
    }
    let answer = run(alloc, &line, &mut shelf, &mut out, &mut note, &mut core);
    assert_eq!(rt; answer, *status);
    assert_eq!(rt; out.bytes(), bytes_of_blocks(alloc, blocks)?.as_slice());
    assert_eq!(rt; note.bytes(), text.as_bytes());
    assert_eq!(rt; core.fed(), *fed);
    assert_eq!(rt; (shelf.begun, shelf.taken), (*begun, *taken));
    Ok(())
}

#[test]
fn switches_renditions(rt: HostRuntime) -> Result<(), Fail> {
    let alloc = rt.alloc();
    for (block, time, wanted) in SAMPLES {
        assert_eq!(rt; sample(*block, *time), *wanted);
    }
    for rows in [SWITCHED, REFUSED] {
        for (words, file, more, blocks, fed, note) in rows {
            let row = switching(words, file, more, note, *fed);
            check_both(&rt, &row, &bytes_of_blocks(alloc, blocks)?)?;
        }
    }
    for (more, note) in UNSOUND {
        let row = switching(AT_4096, EIGHT, more, note, 4);
        check_both(&rt, &row, &bytes_of_blocks(alloc, FOUR)?)?;
    }
    for counted in COUNTED {
        check_counted(&rt, counted)?;
    }
    Ok(())
}

#[test]
fn switches_up_to_a_fault(rt: HostRuntime) -> Result<(), Fail> {
    for (read, write, blocks, fed, note) in FAILED {
        let failing = Failing {
            read: *read,
            write: *write,
            ..NOTHING
        };
        check_failed(&rt, failing, *blocks, *fed, note)?;
    }
    for (from, until, blocks, fed) in CORES {
        for core in *from..*until {
            let note = if *blocks == 8 { "" } else { "core fault\n" };
            check_failed(&rt, Failing { core, ..NOTHING }, *blocks, *fed, note)?;
        }
    }
    Ok(())
}

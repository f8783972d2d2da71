// Worked rows of `insert`.
use crate::cases::Pieces::{Bytes, Large};
use crate::cases::{Failing, NOTHING, Pieces, Row, USAGE, check_both, check_row, joined, zeros};
use crate::streams::{
    BARE, BEHIND, CARRIES_BOTH, CARRIES_ONE, DOUBLED, FIRST, IMMEDIATE, OWN, PLAIN,
};
use std::process::Abort;
use std::test::Fail;
use vectors::EIGHT_FRAMES;

// The words behind the file, the bytes of the file, the bytes that are written, and the note.
type Inserted = (
    [&'static str; 3],
    &'static [&'static str],
    &'static [&'static str],
    &'static str,
);

// `IMMEDIATE`, where its fifth frame asks for a fade.
pub const FADING: &[&str] = &[OWN, "56E01187E0C81908E600C72000209000181C0000", BEHIND];

// A stream whose frame 5 gets a preroll: its frame 4 is independent.
const EARLY: &str =
    "56E0102000F94623211CC018E400063FC01A0056E00380800056E00380800056E00380800056E00380C400";

const LATE: &str = "56E00380800056E003808000";

pub const LAST: &[&str] = &[EARLY, "56E00380C200", LATE];

pub const LAST_FADING: &[&str] = &[EARLY, "56E01187E0C81908E600C7200030900018810000", LATE];

pub const THREE: &[&str] = &[DOUBLED, "56E00380C100"];

// Two elements of two slots each, A0, B0, A0 and B0.
pub const TWO_SLOTS: &[&str] = &[
    "56E0122080F94623211CC018E400023FC01A001B00",
    "56E00580D000D800",
];

pub const TWO_TARGETS: &[&str] = &[
    "56E0202080F94623211CC018E400023FC01A00FC1903211CC018E40002120003418000",
    "56E01380D007E0C81908E600C720001090001A0C0000",
];

// The access units A0 and B0 in a mux of version 1 with 5 bits of other data: 10101, and 01010.
pub const VERSION_1: &[&str] = &[
    "56E01758000007FC00027FCA311908E600C7200011FF0140341556E00380D828",
];

pub const VERSION_1_TARGET: &[&str] = &[
    "56E01758000007FC00027FCA311908E600C7200011FF0140341556E01187E0C81908E600C720001090001A0C0028",
];

// The access units 81 and B0, where usacExtElementPayloadFrag is 1 at the preroll element.
pub const SPREAD: &[&str] = &["56E0102000F94623211CC118E400043FC0190056E00380D800"];

pub const SPREAD_TARGET: &[&str] = &[
    "56E0102000F94623211CC118E400043FC0190056E01187E0CE0642398231C80008040006430000",
];

const ROWS: &[Inserted] = &[
    // 75 bytes; where the frame asks for a fade; and the same targets by their distance
    (["1", "0", "4"], BARE, IMMEDIATE, ""),
    (["1", "1", "4"], BARE, FADING, ""),
    (["1", "0", "every:4"], BARE, IMMEDIATE, ""),
    (["1", "1", "5"], LAST, LAST_FADING, ""),
    (["1", "0", "2"], THREE, CARRIES_ONE, ""),
    (["2", "0", "2"], THREE, CARRIES_BOTH, ""),
    // no frame has a number that large: all stays as it is
    (["1", "0", "every:9"], BARE, BARE, ""),
    (["1", "1", "1,3"], TWO_SLOTS, TWO_TARGETS, ""),
    (["1", "1", "1"], VERSION_1, VERSION_1_TARGET, ""),
    (["1", "0", "1"], SPREAD, SPREAD_TARGET, ""),
    (
        ["1", "0", "5"],
        BARE,
        &[],
        "refused: frame 5: not independent\n",
    ),
    (["5", "0", "4"], BARE, &[], "refused: frame 4: too early\n"),
    (["1", "0", "8"], BARE, &[], "refused: bad target 0\n"),
    (["1", "0", "4,4"], BARE, &[], "refused: bad target 1\n"),
    (["0", "0", "4"], BARE, &[], "refused: bad count\n"),
    (["19", "0", "4"], BARE, &[], "refused: bad count\n"),
    (["4294967296", "0", "4"], BARE, &[], "refused: bad count\n"),
    (
        ["999999999999999999", "0", "4"],
        BARE,
        &[],
        "refused: bad count\n",
    ),
    (
        ["2", "0", "4"],
        BARE,
        &[],
        "refused: frame 4: first unit not independent\n",
    ),
    (
        ["1", "0", "4"],
        IMMEDIATE,
        &[],
        "refused: frame 4: already present\n",
    ),
    (
        ["1", "0", "0"],
        PLAIN,
        &[],
        "refused: preroll not declared\n",
    ),
    (["1", "0", "0"], &[], &[], "refused: preroll not declared\n"),
    (
        ["1", "0", "every:1"],
        &[],
        &[],
        "refused: preroll not declared\n",
    ),
    // a rule of the frames comes before those of the words, and the end of the file before all rules
    (
        ["0", "0", "9"],
        &[FIRST, EIGHT_FRAMES],
        &[],
        "refused: frame 1: configuration changes\n",
    ),
    (
        ["0", "0", "9"],
        &[OWN, "56E0028000"],
        &[],
        "refused: frame 4 bit 0: frame too short\n",
    ),
    (
        ["0", "0", "9"],
        &[OWN, "56E0"],
        &[],
        "refused: byte 37: truncated\n",
    ),
];

// The words behind the file where they are no case.
const NO_CASE: &[&[&str]] = &[
    &["1", "2", "4"],
    &["1", "0"],
    &["1", "0", "4", "5"],
    &["x", "0", "4"],
    &["1", "00", "4"],
    &["1", "0", ""],
    &["1", "0", "4,"],
    &["1", "0", ",4"],
    &["1", "0", "4,,5"],
    &["1", "0", "every:0"],
    &["1", "0", "every:"],
    &["1", "0", "every:4,5"],
];

// `insert` does not use the core: the first call of it fails.
fn inserting<'a>(words: &'a [&'a str], file: &'a [&'a str], note: &'a str) -> Row<'a> {
    Row {
        words,
        file,
        more: &[],
        failing: Failing { core: 1, ..NOTHING },
        note,
        status: if note.is_empty() { 0 } else { 1 },
        fed: 0,
    }
}

// The first access unit is A0 and so many zeros. The bytes of the file before them and behind them, and before and behind them
// in the target, whose preroll has 253, 254 and 255 bytes.
pub const LENGTHS: &[(&'static str, usize, &'static str, &'static str)] = &[
    (
        "56E1012000F94623211CC018E400023FCF2A",
        242,
        "56E00380D800",
        "56E103FF80EFD81908E600C7200010100F2A",
    ),
    (
        "56E1022000F94623211CC018E400023FCF3A",
        243,
        "56E00380D800",
        "56E104FF816FE81908E600C7200010100F3A",
    ),
    (
        "56E1032000F94623211CC018E400023FCF4A",
        244,
        "56E00380D800",
        "56E107FF82EFF000281908E600C7200010100F4A",
    ),
];

fn check_length<'a>(
    rt: &(impl Abort + AllocGlobal),
    front: &'a str,
    unit: &'a str,
    bare: &'a str,
    target: &'a str,
    carried: &'a str,
) -> Result<(), Fail> {
    let file = [front, unit, bare];
    let wanted = [front, unit, target, carried, "0C0000"];
    let row = inserting(&["insert", "in", "1", "0", "1"], &file, "");
    check_row(rt, Large, &row, &joined(rt.alloc(), &wanted)?)
}

fn check_lengths(rt: &(impl Abort + AllocGlobal)) -> Result<(), Fail> {
    let alloc = rt.alloc();
    for (front, count, bare, target) in LENGTHS {
        assert!(rt; *count > 0);
        let unit = zeros(alloc, *count)?;
        let carried = zeros(alloc, *count - 1)?;
        check_length(rt, front, unit.as_str(), bare, target, carried.as_str())?;
    }
    Ok(())
}

// Where an access unit of 7900 bytes and a StreamMuxConfig begin.
const NINE: &str =
    "56FF092000F94623211CC018E400023FCFFFFFFFFFFFFFFFFFFFFFFFFFFFFFFFFFFFFFFFFFFFFFFFFFFFFFFFFFFFFFAA";

// Ones of a length, as hexadecimal digits.
const ONES: &str = "FFFFFFFFFFFFFFFFFFFFFFFFFFFFFFFF";

// A preroll of eight of the nine frames before the target makes an element too long, and one of nine has more than an extension
// element can hold.
fn check_nine<'a>(
    rt: &(impl Abort + AllocGlobal),
    front: &'a str,
    first: &'a str,
    later: &'a str,
    target: &'a str,
) -> Result<(), Fail> {
    let file = [front, first, later, target];
    let words = ["insert", "in", "9", "0", "9"];
    let row = inserting(&words, &file, "refused: frame 9: payload too long\n");
    check_row(rt, Large, &row, &[])?;
    let words = ["insert", "in", "8", "0", "9"];
    let row = inserting(&words, &file, "refused: frame 9: too long\n");
    check_row(rt, Large, &row, &[])
}

// Nine frames of 7900 bytes and more.
fn check_long(rt: &(impl Abort + AllocGlobal)) -> Result<(), Fail> {
    let alloc = rt.alloc();
    let first = zeros(alloc, 7900)?;
    let unit = zeros(alloc, 8000)?;
    let mut later = String::new(alloc);
    for _ in 0..8 {
        later.push_str("56FF61")?;
        later.push_str(ONES)?;
        later.push_str("FFFFFFFFFFFFFFFFFFFFFFFFFFFFFFAFD0")?;
        later.push_str(unit.as_str())?;
    }
    check_nine(rt, NINE, first.as_str(), later.as_str(), "56E00380D800")
}

// What is written where a read or a write fails, which come before all rules and behind them.
const FAILED: &[(Pieces, u64, u64, &'static str, u8)] = &[
    (Large, 1, 0, "read fault\n", 3),
    (Bytes, 40, 1, "read fault\n", 3),
    (Large, 0, 1, "write fault\n", 4),
];

#[test]
fn inserts_prerolls(rt: HostRuntime) -> Result<(), Fail> {
    let alloc = rt.alloc();
    for (behind, file, parts, note) in ROWS {
        let words = ["insert", "in", behind[0], behind[1], behind[2]];
        check_both(&rt, &inserting(&words, file, note), &joined(alloc, parts)?)?;
    }
    for behind in NO_CASE {
        let mut words = Vec::new(alloc);
        words.extend_from_slice(&["insert", "in"])?;
        words.extend_from_slice(behind)?;
        let row = Row {
            status: 2,
            ..inserting(&words, BARE, USAGE)
        };
        check_row(&rt, Large, &row, &[])?;
    }
    for (pieces, read, write, note, status) in FAILED {
        let words = ["insert", "in", "1", "0", "4"];
        let row = Row {
            failing: Failing {
                read: *read,
                write: *write,
                core: 1,
                ..NOTHING
            },
            status: *status,
            ..inserting(&words, BARE, note)
        };
        check_row(&rt, *pieces, &row, &[])?;
    }
    check_lengths(&rt)?;
    check_long(&rt)
}

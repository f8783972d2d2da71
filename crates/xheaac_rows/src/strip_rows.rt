// Worked rows of `strip`.
use crate::cases::Pieces::{Bytes, Large};
use crate::cases::{Failing, NOTHING, Pieces, Row, USAGE, check_both, check_row, joined, zeros};
use crate::insert_rows::{
    FADING, LAST, LAST_FADING, LENGTHS, SPREAD, SPREAD_TARGET, THREE, TWO_SLOTS, TWO_TARGETS,
    VERSION_1, VERSION_1_TARGET,
};
use crate::streams::{
    BARE, BEFORE, BEHIND, CARRIES_BOTH, CARRIES_ONE, IMMEDIATE, IMMEDIATE_FRAME, JOINED, OWN, PLAIN,
};
use std::process::Abort;
use std::test::Fail;

// The words behind the file, the bytes of the file, the bytes that are written, and the note.
type Stripped = (
    [&'static str; 2],
    &'static [&'static str],
    &'static [&'static str],
    &'static str,
);

// `IMMEDIATE` without that preroll, its access unit filled up: B0 and 00.
const KEPT: &[&str] = &[OWN, "56E00481580000", BEHIND];

// `IMMEDIATE`, where the last byte of that access unit is 7F; without its preroll it is B0 and FE.
const ENDS_IN_ONES: &[&str] = &[OWN, "56E01187E0C81908E600C72000201000181C3F80", BEHIND];

const ONES_KEPT: &[&str] = &[OWN, "56E00481587F00", BEHIND];

// Two configurations, with an immediate frame of each: frames 4 and 10.
const TWO: &[&str] = &[
    OWN,
    IMMEDIATE_FRAME,
    BEHIND,
    "56E00E2000F94623611CC010B207F8034056E00380C200",
    "56E0128860D61B08E600859020001A000018408000",
];

const TWO_BARE: &[&str] = &[
    OWN,
    "56E00380D800",
    BEHIND,
    "56E00E2000F94623611CC010B207F8034056E00380C200",
    "56E00380C100",
];

const TWO_KEPT: &[&str] = &[
    OWN,
    IMMEDIATE_FRAME,
    BEHIND,
    "56E00E2000F94623611CC010B207F8034056E00380C200",
    "56E00481410000",
];

// `JOINED` without its preroll: the other stream begins with a frame that has none.
const JOINED_BARE: &[&str] = &[BEFORE, "56E0102000F94623211CC018E400043FC01B00", BEHIND];

// The part of frame 4 is there and has no bytes: by usacExtElementUseDefaultLength, where the configuration has no default; and by
// usacExtElementPayloadLength.
const DEFAULT_LENGTH: &[&str] = &[OWN, "56E00380F000"];

const LENGTH_0: &[&str] = &[OWN, "56E00481600000"];

// Frame 4 is the bit 0, a part of four bytes and five bits: without the part it would be seven bits, two of which stand before the rest.
const FEW: &[&str] = &[OWN, "56E0088320400000000000"];

const FEW_KEPT: &[&str] = &[OWN, "56E003808000"];

// The same with eight bits more.
const ENOUGH: &[&str] = &[OWN, "56E00983A040000000000000"];

const ENOUGH_KEPT: &[&str] = &[OWN, "56E00481000000"];

// Frame 1 has a part of one byte, where usacExtElementPayloadFrag is 1: with usacExtElementStart alone, with usacExtElementStop alone,
// and with both and eleven bits behind it.
const START: &[&str] = &["56E0102000F94623211CC118E400043FC0190056E00581E01BFC00"];

const STOP: &[&str] = &["56E0102000F94623211CC118E400043FC0190056E00581E017FC00"];

const BOTH: &[&str] = &["56E0102000F94623211CC118E400043FC0190056E00682601FFED000"];

const BOTH_UNDONE: &[&str] = &["56E0102000F94623211CC118E400043FC0190056E00380D680"];

const BOTH_KEPT: &[&str] = &["56E0102000F94623211CC118E400043FC0190056E00481568000"];

const ROWS: &[Stripped] = &[
    // what `insert` wrote becomes what it read
    (["undo", "4"], IMMEDIATE, BARE, ""),
    (["undo", "all"], IMMEDIATE, BARE, ""),
    (["undo", "4"], FADING, BARE, ""),
    (["undo", "5"], LAST_FADING, LAST, ""),
    (["undo", "2"], CARRIES_ONE, THREE, ""),
    (["undo", "all"], CARRIES_BOTH, THREE, ""),
    (["undo", "1,3"], TWO_TARGETS, TWO_SLOTS, ""),
    (["undo", "all"], TWO_TARGETS, TWO_SLOTS, ""),
    (["undo", "1"], VERSION_1_TARGET, VERSION_1, ""),
    (["undo", "all"], SPREAD_TARGET, SPREAD, ""),
    // each bit is kept, and zeros stand behind it
    (["keep", "4"], IMMEDIATE, KEPT, ""),
    (["keep", "4"], ENDS_IN_ONES, ONES_KEPT, ""),
    (["undo", "all"], TWO, TWO_BARE, ""),
    (["undo", "4,10"], TWO, TWO_BARE, ""),
    (["keep", "10"], TWO, TWO_KEPT, ""),
    (["undo", "all"], JOINED, JOINED_BARE, ""),
    (["keep", "4"], FEW, FEW_KEPT, ""),
    (["undo", "4"], ENOUGH, FEW_KEPT, ""),
    (["keep", "4"], ENOUGH, ENOUGH_KEPT, ""),
    (["undo", "1"], BOTH, BOTH_UNDONE, ""),
    (["keep", "1"], BOTH, BOTH_KEPT, ""),
    // no frame is immediate: all stays as it is
    (["undo", "all"], BARE, BARE, ""),
    (["keep", "all"], PLAIN, PLAIN, ""),
    (["keep", "all"], LENGTH_0, LENGTH_0, ""),
    (["undo", "all"], START, START, ""),
    (["undo", "all"], &[], &[], ""),
    (["undo", "4"], BARE, &[], "refused: frame 4: no preroll\n"),
    (["keep", "4"], BARE, &[], "refused: frame 4: no preroll\n"),
    (["keep", "0"], PLAIN, &[], "refused: frame 0: no preroll\n"),
    (
        ["keep", "4"],
        DEFAULT_LENGTH,
        &[],
        "refused: frame 4: no preroll\n",
    ),
    (
        ["keep", "4"],
        LENGTH_0,
        &[],
        "refused: frame 4: no preroll\n",
    ),
    (["keep", "1"], START, &[], "refused: frame 1: no preroll\n"),
    (["keep", "1"], STOP, &[], "refused: frame 1: no preroll\n"),
    (
        ["undo", "4"],
        ENDS_IN_ONES,
        &[],
        "refused: frame 4: not inserted\n",
    ),
    (
        ["undo", "all"],
        ENDS_IN_ONES,
        &[],
        "refused: frame 4: not inserted\n",
    ),
    (["undo", "4"], FEW, &[], "refused: frame 4: not inserted\n"),
    // target by target
    (
        ["undo", "4,5"],
        ENDS_IN_ONES,
        &[],
        "refused: frame 4: not inserted\n",
    ),
    (
        ["undo", "3,4"],
        ENDS_IN_ONES,
        &[],
        "refused: frame 3: no preroll\n",
    ),
    (
        ["keep", "4,5"],
        IMMEDIATE,
        &[],
        "refused: frame 5: no preroll\n",
    ),
    (["undo", "0"], &[], &[], "refused: bad target 0\n"),
    (["undo", "8"], IMMEDIATE, &[], "refused: bad target 0\n"),
    (["keep", "4,4"], IMMEDIATE, &[], "refused: bad target 1\n"),
    // a rule of the list comes before those of its frames, one of all frames before it, and the end of the file before all rules
    (
        ["undo", "5,4"],
        ENDS_IN_ONES,
        &[],
        "refused: bad target 1\n",
    ),
    (
        ["keep", "999999999999999999"],
        &[OWN, "56E0028000"],
        &[],
        "refused: frame 4 bit 0: frame too short\n",
    ),
    (
        ["undo", "all"],
        &[OWN, IMMEDIATE_FRAME, "56E0028000"],
        &[],
        "refused: frame 5 bit 0: frame too short\n",
    ),
    (
        ["undo", "9,8"],
        &[OWN, "56E0"],
        &[],
        "refused: byte 37: truncated\n",
    ),
];

// The words behind the file where they are no case.
const NO_CASE: &[&[&str]] = &[
    &["undo"],
    &["drop", "4"],
    &["undo", "4", "5"],
    &["", "4"],
    &["undo", ""],
    &["undo", "every:2"],
    &["undo", "4,"],
    &["keep", ",4"],
    &["keep", "4,,5"],
    &["keep", "all,4"],
    &["keep", "ALL"],
];

// `strip` does not use the core: the first call of it fails.
fn stripping<'a>(words: &'a [&'a str], file: &'a [&'a str], note: &'a str) -> Row<'a> {
    Row {
        words,
        file,
        more: &[],
        failing: Failing { core: 1, ..NOTHING },
        note,
        status: if note.is_empty() { 0 } else { 1 },
        fed: 0,
    }
}

// A preroll of 253, 254 or 255 bytes is taken out.
fn check_length<'a>(
    rt: &(impl Abort + AllocGlobal),
    front: &'a str,
    unit: &'a str,
    bare: &'a str,
    target: &'a str,
    carried: &'a str,
) -> Result<(), Fail> {
    let file = [front, unit, target, carried, "0C0000"];
    let wanted = [front, unit, bare];
    let row = stripping(&["strip", "in", "undo", "1"], &file, "");
    check_row(rt, Large, &row, &joined(rt.alloc(), &wanted)?)
}

fn check_lengths(rt: &(impl Abort + AllocGlobal)) -> Result<(), Fail> {
    let alloc = rt.alloc();
    for (front, count, bare, target) in LENGTHS {
        assert!(rt; *count > 0);
        let unit = zeros(alloc, *count)?;
        let carried = zeros(alloc, *count - 1)?;
        check_length(rt, front, unit.as_str(), bare, target, carried.as_str())?;
    }
    Ok(())
}

// What is written where a read or a write fails.
const FAILED: &[(Pieces, u64, u64, &'static [&'static str], &'static str, u8)] = &[
    (Large, 1, 0, &[], "read fault\n", 3),
    (Bytes, 40, 1, &[], "read fault\n", 3),
    (Large, 0, 1, &[], "write fault\n", 4),
    (
        Bytes,
        0,
        20,
        &["56E0102000F94623211CC018E400043FC01900"],
        "write fault\n",
        4,
    ),
];

#[test]
fn strips_prerolls(rt: HostRuntime) -> Result<(), Fail> {
    let alloc = rt.alloc();
    for (behind, file, parts, note) in ROWS {
        let words = ["strip", "in", behind[0], behind[1]];
        check_both(&rt, &stripping(&words, file, note), &joined(alloc, parts)?)?;
    }
    for behind in NO_CASE {
        let mut words = Vec::new(alloc);
        words.extend_from_slice(&["strip", "in"])?;
        words.extend_from_slice(behind)?;
        let row = Row {
            status: 2,
            ..stripping(&words, IMMEDIATE, USAGE)
        };
        check_row(&rt, Large, &row, &[])?;
    }
    for (pieces, read, write, parts, note, status) in FAILED {
        let words = ["strip", "in", "undo", "4"];
        let row = Row {
            failing: Failing {
                read: *read,
                write: *write,
                core: 1,
                ..NOTHING
            },
            status: *status,
            ..stripping(&words, IMMEDIATE, note)
        };
        check_row(&rt, *pieces, &row, &joined(alloc, parts)?)?;
    }
    check_lengths(&rt)
}

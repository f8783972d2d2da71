// Worked rows of `check`.
use crate::cases::{Failing, NOTHING, Pieces, Row, check_both, check_row};
use crate::streams::{BEHIND, CHANGED, EMPTIED, IMMEDIATE, JOINED, OWN, PLAIN, TWO_SLOTS_LOST};
use std::process::Abort;
use std::test::Fail;
use vectors::EIGHT_FRAMES;

// A stream, its line, and its refusal.
type Checked = (&'static [&'static str], &'static str, &'static str);

const CHECKED: &[Checked] = &[
    (
        &[EIGHT_FRAMES],
        "frames 8, configurations 1, independent 3, immediate 0\n",
        "",
    ),
    (
        &[],
        "frames 0, configurations 0, independent 0, immediate 0\n",
        "",
    ),
    (
        IMMEDIATE,
        "frames 8, configurations 1, independent 3, immediate 1\n",
        "",
    ),
    (
        JOINED,
        "frames 8, configurations 2, independent 3, immediate 1\n",
        "",
    ),
    // a preroll element with fragments, and a preroll of two bytes that ends in the frame, but does not begin there
    (
        &["56E0102000F94623211CC20310FF00FB557740"],
        "frames 1, configurations 1, independent 1, immediate 0\n",
        "",
    ),
    (
        PLAIN,
        "frames 2, configurations 1, independent 1, immediate 0\n",
        "",
    ),
    (
        CHANGED,
        "frames 3, configurations 2, independent 2, immediate 0\n",
        "",
    ),
    (TWO_SLOTS_LOST, "", "refused: byte 16: sync lost\n"),
    (EMPTIED, "", "refused: frame 1 bit 0: frame too short\n"),
];

// A LOAS frame that stands for the fifth one of `IMMEDIATE`, and why `check` refuses it: the payload has one byte less; a
// configuration with a reserved coreSbrFrameLengthIndex, and one with 12 bits behind it; another stream identifier, and another
// noiseFilling with the same identifier; an access unit that is no frame, alone and behind one with a preroll; an access unit
// with a preroll, behind one that is dependent; a first access unit that is dependent; none, in a dependent frame.
const BROKEN: &[(&str, &str)] = &[
    (
        "56E01187E0B81908E600C72000201000181C0000",
        "bad preroll at bit 88",
    ),
    (
        "56E01187E0C81D08E600C72000201000181C0000",
        "bad preroll configuration",
    ),
    (
        "56E0128860D91908E600C7200020001000181C0000",
        "bad preroll configuration",
    ),
    (
        "56E01187E0C81908E600C72000A01000181C0000",
        "preroll configuration differs",
    ),
    (
        "56E01187E0C81908E600472000201000181C0000",
        "preroll configuration differs",
    ),
    (
        "56E01187E0C81908E600C720002010001C1C0000",
        "bad carried unit 0 at bit 3",
    ),
    (
        "56E0168A61181908E600C720002020003C020000001C1C0000",
        "bad carried unit 1 at bit 3",
    ),
    (
        "56E0168A61181908E600C720002020001000003C02000C0000",
        "nested preroll in unit 1",
    ),
    (
        "56E01187E0C81908E600C72000201000101C0000",
        "first unit not independent",
    ),
    (
        "56E00E8620981908E600C72000200C0000",
        "first unit not independent",
    ),
];

const CHECK: Row<'static> = Row {
    words: &["check", "in"],
    file: PLAIN,
    more: &[],
    failing: NOTHING,
    note: "",
    status: 0,
    fed: 0,
};

fn check_refused<'a>(
    rt: &(impl Abort + AllocGlobal),
    file: &'a [&'a str],
    note: &'a str,
) -> Result<(), Fail> {
    let row = Row {
        file,
        note,
        status: 1,
        ..CHECK
    };
    check_row(rt, Pieces::Large, &row, b"")
}

#[test]
fn checks_streams(rt: HostRuntime) -> Result<(), Fail> {
    for (parts, line, note) in CHECKED {
        let row = Row {
            file: parts,
            note,
            status: if note.is_empty() { 0 } else { 1 },
            ..CHECK
        };
        check_both(&rt, &row, line.as_bytes())?;
    }
    for (frame, reason) in BROKEN {
        let note = format!(in rt.alloc(); "refused: frame 4: {reason}\n")?;
        check_refused(&rt, &[OWN, *frame, BEHIND], &note)?;
    }
    // the line is the one write
    let stopped = Row {
        failing: Failing {
            write: 1,
            ..NOTHING
        },
        note: "write fault\n",
        status: 4,
        ..CHECK
    };
    check_row(&rt, Pieces::Large, &stopped, b"")?;
    let unread = Row {
        failing: Failing { read: 1, ..NOTHING },
        note: "read fault\n",
        status: 3,
        ..CHECK
    };
    check_row(&rt, Pieces::Large, &unread, b"")
}

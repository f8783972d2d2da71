// Worked rows of `start`.
use crate::cases::{Pieces, Row, USAGE, check_both, check_row, playing, samples_of};
use crate::streams::{CARRIES_ONE, IMMEDIATE, JOINED, PLAIN};
use std::test::Fail;
use vectors::EIGHT_FRAMES;

// A stream, the frame at which a player starts, the first sample of each frame that it plays, how many units are fed, and the
// refusal.
type Started = (
    &'static [&'static str],
    &'static str,
    &'static [u16],
    u64,
    &'static str,
);

const STARTED: &[Started] = &[
    (IMMEDIATE, "4", &[15, 20, 74, 239], 5, ""),
    (IMMEDIATE, "000000000000000004", &[15, 20, 74, 239], 5, ""),
    (IMMEDIATE, "8", &[], 0, "refused: past end\n"),
    // at its fifth frame another configuration begins
    (JOINED, "0", &[1, 7, 28, 40, 15, 20, 74, 239], 9, ""),
    (JOINED, "4", &[15, 20, 74, 239], 5, ""),
    (
        &[EIGHT_FRAMES],
        "0",
        &[1, 7, 28, 40, 13, 31, 108, 335],
        8,
        "",
    ),
    (
        &[EIGHT_FRAMES],
        "4",
        &[],
        0,
        "refused: frame 4: no preroll\n",
    ),
    (&[EIGHT_FRAMES], "8", &[], 0, "refused: past end\n"),
    (
        &[EIGHT_FRAMES],
        "999999999999999999",
        &[],
        0,
        "refused: past end\n",
    ),
    (&[], "0", &[], 0, "refused: past end\n"),
    (
        CARRIES_ONE,
        "2",
        &[],
        0,
        "refused: frame 2: too few units: 1 of 2\n",
    ),
];

// Words that are no number.
const NO_NUMBERS: &[&str] = &["0000000000000000004", "+1", "-1", "", "1x", "one"];

#[test]
fn starts_within_streams(rt: HostRuntime) -> Result<(), Fail> {
    for (parts, frame, firsts, fed, note) in STARTED {
        let words = ["start", "in", *frame];
        let row = Row {
            words: &words,
            ..playing(parts, note, *fed)
        };
        check_both(&rt, &row, &samples_of(rt.alloc(), firsts)?)?;
    }
    for word in NO_NUMBERS {
        let words = ["start", "in", *word];
        let row = Row {
            words: &words,
            status: 2,
            ..playing(PLAIN, USAGE, 0)
        };
        check_row(&rt, Pieces::Large, &row, b"")?;
    }
    Ok(())
}

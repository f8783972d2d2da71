// Worked rows of `plan`.
use crate::cases::{Failing, Pieces, Row, USAGE, check_both, check_row, lines_of};
use crate::streams::{
    BARE, BEHIND, CARRIES_BOTH, CARRIES_ONE, EMPTIED, FADING, IMMEDIATE, IMMEDIATE_FRAME, JOIN,
    JOINED, OWN, TWO_SLOTS_REFUSED,
};
use std::process::Abort;
use std::test::Fail;
use vectors::EIGHT_FRAMES;

// The words, the bytes of the files `in` and `more`, the lines, and the note.
type Planned = (
    &'static [&'static str],
    &'static [&'static str],
    &'static [&'static str],
    &'static [&'static str],
    &'static str,
);

const EIGHT: &[&str] = &[EIGHT_FRAMES];

const ALONE: &[&str] = &["plan", "in", "0"];

// 4096 is frame 4 of 1024 samples, or frame 2 of 2048.
const AT_4096: &[&str] = &["plan", "in", "0", "more", "4096"];

const WHOLE_LINE: &str = "piece 0 frames 0 to 8 carried 0 fade 0\n";

const FIRST_LINE: &str = "piece 0 frames 0 to 4 carried 0 fade 0\n";

const JOINED_LINE: &str = "piece 1 frames 4 to 8 carried 1 fade 0\n";

// Pieces that are there.
const PLANNED: &[Planned] = &[
    (ALONE, EIGHT, &[], &[WHOLE_LINE], ""),
    (AT_4096, EIGHT, IMMEDIATE, &[FIRST_LINE, JOINED_LINE], ""),
    // the joining frame asks for a fade
    (
        AT_4096,
        EIGHT,
        &[OWN, "56E01187E0C81908E600C72000209000181C0000", BEHIND],
        &[FIRST_LINE, "piece 1 frames 4 to 8 carried 1 fade 1\n"],
        "",
    ),
    // two units are needed, and carried
    (
        AT_4096,
        EIGHT,
        CARRIES_BOTH,
        &[FIRST_LINE, "piece 1 frames 2 to 3 carried 2 fade 0\n"],
        "",
    ),
    // the first piece begins within its stream, or with a frame that carries a unit, or that and asks for a fade
    (
        &["plan", "in", "4096"],
        IMMEDIATE,
        &[],
        &["piece 0 frames 4 to 8 carried 1 fade 0\n"],
        "",
    ),
    (
        ALONE,
        &[JOIN, BEHIND],
        &[],
        &["piece 0 frames 0 to 4 carried 1 fade 0\n"],
        "",
    ),
    (
        ALONE,
        &[FADING, BEHIND],
        &[],
        &["piece 0 frames 0 to 4 carried 1 fade 1\n"],
        "",
    ),
    // digits up to 18, and the preroll of a frame that is not the first of its piece
    (
        &[
            "plan",
            "more",
            "000000000000000000",
            "in",
            "000000000000008192",
        ],
        CARRIES_ONE,
        IMMEDIATE,
        &[WHOLE_LINE],
        "refused: piece 1: past end\n",
    ),
];

// Positions at which no piece is.
const MISPLACED: &[Planned] = &[
    (
        &["plan", "in", "0", "more", "4000"],
        EIGHT,
        IMMEDIATE,
        &[],
        "refused: piece 0: no frame at 4000\n",
    ),
    // frames of 2048 samples behind such of 1024
    (
        &["plan", "in", "0", "more", "5120"],
        EIGHT,
        CARRIES_BOTH,
        &["piece 0 frames 0 to 5 carried 0 fade 0\n"],
        "refused: piece 1: no frame at 5120\n",
    ),
    // the same at another rate, and with another number of channels
    (
        &["plan", "in", "0", "more", "5120"],
        EIGHT,
        &["56E00E2000F94624611CC010B207F80340"],
        &["piece 0 frames 0 to 5 carried 0 fade 0\n"],
        "refused: piece 1: rate differs\n",
    ),
    (
        &["plan", "in", "0", "more", "5120"],
        EIGHT,
        &["56E00E2000F94623621CC010B207F80340"],
        &["piece 0 frames 0 to 5 carried 0 fade 0\n"],
        "refused: piece 1: channels differ\n",
    ),
    (
        &["plan", "in", "1"],
        EIGHT,
        &[],
        &[],
        "refused: piece 0: no frame at 1\n",
    ),
    (
        &["plan", "in", "999999999999999999"],
        EIGHT,
        &[],
        &[],
        "refused: piece 0: no frame at 999999999999999999\n",
    ),
    // 999,999,999,999,998,976 is a multiple of 1024
    (
        &["plan", "in", "999999999999998976"],
        EIGHT,
        &[],
        &[],
        "refused: piece 0: past end\n",
    ),
    (
        &["plan", "in", "0", "more", "8192"],
        EIGHT,
        IMMEDIATE,
        &[WHOLE_LINE],
        "refused: piece 1: past end\n",
    ),
    (
        &["plan", "in", "0", "more", "9216"],
        EIGHT,
        IMMEDIATE,
        &[],
        "refused: piece 0: past end\n",
    ),
    (
        &["plan", "in", "8192"],
        EIGHT,
        &[],
        &[],
        "refused: piece 0: past end\n",
    ),
    (ALONE, &[], &[], &[], "refused: piece 0: past end\n"),
    (
        &["plan", "in", "1024"],
        &[],
        &[],
        &[],
        "refused: piece 0: past end\n",
    ),
    // no file is begun: the shelf holds none of this name
    (
        &["plan", "none", "4096", "none", "4096"],
        &[],
        &[],
        &[],
        "refused: piece 1: positions do not rise\n",
    ),
    (
        &["plan", "none", "0", "none", "2", "none", "1", "none", "0"],
        &[],
        &[],
        &[],
        "refused: piece 2: positions do not rise\n",
    ),
];

// Two files, of which the second is joined at 4096, and why it is refused.
type Refused = (&'static [&'static str], &'static str);

// Rules that a frame of the second file breaks behind `EIGHT`, and what is no stream.
const UNSOUND: &[Refused] = &[
    (BARE, "refused: piece 1: frame 4: no preroll\n"),
    (EIGHT, "refused: piece 1: frame 4: same configuration\n"),
    (
        CARRIES_ONE,
        "refused: piece 1: frame 2: too few units: 1 of 2\n",
    ),
    // it carries 83, and 81 stands before it
    (
        &[OWN, "56E01187E0C81908E600C72000201000183C0000", BEHIND],
        "refused: piece 1: frame 4: foreign preroll unit 0\n",
    ),
    // usacSamplingFrequencyIndex 4, also where frame 0 is too short; and with channelConfigurationIndex 2, and that alone
    (
        &["56E00F2000F94624211CC018E400043FC000"],
        "refused: piece 1: rate differs\n",
    ),
    (
        &["56E0102000F94624221CC018E400043FC01900"],
        "refused: piece 1: rate differs\n",
    ),
    (
        &["56E0102000F94623221CC018E400043FC01900"],
        "refused: piece 1: channels differ\n",
    ),
    (
        &["56E00F2000F94623211CC018E400043FC000"],
        "refused: piece 1: frame 0 bit 0: frame too short\n",
    ),
    // two frames, and then another version of the mux
    (
        TWO_SLOTS_REFUSED,
        "refused: piece 1: frame 2 bit 2: out of profile: audioMuxVersionA\n",
    ),
    // what would be the joining frame is lost; a later one is cut; a rule is broken before the fault
    (
        &[OWN, "57E00380D800", BEHIND],
        "refused: piece 1: byte 37: sync lost\n",
    ),
    (
        &[OWN, IMMEDIATE_FRAME, "56E0038084"],
        "refused: piece 1: byte 57: truncated\n",
    ),
    (
        &[OWN, "56E00380D800", "57"],
        "refused: piece 1: frame 4: no preroll\n",
    ),
    (&[], "refused: piece 1: past end\n"),
];

// First files that are no stream; each is at fault behind its piece.
const FAULTY: &[Refused] = &[
    (JOINED, "refused: piece 0: frame 4: configuration changes\n"),
    (
        &[OWN, "56E0038084"],
        "refused: piece 0: byte 37: truncated\n",
    ),
    // at fault before that
    (
        EMPTIED,
        "refused: piece 0: frame 1 bit 0: frame too short\n",
    ),
    (
        &["56E0102000F94623211CC018E400023FC01200", BEHIND],
        "refused: piece 0: frame 0: not independent\n",
    ),
];

// The words, the number of the read that fails, that of the write, the lines, the note, and the status.
type Failed = (
    &'static [&'static str],
    u64,
    u64,
    &'static [&'static str],
    &'static str,
    u8,
);

const FAILED: &[Failed] = &[
    // two reads of each file
    (AT_4096, 1, 0, &[], "read fault\n", 3),
    (AT_4096, 2, 0, &[], "read fault\n", 3),
    (AT_4096, 3, 0, &[FIRST_LINE], "read fault\n", 3),
    (AT_4096, 4, 0, &[FIRST_LINE], "read fault\n", 3),
    (AT_4096, 5, 0, &[FIRST_LINE, JOINED_LINE], "", 0),
    // one write a line
    (AT_4096, 0, 1, &[], "write fault\n", 4),
    (AT_4096, 0, 2, &[FIRST_LINE], "write fault\n", 4),
    (AT_4096, 0, 3, &[FIRST_LINE, JOINED_LINE], "", 0),
    // files that the shelf does not hold
    (&["plan", "none", "0"], 0, 0, &[], "read fault\n", 3),
    (
        &["plan", "in", "0", "none", "4096"],
        0,
        0,
        &[FIRST_LINE],
        "read fault\n",
        3,
    ),
    // words that are no pieces
    (&["plan"], 0, 0, &[], USAGE, 2),
    (&["plan", "in"], 0, 0, &[], USAGE, 2),
    (&["plan", "in", "0", "more"], 0, 0, &[], USAGE, 2),
    (&["plan", "in", ""], 0, 0, &[], USAGE, 2),
    (&["plan", "in", "-1"], 0, 0, &[], USAGE, 2),
    (&["plan", "in", "0", "more", "+4096"], 0, 0, &[], USAGE, 2),
    (&["plan", "in", "0000000000000000000"], 0, 0, &[], USAGE, 2),
];

// `plan` does not use the core: the first call of it fails.
const PLAN: Row<'static> = Row {
    words: AT_4096,
    file: EIGHT,
    more: IMMEDIATE,
    failing: Failing {
        read: 0,
        write: 0,
        note: 0,
        core: 1,
    },
    note: "",
    status: 0,
    fed: 0,
};

fn refused<'a>(file: &'a [&'a str], more: &'a [&'a str], note: &'a str) -> Row<'a> {
    Row {
        file,
        more,
        note,
        status: 1,
        ..PLAN
    }
}

// So many pieces, of files that the shelf does not hold.
fn check_pieces(
    rt: &(impl Abort + AllocGlobal),
    pieces: usize,
    note: &str,
    status: u8,
) -> Result<(), Fail> {
    let mut words = Vec::new(rt.alloc());
    words.push("plan")?;
    for _ in 0..pieces {
        words.push("none")?;
        words.push("0")?;
    }
    let row = Row {
        words: words.as_slice(),
        status,
        ..refused(EIGHT, IMMEDIATE, note)
    };
    check_row(rt, Pieces::Large, &row, b"")
}

#[test]
fn plans_pieces(rt: HostRuntime) -> Result<(), Fail> {
    let alloc = rt.alloc();
    for rows in [PLANNED, MISPLACED] {
        for (words, file, more, lines, note) in rows {
            let row = Row {
                words,
                status: if note.is_empty() { 0 } else { 1 },
                ..refused(file, more, note)
            };
            check_both(&rt, &row, &lines_of(alloc, lines)?)?;
        }
    }
    for (more, note) in UNSOUND {
        check_both(&rt, &refused(EIGHT, more, note), FIRST_LINE.as_bytes())?;
    }
    for (file, note) in FAULTY {
        check_both(&rt, &refused(file, IMMEDIATE, note), b"")?;
    }
    for (words, read, write, lines, note, status) in FAILED {
        let row = Row {
            words,
            failing: Failing {
                read: *read,
                write: *write,
                ..PLAN.failing
            },
            note,
            status: *status,
            ..PLAN
        };
        check_row(&rt, Pieces::Large, &row, &lines_of(alloc, lines)?)?;
    }
    // 64 pieces are the most
    check_pieces(&rt, 64, "refused: piece 1: positions do not rise\n", 1)?;
    check_pieces(&rt, 65, USAGE, 2)
}

// Worked rows of `splice`.
use crate::cases::Pieces::{Bytes, Large};
use crate::cases::{Failing, NOTHING, Pieces, Row, USAGE, check_both, check_row, joined, zeros};
use crate::streams::{
    BARE, BEFORE, BEHIND, CARRIES_BOTH, CARRIES_ONE, EMPTIED, FADED, FIRST, IMMEDIATE,
    IMMEDIATE_FRAME, JOIN, JOINED, OWN, PLAIN, TWO_SLOTS, TWO_SLOTS_REFUSED, VERSION_1,
};
use std::process::Abort;
use std::test::Fail;
use vectors::EIGHT_FRAMES;

// The words, the bytes of the files `in` and `more`, the bytes that are written, and the note.
type Spliced = (
    &'static [&'static str],
    &'static [&'static str],
    &'static [&'static str],
    &'static [&'static str],
    &'static str,
);

const EIGHT: &[&str] = &[EIGHT_FRAMES];

const ALONE: &[&str] = &["splice", "in", "0"];

const AT_4096: &[&str] = &["splice", "in", "0", "more", "4096"];

const SPLICED: &[Spliced] = &[
    // 88 bytes, of which there are rows of `play` and of `check`; and where the joining frame asks for a fade
    (AT_4096, EIGHT, IMMEDIATE, JOINED, ""),
    (
        AT_4096,
        EIGHT,
        &[OWN, "56E01187E0C81908E600C72000209000181C0000", BEHIND],
        FADED,
        "",
    ),
    // the joining frame carries two units
    (
        AT_4096,
        EIGHT,
        CARRIES_BOTH,
        &[
            BEFORE,
            "56E01D2000F94623611CC010B207F82183586C23980216408000680000610200",
        ],
        "",
    ),
    // one stream, from its first frame on, and from within it
    (ALONE, EIGHT, &[], EIGHT, ""),
    (
        &["splice", "in", "4096"],
        IMMEDIATE,
        &[],
        &[JOIN, BEHIND],
        "",
    ),
    // each frame has an element of its own, in version 0 of the mux, with no tail behind UsacConfig
    (ALONE, TWO_SLOTS_ALONE, &[], PLAIN, ""),
    (ALONE, VERSION_1_ALONE, &[], &[FIRST], ""),
];

const TWO_SLOTS_ALONE: &[&str] = &[TWO_SLOTS];

const VERSION_1_ALONE: &[&str] = &[VERSION_1];

const REFUSED: &[Spliced] = &[
    (
        AT_4096,
        EIGHT,
        BARE,
        &[BEFORE],
        "refused: piece 1: frame 4: no preroll\n",
    ),
    (
        AT_4096,
        EIGHT,
        EIGHT,
        &[BEFORE],
        "refused: piece 1: frame 4: same configuration\n",
    ),
    (
        AT_4096,
        EIGHT,
        CARRIES_ONE,
        &[BEFORE],
        "refused: piece 1: frame 2: too few units: 1 of 2\n",
    ),
    (
        AT_4096,
        EIGHT,
        &[OWN, "56E01187E0C81908E600C72000201000183C0000", BEHIND],
        &[BEFORE],
        "refused: piece 1: frame 4: foreign preroll unit 0\n",
    ),
    (
        AT_4096,
        EIGHT,
        &["56E00F2000F94624211CC018E400043FC000"],
        &[BEFORE],
        "refused: piece 1: rate differs\n",
    ),
    (
        AT_4096,
        EIGHT,
        &["56E0102000F94623221CC018E400043FC01900"],
        &[BEFORE],
        "refused: piece 1: channels differ\n",
    ),
    // the frames that are there were written
    (
        &["splice", "in", "0", "more", "9216"],
        EIGHT,
        IMMEDIATE,
        EIGHT,
        "refused: piece 0: past end\n",
    ),
    (
        &["splice", "in", "0", "more", "8192"],
        EIGHT,
        IMMEDIATE,
        EIGHT,
        "refused: piece 1: past end\n",
    ),
    (
        &["splice", "in", "0", "more", "4000"],
        EIGHT,
        IMMEDIATE,
        &[],
        "refused: piece 0: no frame at 4000\n",
    ),
    (
        &["splice", "none", "4096", "none", "4096"],
        &[],
        &[],
        &[],
        "refused: piece 1: positions do not rise\n",
    ),
    // what stands behind a piece is checked too
    (
        AT_4096,
        JOINED,
        IMMEDIATE,
        &[BEFORE],
        "refused: piece 0: frame 4: configuration changes\n",
    ),
    // the second file is at fault before its piece, and within it
    (
        AT_4096,
        EIGHT,
        &[OWN, "57E00380D800", BEHIND],
        &[BEFORE],
        "refused: piece 1: byte 37: sync lost\n",
    ),
    (
        AT_4096,
        EIGHT,
        &[OWN, IMMEDIATE_FRAME, "56E0038084"],
        &[BEFORE, JOIN],
        "refused: piece 1: byte 57: truncated\n",
    ),
    (
        AT_4096,
        EIGHT,
        TWO_SLOTS_REFUSED,
        &[BEFORE],
        "refused: piece 1: frame 2 bit 2: out of profile: audioMuxVersionA\n",
    ),
    // the first one behind its piece, and at a frame of it
    (
        AT_4096,
        &[EIGHT_FRAMES, "57"],
        IMMEDIATE,
        &[BEFORE],
        "refused: piece 0: byte 61: sync lost\n",
    ),
    (
        ALONE,
        EMPTIED,
        &[],
        &[FIRST],
        "refused: piece 0: frame 1 bit 0: frame too short\n",
    ),
    (
        ALONE,
        &["56E0102000F94623211CC018E400023FC01200", BEHIND],
        &[],
        &[],
        "refused: piece 0: frame 0: not independent\n",
    ),
    (ALONE, &[], &[], &[], "refused: piece 0: past end\n"),
];

// The words, how much is taken at once, the number of the read that fails, that of the write, what is written, the note, and the
// status.
type Failed = (
    &'static [&'static str],
    Pieces,
    u64,
    u64,
    &'static [&'static str],
    &'static str,
    u8,
);

const FAILED: &[Failed] = &[
    // one write a frame
    (AT_4096, Large, 0, 1, &[], "write fault\n", 4),
    (AT_4096, Large, 0, 5, &[BEFORE], "write fault\n", 4),
    (AT_4096, Large, 0, 6, &[BEFORE, JOIN], "write fault\n", 4),
    (AT_4096, Large, 0, 9, JOINED, "", 0),
    // two reads of each file
    (AT_4096, Large, 1, 0, &[], "read fault\n", 3),
    (AT_4096, Large, 2, 0, &[BEFORE], "read fault\n", 3),
    (AT_4096, Large, 3, 0, &[BEFORE], "read fault\n", 3),
    (AT_4096, Large, 4, 0, JOINED, "read fault\n", 3),
    // each frame is written before more is read: the first one has 19 bytes
    (AT_4096, Bytes, 19, 1, &[], "read fault\n", 3),
    (AT_4096, Bytes, 20, 1, &[], "write fault\n", 4),
    // a file that the shelf does not hold is begun when its turn comes
    (
        &["splice", "in", "0", "none", "4096"],
        Large,
        0,
        0,
        &[BEFORE],
        "read fault\n",
        3,
    ),
    (
        &["splice", "in", "0", "none", "4096"],
        Large,
        0,
        1,
        &[],
        "write fault\n",
        4,
    ),
    (&["splice"], Large, 0, 0, &[], USAGE, 2),
    (&["splice", "in", "0", "more"], Large, 0, 0, &[], USAGE, 2),
    (&["splice", "in", "-1"], Large, 0, 0, &[], USAGE, 2),
];

// `splice` does not use the core: the first call of it fails.
const SPLICE: Row<'static> = Row {
    words: AT_4096,
    file: EIGHT,
    more: IMMEDIATE,
    failing: Failing { core: 1, ..NOTHING },
    note: "",
    status: 0,
    fed: 0,
};

// The joining frame with zeros behind it, so that its access unit has 8145 bytes, and its element 8178; and where it has 8146. In the
// splice a StreamMuxConfig of 108 bits stands before the first of these: then the element has 8191 bytes, the most that a LOAS frame
// holds.
const LONGEST: &str =
    "56FFF2FFFFFFFFFFFFFFFFFFFFFFFFFFFFFFFFFFFFFFFFFFFFFFFFFFFFFFFFFFFFFFF860C81908E600C72000201000181C";

const TOO_LONG: &str =
    "56FFF3FFFFFFFFFFFFFFFFFFFFFFFFFFFFFFFFFFFFFFFFFFFFFFFFFFFFFFFFFFFFFFF8E0C81908E600C72000201000181C";

const LONGEST_JOIN: &str =
    "56FFFF2000F94623211CC018E400043FCFFFFFFFFFFFFFFFFFFFFFFFFFFFFFFFFFFFFFFFFFFFFFFFFFFFFFFFFFFFFFFF0C1903211CC018E400040200030380";

// A frame that goes on, whose access unit has 8158 bytes, of which the first is A0: its element has 8191 as well.
const LONGEST_PLAYED: &str =
    "56FFFFFFFFFFFFFFFFFFFFFFFFFFFFFFFFFFFFFFFFFFFFFFFFFFFFFFFFFFFFFFFFFFFED0";

fn splicing<'a>(file: &'a [&'a str], more: &'a [&'a str], note: &'a str) -> Row<'a> {
    Row {
        file,
        more,
        note,
        status: if note.is_empty() { 0 } else { 1 },
        ..SPLICE
    }
}

// A joining frame whose element has the most bytes that a LOAS frame holds, and one more; and one that goes on, with the most.
fn check_long(rt: &(impl Abort + AllocGlobal)) -> Result<(), Fail> {
    let alloc = rt.alloc();
    let behind = zeros(alloc, 8132)?;
    let written = zeros(alloc, 8131)?;
    let more = [OWN, LONGEST, behind.as_str(), BEHIND];
    let wanted = joined(alloc, &[BEFORE, LONGEST_JOIN, written.as_str(), BEHIND])?;
    check_row(rt, Large, &splicing(EIGHT, &more, ""), &wanted)?;
    let more = [OWN, TOO_LONG, behind.as_str(), "00", BEHIND];
    let row = splicing(EIGHT, &more, "refused: piece 1: frame 4: too long\n");
    check_row(rt, Large, &row, &joined(alloc, &[BEFORE])?)?;
    let behind = zeros(alloc, 8158)?;
    let file = [OWN, LONGEST_PLAYED, behind.as_str()];
    let row = Row {
        words: ALONE,
        ..splicing(&file, IMMEDIATE, "")
    };
    check_row(rt, Large, &row, &joined(alloc, &file)?)
}

#[test]
fn splices_pieces(rt: HostRuntime) -> Result<(), Fail> {
    let alloc = rt.alloc();
    for rows in [SPLICED, REFUSED] {
        for (words, file, more, parts, note) in rows {
            let row = Row {
                words,
                ..splicing(file, more, note)
            };
            check_both(&rt, &row, &joined(alloc, parts)?)?;
        }
    }
    for (words, pieces, read, write, parts, note, status) in FAILED {
        let row = Row {
            words,
            failing: Failing {
                read: *read,
                write: *write,
                ..SPLICE.failing
            },
            note,
            status: *status,
            ..SPLICE
        };
        check_row(&rt, *pieces, &row, &joined(alloc, parts)?)?;
    }
    check_long(&rt)
}

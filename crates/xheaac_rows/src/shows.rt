// Worked rows of `show`.
use crate::cases::{Failing, NOTHING, Pieces, Row, check_both, check_row, lines_of};
use crate::streams::{
    CHANGED, DECLARED, EMPTIED, FIRST, IMMEDIATE, SECOND, TWO_SLOTS, TWO_SLOTS_REFUSED, VERSION_1,
};
use std::test::Fail;

const MUX_LINE: &str = "mux version=0 subframes=1 fullness=255 other=- crc=-\n";

const TWO_SLOTS_LINE: &str = "mux version=0 subframes=2 fullness=255 other=- crc=-\n";

const VERSION_1_LINES: &str =
    "mux version=1 subframes=1 fullness=192 other=5 crc=c3\nasc index=3 rate=- channels=1 tail=3\nusac rate=48000 frame=1024 channels=1 elements=1 extensions=0 id=-\nelement 0 single tw=0 nf=1\n";

const DECLARED_LINES: &str =
    "asc index=3 rate=- channels=1 tail=0\nusac rate=48000 frame=1024 channels=1 elements=2 extensions=1 id=1\nelement 0 ext type=3 default=- frag=0 config=-\nelement 1 single tw=0 nf=1\nextension 0 type=7 bytes=0001\n";

const PLAIN_LINES: &str =
    "asc index=3 rate=- channels=1 tail=0\nusac rate=48000 frame=1024 channels=1 elements=1 extensions=0 id=-\nelement 0 single tw=0 nf=1\n";

const FIRST_LINE: &str = "frame 0 independent=1 bytes=1 leading=none\n";

const FIRST_LINES: &str =
    "frame 0 independent=1 bytes=1 leading=none\nframe 1 independent=0 bytes=1 leading=none\n";

const IMMEDIATE_LINES: &str =
    "asc index=3 rate=- channels=1 tail=0\nusac rate=48000 frame=1024 channels=1 elements=2 extensions=1 id=2\nelement 0 ext type=3 default=- frag=0 config=-\nelement 1 single tw=0 nf=1\nextension 0 type=7 bytes=0002\n";

const SPLIT_LINES: &str =
    "asc index=3 rate=- channels=1 tail=0\nusac rate=48000 frame=1024 channels=1 elements=2 extensions=0 id=-\nelement 0 ext type=3 default=2 frag=1 config=-\nelement 1 single tw=0 nf=1\n";

const IMMEDIATE_FRAMES: &str =
    "frame 0 independent=1 bytes=1 leading=-\nframe 1 independent=0 bytes=1 leading=-\nframe 2 independent=0 bytes=1 leading=-\nframe 3 independent=1 bytes=1 leading=-\nframe 4 independent=1 bytes=15 leading=12\npreroll config=8 fade=0 reserved=0 units=1 tail=0\nunit 0 81\nframe 5 independent=0 bytes=1 leading=-\nframe 6 independent=0 bytes=1 leading=-\nframe 7 independent=0 bytes=1 leading=-\n";

const TWO_SLOTS_1_LINES: &str =
    "mux version=1 subframes=2 fullness=192 other=5 crc=c3\nasc index=3 rate=- channels=1 tail=3\nusac rate=48000 frame=1024 channels=1 elements=1 extensions=0 id=-\nelement 0 single tw=0 nf=1\n";

// A mux of version 0 for one slot, whose length is 0.
const SHORT_0: &str = "56E00A2000F9462321010FF000";

// The same with two slots, of which the first has no byte and the second has one.
const SHORT_0_FIRST: &str = "56E00C2080F9462321010FF0000680";

// The same, of which the first has one byte and the second has none.
const SHORT_0_SECOND: &str = "56E00C2080F9462321010FF0068000";

// The same three in the mux of `VERSION_1`. The other data are 10110 each time.
const SHORT_1: &str = "56E01147FC000167CA3119080A8C0A000BC300B0";

const SHORT_1_FIRST: &str = "56E01347FC100167CA3119080A8C0A000BC30001A0B0";

const SHORT_1_SECOND: &str = "56E01347FC100167CA3119080A8C0A000BC301A000B0";

// The access unit of `DECLARED` is C0 here: its part 0 is present, and no bit of its length is there.
const SHORT_DECLARED: &str = "56E0102000F94623211CC018E400023FC01C00";

// A stream, its refusal if there is one, and the lines.
type Shown = (
    &'static [&'static str],
    &'static str,
    &'static [&'static str],
);

const SHOWN: &[Shown] = &[
    (
        &[DECLARED],
        "",
        &[
            MUX_LINE,
            DECLARED_LINES,
            "frame 0 independent=1 bytes=1 leading=-\n",
        ],
    ),
    (
        IMMEDIATE,
        "",
        &[MUX_LINE, IMMEDIATE_LINES, IMMEDIATE_FRAMES],
    ),
    // its preroll has one byte less
    (
        &["56E01E2000F94623211CC018E400043FC0FC1703211CC018E40004020003038000"],
        "",
        &[
            MUX_LINE,
            IMMEDIATE_LINES,
            "frame 0 independent=1 bytes=15 leading=11\npreroll bad bit=88\n",
        ],
    ),
    // its preroll does not begin in the frame
    (
        &["56E0102000F94623211CC20310FF00FB557740"],
        "",
        &[
            MUX_LINE,
            SPLIT_LINES,
            "frame 0 independent=1 bytes=3 leading=2\n",
        ],
    ),
    (
        &[TWO_SLOTS],
        "",
        &[TWO_SLOTS_LINE, PLAIN_LINES, FIRST_LINES],
    ),
    (&[VERSION_1], "", &[VERSION_1_LINES, FIRST_LINE]),
    (
        CHANGED,
        "",
        &[
            MUX_LINE,
            PLAIN_LINES,
            FIRST_LINES,
            MUX_LINE,
            DECLARED_LINES,
            "frame 2 independent=1 bytes=1 leading=-\n",
        ],
    ),
    (
        EMPTIED,
        "refused: frame 1 bit 0: frame too short\n",
        &[MUX_LINE, PLAIN_LINES, FIRST_LINE],
    ),
    (&[], "", &[]),
    (
        &[FIRST, SECOND, "56E00B2000F9462321010FF006"],
        "refused: byte 20: truncated\n",
        &[MUX_LINE, PLAIN_LINES, FIRST_LINES],
    ),
    (
        TWO_SLOTS_REFUSED,
        "refused: frame 2 bit 2: out of profile: audioMuxVersionA\n",
        &[TWO_SLOTS_LINE, PLAIN_LINES, FIRST_LINES],
    ),
];

// A stream that is too short at that place behind a StreamMuxConfig: its lines are written, and the frame's is not.
const OPENED: &[Shown] = &[
    // the first frame of a stream
    (
        &[SHORT_0],
        "refused: frame 0 bit 0: frame too short\n",
        &[MUX_LINE, PLAIN_LINES],
    ),
    (
        &[SHORT_0_FIRST],
        "refused: frame 0 bit 0: frame too short\n",
        &[TWO_SLOTS_LINE, PLAIN_LINES],
    ),
    (
        &[SHORT_0_SECOND],
        "refused: frame 1 bit 0: frame too short\n",
        &[TWO_SLOTS_LINE, PLAIN_LINES, FIRST_LINE],
    ),
    (
        &[SHORT_1],
        "refused: frame 0 bit 0: frame too short\n",
        &[VERSION_1_LINES],
    ),
    (
        &[SHORT_1_FIRST],
        "refused: frame 0 bit 0: frame too short\n",
        &[TWO_SLOTS_1_LINES],
    ),
    (
        &[SHORT_1_SECOND],
        "refused: frame 1 bit 0: frame too short\n",
        &[TWO_SLOTS_1_LINES, FIRST_LINE],
    ),
    (
        &[SHORT_DECLARED],
        "refused: frame 0 bit 3: frame too short\n",
        &[MUX_LINE, DECLARED_LINES],
    ),
    // a later one
    (
        &[FIRST, SECOND, SHORT_0],
        "refused: frame 2 bit 0: frame too short\n",
        &[MUX_LINE, PLAIN_LINES, FIRST_LINES, MUX_LINE, PLAIN_LINES],
    ),
    (
        &[TWO_SLOTS, SHORT_0_FIRST],
        "refused: frame 2 bit 0: frame too short\n",
        &[
            TWO_SLOTS_LINE,
            PLAIN_LINES,
            FIRST_LINES,
            TWO_SLOTS_LINE,
            PLAIN_LINES,
        ],
    ),
    (
        &[FIRST, SECOND, SHORT_0_SECOND],
        "refused: frame 3 bit 0: frame too short\n",
        &[
            MUX_LINE,
            PLAIN_LINES,
            FIRST_LINES,
            TWO_SLOTS_LINE,
            PLAIN_LINES,
            "frame 2 independent=1 bytes=1 leading=none\n",
        ],
    ),
    (
        &[VERSION_1, SHORT_1],
        "refused: frame 1 bit 0: frame too short\n",
        &[VERSION_1_LINES, FIRST_LINE, VERSION_1_LINES],
    ),
    (
        &[FIRST, SECOND, SHORT_1_FIRST],
        "refused: frame 2 bit 0: frame too short\n",
        &[MUX_LINE, PLAIN_LINES, FIRST_LINES, TWO_SLOTS_1_LINES],
    ),
    (
        &[VERSION_1, SHORT_1_SECOND],
        "refused: frame 2 bit 0: frame too short\n",
        &[
            VERSION_1_LINES,
            FIRST_LINE,
            TWO_SLOTS_1_LINES,
            "frame 1 independent=1 bytes=1 leading=none\n",
        ],
    ),
    (
        &[FIRST, SECOND, SHORT_DECLARED],
        "refused: frame 2 bit 3: frame too short\n",
        &[MUX_LINE, PLAIN_LINES, FIRST_LINES, MUX_LINE, DECLARED_LINES],
    ),
    // what stands behind such a frame is not read as one
    (
        &[SHORT_1, FIRST, SECOND],
        "refused: frame 0 bit 0: frame too short\n",
        &[VERSION_1_LINES],
    ),
];

const SHOW: Row<'static> = Row {
    words: &["show", "in"],
    file: &[],
    more: &[],
    failing: NOTHING,
    note: "",
    status: 0,
    fed: 0,
};

#[test]
fn shows_streams(rt: HostRuntime) -> Result<(), Fail> {
    let alloc = rt.alloc();
    for rows in [SHOWN, OPENED] {
        for (parts, note, texts) in rows {
            let row = Row {
                file: parts,
                note,
                status: if note.is_empty() { 0 } else { 1 },
                ..SHOW
            };
            check_both(&rt, &row, &lines_of(alloc, texts)?)?;
        }
    }
    // a line is one write: the second; the last of a StreamMuxConfig; that of the frame, of which there is none
    let rows: [(&[&str], u64, u8, &str, &[&str]); 3] = [
        (&[FIRST, SECOND], 2, 4, "write fault\n", &[MUX_LINE]),
        (
            &[SHORT_0],
            4,
            4,
            "write fault\n",
            &[
                MUX_LINE,
                "asc index=3 rate=- channels=1 tail=0\nusac rate=48000 frame=1024 channels=1 elements=1 extensions=0 id=-\n",
            ],
        ),
        (
            &[SHORT_0],
            5,
            1,
            "refused: frame 0 bit 0: frame too short\n",
            &[MUX_LINE, PLAIN_LINES],
        ),
    ];
    for (parts, write, status, note, texts) in rows {
        let row = Row {
            file: parts,
            failing: Failing { write, ..NOTHING },
            note,
            status,
            ..SHOW
        };
        check_row(&rt, Pieces::Large, &row, &lines_of(alloc, texts)?)?;
    }
    Ok(())
}

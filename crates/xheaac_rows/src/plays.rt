// Worked rows of `play`.
use crate::cases::{check_both, playing, samples_of};
use crate::streams::{
    BEFORE, BEHIND, CHANGED, EMPTIED, FADED, FIRST, IMMEDIATE, JOIN, PLAIN, REOPENED, SECOND,
    TWO_SLOTS, TWO_SLOTS_LOST, TWO_SLOTS_REFUSED, TWO_SLOTS_SHORT, VERSION_1,
};
use std::alloc::{AllocError, Global};
use std::process::Abort;
use std::test::Fail;
use vectors::EIGHT_FRAMES;

// A stream, the first sample of each frame that is played, how many units are fed, and the refusal behind them.
type Played = (&'static [&'static str], &'static [u16], u64, &'static str);

const PLAYED: &[Played] = &[
    (PLAIN, &[2, 13], 2, ""),
    (&[TWO_SLOTS], &[2, 13], 2, ""),
    (&[VERSION_1], &[2], 1, ""),
    (REOPENED, &[2, 13, 20], 3, ""),
    (&[], &[], 0, ""),
    // refused by its framing
    (
        &[FIRST, "56E0038088"],
        &[2],
        1,
        "refused: byte 14: truncated\n",
    ),
    (TWO_SLOTS_LOST, &[2, 13], 2, "refused: byte 16: sync lost\n"),
    // refused by an element
    (
        &[SECOND],
        &[],
        0,
        "refused: frame 0 bit 0: no configuration\n",
    ),
    (
        TWO_SLOTS_SHORT,
        &[2, 13],
        2,
        "refused: frame 2 bit 17: mux too short\n",
    ),
    (
        TWO_SLOTS_REFUSED,
        &[2, 13],
        2,
        "refused: frame 2 bit 2: out of profile: audioMuxVersionA\n",
    ),
    // refused by a frame
    (CHANGED, &[2, 13], 2, "refused: frame 2: no preroll\n"),
    (
        EMPTIED,
        &[2],
        1,
        "refused: frame 1 bit 0: frame too short\n",
    ),
    // a leading element: whole; without its last byte; the first byte of the second header is 57
    (&[EIGHT_FRAMES], &[1, 7, 28, 40, 13, 31, 108, 335], 8, ""),
    (
        &[
            "56E0102000F94623211CC018E400023FC01A0056E00380880056E00380840056E00380C20056E00380C10056E00380808056E00380980056E003808C",
        ],
        &[1, 7, 28, 40, 13, 31, 108],
        7,
        "refused: byte 55: truncated\n",
    ),
    (
        &[
            "56E0102000F94623211CC018E400023FC01A00",
            "57E003808800",
            BEHIND,
        ],
        &[1],
        1,
        "refused: byte 19: sync lost\n",
    ),
    // two slots in one element
    (
        &["56E0122080F94623211CC018E400023FC01A001100"],
        &[1, 7],
        2,
        "",
    ),
    // the preroll of a frame that goes on is not stepped
    (IMMEDIATE, &[2, 14, 51, 68, 15, 20, 74, 239], 8, ""),
    // the second access unit is 40: its part 0 is present, and no bit of its length is there; the first is 20
    (
        &[
            "56E0102000F94623211CC018E400023FC01A00",
            "56E00380A000",
            BEHIND,
        ],
        &[1],
        1,
        "refused: frame 1 bit 3: frame too short\n",
    ),
    (
        &["56E0102000F94623211CC018E400023FC01200", SECOND, BEHIND],
        &[],
        0,
        "refused: frame 0: not independent\n",
    ),
];

// Streams with a join at frame 4, which carries one unit.
const JOINS: &[Played] = &[
    // that frame itself, which carries 81; and the same with 83
    (
        &[BEFORE, JOIN, BEHIND],
        &[1, 7, 28, 40, 15, 20, 74, 239],
        9,
        "",
    ),
    (
        &[
            BEFORE,
            "56E01E2000F94623211CC018E400043FC0FC1903211CC018E40004020003078000",
            BEHIND,
        ],
        &[1, 7, 28, 40, 25, 20, 74, 239],
        9,
        "",
    ),
    // the frame itself is not independent, and what it carries is: its value is 3 * 6 + 3, behind 6
    (
        &[
            BEFORE,
            "56E01E2000F94623211CC018E400043FC0F41903211CC018E40004020003038000",
            BEHIND,
        ],
        &[1, 7, 28, 40, 33, 110, 344, 1049],
        9,
        "",
    ),
];

// The same with that frame at the start. Any number of units will do there.
const STARTS: &[Played] = &[
    (&[JOIN, BEHIND], &[15, 20, 74, 239], 5, ""),
    (
        &[
            "56E01E2000F94623211CC018E400043FC0F41903211CC018E40004020003038000",
            BEHIND,
        ],
        &[33, 110, 344, 1049],
        5,
        "",
    ),
    // a preroll with no configuration and no unit: the value is 3, behind none
    (
        &["56E0132000F94623211CC018E400043FC04C02018000", BEHIND],
        &[3, 20, 74, 239],
        4,
        "",
    ),
];

const REFUSED: &[Played] = &[
    // usacSamplingFrequencyIndex 4 in the mux alone
    (
        &[
            BEFORE,
            "56E01E2000F94624211CC018E400043FC0FC1903211CC018E40004020003038000",
            BEHIND,
        ],
        &[1, 7, 28, 40],
        4,
        "refused: frame 4: rate changed\n",
    ),
    // channelConfigurationIndex 2 there
    (
        &[
            BEFORE,
            "56E01E2000F94623221CC018E400043FC0FC1903211CC018E40004020003038000",
            BEHIND,
        ],
        &[1, 7, 28, 40],
        4,
        "refused: frame 4: channels changed\n",
    ),
    // both
    (
        &[
            BEFORE,
            "56E01E2000F94624221CC018E400043FC0FC1903211CC018E40004020003038000",
            BEHIND,
        ],
        &[1, 7, 28, 40],
        4,
        "refused: frame 4: rate changed\n",
    ),
    // the access unit 90; and a configuration that declares no preroll
    (
        &[BEFORE, "56E0102000F94623211CC018E400043FC01900", BEHIND],
        &[1, 7, 28, 40],
        4,
        "refused: frame 4: no preroll\n",
    ),
    (
        &[BEFORE, "56E00B2000F9462321010FF00680", BEHIND],
        &[1, 7, 28, 40],
        4,
        "refused: frame 4: no preroll\n",
    ),
    // the access unit carries none; one, behind SBR of 2:1; one that is dependent, behind SBR
    (
        &[
            BEFORE,
            "56E0132000F94623211CC018E400043FC04C02018000",
            BEHIND,
        ],
        &[1, 7, 28, 40],
        4,
        "refused: frame 4: too few units: 0 of 1\n",
    ),
    (
        &[
            BEFORE,
            "56E01A2000F94623611CC010B207F81B82986C23980216404000607000",
            BEHIND,
        ],
        &[1, 7, 28, 40],
        4,
        "refused: frame 4: too few units: 1 of 2\n",
    ),
    (
        &[
            BEFORE,
            "56E01A2000F94623611CC010B207F81B82986C23980216404000407000",
            BEHIND,
        ],
        &[1, 7, 28, 40],
        4,
        "refused: frame 4: first unit not independent\n",
    ),
    // the access unit C0; the same at another rate; an empty one at another rate
    (
        &[BEFORE, "56E0102000F94623211CC018E400043FC01C00", BEHIND],
        &[1, 7, 28, 40],
        4,
        "refused: frame 4 bit 3: frame too short\n",
    ),
    (
        &[BEFORE, "56E0102000F94624211CC018E400043FC01C00", BEHIND],
        &[1, 7, 28, 40],
        4,
        "refused: frame 4 bit 3: frame too short\n",
    ),
    (
        &[BEFORE, "56E00F2000F94624211CC018E400043FC000", BEHIND],
        &[1, 7, 28, 40],
        4,
        "refused: frame 4 bit 0: frame too short\n",
    ),
];

// A LOAS frame that joins or begins a stream, and the rule that its preroll breaks: it does not begin in the frame, or does not
// end in it; it has a byte less; its configuration has a reserved coreSbrFrameLengthIndex, or 12 bits behind it; that is one of
// another stream; an access unit is no frame; one has a preroll; the first one is dependent; there is none, and the frame is
// dependent.
const PREROLLS: &[(&str, &str)] = &[
    (
        "56E0172000F94623211CC118E400043FC08C08808000C0E00000",
        "preroll split",
    ),
    (
        "56E0172000F94623211CC118E400043FC08C09008000C0E00000",
        "preroll split",
    ),
    (
        "56E01D2000F94623211CC018E400043FC0EC1703211CC018E400040200038000",
        "bad preroll at bit 88",
    ),
    (
        "56E01E2000F94623211CC018E400043FC0FC1903A11CC018E40004020003038000",
        "bad preroll configuration",
    ),
    (
        "56E01F2000F94623211CC018E400043FC10C1B23211CC018E4000400020003038000",
        "bad preroll configuration",
    ),
    (
        "56E01E2000F94623211CC018E400043FC0FC1903211CC018E40014020003038000",
        "preroll configuration differs",
    ),
    (
        "56E0212000F94623211CC018E400043FC12C1F03211CC018E40004040003020003838000",
        "bad carried unit 1 at bit 3",
    ),
    (
        "56E0242000F94623211CC018E400043FC15C2503211CC018E40004040003020009804000018000",
        "nested preroll in unit 1",
    ),
    (
        "56E01E2000F94623211CC018E400043FC0FC1903211CC018E40004020002038000",
        "first unit not independent",
    ),
    (
        "56E01B2000F94623211CC018E400043FC0C41303211CC018E40004018000",
        "first unit not independent",
    ),
];

// The samples of a block from 15 on, into which one from 8 on fades: at a time below 128 the sample is
// (8 + time) * (128 - time) + (15 + time) * time over 128, which is 8 + time + 7 * time / 128.
fn faded(alloc: Global) -> Result<Vec<u8>, AllocError> {
    let mut bytes = samples_of(alloc, &[1, 7, 28, 40])?;
    for time in 0..1024u16 {
        let sample = if time < 128 {
            8 + time + 7 * time / 128
        } else {
            15 + time
        };
        bytes.extend_from_slice(&sample.to_le_bytes())?;
    }
    bytes.extend_from_slice(&samples_of(alloc, &[20, 74, 239])?)?;
    Ok(bytes)
}

// The stream is played up to a refusal, if there is one.
fn check_stream<'a>(
    rt: &(impl Abort + AllocGlobal),
    file: &'a [&'a str],
    firsts: &[u16],
    fed: u64,
    note: &'a str,
) -> Result<(), Fail> {
    let wanted = samples_of(rt.alloc(), firsts)?;
    check_both(rt, &playing(file, note, fed), &wanted)
}

#[test]
fn plays_streams(rt: HostRuntime) -> Result<(), Fail> {
    let alloc = rt.alloc();
    for rows in [PLAYED, JOINS, STARTS, REFUSED] {
        for (parts, firsts, fed, note) in rows {
            check_stream(&rt, parts, firsts, *fed, note)?;
        }
    }
    for (frame, reason) in PREROLLS {
        let note = format!(in alloc; "refused: frame 0: {reason}\n")?;
        check_stream(&rt, &[*frame, BEHIND], &[], 0, &note)?;
        let note = format!(in alloc; "refused: frame 4: {reason}\n")?;
        check_stream(&rt, &[BEFORE, *frame, BEHIND], &[1, 7, 28, 40], 4, &note)?;
    }
    Ok(())
}

#[test]
fn plays_a_fade(rt: HostRuntime) -> Result<(), Fail> {
    let wanted = faded(rt.alloc())?;
    // the samples of frame 4 at the times 0, 64, 127 and 128
    for (place, sample) in [(8192usize, 8u8), (8320, 75), (8446, 141), (8448, 143)] {
        assert_eq!(rt; wanted.get(place).copied(), Some(sample));
    }
    check_both(&rt, &playing(FADED, "", 9), &wanted)
}

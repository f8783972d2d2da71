// Each refusal of a stream or of a configuration, once with its whole line.
use crate::cases::{Pieces, Row, check_row, playing};
use std::test::Fail;

// A stream of which no frame is taken, and the line that says why.
type Refused = (&'static str, &'static str);

// Behind the three bytes of a header, bit 0 of an element is useSameStreamMux. Where that and audioMuxVersion are 0,
// StreamMuxConfig goes on at bit 2 with allStreamsSameTimeFraming, numSubFrames, numProgram at bit 9 and numLayer. The audio
// object type is at bit 16, usacSamplingFrequencyIndex at bit 35, coreSbrFrameLengthIndex at bit 40,
// channelConfigurationIndex at bit 43, and what follows on that at bit 48.
const REFUSED: &[Refused] = &[
    // the second byte is 00, and its upper three bits are not 111
    ("5600", "refused: byte 0: sync lost\n"),
    // half of a header
    ("56", "refused: byte 0: truncated\n"),
    // useSameStreamMux is 1 in the first element
    ("56E003808800", "refused: frame 0 bit 0: no configuration\n"),
    // 0 1 1: version 1 with audioMuxVersionA 1
    (
        "56E00160",
        "refused: frame 0 bit 2: out of profile: audioMuxVersionA\n",
    ),
    // 0 0 0
    (
        "56E00100",
        "refused: frame 0 bit 2: out of profile: allStreamsSameTimeFraming\n",
    ),
    // numProgram is 8
    (
        "56E0022040",
        "refused: frame 0 bit 9: out of profile: numProgram\n",
    ),
    // numLayer is 4
    (
        "56E0022004",
        "refused: frame 0 bit 13: out of profile: numLayer\n",
    ),
    // the plain element, whose configuration ends at bit 57, with frameLengthType 4
    (
        "56E00B2000F9462321014FF00680",
        "refused: frame 0 bit 57: out of profile: frameLengthType\n",
    ),
    // the same with otherDataPresent 1 at bit 68, and the pairs 1 01, 1 00, 0 00: 65,536 bits
    (
        "56E00C2000F9462321010FFC060000",
        "refused: frame 0 bit 69: out of profile: otherDataLenBits\n",
    ),
    // five bits of numSubFrames
    ("56E00120", "refused: frame 0 bit 3: mux too short\n"),
    // version 1 with an ascLen of 1000 in two bytes, of which 19 bits are there
    (
        "56E00847FC00081F47CA31",
        "refused: frame 0 bit 45: mux too short\n",
    ),
    // object type 2, and object type 32 + 11
    (
        "56E003200010",
        "refused: frame 0 bit 16: not USAC: type 2\n",
    ),
    (
        "56E0042000F960",
        "refused: frame 0 bit 16: not USAC: type 43\n",
    ),
    // no bit of coreSbrFrameLengthIndex
    (
        "56E0052000F94623",
        "refused: frame 0 bit 40: configuration too short\n",
    ),
    // version 1 with an ascLen of 49, 8 more than the configuration has behind bit 37
    (
        "56E00F47FC00018FCA3119080AA87F803400",
        "refused: frame 0 bit 78: configuration tail too long\n",
    ),
    // usacSamplingFrequencyIndex 13
    (
        "56E0052000F9462D",
        "refused: frame 0 bit 35: reserved rate index\n",
    ),
    // usacSamplingFrequencyIndex 31, and 24 zeros
    (
        "56E0082000F9463F000000",
        "refused: frame 0 bit 40: rate zero\n",
    ),
    // coreSbrFrameLengthIndex 5
    (
        "56E0062000F94623A0",
        "refused: frame 0 bit 40: reserved frame length index\n",
    ),
    // channelConfigurationIndex 14
    (
        "56E0062000F946232E",
        "refused: frame 0 bit 43: reserved channel index\n",
    ),
    // channelConfigurationIndex 0 with numOutChannels 0, and with 31 + 34
    (
        "56E0072000F946232000",
        "refused: frame 0 bit 48: no channels\n",
    ),
    (
        "56E0082000F9462320F910",
        "refused: frame 0 bit 48: too many channels\n",
    ),
    // numElements is 15 + 49 + 1
    (
        "56E0082000F9462321F310",
        "refused: frame 0 bit 48: too many elements\n",
    ),
];

#[test]
fn refuses_streams(rt: HostRuntime) -> Result<(), Fail> {
    for (stream, note) in REFUSED {
        let parts = [*stream];
        for word in ["play", "show"] {
            let words = [word, "in"];
            let row = Row {
                words: &words,
                ..playing(&parts, note, 0)
            };
            check_row(&rt, Pieces::Large, &row, &[])?;
        }
    }
    Ok(())
}

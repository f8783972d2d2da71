ghost use Rattle.std.specs.Prelude.{◌≡◌};
ghost use Rattle.usac_cfg.specs.UsacConfig.{IsWellFormed as IsUsacWellFormed};
ghost use Rattle.asc.specs.Asc.{IsWellFormed};

use crate::{
    bad_preroll_line, check_line, configuration_lines, frame_line, mux_lines, piece_line,
    preroll_lines,
};
use asc::Asc;
use bit_core::{BitReader, Bits, Items, Octets};
use latm::MuxConfig;
use preroll::read_preroll;
use std::alloc::{AllocError, Global};
use std::process::Abort;
use std::test::Fail;
use usac_cfg::UsacConfig;
use usac_frame::{ExtPart, Frame, LengthForm};

/// A configuration, how many bits it has, and its lines behind that of AudioSpecificConfig.
type Row = (&'static [u8], u64, &'static [&'static str]);

/// The stereo pair with all optional fields, the pair with two positions, and the mono element with SBR behind a preroll.
const ROWS: &[Row] = &[
    (
        b"\x1B\x10\x2C\x59\xED\x5E\xCC\x75\x1D\x00",
        73,
        &[
            "usac rate=48000 frame=2048 channels=2 elements=1 extensions=0 id=-\n",
            "element 0 pair tw=0 nf=1 stereo=3\n",
            "sbr harmonic=1 tes=0 pvc=0 start=5 stop=9 extra1=2,1,2 extra2=2,2,1,1\n",
            "mps freq=3 gain=1 shape=2 decorr=0 high=1 phase=1 ott=10 residual=7,0 quant=1\n",
        ],
    ),
    (
        b"\x19\x00\x80\x10\x50",
        37,
        &[
            "usac rate=48000 frame=1024 channels=2 elements=1 extensions=0 id=-\n",
            "positions 0,1\n",
            "element 0 pair tw=0 nf=1 stereo=0\n",
        ],
    ),
    (
        b"\x1B\x08\xE6\x00\x85\x90",
        47,
        &[
            "usac rate=48000 frame=2048 channels=1 elements=2 extensions=0 id=-\n",
            "element 0 ext type=3 default=- frag=0 config=-\n",
            "element 1 single tw=0 nf=1\n",
            "sbr harmonic=0 tes=0 pvc=0 start=5 stop=9 extra1=- extra2=-\n",
        ],
    ),
];

/// The lines of a configuration with a stream identifier, behind that of AudioSpecificConfig.
const IDENTIFIED: &[&str] = &[
    "usac rate=48000 frame=1024 channels=1 elements=2 extensions=1 id=1\n",
    "element 0 ext type=3 default=- frag=0 config=-\n",
    "element 1 single tw=0 nf=1\n",
    "extension 0 type=7 bytes=0001\n",
];

/// Compares lines with a first one and those behind it.
fn compare(rt: &impl Abort, lines: &[Octets], first: &str, more: &[&str]) {
    assert_eq!(rt; lines.len(), more.len() + 1, "{first}");
    assert_eq!(rt; lines[0].as_slice(), first.as_bytes(), "{first}");
    for i in 0..more.len() {
        let wanted = more[i];
        assert_eq!(rt; lines[i + 1].as_slice(), wanted.as_bytes(), "{wanted}");
    }
}

/// Compares the lines of a configuration with a first one and those behind it.
fn check_lines(
    rt: &(impl Abort + AllocGlobal),
    asc: &Asc,
    first: &str,
    more: &[&str],
) -> Result<(), Fail>
    requires { IsWellFormed asc.now }
{
    let lines = configuration_lines(rt.alloc(), asc)?;
    compare(rt, lines.as_slice(), first, more);
    Ok(())
}

/// A configuration with an explicit rate of 0.
fn asc_of(alloc: Global, usac: UsacConfig) -> Asc
    requires { IsUsacWellFormed usac }
    ensures { IsWellFormed result }
{
    Asc {
        index: 15,
        explicit_rate: 0,
        channels: 2,
        usac,
        tail: Bits::new(alloc),
    }
}

#[test]
fn a_configuration_with_a_stream_identifier(rt: HostRuntime) -> Result<(), Fail> {
    let bytes = b"\xF9\x46\x23\x21\x1C\xC0\x18\xE4\x00\x02";
    let mut reader = BitReader::within(bytes, 0, 79);
    let asc = Asc::read_counted(rt.alloc(), &mut reader)?;
    check_lines(
        &rt,
        &asc,
        "asc index=3 rate=- channels=1 tail=0\n",
        IDENTIFIED,
    )
}

#[test]
fn configurations_with_settings_and_positions(rt: HostRuntime) -> Result<(), Fail> {
    for (bytes, bits, more) in ROWS {
        assert!(rt; bytes.len() <= 10);
        assert!(rt; *bits <= 8 * bytes.len() as u64);
        let mut reader = BitReader::within(bytes, 0, *bits);
        let config = UsacConfig::read(rt.alloc(), &mut reader)?;
        assert_eq!(rt; reader.at(), *bits);
        let asc = asc_of(rt.alloc(), config);
        check_lines(&rt, &asc, "asc index=15 rate=0 channels=2 tail=0\n", more)?;
    }
    Ok(())
}

/// StreamMuxConfigs of that configuration, how many bits they have, and their first lines.
const MUXES: &[(&[u8], u64, &str)] = &[
    // version 1, three slots, 300 bits of other data in two bytes, and a sum
    (
        b"\x8F\xF8\x40\x04\xFF\x94\x62\x32\x11\xCC\x01\x8E\x40\x00\x23\x22\x80\x96\x42\x80",
        154,
        "mux version=1 subframes=3 fullness=200 other=300 crc=0a\n",
    ),
    // the canonical one
    (
        b"\x40\x01\xF2\x8C\x46\x42\x39\x80\x31\xC8\x00\x04\x7F\x80",
        107,
        "mux version=0 subframes=1 fullness=255 other=- crc=-\n",
    ),
    // 64 slots, no bits of other data in one pair, and a sum
    (
        b"\x7F\x01\xF2\x8C\x46\x42\x39\x80\x31\xC8\x00\x04\x00\x40\x1F\x00",
        124,
        "mux version=0 subframes=64 fullness=0 other=0 crc=f0\n",
    ),
];

#[test]
fn muxes_of_both_versions(rt: HostRuntime) -> Result<(), Fail> {
    for (bytes, bits, wanted) in MUXES {
        assert!(rt; bytes.len() <= 20);
        assert!(rt; *bits <= 8 * bytes.len() as u64);
        let mut reader = BitReader::within(bytes, 0, *bits);
        let mux = MuxConfig::read(rt.alloc(), &mut reader)?;
        assert_eq!(rt; reader.at(), *bits);
        let lines = mux_lines(rt.alloc(), &mux)?;
        let Some((first, more)) = lines.as_slice().split_first() else {
            panic!(rt; "no line");
        };
        assert_eq!(rt; first.as_slice(), wanted.as_bytes(), "{wanted}");
        compare(
            &rt,
            more,
            "asc index=3 rate=- channels=1 tail=0\n",
            IDENTIFIED,
        );
    }
    Ok(())
}

/// The number of a frame, whether it is independent, the length of its access unit, the payload of each part that is not
/// absent, and the line.
type FrameRow = (
    u64,
    bool,
    u64,
    &'static [Option<&'static [u8]>],
    &'static str,
);

const FRAMES: &[FrameRow] = &[
    (
        0,
        true,
        1,
        &[],
        "frame 0 independent=1 bytes=1 leading=none\n",
    ),
    (
        0,
        true,
        1,
        &[None],
        "frame 0 independent=1 bytes=1 leading=-\n",
    ),
    (
        37,
        false,
        16,
        &[None, Some(b"twelve bytes"), Some(b"")],
        "frame 37 independent=0 bytes=16 leading=-,12,0\n",
    ),
];

fn part_of(alloc: Global, payload: Option<&[u8]>) -> Result<ExtPart, AllocError> {
    let Some(payload) = payload else {
        return Ok(ExtPart::Absent);
    };
    let payload = Octets::copy_of(alloc, payload)?;
    Ok(ExtPart::Present {
        form: LengthForm::Byte,
        start: true,
        stop: true,
        payload,
    })
}

fn check_frame(rt: &(impl Abort + AllocGlobal), row: &FrameRow) -> Result<(), Fail> {
    let (number, independent, bytes, payloads, wanted) = *row;
    let mut leading = Items::new(rt.alloc());
    for payload in payloads {
        leading.push(part_of(rt.alloc(), *payload)?)?;
    }
    let frame = Frame {
        independent,
        leading,
        rest: Bits::new(rt.alloc()),
    };
    let line = frame_line(rt.alloc(), number, bytes, &frame)?;
    assert_eq!(rt; line.as_slice(), wanted.as_bytes(), "{wanted}");
    Ok(())
}

#[test]
fn frames_have_their_lines(rt: HostRuntime) -> Result<(), Fail> {
    for row in FRAMES {
        check_frame(&rt, row)?;
    }
    Ok(())
}

#[test]
fn prerolls_have_their_lines(rt: HostRuntime) -> Result<(), Fail> {
    let alloc = rt.alloc();
    let payload = b"\x06\x00\x01\x80\x00\x00\xB0";
    let preroll = read_preroll(alloc, payload)?;
    let lines = preroll_lines(alloc, &preroll)?;
    compare(
        &rt,
        lines.as_slice(),
        "preroll config=0 fade=0 reserved=1 units=2 tail=8\n",
        &["unit 0 80\n", "unit 1 -\n"],
    );
    let bad = bad_preroll_line(alloc, 88)?;
    assert_eq!(rt; bad.as_slice(), b"preroll bad bit=88\n".as_slice());
    let checked = check_line(alloc, 8, 2, 3, 1)?;
    let wanted = b"frames 8, configurations 2, independent 3, immediate 1\n";
    assert_eq!(rt; checked.as_slice(), wanted.as_slice());
    Ok(())
}

#[test]
fn pieces_have_their_lines(rt: HostRuntime) -> Result<(), Fail> {
    let first = piece_line(rt.alloc(), 0, 0, 4, 0, true)?;
    let wanted = b"piece 0 frames 0 to 4 carried 0 fade 1\n";
    assert_eq!(rt; first.as_slice(), wanted.as_slice());
    let second = piece_line(rt.alloc(), 1, 4, 8, 1, false)?;
    let wanted = b"piece 1 frames 4 to 8 carried 1 fade 0\n";
    assert_eq!(rt; second.as_slice(), wanted.as_slice());
    Ok(())
}

// Tests of what is decoded alone, and of a core of which listed calls fail, on streams of access units of one byte.
ghost use Rattle.std.specs.Prelude.{◌≡◌, ◌≤◌, length, IfOk};
ghost use Rattle.usac_cfg.specs.UsacConfig.{IsWellFormed};
ghost use Rattle.usac_frame.specs.Frame.{FitsConfig};

use crate::{Core, CoreFault, FaultyCore, FoldCore, Unit, decode_alone};
use bit_core::{BitReader, Bits, Items};
use std::alloc::Global;
use std::process::Abort;
use std::test::Fail;
use usac_cfg::UsacConfig;
use usac_frame::{Frame, FrameFault, read_frame, unit_of};
use vectors::{PREROLL, STREAM_1, bytes_of};

// A configuration in hex, of 48 kHz, 1024 and mono, with a preroll element; the access units; and the value of each frame where
// they are decoded alone: its samples are the value, the value and 1, and so on.
type Stream = (&'static str, [u8; 8], [i16; 8]);

const STREAMS: [Stream; 3] = [
    (
        "1908E600C7200010",
        [0xA0, 0x10, 0x08, 0x84, 0x82, 0x01, 0x30, 0x18],
        [1, 7, 28, 40, 13, 31, 108, 335],
    ),
    (
        "1908E600C7200020",
        [0x90, 0x04, 0x20, 0x81, 0xB0, 0x02, 0x28, 0x09],
        [2, 14, 51, 68, 15, 20, 74, 239],
    ),
    (
        "1908E600C7200030",
        [0xA0, 0x00, 0x00, 0x00, 0x88, 0x84, 0x00, 0x00],
        [1, 5, 15, 45, 57, 10, 20, 60],
    ),
];

fn config_of(rt: &(impl Abort + AllocGlobal), text: &str) -> Result<UsacConfig, Fail>
    ensures { IfOk result IsWellFormed }
{
    let bytes = bytes_of(rt.alloc(), text)?;
    assert!(rt; bytes.len() <= 16);
    let config = UsacConfig::read(rt.alloc(), &mut BitReader::new(&bytes))?;
    Ok(config)
}

// What is read of a configuration fits it.
fn read_fitting(alloc: Global, config: &UsacConfig, au: &[u8]) -> Result<Frame, FrameFault>
    requires { length au.now ≤ 16777216 }
    ensures { IfOk result (λ frame. FitsConfig config.now frame) }
{
    read_frame(alloc, config, au)
}

fn units_of(alloc: Global, config: &UsacConfig, bytes: &[u8; 8]) -> Result<Items<Unit>, Fail> {
    let mut units = Items::new(alloc);
    for byte in bytes {
        let frame = read_fitting(alloc, config, &[*byte])?;
        units.push(unit_of(alloc, config, &frame)?)?;
    }
    Ok(units)
}

// Whether the answer is a fault of the core.
fn failed(answer: Result<(), CoreFault>) -> bool {
    match answer {
        Err(CoreFault::Failed) => true,
        _ => false,
    }
}

#[test]
fn warm_ups(rt: HostRuntime) -> Result<(), Fail> {
    for ((_, text), warm_up) in [(STREAM_1, 1), (PREROLL, 2)] {
        let config = config_of(&rt, text)?;
        assert_eq!(rt; FoldCore::new().warm_up(&config), warm_up, "{text}");
    }
    Ok(())
}

// The samples of the frame with that number.
fn check_frame(rt: &impl Abort, i: usize, value: i16, out: &[i16]) {
    assert!(rt; i < 8);
    for time in 0..1024usize {
        let sample = value.wrapping_add(time as i16);
        assert_eq!(rt;
            out.get(1024 * i + time).copied(),
            Some(sample),
            "frame {i}"
        );
    }
}

fn check_stream(rt: &(impl Abort + AllocGlobal), stream: &Stream) -> Result<(), Fail> {
    let alloc = rt.alloc();
    let (text, bytes, values) = *stream;
    let config = config_of(rt, text)?;
    let units = units_of(alloc, &config, &bytes)?;
    assert_eq!(rt; units.len(), 8);
    let mut out = Vec::new(alloc);
    let mut core = FoldCore::new();
    decode_alone(alloc, &mut core, &config, &units, &mut out)?;
    assert_eq!(rt; core.fed(), 8);
    assert_eq!(rt; out.len(), 8192);
    for (i, value) in values.iter().enumerate() {
        check_frame(rt, i, *value, &out);
    }
    Ok(())
}

#[test]
fn streams_are_decoded_alone(rt: HostRuntime) -> Result<(), Fail> {
    for stream in &STREAMS {
        check_stream(&rt, stream)?;
    }
    Ok(())
}

#[test]
fn a_refusal_leaves_no_blocks(rt: HostRuntime) -> Result<(), Fail> {
    let alloc = rt.alloc();
    let (text, bytes, _) = STREAMS[0];
    let config = config_of(&rt, text)?;
    let units = units_of(alloc, &config, &bytes)?;
    assert_eq!(rt; units.len(), 8);
    let mut core = FaultyCore::new(alloc, FoldCore::new(), &[4])?;
    let mut out = Vec::from_slice(alloc, &[7i16])?;
    assert!(rt; failed(decode_alone(alloc, &mut core, &config, &units, &mut out)));
    assert_eq!(rt; out.as_slice(), [7i16].as_slice());
    assert_eq!(rt; core.fed(), 2);
    assert_eq!(rt; core.faults(), 1);
    Ok(())
}

#[test]
fn listed_resets_and_steps_fail(rt: HostRuntime) -> Result<(), Fail> {
    let alloc = rt.alloc();
    let config = config_of(&rt, STREAM_1.1)?;
    let unit = Unit {
        independent: true,
        bits: Bits::new(alloc),
    };
    let mut core = FaultyCore::new(alloc, FoldCore::new(), &[1, 4])?;
    let mut out = Vec::new(alloc);
    assert!(rt; failed(core.reset(alloc, &config)));
    core.reset(alloc, &config)?;
    core.step(alloc, &unit, &mut out)?;
    assert!(rt; failed(core.step(alloc, &unit, &mut out)));
    assert_eq!(rt; out.len(), 1024);
    assert_eq!(rt; core.fed(), 1);
    assert_eq!(rt; core.faults(), 2);
    Ok(())
}

#[test]
fn listed_flushes_fail(rt: HostRuntime) -> Result<(), Fail> {
    let alloc = rt.alloc();
    let config = config_of(&rt, STREAM_1.1)?;
    let mut core = FaultyCore::new(alloc, FoldCore::new(), &[2])?;
    let mut out = Vec::new(alloc);
    core.reset(alloc, &config)?;
    assert!(rt; failed(core.flush(alloc, &mut out)));
    assert_eq!(rt; out.len(), 0);
    core.reset(alloc, &config)?;
    core.flush(alloc, &mut out)?;
    assert_eq!(rt; out.len(), 128);
    assert_eq!(rt; core.faults(), 1);
    Ok(())
}

ghost use Rattle.std.specs.Prelude.{◌≡◌, ◌≤◌, length, IfOk};
ghost use Rattle.usac_cfg.specs.UsacConfig.{IsWellFormed};
ghost use Rattle.usac_frame.specs.AccessUnit.{IsFrame};

use crate::changing::in_range;
use crate::{Tail, clean, config_bytes, is_open, new_payload, with_payload, without_preroll};
use bit_core::{BitReader, Octets};
use std::alloc::Global;
use std::process::Abort;
use std::test::Fail;
use usac_cfg::{CfgFault, UsacConfig};
use usac_frame::{Frame, FrameFault, is_immediate, read_frame};
use vectors::bytes_of;

// `STREAM_2`, and the same with usacExtElementPayloadFrag at the preroll element.
const PLAIN: &str = "1908E600C7200020";

const SPREAD: &str = "1908E608C7200020";

// The frame B0 of `PLAIN` with a preroll, which carries 81.
const JOINS: &str = "C1903211CC018E4000402000303800";

// A target that carries one access unit: the configuration, the fade flag, the access unit that is carried, the target, and
// what it becomes. The third one carries an access unit that has a preroll, and that is carried without it.
type TargetRow = (&'static str, bool, &'static str, &'static str, &'static str);

const TARGETS: &[TargetRow] = &[
    (PLAIN, false, "81", "B0", JOINS),
    (PLAIN, true, "81", "B0", "C1903211CC018E4000412000303800"),
    (
        PLAIN,
        false,
        JOINS,
        "B0",
        "C1B03211CC018E400040200056001800",
    ),
    (SPREAD, false, "81", "B0", "C19C0C8473046390001008000C0E00"),
];

// How B0 begins and how many bytes it has with a payload of so many zeros: the length in 8 bits, and in 8 ones and 16 bits.
const LENGTHS: &[(usize, &'static str, usize)] = &[
    (253, "DFA0", 256),
    (254, "DFC0", 257),
    (255, "DFE00040", 260),
];

// An access unit, whether its part 0 is absent, and the access unit as it is carried: with a preroll, with none, and with one
// of no bytes.
const CLEANED: &[(&'static str, bool, &'static str)] = &[
    (JOINS, false, "B000"),
    ("B0", true, "B0"),
    ("C018", false, "C018"),
];

// A configuration, an access unit with a preroll, and that without it: where its end is undone, and where it is kept. The ends
// are the zeros of an insertion, ones, and fewer bits than are to go.
type StrippedRow = (
    &'static str,
    &'static str,
    Option<&'static str>,
    &'static str,
);

const STRIPPED: &[StrippedRow] = &[
    (PLAIN, JOINS, Some("B0"), "B000"),
    (PLAIN, "C1903211CC018E400040200030387F", None, "B0FE"),
    (PLAIN, "C02000", None, "80"),
    (SPREAD, "C19C0C8473046390001008000C0E00", Some("B0"), "B000"),
    (SPREAD, "C19C0C8473046390001008000C0E1F", None, "B0F8"),
];

fn config_of(alloc: Global, bytes: &[u8]) -> Result<UsacConfig, CfgFault>
    requires { length bytes.now ≤ 64 }
    ensures { IfOk result (λ config. IsWellFormed config) }
{
    UsacConfig::read(alloc, &mut BitReader::new(bytes))
}

fn config_in(rt: &(impl Abort + AllocGlobal), text: &str) -> Result<UsacConfig, Fail>
    ensures { IfOk result (λ config. IsWellFormed config) }
{
    let bytes = bytes_of(rt.alloc(), text)?;
    assert!(rt; bytes.len() <= 64);
    let config = config_of(rt.alloc(), &bytes)?;
    Ok(config)
}

// An access unit that is read is a frame.
fn read_is(alloc: Global, config: &UsacConfig, au: &[u8]) -> Result<Frame, FrameFault>
    requires { length au.now ≤ 8191 }
    ensures { IfOk result (λ frame. IsFrame config.now au.now frame) }
{
    read_frame(alloc, config, au)
}

// The target, where its part 0 is absent and nothing is too long.
fn target_of(
    alloc: Global,
    config: &UsacConfig,
    fade: bool,
    carried: &[u8],
    au: &[u8],
) -> Result<Option<Octets>, FrameFault>
    requires well_formed { IsWellFormed config.now }
    requires carried { length carried.now ≤ 8191 }
    requires few { length au.now ≤ 8191 }
{
    read_is(alloc, config, carried)?;
    let frame = read_is(alloc, config, au)?;
    let bytes = config_bytes(alloc, config)?;
    if !is_open(&frame.leading) || bytes.len() > 285 {
        return Ok(None);
    }
    let payload = new_payload(alloc, config, bytes.as_slice(), fade, &[in_range(carried)])?;
    if payload.len() > 65788 {
        return Ok(None);
    }
    let target = with_payload(alloc, config, au, payload)?;
    Ok(Some(target))
}

fn check_target(rt: &(impl Abort + AllocGlobal), row: &TargetRow) -> Result<(), Fail> {
    let (config, fade, carried, text, wanted) = *row;
    let config = config_in(rt, config)?;
    let carried = bytes_of(rt.alloc(), carried)?;
    let au = bytes_of(rt.alloc(), text)?;
    assert!(rt; carried.len() <= 64);
    assert!(rt; au.len() <= 64);
    let wanted = bytes_of(rt.alloc(), wanted)?;
    match target_of(rt.alloc(), &config, fade, &carried, &au)? {
        Some(target) => assert_eq!(rt; target.as_slice(), wanted.as_slice(), "{text}"),
        None => panic!(rt; "no target"),
    }
    Ok(())
}

#[test]
fn targets_carry_access_units(rt: HostRuntime) -> Result<(), Fail> {
    for row in TARGETS {
        check_target(&rt, row)?;
    }
    Ok(())
}

// The access unit without its preroll, where it has one.
fn stripped(
    alloc: Global,
    tail: Tail,
    config: &UsacConfig,
    au: &[u8],
) -> Result<Option<Octets>, FrameFault>
    requires { length au.now ≤ 8191 }
{
    let frame = read_is(alloc, config, au)?;
    if !is_immediate(config, &frame) {
        return Ok(None);
    }
    let bytes = without_preroll(alloc, tail, config, au)?;
    Ok(bytes)
}

fn check_end(
    rt: &(impl Abort + AllocGlobal),
    config: &UsacConfig,
    au: &[u8],
    tail: Tail,
    wanted: Option<&'static str>,
) -> Result<(), Fail> {
    assert!(rt; au.len() <= 8191);
    let bytes = stripped(rt.alloc(), tail, config, au)?;
    match (bytes, wanted) {
        (Some(bytes), Some(text)) => {
            let wanted = bytes_of(rt.alloc(), text)?;
            assert_eq!(rt; bytes.as_slice(), wanted.as_slice(), "{text}");
        }
        (bytes, wanted) => assert!(rt; bytes.is_none() && wanted.is_none()),
    }
    Ok(())
}

#[test]
fn prerolls_are_taken_out(rt: HostRuntime) -> Result<(), Fail> {
    for (config, text, undone, kept) in STRIPPED {
        let config = config_in(&rt, config)?;
        let au = bytes_of(rt.alloc(), text)?;
        check_end(&rt, &config, &au, Tail::Undo, *undone)?;
        check_end(&rt, &config, &au, Tail::Keep, Some(*kept))?;
    }
    Ok(())
}

// The target with this payload, where its part 0 is absent.
fn with_zeros(
    alloc: Global,
    config: &UsacConfig,
    au: &[u8],
    payload: Octets,
) -> Result<Option<Octets>, FrameFault>
    requires zeros { length payload ≤ 300 }
    requires few { length au.now ≤ 8191 }
{
    let frame = read_is(alloc, config, au)?;
    if !is_open(&frame.leading) {
        return Ok(None);
    }
    let target = with_payload(alloc, config, au, payload)?;
    Ok(Some(target))
}

fn check_length(
    rt: &(impl Abort + AllocGlobal),
    row: &(usize, &'static str, usize),
) -> Result<(), Fail> {
    let (count, front, len) = *row;
    assert!(rt; count <= 300);
    assert!(rt; len >= 2);
    assert!(rt; len <= 300);
    let config = config_in(rt, PLAIN)?;
    let mut zeros = Vec::new(rt.alloc());
    zeros.resize(count, 0)?;
    let payload = Octets::from_vec(zeros);
    let mut wanted = bytes_of(rt.alloc(), front)?;
    wanted.resize(len - 2, 0)?;
    wanted.push(0x18)?;
    wanted.push(0)?;
    match with_zeros(rt.alloc(), &config, &[0xB0], payload)? {
        Some(target) => {
            assert_eq!(rt; target.as_slice(), wanted.as_slice(), "{front}");
            check_end(rt, &config, target.as_slice(), Tail::Undo, Some("B0"))?;
        }
        None => panic!(rt; "no target"),
    }
    Ok(())
}

#[test]
fn lengths_have_their_forms(rt: HostRuntime) -> Result<(), Fail> {
    for row in LENGTHS {
        check_length(&rt, row)?;
    }
    Ok(())
}

// The access unit as it is carried, and whether its part 0 is absent.
fn cleaned(alloc: Global, config: &UsacConfig, au: &[u8]) -> Result<(Octets, bool), FrameFault>
    requires { length au.now ≤ 8191 }
{
    let frame = read_is(alloc, config, au)?;
    let bytes = clean(alloc, config, au)?;
    Ok((bytes, is_open(&frame.leading)))
}

#[test]
fn carried_access_units_have_no_preroll(rt: HostRuntime) -> Result<(), Fail> {
    let config = config_in(&rt, PLAIN)?;
    for (text, open, wanted) in CLEANED {
        let au = bytes_of(rt.alloc(), text)?;
        assert!(rt; au.len() <= 64);
        let wanted = bytes_of(rt.alloc(), wanted)?;
        let (bytes, found) = cleaned(rt.alloc(), &config, &au)?;
        assert_eq!(rt; bytes.as_slice(), wanted.as_slice(), "{text}");
        assert_eq!(rt; found, *open, "{text}");
    }
    Ok(())
}

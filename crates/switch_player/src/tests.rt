// Worked rows over the example core. Its frame values are 1, 7, 28 and 40 for the access units of `PLAYED`, under `MONO_1`; the
// sample of channel c at time n is the value + n * (c + 1).
ghost use Rattle.std.specs.Prelude.{◌≡◌, ◌≤◌, length, IfOk, false};
ghost use Rattle.usac_cfg.specs.UsacConfig.{IsWellFormed};
ghost use Rattle.switch_player.specs.Feeding.{IsInStep};

use crate::{PlayFault, Player, blend};
use bit_core::BitReader;
use core_iface::{Core, FaultyCore, FoldCore};
use preroll::CarryFault;
use std::alloc::Global;
use std::process::Abort;
use std::test::Fail;
use usac_cfg::{CfgFault, UsacConfig};
use vectors::bytes_of;

// 48 kHz, 1024, mono, a preroll element and a single element with noise filling, stream identifiers 1 and 2.
const MONO_1: &str = "1908E600C7200010";

const MONO_2: &str = "1908E600C7200020";

// 48 kHz, 2:1, mono, a preroll element and a single element with noise filling and SBR.
const SBR: &str = "1B08E6008590";

// 48 kHz, 1024, stereo, a preroll element and a pair with noise filling, stream identifiers 1 and 2.
const STEREO_1: &str = "1910E602C7200010";

const STEREO_2: &str = "1910E602C7200020";

// `MONO_2` at 44,100 Hz.
const SLOWER: &str = "2108E600C7200020";

const PLAYED: &[&str] = &["A0", "10", "08", "84"];

// The access unit C0, whose preroll carries 81, without and with a fade. Its configuration is empty, so it is that of any frame.
const JOINS: &str = "C08020003038";

const FADES: &str = "C08120003038";

// The same with the configuration `MONO_2` in it, and with one of another stream identifier than that.
const JOINS_2: &str = "C1903211CC018E4000402000303800";

const DIFFERS: &str = "C1903211CC018E4001402000303800";

// What a test says of an answer: the rule by its name, and the numbers that it has.
type Named = (&'static str, u64, u64);

fn named(answer: &Result<(), PlayFault>) -> Named {
    match answer {
        Ok(()) => ("", 0, 0),
        Err(PlayFault::FrameFault { at }) => ("FrameFault", *at, 0),
        Err(PlayFault::NotIndependent) => ("NotIndependent", 0, 0),
        Err(PlayFault::RateChanged) => ("RateChanged", 0, 0),
        Err(PlayFault::ChannelsChanged) => ("ChannelsChanged", 0, 0),
        Err(PlayFault::Carry(CarryFault::NotImmediate)) => ("NotImmediate", 0, 0),
        Err(PlayFault::Carry(CarryFault::ConfigDiffers)) => ("ConfigDiffers", 0, 0),
        Err(PlayFault::Carry(_)) => ("Carry", 0, 0),
        Err(PlayFault::TooFew { have, need }) => ("TooFew", u64::from(*have), u64::from(*need)),
        Err(PlayFault::CoreFault) => ("CoreFault", 0, 0),
        Err(PlayFault::Memory(_)) => ("Memory", 0, 0),
        Err(PlayFault::Stopped) => ("Stopped", 0, 0),
    }
}

fn read_config(alloc: Global, bytes: &[u8]) -> Result<UsacConfig, CfgFault>
    requires { length bytes.now ≤ 16777216 }
    ensures { IfOk result (λ config. IsWellFormed config) }
{
    UsacConfig::read(alloc, &mut BitReader::new(bytes))
}

// Feeds an access unit with its configuration, both in hex.
fn feed<C: Core>(
    rt: &(impl Abort + AllocGlobal),
    player: &mut Player,
    core: &mut C,
    frame: (&str, &str),
    out: &mut Vec<i16>,
) -> Result<Named, Fail>
    requires { player.old.stopped ≡ false → IsInStep C.does player.old.last (C.meaning core.old).ready }
    ensures { player.new.stopped ≡ false → IsInStep C.does player.new.last (C.meaning core.new).ready }
{
    let config = bytes_of(rt.alloc(), frame.0)?;
    let au = bytes_of(rt.alloc(), frame.1)?;
    assert!(rt; config.len() <= 16 && au.len() <= 64 && core.fed() <= 1000);
    let config = read_config(rt.alloc(), &config)?;
    Ok(named(&player.feed(rt.alloc(), core, &config, &au, out)))
}

// Feeds access units of one configuration, up to the first that is not played.
fn feed_all<C: Core>(
    rt: &(impl Abort + AllocGlobal),
    player: &mut Player,
    core: &mut C,
    config: &str,
    units: &[&str],
    out: &mut Vec<i16>,
) -> Result<Named, Fail>
    requires { player.old.stopped ≡ false → IsInStep C.does player.old.last (C.meaning core.old).ready }
    ensures { player.new.stopped ≡ false → IsInStep C.does player.new.last (C.meaning core.new).ready }
{
    for au in units {
        let answer = feed(rt, player, core, (config, au), out)?;
        if !answer.0.is_empty() {
            return Ok(answer);
        }
    }
    Ok(("", 0, 0))
}

#[test]
fn a_mixture_is_rounded_down(rt: HostRuntime) -> Result<(), Fail> {
    let mut block: [i16; 130] = [0; 130];
    blend(&[-1; 128], &mut block, 1);
    assert_eq!(rt;
        (block[0], block[64], block[127], block[128]),
        (-1, -1, -1, 0)
    );
    Ok(())
}

// A join behind frames of an old stream: the old configuration and access units, the new configuration and access unit; how many
// units are fed; and of the block the length, and samples by their places.
type JoinRow = (
    &'static str,
    &'static [&'static str],
    &'static str,
    &'static str,
    u64,
    usize,
    &'static [(usize, i16)],
);

const JOIN_ROWS: &[JoinRow] = &[
    // without a fade: the value is 3 + 2 * 6
    (
        MONO_1,
        PLAYED,
        MONO_2,
        JOINS_2,
        6,
        1024,
        &[(0, 15), (64, 79), (127, 142), (128, 143)],
    ),
    // old is 2 * 4 + n, new is 15 + n
    (
        MONO_1,
        PLAYED,
        MONO_2,
        FADES,
        6,
        1024,
        &[(0, 8), (64, 75), (127, 141), (128, 143)],
    ),
    // behind SBR two values are drained: old is 2 * 4 + 3 * 1 + n
    (
        SBR,
        &["A0", "84"],
        MONO_2,
        FADES,
        4,
        1024,
        &[(0, 11), (64, 77), (127, 141), (128, 143)],
    ),
    // stereo: old is 2 * 1 + n * (c + 1), new is 15 + n * (c + 1), at place 2 * n + c
    (
        STEREO_1,
        &["A0"],
        STEREO_2,
        FADES,
        3,
        2048,
        &[
            (0, 2),
            (1, 2),
            (128, 72),
            (129, 136),
            (254, 141),
            (255, 268),
            (256, 143),
            (257, 271),
        ],
    ),
    // into the same configuration a frame goes on, whatever its preroll: the value is 3 + 2 * 1
    (
        STEREO_1,
        &["A0"],
        STEREO_1,
        FADES,
        2,
        2048,
        &[(0, 5), (1, 5), (128, 69), (129, 133)],
    ),
];

fn check_join(rt: &(impl Abort + AllocGlobal), row: &JoinRow) -> Result<(), Fail> {
    let (old, units, new, au, fed, length, samples) = *row;
    let mut player = Player::new();
    let mut core = FoldCore::new();
    let mut out = Vec::new(rt.alloc());
    let before = feed_all(rt, &mut player, &mut core, old, units, &mut out)?;
    assert_eq!(rt; before, ("", 0, 0), "{old}");
    out.clear();
    let answer = feed(rt, &mut player, &mut core, (new, au), &mut out)?;
    assert_eq!(rt;
        (answer, core.fed(), out.len()),
        (("", 0, 0), fed, length),
        "{old} {au}"
    );
    for (at, sample) in samples {
        assert_eq!(rt; out.get(*at).copied(), Some(*sample), "{old} {au}: {at}");
    }
    Ok(())
}

#[test]
fn joins_are_played(rt: HostRuntime) -> Result<(), Fail> {
    for row in JOIN_ROWS {
        check_join(&rt, row)?;
    }
    Ok(())
}

// A frame behind a first one, or as the first where that has no access unit; and why it is refused.
const REFUSALS: &[((&str, &str), (&str, &str), Named)] = &[
    // the first frame
    (("", ""), (MONO_1, "40"), ("FrameFault", 3, 0)),
    (("", ""), (MONO_1, "10"), ("NotIndependent", 0, 0)),
    (("", ""), (MONO_2, DIFFERS), ("ConfigDiffers", 0, 0)),
    // a join
    ((MONO_1, "A0"), (SLOWER, "40"), ("FrameFault", 3, 0)),
    ((MONO_1, "A0"), (SLOWER, "B0"), ("RateChanged", 0, 0)),
    ((MONO_1, "A0"), (STEREO_2, "B0"), ("ChannelsChanged", 0, 0)),
    ((MONO_1, "A0"), (MONO_2, "B0"), ("NotImmediate", 0, 0)),
    ((MONO_1, "A0"), (MONO_2, DIFFERS), ("ConfigDiffers", 0, 0)),
    ((MONO_1, "A0"), (SBR, JOINS), ("TooFew", 1, 2)),
    // the configuration goes on
    ((MONO_1, "A0"), (MONO_1, "40"), ("FrameFault", 3, 0)),
];

// Behind a refusal the stream goes on as if nothing had been fed.
fn check_refusal(
    rt: &(impl Abort + AllocGlobal),
    first: (&str, &str),
    refused: (&str, &str),
    fault: Named,
) -> Result<(), Fail> {
    let mut player = Player::new();
    let mut core = FoldCore::new();
    let mut out = Vec::new(rt.alloc());
    let starts = first.1.is_empty();
    if !starts {
        assert_eq!(rt;
            feed(rt, &mut player, &mut core, first, &mut out)?,
            ("", 0, 0)
        );
    }
    let before = (core.fed(), out.len());
    assert_eq!(rt; feed(rt, &mut player, &mut core, refused, &mut out)?, fault);
    assert_eq!(rt;
        (core.fed(), out.len()),
        before,
        "{} {}",
        refused.0,
        refused.1
    );
    let next = if starts { "A0" } else { "10" };
    assert_eq!(rt;
        feed(rt, &mut player, &mut core, (MONO_1, next), &mut out)?,
        ("", 0, 0)
    );
    assert_eq!(rt;
        out.get(before.1).copied(),
        Some(if starts { 1 } else { 7 }),
        "{}",
        refused.1
    );
    Ok(())
}

#[test]
fn the_first_broken_rule_is_answered(rt: HostRuntime) -> Result<(), Fail> {
    for (first, refused, fault) in REFUSALS {
        check_refusal(&rt, *first, *refused, *fault)?;
    }
    Ok(())
}

// A frame within a stream as the first one: its configuration and access unit, and why it is refused.
const STARTS: &[(&str, &str, Named)] = &[
    (MONO_1, "40", ("FrameFault", 3, 0)),
    (MONO_1, "A0", ("NotImmediate", 0, 0)),
    (MONO_2, DIFFERS, ("ConfigDiffers", 0, 0)),
    (SBR, JOINS, ("TooFew", 1, 2)),
    (MONO_2, FADES, ("", 0, 0)),
];

// What is refused leaves a player that can start elsewhere. At the start nothing fades.
fn check_start(
    rt: &(impl Abort + AllocGlobal),
    config: &str,
    au: &str,
    fault: Named,
) -> Result<(), Fail> {
    let config = bytes_of(rt.alloc(), config)?;
    let bytes = bytes_of(rt.alloc(), au)?;
    assert!(rt; config.len() <= 16 && bytes.len() <= 64);
    let config = read_config(rt.alloc(), &config)?;
    let mut player = Player::new();
    let mut core = FoldCore::new();
    let mut out = Vec::new(rt.alloc());
    let answer = named(&player.start_at(rt.alloc(), &mut core, &config, &bytes, &mut out));
    assert_eq!(rt; answer, fault, "{au}");
    let played = fault.0.is_empty();
    let wanted = if played {
        (2, 1024, Some(15))
    } else {
        (0, 0, None)
    };
    assert_eq!(rt;
        (core.fed(), out.len(), out.first().copied()),
        wanted,
        "{au}"
    );
    assert_eq!(rt; player.stopped(), false, "{au}");
    assert_eq!(rt; player.finish().is_some(), played, "{au}");
    Ok(())
}

#[test]
fn a_start_within_a_stream_is_judged(rt: HostRuntime) -> Result<(), Fail> {
    for (config, au, fault) in STARTS {
        check_start(&rt, config, au, *fault)?;
    }
    Ok(())
}

// A core one of whose calls fails, over four frames and a join that fades behind them: reset, four steps; flush, reset, a step for
// the carried unit and one for the frame.
fn check_failing(rt: &(impl Abort + AllocGlobal), failing: u64) -> Result<(), Fail> {
    let mut player = Player::new();
    let mut core = FaultyCore::new(rt.alloc(), FoldCore::new(), &[failing])?;
    let mut out = Vec::new(rt.alloc());
    let mut answer = feed_all(rt, &mut player, &mut core, MONO_1, PLAYED, &mut out)?;
    if answer.0.is_empty() {
        answer = feed(rt, &mut player, &mut core, (MONO_2, FADES), &mut out)?;
    }
    let stops = failing <= 9;
    let wanted = if stops { "CoreFault" } else { "" };
    assert_eq!(rt; answer, (wanted, 0, 0), "call {failing}");
    // a frame is played where its last call did not fail; a carried unit is fed before its frame
    let frames = if failing <= 5 {
        failing.saturating_sub(2)
    } else if stops {
        4
    } else {
        5
    };
    let carried: u64 = if failing >= 9 { 1 } else { 0 };
    assert_eq!(rt; out.len() as u64, frames * 1024, "call {failing}");
    assert_eq!(rt; core.fed(), frames + carried, "call {failing}");
    assert_eq!(rt;
        (player.stopped(), core.faults()),
        (stops, if stops { 1 } else { 0 }),
        "call {failing}"
    );
    let next = feed(rt, &mut player, &mut core, (MONO_2, "90"), &mut out)?;
    assert_eq!(rt;
        next.0,
        if stops { "Stopped" } else { "" },
        "call {failing}"
    );
    Ok(())
}

#[test]
fn each_call_of_the_core_fails(rt: HostRuntime) -> Result<(), Fail> {
    for failing in 1..10u64 {
        check_failing(&rt, failing)?;
    }
    // the frame behind the join is call 10
    check_failing(&rt, 11)
}

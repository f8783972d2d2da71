// Worked streams are checked, frame by frame.
ghost use Rattle.std.specs.Prelude.{◌≤◌, length, IfOk};
ghost use Rattle.usac_cfg.specs.UsacConfig.{IsWellFormed};

use crate::renditions::{MONO_2, Named, ROWS, Row, WINDOWS};
use crate::{PieceRun, SpliceFault, Turn};
use bit_core::BitReader;
use preroll::CarryFault;
use std::alloc::Global;
use std::process::Abort;
use std::test::Fail;
use timeline::PlanFault;
use usac_cfg::{CfgFault, UsacConfig};
use vectors::bytes_of;

fn named_plan(fault: &PlanFault) -> Named {
    match fault {
        PlanFault::RateDiffers { piece } => ("RateDiffers", u64::from(*piece), 0, 0),
        PlanFault::ChannelsDiffer { piece } => ("ChannelsDiffer", u64::from(*piece), 0, 0),
        PlanFault::NoFrameAt { piece, position } => ("NoFrameAt", u64::from(*piece), *position, 0),
        PlanFault::PastEnd { piece } => ("PastEnd", u64::from(*piece), 0, 0),
        _ => ("Plan", 0, 0, 0),
    }
}

fn named(fault: &SpliceFault) -> Named {
    match fault {
        SpliceFault::Plan(fault) => named_plan(fault),
        SpliceFault::ConfigChanges { frame } => ("ConfigChanges", *frame, 0, 0),
        SpliceFault::Frame { frame, at } => ("Frame", *frame, *at, 0),
        SpliceFault::NotIndependent { frame } => ("NotIndependent", *frame, 0, 0),
        SpliceFault::Carry {
            frame,
            fault: CarryFault::NotImmediate,
        } => ("NotImmediate", *frame, 0, 0),
        SpliceFault::Carry { frame, .. } => ("Carry", *frame, 0, 0),
        SpliceFault::SameConfig { frame } => ("SameConfig", *frame, 0, 0),
        SpliceFault::TooFew { frame, have, need } => {
            ("TooFew", *frame, u64::from(*have), u64::from(*need))
        }
        SpliceFault::PrerollForeign { frame, k } => ("PrerollForeign", *frame, u64::from(*k), 0),
        SpliceFault::Ended => ("Ended", 0, 0, 0),
        SpliceFault::Memory(_) => ("Memory", 0, 0, 0),
    }
}

// A turn as a letter, and what it has besides.
fn lettered(turn: Turn) -> (u8, u32, bool) {
    match turn {
        Turn::Skip => (b's', 0, false),
        Turn::Start { units, fade } => (b'S', units, fade),
        Turn::Join { units, fade } => (b'J', units, fade),
        Turn::Play => (b'p', 0, false),
        Turn::After => (b'a', 0, false),
    }
}

fn read_config(alloc: Global, bytes: &[u8]) -> Result<UsacConfig, CfgFault>
    requires { length bytes.now ≤ 16777216 }
    ensures { IfOk result (λ config. IsWellFormed config) }
{
    UsacConfig::read(alloc, &mut BitReader::new(bytes))
}

// Feeds an access unit with its configuration, both in hex.
fn feed(
    rt: &(impl Abort + AllocGlobal),
    run: &mut PieceRun,
    config: &str,
    au: &str,
    need: u32,
) -> Result<Result<Turn, Named>, Fail> {
    let config = bytes_of(rt.alloc(), config)?;
    let au = bytes_of(rt.alloc(), au)?;
    assert!(rt; config.len() <= 16 && au.len() <= 100 && run.fed() <= 100);
    let config = read_config(rt.alloc(), &config)?;
    match run.feed(rt.alloc(), &config, &au, need) {
        Ok(turn) => Ok(Ok(turn)),
        Err(fault) => Ok(Err(named(&fault))),
    }
}

fn check_turn(rt: &impl Abort, row: &Row, place: usize, turn: Turn) {
    let (letter, units, fade) = lettered(turn);
    assert_eq!(rt; row.turns.as_bytes().get(place).copied(), Some(letter));
    if letter == b'S' || letter == b'J' {
        assert_eq!(rt; (units, fade), row.begins);
    }
}

// Feeds a rendition, up to its end or the first frame that is refused.
fn check_row(rt: &(impl Abort + AllocGlobal), run: &mut PieceRun, row: &Row) -> Result<(), Fail> {
    let mut ends = None;
    for (place, au) in row.units.iter().enumerate() {
        let is_last = place + 1 == row.units.len() && !row.last.is_empty();
        let config = if is_last { row.last } else { row.config };
        match feed(rt, run, config, au, row.need)? {
            Ok(turn) => check_turn(rt, row, place, turn),
            Err(fault) => {
                assert_eq!(rt; place, row.turns.len());
                ends = Some(Err(fault));
                break;
            }
        }
    }
    let refused = ends.is_some();
    let end = match run.end() {
        Ok(piece) => Ok((piece.from, piece.to)),
        Err(fault) => Err(named(&fault)),
    };
    assert_eq!(rt; ends.unwrap_or(end), row.ends);
    if refused {
        assert_eq!(rt; end, Err(("Ended", 0, 0, 0)));
        let next = feed(rt, run, row.config, "90", row.need)?;
        assert_eq!(rt; next.err(), Some(("Ended", 0, 0, 0)));
    }
    Ok(())
}

#[test]
fn renditions_are_checked(rt: HostRuntime) -> Result<(), Fail> {
    for row in ROWS {
        let mut before = None;
        if !row.before.is_empty() {
            let bytes = bytes_of(rt.alloc(), row.before)?;
            assert!(rt; bytes.len() <= 16);
            before = Some(read_config(rt.alloc(), &bytes)?);
        }
        let mut run = PieceRun::new(rt.alloc(), 1, row.at, row.until, before);
        check_row(&rt, &mut run, row)?;
        // the next rendition is checked behind this one
        run.follow(2, 0, None);
        assert_eq!(rt; (run.fed(), run.end().is_err()), (0, true));
    }
    Ok(())
}

#[test]
fn the_last_eighteen_units_are_kept(rt: HostRuntime) -> Result<(), Fail> {
    let config = bytes_of(rt.alloc(), MONO_2)?;
    assert!(rt; config.len() <= 16);
    let config = read_config(rt.alloc(), &config)?;
    for (frames, au, wanted) in WINDOWS {
        let mut run = PieceRun::new(rt.alloc(), 0, u64::from(*frames) * 1024, None, None);
        for unit in 0x81..0x81 + *frames {
            assert!(rt; run.fed() <= 100);
            let turn = run.feed(rt.alloc(), &config, &[unit], 1);
            assert!(rt; matches!(turn, Ok(Turn::Skip)));
        }
        let answer = match feed(&rt, &mut run, MONO_2, au, 1)? {
            Ok(turn) => Ok(lettered(turn).1),
            Err(fault) => Err(fault),
        };
        assert_eq!(rt; answer, *wanted);
    }
    Ok(())
}

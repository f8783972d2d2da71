use crate::{PieceBounds, PlanFault, Shape, bounds, check_positions, plan};
use std::process::Abort;
use std::test::Fail;

// A shape: rate, frame length, channels, frames.
type ShapeRow = (u32, u32, u32, u64);

const MONO: ShapeRow = (48000, 1024, 1, 8);

const SLOWER: ShapeRow = (44100, 1024, 1, 8);

const STEREO: ShapeRow = (48000, 1024, 2, 8);

const LONGER: ShapeRow = (48000, 2048, 1, 3);

// The name of a fault, its piece, and its position, where it has one.
type Named = (&'static str, u32, u64);

fn named(fault: &PlanFault) -> Named {
    match fault {
        PlanFault::BadOrder { piece } => ("BadOrder", *piece, 0),
        PlanFault::NoFrameAt { piece, position } => ("NoFrameAt", *piece, *position),
        PlanFault::RateDiffers { piece } => ("RateDiffers", *piece, 0),
        PlanFault::ChannelsDiffer { piece } => ("ChannelsDiffer", *piece, 0),
        PlanFault::PastEnd { piece } => ("PastEnd", *piece, 0),
        PlanFault::Memory(_) => ("Memory", 0, 0),
    }
}

// The shapes of the streams behind a first one like `MONO`, the positions, and the pieces, or the fault.
type PlanRow = (
    &'static [ShapeRow],
    &'static [u64],
    Result<&'static [(u64, u64)], Named>,
);

const PLANS: &[PlanRow] = &[
    (&[MONO], &[0, 4096], Ok(&[(0, 4), (4, 8)])),
    (&[], &[4096], Ok(&[(4, 8)])),
    (&[LONGER], &[1024, 4096], Ok(&[(1, 4), (2, 3)])),
    (&[MONO], &[4096, 4096], Err(("BadOrder", 1, 0))),
    (&[MONO, MONO], &[1, 8, 7], Err(("BadOrder", 2, 0))),
    (&[SLOWER], &[0, 4097], Err(("NoFrameAt", 0, 4097))),
    (&[SLOWER], &[0, 4096], Err(("RateDiffers", 1, 0))),
    (
        &[STEREO, STEREO],
        &[0, 4096, 4097],
        Err(("ChannelsDiffer", 1, 0)),
    ),
    (&[MONO, MONO], &[0, 4096, 4097], Err(("NoFrameAt", 1, 4097))),
    (&[LONGER], &[0, 1024], Err(("NoFrameAt", 1, 1024))),
    (&[MONO], &[0, 8192], Err(("PastEnd", 1, 0))),
    (&[MONO], &[0, 9216], Err(("PastEnd", 0, 0))),
];

fn shape_of(rt: &impl Abort, row: ShapeRow) -> Shape {
    let (rate, frame_length, channels, frames) = row;
    assert!(rt; frame_length > 0);
    Shape {
        rate,
        frame_length,
        channels,
        frames,
    }
}

fn check_plan(rt: &(impl Abort + AllocGlobal), row: &PlanRow) -> Result<(), Fail> {
    let (others, positions, wanted) = *row;
    let mut shapes = Vec::new(rt.alloc());
    shapes.push(shape_of(rt, MONO))?;
    for row in others {
        shapes.push(shape_of(rt, *row))?;
    }
    assert!(rt; positions.len() < 9 && shapes.len() == positions.len());
    match plan(rt.alloc(), &shapes, positions) {
        Ok(pieces) => {
            assert!(rt; wanted.is_ok());
            let wanted = wanted.unwrap_or(&[]);
            assert_eq!(rt; pieces.len(), wanted.len() as u64);
            for (piece, wanted) in pieces.as_slice().iter().zip(wanted) {
                assert_eq!(rt; (piece.from, piece.to), *wanted);
            }
        }
        Err(fault) => {
            assert!(rt; wanted.is_err());
            assert_eq!(rt; Some(named(&fault)), wanted.err());
        }
    }
    Ok(())
}

#[test]
fn plans_are_timed(rt: HostRuntime) -> Result<(), Fail> {
    for row in PLANS {
        check_plan(&rt, row)?;
    }
    Ok(())
}

#[test]
fn positions_alone_are_judged(rt: HostRuntime) -> Result<(), Fail> {
    assert!(rt; check_positions(&[0, 4096]).is_ok());
    assert!(rt;
        matches!(
            check_positions(&[4096, 4096]),
            Err(PlanFault::BadOrder { piece: 1 })
        )
    );
    let open = PieceBounds { from: 4, to: None };
    assert_eq!(rt; bounds(0, 1024, 4096, None).ok(), Some(open));
    Ok(())
}

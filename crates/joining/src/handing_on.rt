// Frames of pieces that are written in the canonical mux.
ghost use Rattle.std.specs.Prelude.{◌≡◌, ◌≢◌, ℕ, [], ◌∷◌, Err};
ghost use Rattle.std.specs.Option.{option_copied};
ghost use Rattle.layout.specs.Layout.{FitsOption};
ghost use Rattle.asc.specs.Asc.{IsWellFormed};
ghost use Rattle.commands.specs.OneFrame.{CausedBy};
ghost use Rattle.joining.specs.Splicing.{handed_with, HandsOver, IsUnwritten};

use asc::Asc;
use commands::{FrameEnd, give_all};
use latm::{WriteFault, canonical};
use outside::Sink;
use splicer::Turn;
use std::alloc::Global;
use tool_text::{Reason, at_frame};

/// How the command ends where the element of the frame with that number was not made.
fn unwritten(number: u64, fault: WriteFault) -> FrameEnd
    ensures { IsUnwritten number fault result }
{
    match fault {
        WriteFault::TooLong => FrameEnd::Refused(at_frame(number, Reason::TooLong)),
        WriteFault::Memory(error) => FrameEnd::Memory(error),
    }
}

/// Writes an access unit of the frame with that number, with an AudioSpecificConfig where one is given.
fn hand_on<K: Sink>(
    alloc: Global,
    number: u64,
    asc: Option<&Asc>,
    au: &[u8],
    out: &mut K,
) -> Result<(), FrameEnd>
    requires { FitsOption IsWellFormed (option_copied asc) }
    ensures hands { HandsOver number (record { asc = option_copied asc.entry; au = au.now } ∷ []) (K.written out.old) (K.written out.new) result }
    ensures caused { (core : ℕ) → CausedBy (K.faults out.old) (K.faults out.new) core core result }
    ensures calm_out { K.calm out.old → K.calm out.new }
    ensures calm_writes { K.calm out.old → result ≢ Err FrameEnd.WriteFault }
{
    let frame = match canonical(alloc, asc, au) {
        Ok(frame) => frame,
        Err(fault) => return Err(unwritten(number, fault)),
    };
    give_all(out, frame.as_slice())?;
    Ok(())
}

/// Writes the access unit of the frame with that number and that turn, where the frame is one of the piece. The AudioSpecificConfig is
/// written where the piece begins.
///
/// Errors: `Refused` exactly where its element would have more than 8191 bytes, with nothing written; `WriteFault`, or `Memory`, behind a
/// front of its bytes.
pub fn hand_over<K: Sink>(
    alloc: Global,
    turn: Turn,
    number: u64,
    asc: &Asc,
    au: &[u8],
    out: &mut K,
) -> Result<(), FrameEnd>
    requires { IsWellFormed asc.now }
    ensures hands { HandsOver number (handed_with turn asc.now au.now) (K.written out.old) (K.written out.new) result }
    ensures caused { (core : ℕ) → CausedBy (K.faults out.old) (K.faults out.new) core core result }
    ensures calm_out { K.calm out.old → K.calm out.new }
    ensures calm_writes { K.calm out.old → result ≢ Err FrameEnd.WriteFault }
{
    match turn {
        Turn::Start { .. } | Turn::Join { .. } => hand_on(alloc, number, Some(asc), au, out),
        Turn::Play => hand_on(alloc, number, None, au, out),
        Turn::Skip | Turn::After => Ok(()),
    }
}

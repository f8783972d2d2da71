// `show`, frame by frame: the lines of what a frame puts in force, of the frame, and of its preroll.
ghost use Rattle.std.specs.Prelude.{◌≡◌, ◌≤◌, ◌++◌, length, IfOk, OnOk, OnErr};
ghost use Rattle.std.specs.Io.KnownBytes.{append_known};
ghost use Rattle.causes.specs.Counts.{HasCause};
ghost use Rattle.latm.specs.MuxConfig.{IsWellFormed};
ghost use Rattle.usac_cfg.specs.UsacConfig.{IsWellFormed as IsConfig};
ghost use Rattle.outside.specs.Answers.{has_failed, IsFailed};
ghost use Rattle.usac_frame.specs.Frame.{FitsConfig};
ghost use Rattle.usac_frame.specs.Units.{first_payload};
ghost use Rattle.tool_text.specs.FrameText.{frame_line};
ghost use Rattle.commands.specs.Handing.{WrotePart, WroteLess};
ghost use Rattle.xheaac_tool.specs.Showing.{joined, mux_where, payload_lines, preroll_where, frame_text};

use crate::unit_frame::read_unit_head;
use au_stream::EventView;
use bit_core::{Bits, Items, Octets};
use commands::{FrameEnd, Task, give_all};
use core_iface::Core;
use latm::MuxConfig;
use outside::{DeviceFault, Sink};
use preroll::{PreFault, read_preroll};
use std::alloc::{AllocError, Global};
use tool_text::{Within, bad_preroll_line, frame_line, mux_lines, preroll_lines};
use usac_cfg::UsacConfig;
use usac_frame::{Frame, first_payload, is_immediate};

/// The frames of `show`.
#[derive(Drop)]
pub struct Show;

/// Writes lines, one after another. A fault may come behind a part of them.
fn give_lines<K: Sink>(out: &mut K, lines: &[Octets]) -> Result<(), DeviceFault>
    ensures ok { OnOk result (K.written out.new ≡ append_known (K.written out.old) (joined lines.now)) }
    ensures err { OnErr result (WroteLess (K.written out.old) (K.written out.new) (joined lines.now)) }
    ensures cause { HasCause (has_failed result) (K.faults out.old) (K.faults out.new) }
    ensures calm { K.calm out.old → K.calm out.new }
    ensures calm_answers { K.calm out.old → IsFailed result → ⊥ }
{
    for line in lines {
        give_all(out, line.as_slice())?;
    }
    Ok(())
}

/// Writes the lines of a StreamMuxConfig, where a frame opens with it. A fault may come behind a part of them.
fn give_mux<K: Sink>(
    alloc: Global,
    opens: bool,
    mux: &MuxConfig,
    out: &mut K,
) -> Result<(), DeviceFault>
    requires { IsWellFormed mux.now }
    ensures ok { OnOk result (K.written out.new ≡ append_known (K.written out.old) (mux_where opens mux.now)) }
    ensures err { OnErr result (WroteLess (K.written out.old) (K.written out.new) (mux_where opens mux.now)) }
    ensures cause { HasCause (has_failed result) (K.faults out.old) (K.faults out.new) }
    ensures calm { K.calm out.old → K.calm out.new }
    ensures calm_answers { K.calm out.old → IsFailed result → ⊥ }
{
    if !opens {
        return Ok(());
    }
    let lines = match mux_lines(alloc, mux) {
        Ok(lines) => lines,
        Err(error) => return Err(DeviceFault::Memory(error)),
    };
    give_lines(out, lines.as_slice())
}

/// Writes the line of a frame. A fault may come behind a part of it.
fn give_line<K: Sink>(
    alloc: Global,
    event: &EventView,
    frame: &Frame,
    out: &mut K,
) -> Result<(), DeviceFault>
    ensures ok { OnOk result (K.written out.new ≡ append_known (K.written out.old) (frame_line event.now.frame (length event.now.au) frame.now)) }
    ensures err { OnErr result (WroteLess (K.written out.old) (K.written out.new) (frame_line event.now.frame (length event.now.au) frame.now)) }
    ensures cause { HasCause (has_failed result) (K.faults out.old) (K.faults out.new) }
    ensures calm { K.calm out.old → K.calm out.new }
    ensures calm_answers { K.calm out.old → IsFailed result → ⊥ }
{
    let line = match frame_line(alloc, event.frame(), event.len(), frame) {
        Ok(line) => line,
        Err(error) => return Err(DeviceFault::Memory(error)),
    };
    give_all(out, line.as_slice())
}

/// The lines of the preroll that a payload is, or that of a payload that is none.
fn payload_lines(alloc: Global, payload: &[u8]) -> Result<Items<Octets>, AllocError>
    requires { length payload.now ≤ 16777216 }
    ensures { IfOk result (λ lines. lines ≡ payload_lines payload.now) }
{
    match read_preroll(alloc, payload) {
        Ok(preroll) => preroll_lines(alloc, &preroll),
        Err(PreFault::Short { at }) => {
            let mut lines = Items::new(alloc);
            let line = bad_preroll_line(alloc, at)?;
            lines.push(line)?;
            Ok(lines)
        }
        Err(PreFault::Memory(error)) => Err(error),
    }
}

/// Writes the lines of the preroll of a frame, where it is immediate. A fault may come behind a part of them.
fn give_preroll<K: Sink>(
    alloc: Global,
    config: &UsacConfig,
    frame: &Frame,
    out: &mut K,
) -> Result<(), DeviceFault>
    requires { length (first_payload frame.now) ≤ 16777216 }
    ensures ok { OnOk result (K.written out.new ≡ append_known (K.written out.old) (preroll_where config.now frame.now)) }
    ensures err { OnErr result (WrotePart (K.written out.old) (K.written out.new) (preroll_where config.now frame.now)) }
    ensures failed { IsFailed result → WroteLess (K.written out.old) (K.written out.new) (preroll_where config.now frame.now) }
    ensures cause { HasCause (has_failed result) (K.faults out.old) (K.faults out.new) }
    ensures calm { K.calm out.old → K.calm out.new }
    ensures calm_answers { K.calm out.old → IsFailed result → ⊥ }
{
    if !is_immediate(config, frame) {
        return Ok(());
    }
    let lines = match payload_lines(alloc, first_payload(frame)) {
        Ok(lines) => lines,
        Err(error) => return Err(DeviceFault::Memory(error)),
    };
    give_lines(out, lines.as_slice())
}

/// Writes the line of a frame and those of its preroll, each in one write. A fault may come behind a part of them.
fn give_frame<K: Sink>(
    alloc: Global,
    event: &EventView,
    config: &UsacConfig,
    frame: &Frame,
    out: &mut K,
) -> Result<(), DeviceFault>
    requires well_formed { IsConfig config.now }
    requires fits { FitsConfig config.now frame.now }
    ensures ok { OnOk result (K.written out.new ≡ append_known (K.written out.old) (frame_text config.now event.now.frame (length event.now.au) frame.now)) }
    ensures err { OnErr result (WrotePart (K.written out.old) (K.written out.new) (frame_text config.now event.now.frame (length event.now.au) frame.now)) }
    ensures failed { IsFailed result → WroteLess (K.written out.old) (K.written out.new) (frame_text config.now event.now.frame (length event.now.au) frame.now) }
    ensures cause { HasCause (has_failed result) (K.faults out.old) (K.faults out.new) }
    ensures calm { K.calm out.old → K.calm out.new }
    ensures calm_answers { K.calm out.old → IsFailed result → ⊥ }
{
    give_line(alloc, event, frame, out)?;
    give_preroll(alloc, config, frame, out)
}

impl Task for Show {
    ghost use Rattle.std.specs.Prelude.{false};
    ghost use Rattle.xheaac_tool.specs.Showing.{showing};

    ghost At = { Unit {0} };

    ghost first = { λ task. tt };

    ghost command = { λ at d. showing };

    ghost then = { λ at frames. at };

    ghost plays = { false };

    ghost Stands = { λ d at frames task ready. Unit {0} };

    /// Shows what a frame puts in force, and then the frame: each line is one write.
    fn handle<K: Sink, C: Core>(
        &mut self,
        alloc: Global,
        event: &EventView,
        mux: &MuxConfig,
        out: &mut K,
        core: &mut C,
    ) -> Result<(), FrameEnd> {
        let _ = core;
        let config = &mux.asc.usac;
        give_mux(alloc, event.opens(), mux, out)?;
        let head = read_unit_head(alloc, event, config)?;
        // what is shown of a frame is in its head
        let frame = Frame {
            independent: head.independent,
            leading: head.leading,
            rest: Bits::new(alloc),
        };
        give_frame(alloc, event, config, &frame, out)?;
        Ok(())
    }

    /// Writes nothing.
    fn close<K: Sink, C: Core>(&self, alloc: Global, out: &mut K) -> Result<(), FrameEnd> {
        let _ = alloc;
        let _ = out;
        Ok(())
    }

    /// Begins anew.
    fn turn<C: Core>(&mut self) {}

    fn within<C: Core>(&self) -> Option<Within> {
        None
    }

    fn is_command<C: Core>() {}
}

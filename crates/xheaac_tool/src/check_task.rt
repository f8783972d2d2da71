// `check`, frame by frame: what is judged of a frame, and what is counted.
ghost use Rattle.std.specs.Prelude.{◌≡◌, ◌+◌, ◌≤◌, [], length, OnOk, IfErr};
ghost use Rattle.layout.specs.Text.{digit};
ghost use Rattle.usac_cfg.specs.UsacConfig.{IsWellFormed};
ghost use Rattle.usac_frame.specs.Frame.{FitsConfig};
ghost use Rattle.au_stream.specs.Script.{most_bytes};
ghost use Rattle.xheaac_tool.specs.Reading.{IsJudgement};
ghost use Rattle.xheaac_tool.specs.Counting.{HoldsCounts, AreFew, counted, EndsBy, KeepsRules, BreaksRule, IsGood, IsBad};

use crate::unit_frame::{read_unit_frame, read_unit_head};
use au_stream::EventView;
use commands::{FrameEnd, Task, give_all};
use core_iface::Core;
use latm::MuxConfig;
use outside::Sink;
use preroll::{CarryFault, carried};
use std::alloc::{AllocError, Global};
use tool_text::{Within, carry_refusal, check_line};
use usac_cfg::UsacConfig;
use usac_frame::Frame;

/// The frames of `check`, as far as they were counted.
#[derive(Drop)]
pub struct Check {
    frames: u64,
    configurations: u64,
    independent: u64,
    immediate: u64,
}

/// One more, where that is so.
fn plus(count: u64, one: bool) -> u64
    requires { count ≤ most_bytes }
    ensures { result ≡ count + digit one }
{
    if one { count + 1 } else { count }
}

impl Check {
    /// No frames.
    pub fn new() -> Check
        ensures { HoldsCounts result [] }
    {
        Check {
            frames: 0,
            configurations: 0,
            independent: 0,
            immediate: 0,
        }
    }

    /// Counts a frame.
    fn count(&mut self, changed: bool, independent: bool, immediate: bool)
        requires { AreFew self.old }
        ensures { self.new ≡ counted changed independent immediate self.old }
    {
        self.frames += 1;
        self.configurations = plus(self.configurations, changed);
        self.independent = plus(self.independent, independent);
        self.immediate = plus(self.immediate, immediate);
    }
}

/// How the command ends at the frame with that number, whose preroll has this fault.
fn ended_by(number: u64, fault: &CarryFault) -> FrameEnd
    ensures { EndsBy number fault.now result }
{
    match carry_refusal(number, fault) {
        Some(refusal) => FrameEnd::Refused(refusal),
        None => FrameEnd::Memory(AllocError),
    }
}

/// Judges the preroll of a frame.
fn judge(alloc: Global, number: u64, config: &UsacConfig, frame: &Frame) -> Result<(), FrameEnd>
    requires well_formed { IsWellFormed config.now }
    requires fits { FitsConfig config.now frame.now }
    ensures ok { OnOk result (KeepsRules config.now frame.now) }
    ensures err { IfErr result (λ end. BreaksRule number config.now frame.now end) }
{
    match carried(alloc, config, frame) {
        Ok(_) => Ok(()),
        Err(fault) => Err(ended_by(number, &fault)),
    }
}

/// Reads the whole frame that an access unit is, and judges its preroll.
fn judge_unit(alloc: Global, event: &EventView, config: &UsacConfig) -> Result<(), FrameEnd>
    requires well_formed { IsWellFormed config.now }
    requires size { length event.now.au ≤ 8191 }
    ensures ok { OnOk result (IsGood config.now event.now.au) }
    ensures err { IfErr result (λ end. IsBad event.now.frame config.now event.now.au end) }
    ensures judges { IfErr result IsJudgement }
{
    let frame = read_unit_frame(alloc, event, config)?;
    judge(alloc, event.frame(), config, &frame)
}

impl Task for Check {
    ghost use Rattle.std.specs.Prelude.{false};
    ghost use Rattle.xheaac_tool.specs.Checking.{checking};
    ghost use Rattle.xheaac_tool.specs.Counting.{HoldsCounts};

    ghost At = { Unit {0} };

    ghost first = { λ task. tt };

    ghost command = { λ at d. checking };

    ghost then = { λ at frames. at };

    ghost plays = { false };

    ghost Stands = { λ d at frames task ready. HoldsCounts task frames };

    /// Judges a frame and counts it. Nothing is written.
    fn handle<K: Sink, C: Core>(
        &mut self,
        alloc: Global,
        event: &EventView,
        mux: &MuxConfig,
        out: &mut K,
        core: &mut C,
    ) -> Result<(), FrameEnd> {
        let _ = out;
        let _ = core;
        let config = &mux.asc.usac;
        let head = read_unit_head(alloc, event, config)?;
        let immediate = head.is_immediate(config);
        if immediate {
            judge_unit(alloc, event, config)?;
        }
        self.count(event.changed(), head.independent, immediate);
        Ok(())
    }

    /// Writes the line of what was counted.
    fn close<K: Sink, C: Core>(&self, alloc: Global, out: &mut K) -> Result<(), FrameEnd> {
        let line = check_line(
            alloc,
            self.frames,
            self.configurations,
            self.independent,
            self.immediate,
        )?;
        give_all(out, line.as_slice())?;
        Ok(())
    }

    /// Begins anew.
    fn turn<C: Core>(&mut self) {
        *self = Check::new();
    }

    fn within<C: Core>(&self) -> Option<Within> {
        None
    }

    fn is_command<C: Core>() {}
}

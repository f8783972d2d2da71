ghost use Rattle.std.specs.Prelude.{◌≡◌, Some, ◌≤◌, ◌<◌, ◌^◌, length, Option, OnErr, IfOk, false};
ghost use Rattle.layout.specs.Layout.{FitsOption};
ghost use Rattle.usac_cfg.specs.UsacConfig.{IsWellFormed};
ghost use Rattle.plans.specs.Coded.{Coded};

use crate::asked::Asked;
use crate::fault::SpliceFault;
use crate::judged::Judged;
use crate::judging::{judge_first, judge_later};
use crate::kept::{remember, units_in};
use crate::opening::{check_change, end_frame, first_frame};
use crate::turn::Turn;
use std::alloc::{AllocError, Global};
use std::marker::Model;
use timeline::{Piece, PlanFault};
use usac_cfg::UsacConfig;
use usac_frame::Unit;

/// A check of one rendition, which is fed its frames from the first one on.
///
/// One run serves for renditions one after another: `follow` begins the next piece behind this one. It holds the configuration of
/// frame 0, the number of frames and the last 18 units of the stream, so it does not grow with the stream.
///
/// ```text
/// let mut run = PieceRun::new(alloc, 0, 0, Some(4096), None);
/// while let Some(frame) = reader.next(source)? {
///     match run.feed(alloc, config, frame.as_slice(), core.warm_up(config))? {
///         Turn::Start { .. } | Turn::Join { .. } | Turn::Play => give_out(&frame)?,
///         Turn::Skip | Turn::After => {}
///     }
/// }
/// let piece = run.end()?;
/// run.follow(1, 4096, None);
/// ```
#[derive(Drop)]
pub struct PieceRun {
    asked: Asked,
    first: Option<UsacConfig>,
    frames: u64,
    kept: Vec<Unit>,
    ended: bool,
}

impl Model for PieceRun {
    ghost use Rattle.std.specs.Prelude.{◌≤◌, length};
    ghost use Rattle.layout.specs.Layout.{FitsOption};
    ghost use Rattle.usac_cfg.specs.UsacConfig.{IsWellFormed};
    ghost use Rattle.splicer.specs.Runs.{RunValue};

    ghost Value = { RunValue };

    ghost view = { λ r. record {
      asked = r.asked;
      first = r.first;
      frames = r.frames;
      kept = r.kept.items;
      ended = r.ended;
    } };

    ghost invariant = { λ r. (length r.kept.items ≤ 18) × FitsOption IsWellFormed r.first × FitsOption IsWellFormed r.asked.before };
}

impl PieceRun {
    ghost use Rattle.splicer.specs.Runs.{RunValue, new_run, fault, behind, end};
    ghost use Rattle.splicer.specs.Checks.{Checks};
    ghost use Rattle.splicer.specs.Steps.{Judges, IsJudged};

    /// A run that was fed nothing. It is asked for the piece with that number, from the position `at` up to `until`, where the next
    /// piece begins, if there is one; behind a rendition of the configuration `before`, if there is one. Positions are in output
    /// samples of one channel.
    pub fn new(
        alloc: Global,
        piece: u32,
        at: u64,
        until: Option<u64>,
        before: Option<UsacConfig>,
    ) -> PieceRun
        requires before { FitsOption IsWellFormed before }
        ensures value { result ≡ new_run (record { piece = piece; position = at; until = until; before = before }) }
    {
        PieceRun {
            asked: Asked {
                piece,
                position: at,
                until,
                before,
            },
            first: None,
            frames: 0,
            kept: Vec::new(alloc),
            ended: false,
        }
    }

    /// What becomes of a frame, or the first rule that it breaks.
    fn judge(
        &self,
        alloc: Global,
        config: &UsacConfig,
        au: &[u8],
        need: u32,
    ) -> Result<Judged, SpliceFault>
        requires size { length au.now ≤ 16777216 }
        requires well_formed { IsWellFormed config.now }
        ensures { let f : Coded = record { config = config.now; au = au.now } in
            Judges result (fault self.now need f) (λ j. IsJudged j self.now.asked self.now.first self.now.frames f) }
    {
        match &self.first {
            None => judge_first(alloc, &self.asked, config, au, need),
            Some(first) => {
                check_change(first, self.frames, config)?;
                judge_later(
                    alloc,
                    &self.asked,
                    self.frames,
                    &self.kept,
                    config,
                    au,
                    need,
                )
            }
        }
    }

    /// Keeps what a frame leaves, once it is judged.
    fn keep(
        &mut self,
        alloc: Global,
        config: &UsacConfig,
        judged: Judged,
    ) -> Result<Turn, AllocError>
        requires well_formed { IsWellFormed config.now }
        requires count { self.old.frames < 2 ^ 32 }
        ensures ok { IfOk result (λ t. (t ≡ judged.turn) × ((f : Coded) → f.config ≡ config.now → IsJudged judged self.old.asked self.old.first self.old.frames f → self.new ≡ behind self.old f)) }
        ensures err { OnErr result (self.new ≡ self.old) }
    {
        let Judged { turn, unit, head } = judged;
        if self.first.is_some() {
            remember(&mut self.kept, unit)?;
            self.frames += 1;
            return Ok(turn);
        }
        let first = config.copy(alloc)?;
        let mut kept = units_in(alloc, head);
        remember(&mut kept, unit)?;
        self.kept = kept;
        self.first = Some(first);
        self.frames += 1;
        Ok(turn)
    }

    /// Checks the next frame: what becomes of it. `need` is how many units a decoder has to be given before a frame of this
    /// configuration, so that it plays as if its stream had been decoded from its beginning. The access unit has at most 16,777,216
    /// bytes, and fewer than 2^32 frames were fed.
    ///
    /// The rules, in order:
    ///
    /// - At frame 0: rate and number of channels are those of the rendition before, and frames stand at both positions (`Plan`). At
    ///   a later frame: its configuration is that of frame 0 (`ConfigChanges`).
    /// - The access unit is a frame (`Frame`).
    /// - At frame 0: it is independent (`NotIndependent`), or has a preroll, which breaks no rule (`Carry`).
    /// - At the frame with which the piece begins, but where it is frame 0 and there is no rendition before: its configuration is
    ///   another one than that of the rendition before (`SameConfig`); its preroll breaks no rule (`Carry`); it carries at least
    ///   `need` units (`TooFew`); and these are the units that its own stream has directly before the frame's (`PrerollForeign`).
    ///
    /// Errors: the first rule that the frame breaks, or out of memory; and the run has ended: each further call answers `Ended`, and
    /// changes nothing.
    pub fn feed(
        &mut self,
        alloc: Global,
        config: &UsacConfig,
        au: &[u8],
        need: u32,
    ) -> Result<Turn, SpliceFault>
        requires size { length au.now ≤ 16777216 }
        requires well_formed { IsWellFormed config.now }
        requires count { self.old.frames < 2 ^ 32 }
        ensures checks { Checks result need (record { config = config.now; au = au.now }) self.old self.new }
    {
        if self.ended {
            return Err(SpliceFault::Ended);
        }
        let judged = match self.judge(alloc, config, au, need) {
            Ok(judged) => judged,
            Err(fault) => {
                self.ended = true;
                return Err(fault);
            }
        };
        match self.keep(alloc, config, judged) {
            Ok(turn) => Ok(turn),
            Err(fault) => {
                self.ended = true;
                Err(SpliceFault::Memory(fault))
            }
        }
    }

    /// How many frames were fed, and broke no rule.
    pub fn fed(&self) -> u64
        ensures { result ≡ self.now.frames }
    {
        self.frames
    }

    /// Begins the check of the next rendition: of the piece with that number, from the position `at` up to `until`, behind this
    /// rendition. It is as a new run, also where this one has ended.
    pub fn follow(&mut self, piece: u32, at: u64, until: Option<u64>)
        ensures value { self.new ≡ new_run (record { piece = piece; position = at; until = until; before = self.old.first }) }
    {
        self.asked = Asked {
            piece,
            position: at,
            until,
            before: self.first.take(),
        };
        self.frames = 0;
        self.kept.clear();
        self.ended = false;
    }

    /// The piece of the rendition, once all its frames were fed. It changes nothing.
    ///
    /// Errors: `Ended` where a frame was refused; `Plan` with `PastEnd` where the rendition ends before its piece has begun, or
    /// before the piece ends.
    pub fn end(&self) -> Result<Piece, SpliceFault>
        ensures value { result ≡ end self.now }
    {
        if self.ended {
            return Err(SpliceFault::Ended);
        }
        let past = SpliceFault::Plan(PlanFault::PastEnd {
            piece: self.asked.piece,
        });
        let Some(first) = &self.first else {
            return Err(past);
        };
        let from = first_frame(&self.asked, first);
        let to = match end_frame(&self.asked, first) {
            None => self.frames,
            Some(to) => to,
        };
        if from >= self.frames || to > self.frames {
            return Err(past);
        }
        Ok(Piece { from, to })
    }
}

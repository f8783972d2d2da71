ghost use Rattle.std.specs.Prelude.{◌≡◌, ◌+◌, ◌-◌, ◌^◌, ◌≤◌, length, None, false, IfOk, IsSome};
ghost use Rattle.causes.specs.Counts.{HasCause};
ghost use Rattle.usac_cfg.specs.UsacConfig.{IsWellFormed};
ghost use Rattle.switch_player.specs.Faults.{is_core_fault, stops_by};
ghost use Rattle.switch_player.specs.Rules.{Refuses, RefusesAt};
ghost use Rattle.switch_player.specs.Turns.{kept_of};
ghost use Rattle.switch_player.specs.Feeding.{IsInStep, Answered, Feeds};

use crate::fault::PlayFault;
use crate::judging::{judge, judge_at};
use crate::turn::Turn;
use crate::turning::play_turn;
use core_iface::Core;
use std::alloc::{AllocError, Global};
use std::marker::Model;
use usac_cfg::UsacConfig;
use usac_frame::{read_frame, unit_of};

/// Plays frames on a core, which is handed in at each call.
///
/// The first frame that is played is the start. Each later one goes on where its configuration is that of the frame before, by
/// all its fields, and is a join where it is another one. Only a start and a join read the frame's preroll. Between two calls
/// nobody else may use the core.
///
/// An example, in docs/PLAYER.md and proved there: a program that plays a stream.
///
/// ```text
/// let mut player = Player::new();
/// while let Some(frame) = reader.next(source)? {
///     player.feed(alloc, core, config, frame.as_slice(), &mut samples)?;
/// }
/// ```
#[derive(Drop)]
pub struct Player {
    last: Option<UsacConfig>,
    stopped: bool,
}

impl Model for Player {
    ghost use Rattle.switch_player.specs.PlayerValue.{PlayerValue};

    ghost Value = { PlayerValue };

    ghost view = { λ p. record { last = p.last; stopped = p.stopped } };
}

/// Plays a frame behind a frame of the last configuration, and keeps its own.
fn feed_frame<C: Core>(
    alloc: Global,
    core: &mut C,
    last: &mut Option<UsacConfig>,
    config: &UsacConfig,
    au: &[u8],
    out: &mut Vec<i16>,
) -> Result<(), PlayFault>
    requires size { length au.now ≤ 16777216 }
    requires well_formed { IsWellFormed config.now }
    requires fed { (C.meaning core.old).fed ≤ 2 ^ 64 - 20 }
    requires in_step { IsInStep C.does last.old (C.meaning core.old).ready }
    ensures answered { Answered result (Refuses C.does last.old config.now au.now) C.does config.now au.now
        (record { last = last.old; stopped = false }) (record { last = last.new; stopped = stops_by result })
        (C.meaning core.old) (C.meaning core.new) out.old.items out.new.items }
    ensures faults { HasCause (is_core_fault result) (C.meaning core.old).faults (C.meaning core.new).faults }
    ensures few { (C.meaning core.new).fed ≤ (C.meaning core.old).fed + 19 }
    ensures stays_calm { C.IsCalm core.old → C.IsCalm core.new }
    ensures calm_serves { C.IsCalm core.old → C.does.serves config.now → is_core_fault result ≡ false }
{
    let frame = read_frame(alloc, config, au)?;
    let turn = judge(alloc, core, last.as_ref(), config, &frame)?;
    let unit = unit_of(alloc, config, &frame)?;
    let kept = kept_by(alloc, &turn, config)?;
    play_turn(alloc, core, config, &turn, &unit, out)?;
    keep(last, kept);
    Ok(())
}

/// Plays a frame at which a player starts within a stream, and keeps its configuration.
fn start_frame<C: Core>(
    alloc: Global,
    core: &mut C,
    last: &mut Option<UsacConfig>,
    config: &UsacConfig,
    au: &[u8],
    out: &mut Vec<i16>,
) -> Result<(), PlayFault>
    requires size { length au.now ≤ 16777216 }
    requires well_formed { IsWellFormed config.now }
    requires fed { (C.meaning core.old).fed ≤ 2 ^ 64 - 20 }
    requires nothing { last.old ≡ None }
    ensures answered { Answered result (RefusesAt C.does config.now au.now) C.does config.now au.now
        (record { last = last.old; stopped = false }) (record { last = last.new; stopped = stops_by result })
        (C.meaning core.old) (C.meaning core.new) out.old.items out.new.items }
    ensures faults { HasCause (is_core_fault result) (C.meaning core.old).faults (C.meaning core.new).faults }
    ensures few { (C.meaning core.new).fed ≤ (C.meaning core.old).fed + 19 }
    ensures stays_calm { C.IsCalm core.old → C.IsCalm core.new }
    ensures calm_serves { C.IsCalm core.old → C.does.serves config.now → is_core_fault result ≡ false }
{
    let frame = read_frame(alloc, config, au)?;
    let turn = judge_at(alloc, core, config, &frame)?;
    let unit = unit_of(alloc, config, &frame)?;
    let kept = kept_by(alloc, &turn, config)?;
    play_turn(alloc, core, config, &turn, &unit, out)?;
    keep(last, kept);
    Ok(())
}

/// A copy of the configuration where another one begins. It is made before the core is called.
fn kept_by(
    alloc: Global,
    turn: &Turn,
    config: &UsacConfig,
) -> Result<Option<UsacConfig>, AllocError>
    ensures { IfOk result (λ kept. kept ≡ kept_of turn.now config.now) }
{
    match turn {
        Turn::GoesOn => Ok(None),
        _ => Ok(Some(config.copy(alloc)?)),
    }
}

/// Puts the new configuration in place of the last one, where there is a new one.
fn keep(last: &mut Option<UsacConfig>, kept: Option<UsacConfig>)
    ensures some { IsSome kept → last.new ≡ kept }
    ensures none { kept ≡ None → last.new ≡ last.old }
{
    if kept.is_some() {
        *last = kept;
    }
}

/// Whether the player stops behind that answer.
fn stops(answer: &Result<(), PlayFault>) -> bool
    ensures { result ≡ stops_by answer.now }
{
    matches!(
        answer,
        Err(PlayFault::CoreFault) | Err(PlayFault::Memory(_))
    )
}

impl Player {
    /// A player that has played nothing.
    pub fn new() -> Player
        ensures { result ≡ record { last = None; stopped = false } }
    {
        Player {
            last: None,
            stopped: false,
        }
    }

    /// Plays a frame: its block is appended to `out`. The access unit has at most 16,777,216 bytes, and the core was fed at most
    /// 2^64 - 20 units: a call feeds up to 19. Behind a frame that was played, the core is as that call left it.
    ///
    /// Errors: the first of the six rules of `PlayFault` that the frame breaks, and nothing has changed; or a fault of the core or
    /// out of memory, and the player has stopped.
    pub fn feed<C: Core>(
        &mut self,
        alloc: Global,
        core: &mut C,
        config: &UsacConfig,
        au: &[u8],
        out: &mut Vec<i16>,
    ) -> Result<(), PlayFault>
        requires size { length au.now ≤ 16777216 }
        requires well_formed { IsWellFormed config.now }
        requires fed { (C.meaning core.old).fed ≤ 2 ^ 64 - 20 }
        requires in_step { self.old.stopped ≡ false → IsInStep C.does self.old.last (C.meaning core.old).ready }
        ensures feeds { Feeds result (Refuses C.does self.old.last config.now au.now) C.does config.now au.now
            self.old self.new (C.meaning core.old) (C.meaning core.new) out.old.items out.new.items }
        ensures stays_calm { C.IsCalm core.old → C.IsCalm core.new }
        ensures calm_serves { C.IsCalm core.old → C.does.serves config.now → is_core_fault result ≡ false }
    {
        if self.stopped {
            return Err(PlayFault::Stopped);
        }
        let answer = feed_frame(alloc, core, &mut self.last, config, au, out);
        self.stopped = stops(&answer);
        answer
    }

    /// Plays a frame within a stream as the first one, where nothing was played before. What stands before it in the stream is
    /// not decoded, so it has to carry as many units as the core's warm-up, also where it is independent.
    ///
    /// Errors: as those of `feed`, by the rules `FrameFault`, `Carry` and `TooFew` alone.
    pub fn start_at<C: Core>(
        &mut self,
        alloc: Global,
        core: &mut C,
        config: &UsacConfig,
        au: &[u8],
        out: &mut Vec<i16>,
    ) -> Result<(), PlayFault>
        requires size { length au.now ≤ 16777216 }
        requires well_formed { IsWellFormed config.now }
        requires fed { (C.meaning core.old).fed ≤ 2 ^ 64 - 20 }
        requires nothing { self.old.last ≡ None }
        ensures feeds { Feeds result (RefusesAt C.does config.now au.now) C.does config.now au.now
            self.old self.new (C.meaning core.old) (C.meaning core.new) out.old.items out.new.items }
        ensures stays_calm { C.IsCalm core.old → C.IsCalm core.new }
        ensures calm_serves { C.IsCalm core.old → C.does.serves config.now → is_core_fault result ≡ false }
    {
        if self.stopped {
            return Err(PlayFault::Stopped);
        }
        let answer = start_frame(alloc, core, &mut self.last, config, au, out);
        self.stopped = stops(&answer);
        answer
    }

    /// Whether an earlier call answered a fault of the core or out of memory.
    pub fn stopped(&self) -> bool
        ensures { result ≡ self.now.stopped }
    {
        self.stopped
    }

    /// The configuration of the last frame that was played; `None` where there was none.
    pub fn finish(self) -> Option<UsacConfig>
        ensures { result ≡ self.last }
    {
        self.last
    }
}

// One frame, from an access unit to the sample bytes on the output.
ghost use Rattle.std.specs.Prelude.{◌≡◌, ◌≢◌, ◌-◌, ◌^◌, ◌≤◌, [], Err, None, true, false, length};
ghost use Rattle.usac_cfg.specs.UsacConfig.{IsWellFormed};
ghost use Rattle.switch_player.specs.Feeding.{Answered, Feeds, IsInStep};
ghost use Rattle.switch_player.specs.Faults.{is_core_fault};
ghost use Rattle.commands.specs.OneFrame.{CausedBy};
ghost use Rattle.playing.specs.PlayedFrame.{PlayerRefuses, PlaysFrame};

use crate::play_end::end_of;
use commands::{FrameEnd, give_all};
use core_iface::{Core, set_sample_bytes};
use outside::Sink;
use std::alloc::Global;
use switch_player::{PlayFault, Player};
use usac_cfg::UsacConfig;

/// How a player is given a frame.
#[derive(Clone, Copy)]
pub enum Entry {
    /// Behind the frames before it, or as the first one of all.
    Next,
    /// As the first one that is played, within a stream.
    Within,
}

/// A player that writes what it plays. Of a frame that was played nothing else is kept but the room of its samples and bytes.
#[derive(Drop)]
pub struct FramePlayer {
    player: Player,
    samples: Vec<i16>,
    bytes: Vec<u8>,
}

/// Feeds a frame to the player, or starts it there.
fn feed<C: Core>(
    alloc: Global,
    player: &mut Player,
    entry: Entry,
    core: &mut C,
    config: &UsacConfig,
    au: &[u8],
    out: &mut Vec<i16>,
) -> Result<(), PlayFault>
    requires size { length au.now ≤ 8191 }
    requires well_formed { IsWellFormed config.now }
    requires fed { (C.meaning core.old).fed ≤ 2 ^ 64 - 20 }
    requires in_step { player.old.stopped ≡ false → IsInStep C.does player.old.last (C.meaning core.old).ready }
    requires nothing { entry ≡ Entry.Within → player.old.last ≡ None }
    ensures feeds { Feeds result (PlayerRefuses entry C.does player.old.last config.now au.now) C.does config.now au.now
        player.old player.new (C.meaning core.old) (C.meaning core.new) out.old.items out.new.items }
    ensures stays_calm { C.IsCalm core.old → C.IsCalm core.new }
    ensures calm_serves { C.IsCalm core.old → C.does.serves config.now → is_core_fault result ≡ false }
{
    match entry {
        Entry::Next => player.feed(alloc, core, config, au, out),
        Entry::Within => player.start_at(alloc, core, config, au, out),
    }
}

impl FramePlayer {
    /// Before the first frame.
    pub fn new(alloc: Global) -> FramePlayer
        ensures { result.player ≡ record { last = None; stopped = false } }
    {
        FramePlayer {
            player: Player::new(),
            samples: Vec::new(alloc),
            bytes: Vec::new(alloc),
        }
    }

    /// Goes on to another stream: nothing was played.
    pub fn begin_anew(&mut self)
        ensures { self.new.player ≡ record { last = None; stopped = false } }
    {
        self.player = Player::new();
    }

    /// Plays the frame with that number: its samples are one write.
    pub fn play<K: Sink, C: Core>(
        &mut self,
        alloc: Global,
        number: u64,
        entry: Entry,
        config: &UsacConfig,
        au: &[u8],
        out: &mut K,
        core: &mut C,
    ) -> Result<(), FrameEnd>
        requires size { length au.now ≤ 8191 }
        requires well_formed { IsWellFormed config.now }
        requires fed { (C.meaning core.old).fed ≤ 2 ^ 64 - 20 }
        requires in_step { self.old.player.stopped ≡ false → IsInStep C.does self.old.player.last (C.meaning core.old).ready }
        requires nothing { entry ≡ Entry.Within → self.old.player.last ≡ None }
        ensures plays { PlaysFrame result number (PlayerRefuses entry C.does self.old.player.last config.now au.now) C.does config.now au.now
            self.old.player self.new.player (C.meaning core.old) (C.meaning core.new) self.new.samples.items (K.written out.old) (K.written out.new) }
        ensures caused { CausedBy (K.faults out.old) (K.faults out.new) (C.meaning core.old).faults (C.meaning core.new).faults result }
        ensures calm_out { K.calm out.old → K.calm out.new }
        ensures calm_core { C.IsCalm core.old → C.IsCalm core.new }
        ensures calm_writes { K.calm out.old → result ≢ Err FrameEnd.WriteFault }
        ensures calm_serves { C.IsCalm core.old → C.does.serves config.now → result ≢ Err FrameEnd.CoreFault }
    {
        self.samples.clear();
        let player = &mut self.player;
        if let Err(fault) = feed(alloc, player, entry, core, config, au, &mut self.samples) {
            return Err(end_of(number, fault));
        }
        set_sample_bytes(&self.samples, &mut self.bytes)?;
        give_all(out, &self.bytes)?;
        Ok(())
    }
}

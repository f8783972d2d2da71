// Renditions one after another, each with the piece that is wanted of it.
ghost use Rattle.std.specs.Prelude.{◌≡◌, ◌<◌, ◌≤◌, ◌^◌, None, false, length};
ghost use Rattle.usac_cfg.specs.UsacConfig.{IsWellFormed};
ghost use Rattle.splicer.specs.Runs.{new_run};
ghost use Rattle.joining.specs.Renditions.{position_at, asked_at, ChecksFrame, GivesEnd, next_place};
ghost use Rattle.timeline.specs.Plan.{next_position};

use crate::fault_end::end_of;
use commands::FrameEnd;
use core_iface::Core;
use splicer::{PieceRun, Turn};
use std::alloc::Global;
use timeline::Piece;
use usac_cfg::UsacConfig;

/// The check of renditions one after another, each with the piece that is wanted of it: it begins at its position, and ends at the
/// next one, or with its rendition.
#[derive(Drop)]
pub struct Renditions {
    run: PieceRun,
    positions: Vec<u64>,
    /// The number of the piece.
    place: usize,
}

/// The position behind that of a piece, if there is another.
fn position_behind(positions: &[u64], place: usize) -> Option<u64>
    requires within { place < length positions.now }
    ensures { result ≡ next_position place positions.now }
{
    if place + 1 < positions.len() {
        Some(positions[place + 1])
    } else {
        None
    }
}

impl Renditions {
    /// Before the first rendition. The positions are output samples of one channel.
    pub fn new(alloc: Global, positions: Vec<u64>) -> Renditions
        requires some { 0 < length positions.items }
        requires few { length positions.items < 2 ^ 32 }
        ensures run { result.run ≡ new_run (asked_at (record { positions = positions.items; place = 0; before = None })) }
        ensures positions { result.positions.items ≡ positions.items }
        ensures place { result.place ≡ 0 }
    {
        let until = position_behind(&positions, 0);
        Renditions {
            run: PieceRun::new(alloc, 0, positions[0], until, None),
            positions,
            place: 0,
        }
    }

    /// Checks the next frame of the rendition. A join needs as many units as the core's warm-up.
    pub fn feed<C: Core>(
        &mut self,
        alloc: Global,
        config: &UsacConfig,
        au: &[u8],
        core: &C,
    ) -> Result<Turn, FrameEnd>
        requires size { length au.now ≤ 8191 }
        requires well_formed { IsWellFormed config.now }
        requires count { self.old.run.frames < 2 ^ 32 }
        requires going { self.old.run.ended ≡ false }
        ensures checks { ChecksFrame result (C.does.warm config.now) (record { config = config.now; au = au.now }) self.old.run self.new.run }
        ensures positions { self.new.positions ≡ self.old.positions }
        ensures place { self.new.place ≡ self.old.place }
    {
        let need = core.warm_up(config);
        match self.run.feed(alloc, config, au, need) {
            Ok(turn) => Ok(turn),
            Err(fault) => Err(end_of(&fault)),
        }
    }

    /// The piece of the rendition, once all its frames were fed.
    pub fn end(&self) -> Result<Piece, FrameEnd>
        ensures { GivesEnd result self.now.run }
    {
        match self.run.end() {
            Ok(piece) => Ok(piece),
            Err(fault) => Err(end_of(&fault)),
        }
    }

    /// Goes on to the rendition of the next piece.
    pub fn go_on(&mut self)
        requires within { self.old.place < length self.old.positions.items }
        requires few { length self.old.positions.items < 2 ^ 32 }
        ensures run { self.new.run ≡ new_run (asked_at (record { positions = self.old.positions.items; place = next_place self.old.place self.old.positions.items; before = self.old.run.first })) }
        ensures positions { self.new.positions ≡ self.old.positions }
        ensures place { self.new.place ≡ next_place self.old.place self.old.positions.items }
    {
        if self.place + 1 < self.positions.len() {
            self.place += 1;
        }
        let until = position_behind(&self.positions, self.place);
        self.run
            .follow(self.place as u32, self.positions[self.place], until);
    }

    /// The number of the piece, counted from 0.
    pub fn number(&self) -> u64
        ensures { result ≡ self.now.place }
    {
        self.place as u64
    }
}

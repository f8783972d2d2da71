use crate::turn::Turn;
use preroll::CarriedUnits;
use usac_frame::Unit;

/// A frame that breaks no rule.
#[derive(Drop)]
pub struct Judged {
    /// What becomes of it.
    pub turn: Turn,
    /// Its own unit.
    pub unit: Unit,
    /// What it carries, if it is frame 0 and has a preroll.
    pub head: Option<CarriedUnits>,
}

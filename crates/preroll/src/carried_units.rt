ghost use Rattle.std.specs.Prelude.{◌≡◌, ◌≤◌, length};

use bit_core::Items;
use usac_frame::Unit;

/// The units of a preroll.
pub type Units = Items<Unit>;

/// What an immediate play-out frame carries.
#[derive(Debug, Drop)]
pub struct CarriedUnits {
    /// applyCrossfade: what was decoded before the frame is blended into it.
    pub fade: bool,
    /// The units that a decoder steps before the frame, at most 18.
    pub units: Units,
    ghost few: { length units ≤ 18 },
}

impl CarriedUnits {
    /// How many units there are.
    pub fn carried_count(&self) -> u32
        ensures { result ≡ length self.now.units }
    {
        self.units.len() as u32
    }
}

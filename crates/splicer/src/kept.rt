// The last units of a stream.
ghost use Rattle.std.specs.Prelude.{◌≡◌, ◌≤◌, ◌++◌, ◌∷◌, [], length, OnOk, OnErr};
ghost use Rattle.splicer.specs.Foreign.{last_n};
ghost use Rattle.splicer.specs.Steps.{head_units};

use preroll::CarriedUnits;
use std::alloc::{AllocError, Global};
use usac_frame::Unit;

/// How many units are kept: as many as a preroll carries.
const KEPT: usize = 18;

/// Adds a unit, and drops the first one where there are more than are kept. The one error is out of memory.
pub fn remember(kept: &mut Vec<Unit>, unit: Unit) -> Result<(), AllocError>
    requires { length kept.old.items ≤ 18 }
    ensures ok { OnOk result (kept.new.items ≡ last_n 18 (kept.old.items ++ unit ∷ [])) }
    ensures few { length kept.new.items ≤ 18 }
    ensures err { OnErr result (kept.new.items ≡ kept.old.items) }
{
    kept.push(unit)?;
    if kept.len() > KEPT {
        kept.remove(0);
    }
    Ok(())
}

/// The units that stand before those of frame 0: those that it carries.
pub fn units_in(alloc: Global, head: Option<CarriedUnits>) -> Vec<Unit>
    ensures units { result.items ≡ head_units head }
    ensures few { length result.items ≤ 18 }
{
    match head {
        None => Vec::new(alloc),
        Some(carried) => carried.units.into_vec(),
    }
}

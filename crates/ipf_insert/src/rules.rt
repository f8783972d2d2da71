// The rules of the configuration, of the count, and of the list of targets.
ghost use Rattle.std.specs.Prelude.{◌≡◌, ◌<◌, ◌≤◌, length};
ghost use Rattle.ipf_frame.specs.Payload.{config_bytes};
ghost use Rattle.ipf_insert.specs.Rules.{places_rule, list_rule};
ghost use Rattle.ipf_insert.specs.Steps.{Passes, settled};

use crate::fault::InsertFault;
use crate::sources::Sources;
use stream_edit::first_misplaced;

/// Refuses a target that is no frame, or not larger than the one before it.
fn check_places(frames: u64, targets: &[u64]) -> Result<(), InsertFault>
    ensures { Passes result (places_rule frames targets.now) }
{
    match first_misplaced(frames, targets) {
        Some(place) => Err(InsertFault::BadTarget { place }),
        None => Ok(()),
    }
}

/// The rules behind those of the frames.
pub fn check_list(sources: &Sources<'_>, targets: &[u64]) -> Result<(), InsertFault>
    requires { sources.now.bytes ≡ config_bytes sources.now.config.now }
    ensures { Passes result (list_rule (settled sources.now) targets.now) }
{
    if !sources.config.declares_preroll() {
        return Err(InsertFault::NotDeclared);
    }
    if sources.bytes.len() > 285 {
        return Err(InsertFault::ConfigTooLong);
    }
    if sources.count == 0 || sources.count > 18 {
        return Err(InsertFault::BadCount);
    }
    check_places(sources.aus.len() as u64, targets)
}

// What becomes of the targets.
ghost use Rattle.std.specs.Prelude.{◌≡◌, ◌<◌, ◌≤◌, length, IfOk};
ghost use Rattle.ipf_frame.specs.Slot.{new_slot};
ghost use Rattle.ipf_insert.specs.Inserting.{units_before, payload_at};
ghost use Rattle.ipf_insert.specs.Rules.{au_at};
ghost use Rattle.ipf_insert.specs.Steps.{settled, IsReady, IsKept};

use crate::sources::Sources;
use bit_core::Octets;
use ipf_frame::{new_payload, with_payload};
use std::alloc::{AllocError, Global};
use stream_edit::Change;
use usac_cfg::UsacConfig;

/// The payload of a target's preroll.
pub fn payload_at(alloc: Global, sources: &Sources<'_>, frame: u64) -> Result<Octets, AllocError>
    requires ready { IsReady sources.now }
    requires late { sources.now.count ≤ frame }
    requires below { frame < length (settled sources.now).aus }
    ensures { IfOk result (λ payload. payload ≡ payload_at (settled sources.now) frame) }
{
    let last = frame as usize;
    let first = last - sources.count as usize;
    new_payload(
        alloc,
        sources.config,
        sources.bytes.as_slice(),
        sources.fade,
        &sources.aus[first..last],
    )
}

/// The access unit of a target, with its preroll.
fn target_slot(alloc: Global, sources: &Sources<'_>, frame: u64) -> Result<Octets, AllocError>
    requires ready { IsReady sources.now }
    requires kept { IsKept (settled sources.now) frame }
    ensures { let i = settled sources.now in IfOk result (λ new. new ≡ new_slot i.config i.fade (units_before i.count frame i.aus) (au_at i.aus frame)) }
{
    let payload = payload_at(alloc, sources, frame)?;
    with_payload(alloc, sources.config, sources.aus[frame as usize], payload)
}

impl<'a> Change for Sources<'a> {
    ghost use Rattle.ipf_insert.specs.Inserting.{target_slot};
    ghost use Rattle.ipf_insert.specs.Steps.{settled, MayCarry};

    ghost new = { λ sources t au. target_slot (settled sources) t au };

    ghost May = { λ sources t c au. MayCarry sources t au };

    fn change(
        &self,
        alloc: Global,
        frame: u64,
        config: &UsacConfig,
        au: &[u8],
    ) -> Result<Octets, AllocError> {
        let _ = config;
        let _ = au;
        target_slot(alloc, self, frame)
    }
}

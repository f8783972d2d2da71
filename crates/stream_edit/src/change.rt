ghost use Rattle.std.specs.Prelude.{◌≡◌, ◌+◌, ◌≤◌, ℕ, List, true, length, IfOk};
ghost use Rattle.usac_cfg.specs.declared.usac_config.UsacConfig.{UsacConfig};
ghost use Rattle.stream_edit.specs.Targets.{is_target};
ghost use Rattle.stream_edit.specs.Edited.{slot_in, slots_in, element_in};
ghost use Rattle.stream_edit.specs.Steps.{IsRising, MayChange};

use crate::targets::is_target;
use bit_core::Octets;
use latm::{MuxElement, Slots};
use std::alloc::{AllocError, Global};
use usac_cfg::UsacConfig;

/// What becomes of the access unit of a target.
pub trait Change {
    /// The new access unit, by the number of the frame and its access unit.
    ghost new: { Self → ℕ → List ℕ → List ℕ };

    /// The frame with that number, configuration and access unit can be changed.
    ghost May: { Self → ℕ → UsacConfig → List ℕ → Type 0 };

    /// Makes the new access unit. The one error is out of memory.
    fn change(
        &self,
        alloc: Global,
        frame: u64,
        config: &UsacConfig,
        au: &[u8],
    ) -> Result<Octets, AllocError>
        requires { May self.now frame config.now au.now }
        ensures { IfOk result (λ bytes. bytes ≡ new self.now frame au.now) };
}

/// The access unit of a frame: a target's is changed, another one is copied.
fn slot_in<C: Change>(
    alloc: Global,
    change: &C,
    targets: &[u64],
    frame: u64,
    config: &UsacConfig,
    slot: &[u8],
) -> Result<Octets, AllocError>
    requires rising { IsRising targets.now }
    requires may { is_target targets.now frame ≡ true → C.May change.now frame config.now slot.now }
    ensures { IfOk result (λ new. new ≡ slot_in (C.new change.now) targets.now frame slot.now) }
{
    if is_target(targets, frame) {
        return change.change(alloc, frame, config, slot);
    }
    Octets::copy_of(alloc, slot)
}

/// The slots from that frame on.
fn slots_in<C: Change>(
    alloc: Global,
    change: &C,
    targets: &[u64],
    first: u64,
    config: &UsacConfig,
    slots: &[Octets],
) -> Result<Slots, AllocError>
    requires rising { IsRising targets.now }
    requires few { first + length slots.now ≤ 4294967296 }
    requires may { MayChange (C.May change.now) targets.now first config.now slots.now }
    ensures { IfOk result (λ new. new ≡ slots_in (C.new change.now) targets.now first slots.now) }
{
    let mut changed = Slots::new(alloc);
    let mut frame = first;
    for slot in slots {
        let new = slot_in(alloc, change, targets, frame, config, slot.as_slice())?;
        changed.push(new)?;
        frame += 1;
    }
    Ok(changed)
}

/// An element under that configuration, the first frame of which has that number, with its targets changed.
///
/// Errors: out of memory.
pub fn changed<C: Change>(
    alloc: Global,
    change: &C,
    targets: &[u64],
    first: u64,
    config: &UsacConfig,
    element: &MuxElement,
) -> Result<MuxElement, AllocError>
    requires rising { IsRising targets.now }
    requires few { first + length element.now.slots ≤ 4294967296 }
    requires may { MayChange (C.May change.now) targets.now first config.now element.now.slots }
    ensures { IfOk result (λ new. new ≡ element_in (C.new change.now) targets.now first element.now) }
{
    let slots = slots_in(
        alloc,
        change,
        targets,
        first,
        config,
        element.slots.as_slice(),
    )?;
    element.with_slots(alloc, slots)
}

// The frames of a stream: all of one configuration, and each access unit a frame.
ghost use Rattle.std.specs.Option.{option_copied};
ghost use Rattle.std.specs.Prelude.{◌≡◌, ◌≤◌, ◌++◌, [], ◌∷◌, length, map, OnOk};
ghost use Rattle.layout.specs.Layout.{FitsOption};
ghost use Rattle.usac_cfg.specs.UsacConfig.{IsWellFormed as IsConfig};
ghost use Rattle.usac_cfg.specs.Same.{same as same_config};
ghost use Rattle.preroll.specs.Carrying.{short_at};
ghost use Rattle.latm.specs.MuxConfig.{IsWellFormed as IsMux};
ghost use Rattle.latm.specs.Stream.{IsWellFormed, slots_under, frames_of, au_in};
ghost use Rattle.ipf_insert.specs.Rules.{short_rule, frames_rule};
ghost use Rattle.ipf_insert.specs.Steps.{Passes, Judges, Gathers, AreSmall, IsSame, with_config, refs};

use crate::fault::InsertFault;
use bit_core::Octets;
use latm::{MuxConfig, Slots, Stream};
use std::alloc::{AllocError, Global};
use std::vec::Vec;
use usac_cfg::UsacConfig;
use usac_frame::read_head;

/// Whether two configurations are equal, in every field.
fn is_same(a: &UsacConfig, b: &UsacConfig) -> bool
    requires first { IsConfig a.now }
    requires second { IsConfig b.now }
    ensures { result ≡ same_config a.now b.now }
{
    a.same(b)
}

/// Refuses an access unit that is no frame.
fn check_frame(alloc: Global, config: &UsacConfig, frame: u64, au: &[u8]) -> Result<(), InsertFault>
    requires { length au.now ≤ 8191 }
    ensures { Passes result (short_rule frame (short_at config.now au.now)) }
{
    match read_head(alloc, config, au) {
        Ok(_) => Ok(()),
        Err(fault) => Err(InsertFault::of_frame(frame, fault)),
    }
}

fn add<'a>(aus: &mut Vec<&'a [u8]>, au: &'a [u8]) -> Result<(), AllocError>
    ensures { OnOk result (refs aus.new.items ≡ refs aus.old.items ++ au.now ∷ []) }
{
    aus.push(au)?;
    Ok(())
}

/// Adds the access units of slots under one configuration, which is that of frame 0 or another one.
fn gather_slots<'a>(
    alloc: Global,
    same: bool,
    config: &UsacConfig,
    slots: &'a [Octets],
    aus: &mut Vec<&'a [u8]>,
) -> Result<(), InsertFault>
    requires { AreSmall slots.now }
    ensures { Gathers result same (with_config config.now slots.now) (refs aus.old.items) (refs aus.new.items) }
{
    for slot in slots {
        let frame = aus.len() as u64;
        if !same {
            return Err(InsertFault::ConfigChanges { frame });
        }
        check_frame(alloc, config, frame, slot.as_slice())?;
        add(aus, slot.as_slice())?;
    }
    Ok(())
}

/// Adds the access units of an element.
fn gather_element<'a>(
    alloc: Global,
    same: bool,
    in_force: Option<&MuxConfig>,
    slots: &'a Slots,
    aus: &mut Vec<&'a [u8]>,
) -> Result<(), InsertFault>
    requires { AreSmall slots.now }
    ensures { Gathers result same (slots_under (option_copied in_force.entry) slots.now) (refs aus.old.items) (refs aus.new.items) }
{
    let Some(config) = in_force else {
        return Ok(());
    };
    gather_slots(alloc, same, &config.asc.usac, slots.as_slice(), aus)
}

/// The access units of a stream, of which frame 0 has that configuration.
pub fn gather<'a>(
    alloc: Global,
    stream: &'a Stream,
    first: &UsacConfig,
) -> Result<Vec<&'a [u8]>, InsertFault>
    requires well_formed { IsWellFormed stream.now }
    requires first { IsConfig first.now }
    ensures { Judges result (frames_rule first.now 0 (frames_of stream.now)) (λ aus. refs aus.items ≡ map au_in (frames_of stream.now)) }
{
    let mut aus: Vec<&'a [u8]> = Vec::new(alloc);
    let mut in_force: Option<&MuxConfig> = None;
    let mut same = true;
    for element in stream.elements.as_slice() {
        if let Some(config) = &element.config {
            same = is_same(first, &config.asc.usac);
            in_force = Some(config);
        }
        gather_element(alloc, same, in_force, &element.slots, &mut aus)?;
    }
    Ok(aus)
}

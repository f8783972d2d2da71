ghost use Rattle.std.specs.Prelude.{◌≡◌, ◌≤◌, length, map, IfOk};
ghost use Rattle.usac_cfg.specs.UsacConfig.{IsWellFormed};
ghost use Rattle.ipf_frame.specs.Clean.{clean};
ghost use Rattle.ipf_frame.specs.Laws.{AreFrames, AreSlots};
ghost use Rattle.ipf_frame.specs.Payload.{config_bytes, new_payload};

use crate::changing::in_range;
use crate::cleaning::clean;
use bit_core::{BitWriter, Bits, Octets};
use preroll::{PreRoll, UnitBytes, write_preroll};
use std::alloc::{AllocError, Global};
use usac_cfg::UsacConfig;

/// The bytes of a well formed configuration: its spelling, and the fewest zero bits that fill the last byte.
///
/// Errors: out of memory.
pub fn config_bytes(alloc: Global, config: &UsacConfig) -> Result<Octets, AllocError>
    requires { IsWellFormed config.now }
    ensures { IfOk result (λ bytes. bytes ≡ config_bytes config.now) }
{
    let mut writer = BitWriter::new(alloc);
    config.write(&mut writer)?;
    let bytes = writer.finish()?;
    in_range(bytes.as_slice());
    Ok(bytes)
}

/// The access units, each as it is carried.
fn clean_each(alloc: Global, config: &UsacConfig, aus: &[&[u8]]) -> Result<UnitBytes, AllocError>
    requires frames { AreFrames config.now (map (λ au. au.now) aus.now) }
    requires slots { AreSlots (map (λ au. au.now) aus.now) }
    ensures { IfOk result (λ units. units ≡ map (clean config.now) (map (λ au. au.now) aus.now)) }
{
    let mut units = UnitBytes::new(alloc);
    for au in aus {
        let unit = clean(alloc, config, au)?;
        units.push(unit)?;
    }
    Ok(units)
}

/// The payload of a new preroll of these access units: the configuration, applyCrossfade, the reserved bit 0, and each access
/// unit as it is carried. `bytes` are the configuration's, so that a caller of many targets writes them once.
///
/// Errors: out of memory.
pub fn new_payload(
    alloc: Global,
    config: &UsacConfig,
    bytes: &[u8],
    fade: bool,
    aus: &[&[u8]],
) -> Result<Octets, AllocError>
    requires is { bytes.now ≡ config_bytes config.now }
    requires short { length bytes.now ≤ 285 }
    requires frames { AreFrames config.now (map (λ au. au.now) aus.now) }
    requires slots { AreSlots (map (λ au. au.now) aus.now) }
    requires few { length aus.now ≤ 18 }
    ensures { IfOk result (λ payload. payload ≡ new_payload config.now fade (map (λ au. au.now) aus.now)) }
{
    let units = clean_each(alloc, config, aus)?;
    let config = Octets::copy_of(alloc, in_range(bytes))?;
    let preroll = PreRoll {
        config,
        fade,
        reserved: false,
        units,
        tail: Bits::new(alloc),
    };
    let payload = write_preroll(alloc, &preroll)?;
    in_range(payload.as_slice());
    Ok(payload)
}

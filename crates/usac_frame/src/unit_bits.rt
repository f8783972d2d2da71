// The bits of a frame behind the preroll element.
ghost use Rattle.std.specs.Prelude.{◌≡◌, IfOk};
ghost use Rattle.usac_frame.specs.Frame.{FitsConfig};
ghost use Rattle.usac_frame.specs.Units.{preroll_parts, core_text};

use crate::frame::Frame;
use crate::writing::write_parts;
use bit_core::{BitWriter, Bits};
use std::alloc::{AllocError, Global};
use usac_cfg::UsacConfig;

/// How many parts are the preroll's.
fn preroll_parts(config: &UsacConfig) -> usize
    ensures { result ≡ preroll_parts config.now }
{
    if config.declares_preroll() { 1 } else { 0 }
}

/// The bits behind the preroll element.
pub fn bits_of_core(alloc: Global, config: &UsacConfig, frame: &Frame) -> Result<Bits, AllocError>
    requires { FitsConfig config.now frame.now }
    ensures { IfOk result (λ bits. bits ≡ core_text config.now frame.now) }
{
    let first = preroll_parts(config);
    let parts = frame.leading.as_slice();
    if parts.len() <= first {
        return frame.rest.copy(alloc);
    }
    let elements = config.elements.as_slice();
    let mut writer = BitWriter::new(alloc);
    write_parts(&elements[first..], &parts[first..], &mut writer)?;
    writer.put_bits(&frame.rest)?;
    Ok(writer.into_bits())
}

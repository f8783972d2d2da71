ghost use Rattle.std.specs.Prelude.{◌≡◌, ◌↔◌, IsTrue, IfOk};
ghost use Rattle.usac_frame.specs.Frame.{FitsConfig};
ghost use Rattle.usac_frame.specs.Units.{unit_of, part_bytes, payload_length};

use crate::frame::Frame;
use crate::part::ExtPart;
use crate::unit_bits::bits_of_core;
use bit_core::Bits;
use std::alloc::{AllocError, Global};
use usac_cfg::UsacConfig;

/// What a decoder sees of a frame: usacIndependencyFlag, and the bits of UsacFrame (ISO/IEC 23003-3) behind the preroll
/// element, or behind the flag where no preroll is declared. The zeros at the end are cut, since a frame is written with
/// some behind it; a decoder reads zeros behind the end.
#[derive(Debug, Drop)]
pub struct Unit {
    /// usacIndependencyFlag: the unit can be decoded without the units before it.
    pub independent: bool,
    /// The bits behind the preroll element, of which the last one is a 1.
    pub bits: Bits,
}

impl Unit {
    /// Whether the two are equal.
    pub fn same(&self, other: &Unit) -> bool
        ensures { IsTrue result ↔ (self.now ≡ other.now) }
    {
        self.independent == other.independent && self.bits.same(&other.bits)
    }

    /// A copy. The one error is out of memory.
    pub fn copy(&self, alloc: Global) -> Result<Unit, AllocError>
        ensures { IfOk result (λ copied. copied ≡ self.now) }
    {
        let bits = self.bits.copy(alloc)?;
        Ok(Unit {
            independent: self.independent,
            bits,
        })
    }
}

/// The unit of a frame that fits the configuration. The one error is out of memory.
pub fn unit_of(alloc: Global, config: &UsacConfig, frame: &Frame) -> Result<Unit, AllocError>
    requires { FitsConfig config.now frame.now }
    ensures { IfOk result (λ unit. unit ≡ unit_of config.now frame.now) }
{
    let mut bits = bits_of_core(alloc, config, frame)?;
    bits.trim();
    Ok(Unit {
        independent: frame.independent,
        bits,
    })
}

fn bytes_in(part: &ExtPart) -> u64
    ensures { result ≡ part_bytes part.now }
{
    match part {
        ExtPart::Absent => 0,
        ExtPart::Present { payload, .. } => payload.len(),
    }
}

/// The number of bytes of the preroll: the length of part 0 where the configuration declares a preroll, 0 where that part
/// is absent; and 0 where no preroll is declared.
pub fn payload_length(config: &UsacConfig, frame: &Frame) -> u64
    ensures { result ≡ payload_length config.now frame.now }
{
    if !config.declares_preroll() {
        return 0;
    }
    match frame.leading.get(0) {
        Some(part) => bytes_in(part),
        None => 0,
    }
}

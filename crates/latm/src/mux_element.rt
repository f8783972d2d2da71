ghost use Rattle.std.specs.Prelude.{◌≡◌, ◌≤◌, length, IfOk};
ghost use Rattle.std.specs.Option.{option_copied};
ghost use Rattle.layout.specs.Text.{bits_of};
ghost use Rattle.layout.specs.Reading.{ReadsText};
ghost use Rattle.latm.specs.Faults.{is_memory};
ghost use Rattle.latm.specs.MuxElement.{with_slots, element};

use crate::element_reading::read_fields;
use crate::fault::MuxFault;
use crate::mux_config::MuxConfig;
use bit_core::{BitReader, Bits, Items, Octets};
use std::alloc::{AllocError, Global};

/// The slots of an element, in their order: one access unit each.
pub type Slots = Items<Octets>;

/// An AudioMuxElement(1) (ISO/IEC 14496-3).
///
/// The configuration in force is its own, where it has one, and else the one that was in force before. It has as many slots
/// and as many bits of other data as that says.
///
/// ```text
/// useSameStreamMux       1   1 only where a configuration is in force
/// StreamMuxConfig            where that is 0
/// for each of numSubFrames + 1 slots:
///   MuxSlotLengthBytes
///   the slot                 so many bytes
/// other data                 as many bits as the configuration says
/// the tail                   all bits to the end
/// ```
#[derive(Debug, Drop)]
pub struct MuxElement {
    /// The StreamMuxConfig, where `useSameStreamMux` is 0.
    pub config: Option<MuxConfig>,
    pub slots: Slots,
    /// The other data.
    pub other: Bits,
    /// All bits behind the other data, whatever their value.
    pub tail: Bits,
}

/// A copy of an element's configuration, where it has one.
fn copied(alloc: Global, config: &Option<MuxConfig>) -> Result<Option<MuxConfig>, AllocError>
    ensures { IfOk result (λ copied. copied ≡ config.now) }
{
    match config {
        None => Ok(None),
        Some(config) => {
            let copied = config.copy(alloc)?;
            Ok(Some(copied))
        }
    }
}

impl MuxElement {
    /// A copy with other slots. The one error is out of memory.
    pub fn with_slots(&self, alloc: Global, slots: Slots) -> Result<MuxElement, AllocError>
        ensures { IfOk result (λ changed. changed ≡ with_slots slots self.now) }
    {
        let config = copied(alloc, &self.config)?;
        let other = self.other.copy(alloc)?;
        let tail = self.tail.copy(alloc)?;
        Ok(MuxElement {
            config,
            slots,
            other,
            tail,
        })
    }
}

/// Reads the bytes of an element, at most 16,777,216, under the configuration that is in force before it, where there is
/// one. All bytes are the element.
///
/// Errors: the fault of the leftmost field at fault, at its first bit, or out of memory. `NoConfig` comes exactly where
/// `useSameStreamMux` is 1 and nothing is in force.
pub fn read_element(
    alloc: Global,
    in_force: Option<&MuxConfig>,
    bytes: &[u8],
) -> Result<MuxElement, MuxFault>
    requires { length bytes.now ≤ 16777216 }
    ensures { ReadsText is_memory (element (option_copied in_force.entry)) (bits_of bytes.now) result }
{
    let mut reader = BitReader::new(bytes);
    read_fields(alloc, &mut reader, in_force)
}

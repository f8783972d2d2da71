ghost use Rattle.std.specs.Prelude.{◌≡◌};
ghost use Rattle.usac_frame.specs.Part.{has_marks};

use bit_core::{Items, Octets};
use usac_cfg::ExtConfig;

/// The parts of a frame, one for each leading extension element, in the order of the elements.
pub type Parts = Items<ExtPart>;

/// How the length of a part is spelled (ISO/IEC 23003-3, usacExtElementUseDefaultLength and
/// usacExtElementPayloadLength). The lengths 253 and 254 have two spellings in bits of their own.
#[derive(Clone, Copy, Debug, PartialEq, Eq)]
pub enum LengthForm {
    /// usacExtElementUseDefaultLength is 1: the length is usacExtElementDefaultLength, or 0 where none is configured.
    Default,
    /// 8 bits, for a length from 0 to 254 bytes.
    Byte,
    /// 8 ones and 16 bits, for a length from 253 to 65788 bytes.
    Long,
}

/// What a frame has of an extension element (ISO/IEC 23003-3, UsacExtElement).
///
/// It fits the configuration of the element where the payload's length is one of its form, and `start` and `stop` are true
/// where they are not coded: where the length is 0, or usacExtElementPayloadFrag is 0.
#[derive(Debug, Drop)]
pub enum ExtPart {
    /// usacExtElementPresent is 0.
    Absent,
    /// usacExtElementPresent is 1.
    Present {
        form: LengthForm,
        /// usacExtElementStart: a payload begins in this frame.
        start: bool,
        /// usacExtElementStop: a payload ends in this frame.
        stop: bool,
        /// The payload, or a fragment of it, in bytes; they may begin at any bit.
        payload: Octets,
    },
}

/// Whether start and stop are coded for a payload of so many bytes.
pub fn has_marks(ext: &ExtConfig, length: u64) -> bool
    ensures { result ≡ has_marks ext.now length }
{
    length > 0 && ext.frag
}

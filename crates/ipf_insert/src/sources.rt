// What the targets of an insertion share.
use bit_core::Octets;
use std::vec::Vec;
use usac_cfg::UsacConfig;

/// What the targets of an insertion share, of a stream that is held elsewhere.
#[derive(Drop)]
pub struct Sources<'a> {
    pub(crate) config: &'a UsacConfig,
    /// The bytes of the configuration, as each preroll has them.
    pub(crate) bytes: Octets,
    /// The access units of the stream, in their order.
    pub(crate) aus: Vec<&'a [u8]>,
    /// How many of them a target carries.
    pub(crate) count: u64,
    /// applyCrossfade.
    pub(crate) fade: bool,
}

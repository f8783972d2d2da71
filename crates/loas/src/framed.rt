use bit_core::Octets;

/// A frame of a stream.
#[derive(Debug, Drop)]
pub struct Framed {
    /// The offset of the syncword, in bytes from the beginning of the stream.
    pub at: u64,
    /// The bytes behind the header, AudioMuxElement of ISO/IEC 14496-3: at most 8191.
    pub element: Octets,
}

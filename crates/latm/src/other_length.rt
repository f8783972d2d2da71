use esc_value::LatmValue;

/// The number of bits of other data behind the slots of an element, at most 65,535 (ISO/IEC 14496-3, otherDataLenBits).
#[derive(Clone, Copy, Debug, PartialEq, Eq)]
pub enum OtherLength {
    /// In version 0: so many pairs of `otherDataLenEsc` and a byte, at least one, which spell so many bits. The first of
    /// them may be 0.
    Pairs { count: u32, bits: u32 },
    /// In version 1.
    Value(LatmValue),
}

/// A number, how many bits its spelling has, and the spelling's bytes in hex, with zero bits behind it up to a whole byte.
pub type NumberRow = (u32, u64, &'static str);

/// escapedValue(4, 8, 16) of ISO/IEC 23003-3. The last is the largest.
pub const ESCAPED_4_8_16: &[NumberRow] = &[
    (14, 4, "E0"),
    (15, 12, "F000"),
    (269, 12, "FFE0"),
    (270, 28, "FFF00000"),
    (65805, 28, "FFFFFFF0"),
];

/// escapedValue(8, 16, 0). It is the largest.
pub const ESCAPED_8_16_0: &[NumberRow] = &[(65790, 24, "FFFFFF")];

/// escapedValue(2, 4, 0). The last is the largest.
pub const ESCAPED_2_4_0: &[NumberRow] = &[(2, 2, "80"), (3, 6, "C0"), (18, 6, "FC")];

/// LatmGetValue of ISO/IEC 14496-3: 255 in four bytes.
pub const LATM_VALUE_255: NumberRow = (255, 34, "C000003FC0");

/// MuxSlotLengthBytes of ISO/IEC 14496-3, in bytes.
pub const SLOT_LENGTHS: &[NumberRow] = &[(255, 16, "FF00"), (510, 24, "FFFF00")];

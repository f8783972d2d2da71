/// The preroll of an access unit that is a frame of `STREAM_1`: how the access unit begins, in hex, how many zero bytes stand
/// behind that, and the length of the preroll in bytes.
pub type LengthRow = (&'static str, usize, u64);

/// Lengths in 8 bits (UsacExtElement of ISO/IEC 23003-3, usacExtElementPayloadLength).
pub const BYTE_LENGTHS: &[LengthRow] = &[("DFA0", 253, 253), ("DFC0", 254, 254)];

/// Lengths in 8 ones and 16 bits.
pub const LONG_LENGTHS: &[LengthRow] = &[
    ("DFE0", 255, 253),
    ("DFE00020", 254, 254),
    ("DFE00040", 255, 255),
];

/// A frame whose element 0 is present: the configuration and the access unit in hex; start, stop and payload of part 0, the
/// payload in hex; and how many bits stand behind the parts.
pub type FrameRow = (&'static str, &'static str, bool, bool, &'static str, u64);

/// `STREAM_2` and a preroll of 12 bytes; a preroll element with usacExtElementPayloadFrag and a default length of 2 bytes; the
/// same with a length of 0 in 8 bits, where start and stop are not coded.
pub const FRAMES: &[FrameRow] = &[
    (
        "1908E600C7200020",
        "C1903211CC018E4000402000303800",
        true,
        true,
        "81908E600C72000201000181",
        13,
    ),
    ("1908E6101880", "ED55DD", false, true, "AABB", 3),
    ("1908E6101880", "C01F", true, true, "", 5),
];

/// Two access units with one unit: the configuration, both in hex, how many bytes the preroll of the first has, and how many
/// bits the unit.
pub type UnitRow = (&'static str, &'static str, &'static str, u64, u64);

/// `STREAM_2` with and without a preroll; a preroll element and one more extension element, whose part is a part of the unit;
/// `MONO`, which declares no preroll, with fewer and more zero bits at the end.
pub const UNITS: &[UnitRow] = &[
    (
        "1908E600C7200020",
        "C1903211CC018E4000402000303800",
        "B0",
        12,
        2,
    ),
    ("190966068008", "C035500AAC", "A01558", 1, 19),
    ("190808", "A0", "A000", 0, 2),
];

/// An access unit of `STREAM_1` that is no frame, in hex, and the first bit of the field that lacks bits.
pub const SHORT_FRAMES: &[(&'static str, u64)] = &[("", 0), ("40", 3), ("C0FF", 11), ("DFE0", 11)];

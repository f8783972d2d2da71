/// A configuration: how many bits its spelling has, and the spelling's bytes in hex, with zero bits behind it up to a whole
/// byte.
pub type ConfigRow = (u64, &'static str);

/// A text that begins with no configuration: its bytes in hex, the name of its fault, and the first bit of the field at
/// fault.
pub type RefusedRow = (&'static str, &'static str, u64);

/// UsacConfig of ISO/IEC 23003-3: 48 kHz, 1024, mono, one single element with noise filling.
pub const MONO: ConfigRow = (22, "190808");

/// 48 kHz, 1024, the channel positions 0 and 1, one pair with noise filling.
pub const TWO_POSITIONS: ConfigRow = (37, "1900801050");

/// 48 kHz, 2:1, stereo, one pair with noise filling, in which each optional field is there. Its UsacCoreConfig begins at bit
/// 19, its SbrConfig at bit 21, its stereoConfigIndex, which is 3, at bit 45, and its Mps212Config at bit 47.
pub const FULL_PAIR: ConfigRow = (73, "1B102C59ED5ECC751D00");

/// The UsacCoreConfig of `FULL_PAIR` alone.
pub const FULL_CORE: ConfigRow = (2, "40");

/// The SbrConfig of `FULL_PAIR` alone.
pub const FULL_SBR: ConfigRow = (24, "8B3DAB");

/// The Mps212Config of `FULL_PAIR` alone.
pub const FULL_MPS: ConfigRow = (25, "663A8E80");

/// 48 kHz, 2:1, mono, a preroll element and a single element with noise filling and SBR.
pub const PREROLL: ConfigRow = (47, "1B08E6008590");

/// 48 kHz, 1024, mono, a preroll element and a single element with noise filling, stream identifier 1. Its
/// usacConfigExtensionPresent is bit 33; the extension has its type at bit 36, its length at bit 40 and its bytes at bit 44.
pub const STREAM_1: ConfigRow = (60, "1908E600C7200010");

/// The same with stream identifier 2.
pub const STREAM_2: ConfigRow = (60, "1908E600C7200020");

/// An explicit rate of 44,056 Hz, 1024, mono, one single element with noise filling.
pub const EXPLICIT_RATE: ConfigRow = (46, "F80560C10808");

/// `MONO` with an extension of type 7 that has the three bytes 0, 1 and 2.
pub const THREE_BYTES: ConfigRow = (56, "19080C73000102");

/// `THREE_BYTES` with one more extension of type 7, of the two bytes 1 and 5: stream identifier 261.
pub const SECOND_ID: ConfigRow = (80, "19080D73000102720105");

/// AudioSpecificConfig of ISO/IEC 14496-3: samplingFrequencyIndex 3, channelConfiguration 1, `STREAM_1`.
pub const ASC_STREAM_1: ConfigRow = (79, "F94623211CC018E40002");

/// `ASC_STREAM_1` and the seven bits 1010101 behind it.
pub const ASC_WITH_TAIL: ConfigRow = (86, "F94623211CC018E4000354");

/// An explicit samplingFrequency of 44,056 Hz, channelConfiguration 1, `MONO`.
pub const ASC_EXPLICIT_RATE: ConfigRow = (65, "F95E01583023210100");

/// What is refused.
pub const REFUSED: &[RefusedRow] = &[
    ("69", "RateReserved", 0),
    ("F8000000", "RateZero", 5),
    ("1D0808", "FrameReserved", 5),
    ("1970", "ChannelReserved", 8),
    ("190000", "NoChannels", 13),
    ("1907C880", "TooManyChannels", 13),
    ("190F9880", "TooManyElements", 13),
    ("19080C", "Short", 24),
];

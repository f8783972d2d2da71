/// A preroll (ISO/IEC 23003-3, AudioPreRoll): the payload in hex; the configuration in hex, applyCrossfade, the reserved bit,
/// the access units in hex, and how many bits stand behind them.
pub type PreRollRow = (
    &'static str,
    &'static str,
    bool,
    bool,
    &'static [&'static str],
    u64,
);

/// `STREAM_1` and one access unit; 15 bytes of configuration, behind whose length of 8 bits the access unit begins at bit 148;
/// no access unit, three and eighteen; and a payload that goes on behind its access unit.
pub const PREROLLS: &[PreRollRow] = &[
    (
        "81908E600C7200010900029A55",
        "1908E600C7200010",
        true,
        false,
        &["9A55"],
        0,
    ),
    (
        "F0000102030405060708090A0B0C0D0E50002C3A50",
        "000102030405060708090A0B0C0D0E",
        false,
        true,
        &["C3A5"],
        4,
    ),
    ("00", "", false, false, &[], 0),
    (
        "0B0000180000000029A550",
        "",
        true,
        false,
        &["80", "", "9A55"],
        4,
    ),
    (
        "03F00018000018100018200018300018400018500018600018700018800018900018A00018B00018C00018D00018E00018F0001900001910",
        "",
        false,
        false,
        &[
            "80", "81", "82", "83", "84", "85", "86", "87", "88", "89", "8A", "8B", "8C", "8D",
            "8E", "8F", "90", "91",
        ],
        4,
    ),
    ("05000180B0", "", false, true, &["80"], 8),
];

/// A payload that is no preroll, in hex, and the first bit of the field that lacks bits.
pub const SHORT_PREROLLS: &[(&'static str, u64)] = &[
    ("81908E600C7200010900029A", 88),
    ("", 0),
    ("F0", 8),
    ("03", 6),
    ("0100", 8),
];

/// Frames whose prerolls carry units: the configuration and the access unit in hex, applyCrossfade, and the access units in
/// hex whose units they are.
pub type CarriedRow = (&'static str, &'static str, bool, &'static [&'static str]);

/// `STREAM_2` with its own configuration in the preroll, without and with a crossfade; with an empty configuration; and with no
/// access unit, in a frame that is independent.
pub const CARRIED: &[CarriedRow] = &[
    (
        "1908E600C7200020",
        "C1903211CC018E4000402000303800",
        false,
        &["81"],
    ),
    (
        "1908E600C7200020",
        "C1903211CC018E4000412000303800",
        true,
        &["81"],
    ),
    (
        "1908E600C7200020",
        "C0E04000300000203800",
        false,
        &["80", "01"],
    ),
    ("1908E600C7200020", "C1303211CC018E4000401800", false, &[]),
];

/// A frame that carries no units: the configuration and the access unit in hex, the name of the fault, the number of the
/// carried access unit, and the first bit of the field at fault.
pub type UncarriedRow = (&'static str, &'static str, &'static str, u32, u64);

/// No preroll, and none declared; a preroll that does not begin in the frame; one that lacks its last byte; a configuration
/// with a reserved coreSbrFrameLengthIndex, and one with 12 bits behind it; another stream identifier, and another noiseFilling
/// with the same identifier; an access unit that is no frame, alone and behind one with a preroll; an access unit with a
/// preroll behind one that is dependent; and a first access unit that is dependent, or none in a dependent frame.
pub const UNCARRIED: &[UncarriedRow] = &[
    ("1908E600C7200020", "B0", "NotImmediate", 0, 0),
    ("190808", "A0", "NotImmediate", 0, 0),
    ("1908E6101880", "ED55DD", "Split", 0, 0),
    (
        "1908E600C7200020",
        "C1703211CC018E4000402000303800",
        "BadPreroll",
        0,
        88,
    ),
    (
        "1908E600C7200020",
        "C1903A11CC018E4000402000303800",
        "BadConfig",
        0,
        0,
    ),
    (
        "1908E600C7200020",
        "C1B23211CC018E400040002000303800",
        "BadConfig",
        0,
        0,
    ),
    (
        "1908E600C7200020",
        "C1903211CC018E4001402000303800",
        "ConfigDiffers",
        0,
        0,
    ),
    (
        "1908E600C7200020",
        "C1903211CC008E4000402000303800",
        "ConfigDiffers",
        0,
        0,
    ),
    (
        "1908E600C7200020",
        "C1903211CC018E4000402000383800",
        "BadUnit",
        0,
        3,
    ),
    (
        "1908E600C7200020",
        "C2303211CC018E40004040007804000000383800",
        "BadUnit",
        1,
        3,
    ),
    (
        "1908E600C7200020",
        "C2303211CC018E40004040002000007804001800",
        "Nested",
        1,
        0,
    ),
    (
        "1908E600C7200020",
        "C1903211CC018E4000402000203800",
        "FirstDependent",
        0,
        0,
    ),
    (
        "1908E600C7200020",
        "41303211CC018E4000401800",
        "FirstDependent",
        0,
        0,
    ),
];

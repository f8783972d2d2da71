// Worked streams, and what is answered where they are checked. A frame of one byte has no preroll; its first bit is the flag of
// independence.

// 48 kHz, 1024, mono, a preroll element and a single element with noise filling, stream identifiers 1 and 2.
const MONO_1: &str = "1908E600C7200010";

pub(crate) const MONO_2: &str = "1908E600C7200020";

// 48 kHz, 2:1 of 1024, mono, a preroll element and a single element with noise filling and SBR.
const SBR: &str = "1B08E6008590";

// 48 kHz, 1024, stereo, a preroll element and a pair with noise filling.
const STEREO: &str = "1910E602C7200020";

// `MONO_2` at 44,100 Hz.
const SLOWER: &str = "2108E600C7200020";

// Under `MONO_1`.
const PLAIN: &[&str] = &["A0", "10", "08", "84", "82", "01", "30", "18"];

// Under `MONO_2`; frame 4 is B0, and in `JOINS` it carries frame 3, in `FADES` with a fade, in `FOREIGN` another unit.
const BARE: &[&str] = &["90", "04", "20", "81", "B0", "02", "28", "09"];

const JOINS: &[&str] = &[
    "90",
    "04",
    "20",
    "81",
    "C1903211CC018E4000402000303800",
    "02",
    "28",
    "09",
];

const FADES: &[&str] = &[
    "90",
    "04",
    "20",
    "81",
    "C1903211CC018E4000412000303800",
    "02",
];

const FOREIGN: &[&str] = &["90", "04", "20", "81", "C1903211CC018E4000402000307800"];

// Under `SBR`; frame 2 is 82, and carries the frame before it, or the two.
const ONE_UNIT: &[&str] = &["A0", "84", "C14C3611CC010B202000308100"];

const TWO_UNITS: &[&str] = &["A0", "84", "C1AC3611CC010B204000340000308100"];

// Frame 0 carries 81, and is B0 itself; frame 1 carries these two, or one more before them.
const HEAD: &[&str] = &["C08020003038", "C0E040003020003618"];

const HEAD_SHORT: &[&str] = &["C08020003038", "C1606000032000030200036018"];

// A preroll of 18 units, 81 to 92, and one of 82 to 93.
const EIGHTEEN: &str =
    "C7007E00030200030400030600030800030A00030C00030E00031000031200031400031600031800031A00031C00031E00032000032200032418";

const EIGHTEEN_LATER: &str =
    "C7007E00030400030600030800030A00030C00030E00031000031200031400031600031800031A00031C00031E00032000032200032400032618";

// What a test says of a fault: the rule by its name, the frame or the piece, and the other numbers that it has.
pub(crate) type Named = (&'static str, u64, u64, u64);

// A rendition, and what is asked of it: the configuration before, if there is one, the configuration, that of the last frame, if it
// is another one, and the access units; the positions, and how many units are needed. And what is answered: the turns, how many
// units the first frame of the piece carries and whether it fades, and the piece or the fault.
pub(crate) struct Row {
    pub(crate) before: &'static str,
    pub(crate) config: &'static str,
    pub(crate) last: &'static str,
    pub(crate) units: &'static [&'static str],
    pub(crate) at: u64,
    pub(crate) until: Option<u64>,
    pub(crate) need: u32,
    pub(crate) turns: &'static str,
    pub(crate) begins: (u32, bool),
    pub(crate) ends: Result<(u64, u64), Named>,
}

pub(crate) const ROWS: &[Row] = &[
    // the first piece
    Row {
        before: "",
        config: MONO_1,
        last: "",
        units: PLAIN,
        at: 0,
        until: Some(4096),
        need: 1,
        turns: "Spppaaaa",
        begins: (0, false),
        ends: Ok((0, 4)),
    },
    // a join, without and with a fade
    Row {
        before: MONO_1,
        config: MONO_2,
        last: "",
        units: JOINS,
        at: 4096,
        until: None,
        need: 1,
        turns: "ssssJppp",
        begins: (1, false),
        ends: Ok((4, 8)),
    },
    Row {
        before: MONO_1,
        config: MONO_2,
        last: "",
        units: FADES,
        at: 4096,
        until: Some(5120),
        need: 1,
        turns: "ssssJa",
        begins: (1, true),
        ends: Ok((4, 5)),
    },
    // a start in mid-stream
    Row {
        before: "",
        config: MONO_2,
        last: "",
        units: JOINS,
        at: 4096,
        until: None,
        need: 1,
        turns: "ssssJppp",
        begins: (1, false),
        ends: Ok((4, 8)),
    },
    // too few units, and enough
    Row {
        before: MONO_1,
        config: SBR,
        last: "",
        units: ONE_UNIT,
        at: 4096,
        until: None,
        need: 2,
        turns: "ss",
        begins: (0, false),
        ends: Err(("TooFew", 2, 1, 2)),
    },
    Row {
        before: MONO_1,
        config: SBR,
        last: "",
        units: TWO_UNITS,
        at: 4096,
        until: None,
        need: 2,
        turns: "ssJ",
        begins: (2, false),
        ends: Ok((2, 3)),
    },
    // no preroll, also where the frame is independent
    Row {
        before: MONO_1,
        config: MONO_2,
        last: "",
        units: BARE,
        at: 4096,
        until: None,
        need: 1,
        turns: "ssss",
        begins: (0, false),
        ends: Err(("NotImmediate", 4, 0, 0)),
    },
    // the configuration before
    Row {
        before: MONO_1,
        config: MONO_1,
        last: "",
        units: PLAIN,
        at: 4096,
        until: None,
        need: 1,
        turns: "ssss",
        begins: (0, false),
        ends: Err(("SameConfig", 4, 0, 0)),
    },
    // another rate, another number of channels
    Row {
        before: MONO_1,
        config: SLOWER,
        last: "",
        units: BARE,
        at: 4096,
        until: None,
        need: 1,
        turns: "",
        begins: (0, false),
        ends: Err(("RateDiffers", 1, 0, 0)),
    },
    Row {
        before: MONO_1,
        config: STEREO,
        last: "",
        units: BARE,
        at: 4096,
        until: None,
        need: 1,
        turns: "",
        begins: (0, false),
        ends: Err(("ChannelsDiffer", 1, 0, 0)),
    },
    // no frame at a position
    Row {
        before: MONO_1,
        config: MONO_2,
        last: "",
        units: JOINS,
        at: 4000,
        until: None,
        need: 1,
        turns: "",
        begins: (0, false),
        ends: Err(("NoFrameAt", 1, 4000, 0)),
    },
    Row {
        before: "",
        config: MONO_1,
        last: "",
        units: PLAIN,
        at: 0,
        until: Some(4000),
        need: 1,
        turns: "",
        begins: (0, false),
        ends: Err(("NoFrameAt", 1, 4000, 0)),
    },
    // past the end: at its beginning, and at its end
    Row {
        before: MONO_1,
        config: MONO_2,
        last: "",
        units: JOINS,
        at: 8192,
        until: None,
        need: 1,
        turns: "ssssssss",
        begins: (0, false),
        ends: Err(("PastEnd", 1, 0, 0)),
    },
    Row {
        before: MONO_1,
        config: MONO_2,
        last: "",
        units: FADES,
        at: 4096,
        until: Some(7168),
        need: 1,
        turns: "ssssJp",
        begins: (1, true),
        ends: Err(("PastEnd", 1, 0, 0)),
    },
    // a foreign unit
    Row {
        before: MONO_1,
        config: MONO_2,
        last: "",
        units: FOREIGN,
        at: 4096,
        until: None,
        need: 1,
        turns: "ssss",
        begins: (0, false),
        ends: Err(("PrerollForeign", 4, 0, 0)),
    },
    // another configuration than that of frame 0
    Row {
        before: "",
        config: MONO_1,
        last: MONO_2,
        units: &["A0", "10"],
        at: 0,
        until: None,
        need: 1,
        turns: "S",
        begins: (0, false),
        ends: Err(("ConfigChanges", 1, 0, 0)),
    },
    // no frame
    Row {
        before: "",
        config: MONO_1,
        last: "",
        units: &["A0", "40"],
        at: 0,
        until: None,
        need: 1,
        turns: "S",
        begins: (0, false),
        ends: Err(("Frame", 1, 3, 0)),
    },
    // no frame to begin with
    Row {
        before: "",
        config: MONO_1,
        last: "",
        units: &["10"],
        at: 0,
        until: None,
        need: 1,
        turns: "",
        begins: (0, false),
        ends: Err(("NotIndependent", 0, 0, 0)),
    },
    // frame 0 carries a unit, and the piece begins later
    Row {
        before: MONO_1,
        config: MONO_2,
        last: "",
        units: HEAD,
        at: 1024,
        until: None,
        need: 2,
        turns: "sJ",
        begins: (2, false),
        ends: Ok((1, 2)),
    },
    Row {
        before: MONO_1,
        config: MONO_2,
        last: "",
        units: HEAD_SHORT,
        at: 1024,
        until: None,
        need: 2,
        turns: "s",
        begins: (0, false),
        ends: Err(("PrerollForeign", 1, 0, 0)),
    },
    // and the piece begins with frame 0
    Row {
        before: MONO_1,
        config: MONO_2,
        last: "",
        units: HEAD,
        at: 0,
        until: None,
        need: 1,
        turns: "Jp",
        begins: (1, false),
        ends: Ok((0, 2)),
    },
];

// How many frames of one byte, 81 and on, stand before one with this preroll of 18 units; and what becomes of that.
pub(crate) const WINDOWS: &[(u8, &str, Result<u32, Named>)] = &[
    (17, EIGHTEEN, Err(("PrerollForeign", 17, 0, 0))),
    (18, EIGHTEEN, Ok(18)),
    (19, EIGHTEEN_LATER, Ok(18)),
    (19, EIGHTEEN, Err(("PrerollForeign", 19, 0, 0))),
];

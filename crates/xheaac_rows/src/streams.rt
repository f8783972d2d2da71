// The streams of the rows, in parts of hexadecimal digits: what their frames say.

// A frame, and one behind it: the samples of the first are 2, 3, .. 1025, and those of the second 13, 14, .. 1036.
pub const FIRST: &str = "56E00B2000F9462321010FF00680";

pub const SECOND: &str = "56E003808800";

pub const PLAIN: &[&str] = &[FIRST, SECOND];

// The same frames as two slots of one element.
pub const TWO_SLOTS: &str = "56E00D2080F9462321010FF006800440";

// The first frame in a mux of version 1: 3 bits stand behind its UsacConfig, latmBufferFullness is 192, the number of bits of
// other data is 5 in two bytes, and crcCheckSum is C3.
pub const VERSION_1: &str = "56E01247FC000167CA3119080A8C0A000BC301A0B0";

// One frame, whose configuration has an extension element before the other one, and an identifier of the stream.
pub const DECLARED: &str = "56E0102000F94623211CC018E400023FC01A00";

// The two frames, and the first of them again: its samples are then 20, 21, .. 1043.
pub const REOPENED: &[&str] = &[FIRST, SECOND, FIRST];

// The two frames, and the one of `DECLARED`.
pub const CHANGED: &[&str] = &[FIRST, SECOND, DECLARED];

// The first frame, and one whose access unit is empty.
pub const EMPTIED: &[&str] = &[FIRST, "56E0028000"];

// Eight frames, in three parts: the first four, one that joins, and three behind it. At the fifth another stream identifier
// begins, and the frame's preroll carries one unit.
pub const BEFORE: &str =
    "56E0102000F94623211CC018E400023FC01A0056E00380880056E00380840056E00380C200";

pub const JOIN: &str = "56E01E2000F94623211CC018E400043FC0FC1903211CC018E40004020003038000";

pub const BEHIND: &str = "56E00380810056E00380940056E003808480";

pub const JOINED: &[&str] = &[BEFORE, JOIN, BEHIND];

// The same join, where its frame asks for a fade.
pub const FADING: &str = "56E01E2000F94623211CC018E400043FC0FC1903211CC018E40004120003038000";

pub const FADED: &[&str] = &[BEFORE, FADING, BEHIND];

// Eight frames of the stream that is joined there, the fifth with a preroll of 12 bytes: the first four, and that one.
pub const OWN: &str = "56E0102000F94623211CC018E400043FC0190056E00380820056E00380900056E00380C080";

pub const IMMEDIATE_FRAME: &str = "56E01187E0C81908E600C72000201000181C0000";

pub const IMMEDIATE: &[&str] = &[OWN, IMMEDIATE_FRAME, BEHIND];

// The same eight frames, the fifth without a preroll.
pub const BARE: &[&str] = &[OWN, "56E00380D800", BEHIND];

// Two frames of 2048 samples, with SBR of 2:1, for which the core takes two units to warm up: A0 and 84. A third one with the unit 82
// carries the unit before it, or both.
pub const DOUBLED: &str = "56E00E2000F94623611CC010B207F8034056E00380C200";

pub const CARRIES_ONE: &[&str] = &[DOUBLED, "56E00F86E0A61B08E6008590100018408000"];

pub const CARRIES_BOTH: &[&str] = &[DOUBLED, "56E0128860D61B08E600859020001A000018408000"];

// The two slots, and three elements that are refused: the syncword is not there; the second slot has no length; a new mux
// begins, and its audioMuxVersionA is 1.
pub const TWO_SLOTS_LOST: &[&str] = &[TWO_SLOTS, "56C0"];

pub const TWO_SLOTS_SHORT: &[&str] = &[TWO_SLOTS, SECOND];

pub const TWO_SLOTS_REFUSED: &[&str] = &[TWO_SLOTS, "56E00160"];

//! Worked rows as texts of hex digits, for tests: what a number, a configuration, a frame or a stream is, and how it is spelled.
#![tactic(auto)]

mod bytes;
mod configs;
mod frames;
mod numbers;
mod prerolls;
mod streams;

pub use bytes::bytes_of;
pub use configs::{
    ASC_EXPLICIT_RATE, ASC_STREAM_1, ASC_WITH_TAIL, ConfigRow, EXPLICIT_RATE, FULL_CORE, FULL_MPS,
    FULL_PAIR, FULL_SBR, MONO, PREROLL, REFUSED, RefusedRow, SECOND_ID, STREAM_1, STREAM_2,
    THREE_BYTES, TWO_POSITIONS,
};
pub use frames::{
    BYTE_LENGTHS, FRAMES, FrameRow, LONG_LENGTHS, LengthRow, SHORT_FRAMES, UNITS, UnitRow,
};
pub use numbers::{
    ESCAPED_2_4_0, ESCAPED_4_8_16, ESCAPED_8_16_0, LATM_VALUE_255, NumberRow, SLOT_LENGTHS,
};
pub use prerolls::{
    CARRIED, CarriedRow, PREROLLS, PreRollRow, SHORT_PREROLLS, UNCARRIED, UncarriedRow,
};
pub use streams::EIGHT_FRAMES;

#[cfg(test)]
mod tests;

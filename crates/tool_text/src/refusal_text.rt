// The line that tells a refusal.
ghost use Rattle.std.specs.Prelude.{◌≡◌, IfOk};
ghost use Rattle.std.specs.String.{string_bytes};
ghost use Rattle.tool_text.specs.RefusalText.{field_name, within_text, place_text, reason_text, refusal_text};

use crate::refusal::{Place, Reason, Refusal, Within};
use bit_core::Octets;
use latm::MuxField;
use std::alloc::{AllocError, Global};

/// What the line says of the input, with what parts it from the place; nothing where there is one input alone.
fn within_text(alloc: Global, within: Option<Within>) -> Result<String, AllocError>
    ensures { IfOk result (λ text. string_bytes text ≡ within_text within) }
{
    match within {
        None => Ok(String::new(alloc)),
        Some(Within::Piece(piece)) => format!(in alloc; "piece {piece}: "),
        Some(Within::File(file)) => format!(in alloc; "file {file}: "),
    }
}

/// The place, with what parts it from the reason; nothing where none is named.
fn place_text(alloc: Global, place: Place) -> Result<String, AllocError>
    ensures { IfOk result (λ text. string_bytes text ≡ place_text place) }
{
    match place {
        Place::Whole => Ok(String::new(alloc)),
        Place::Byte(byte) => format!(in alloc; "byte {byte}: "),
        Place::Frame(frame) => format!(in alloc; "frame {frame}: "),
        Place::FrameBit { frame, bit } => format!(in alloc; "frame {frame} bit {bit}: "),
    }
}

/// The standard's name of a field.
fn field_name(field: MuxField) -> &'static str
    ensures { result.now ≡ field_name field }
{
    match field {
        MuxField::AudioMuxVersionA => "audioMuxVersionA",
        MuxField::AllStreamsSameTimeFraming => "allStreamsSameTimeFraming",
        MuxField::NumProgram => "numProgram",
        MuxField::NumLayer => "numLayer",
        MuxField::FrameLengthType => "frameLengthType",
        MuxField::OtherDataLenBits => "otherDataLenBits",
    }
}

fn reason_text(alloc: Global, reason: Reason) -> Result<String, AllocError>
    ensures { IfOk result (λ text. string_bytes text ≡ reason_text reason) }
{
    match reason {
        Reason::SyncLost => format!(in alloc; "sync lost"),
        Reason::Truncated => format!(in alloc; "truncated"),
        Reason::NoConfig => format!(in alloc; "no configuration"),
        Reason::OutOfProfile(field) => {
            let field = field_name(field);
            format!(in alloc; "out of profile: {field}")
        }
        Reason::MuxTooShort => format!(in alloc; "mux too short"),
        Reason::NotUsac { kind } => format!(in alloc; "not USAC: type {kind}"),
        Reason::ConfigTooShort => format!(in alloc; "configuration too short"),
        Reason::TailTooLong => format!(in alloc; "configuration tail too long"),
        Reason::RateReserved => format!(in alloc; "reserved rate index"),
        Reason::RateZero => format!(in alloc; "rate zero"),
        Reason::FrameReserved => format!(in alloc; "reserved frame length index"),
        Reason::ChannelReserved => format!(in alloc; "reserved channel index"),
        Reason::NoChannels => format!(in alloc; "no channels"),
        Reason::TooManyChannels => format!(in alloc; "too many channels"),
        Reason::TooManyElements => format!(in alloc; "too many elements"),
        Reason::FrameTooShort => format!(in alloc; "frame too short"),
        Reason::NotIndependent => format!(in alloc; "not independent"),
        Reason::RateChanged => format!(in alloc; "rate changed"),
        Reason::ChannelsChanged => format!(in alloc; "channels changed"),
        Reason::NotImmediate => format!(in alloc; "no preroll"),
        Reason::Split => format!(in alloc; "preroll split"),
        Reason::BadPreroll { bit } => format!(in alloc; "bad preroll at bit {bit}"),
        Reason::BadConfig => format!(in alloc; "bad preroll configuration"),
        Reason::ConfigDiffers => format!(in alloc; "preroll configuration differs"),
        Reason::BadUnit { unit, bit } => {
            format!(in alloc; "bad carried unit {unit} at bit {bit}")
        }
        Reason::Nested { unit } => format!(in alloc; "nested preroll in unit {unit}"),
        Reason::FirstDependent => format!(in alloc; "first unit not independent"),
        Reason::TooFew { have, need } => format!(in alloc; "too few units: {have} of {need}"),
        Reason::PastEnd => format!(in alloc; "past end"),
        Reason::SameConfig => format!(in alloc; "same configuration"),
        Reason::PrerollForeign { unit } => format!(in alloc; "foreign preroll unit {unit}"),
        Reason::ConfigChanges => format!(in alloc; "configuration changes"),
        Reason::TooLong => format!(in alloc; "too long"),
        Reason::PositionsFall => format!(in alloc; "positions do not rise"),
        Reason::NoFrameAt { position } => format!(in alloc; "no frame at {position}"),
        Reason::RateDiffers => format!(in alloc; "rate differs"),
        Reason::ChannelsDiffer => format!(in alloc; "channels differ"),
        Reason::NotDeclared => format!(in alloc; "preroll not declared"),
        Reason::ConfigTooLong => format!(in alloc; "configuration too long"),
        Reason::BadCount => format!(in alloc; "bad count"),
        Reason::BadTarget { place } => format!(in alloc; "bad target {place}"),
        Reason::AlreadyPresent => format!(in alloc; "already present"),
        Reason::TooEarly => format!(in alloc; "too early"),
        Reason::PayloadTooLong => format!(in alloc; "payload too long"),
        Reason::NotInserted => format!(in alloc; "not inserted"),
    }
}

/// The line of a refusal of a command's one input, or of one of its inputs, with its line feed.
///
/// Errors: out of memory.
///
/// ```text
/// refused: frame 2 bit 9: out of profile: numProgram
/// refused: piece 1: frame 4: not independent
/// ```
pub fn refusal_line(
    alloc: Global,
    within: Option<Within>,
    refusal: &Refusal,
) -> Result<Octets, AllocError>
    ensures { IfOk result (λ text. text ≡ refusal_text within refusal.now) }
{
    let within = within_text(alloc, within)?;
    let place = place_text(alloc, refusal.place)?;
    let reason = reason_text(alloc, refusal.reason)?;
    let text = format!(in alloc; "refused: {within}{place}{reason}\n")?;
    Ok(Octets::from_vec(text.into_bytes()))
}

// The line of a StreamMuxConfig, and the lines of its configuration behind it.
ghost use Rattle.std.specs.Prelude.{◌≡◌, IfOk};
ghost use Rattle.std.specs.String.{string_bytes};
ghost use Rattle.asc.specs.Asc.{IsWellFormed};
ghost use Rattle.tool_text.specs.MuxText.{other_of, crc_text, mux_line, lines_of_mux};

use crate::configuration_text::push_configuration;
use crate::parts::{dash, hex_or_dash, number_or_dash};
use bit_core::{Items, Octets};
use latm::{MuxConfig, OtherLength};
use std::alloc::{AllocError, Global};

/// The number of bits of other data, where it is there.
fn other_of(other: Option<OtherLength>) -> Option<u32>
    ensures { result ≡ other_of other }
{
    match other {
        None => None,
        Some(OtherLength::Pairs { count: _, bits }) => Some(bits),
        Some(OtherLength::Value(value)) => Some(value.value),
    }
}

fn crc_text(alloc: Global, crc: Option<u8>) -> Result<String, AllocError>
    ensures { IfOk result (λ text. string_bytes text ≡ crc_text crc) }
{
    match crc {
        Some(crc) => hex_or_dash(alloc, &[crc]),
        None => dash(alloc),
    }
}

fn mux_line(alloc: Global, mux: &MuxConfig) -> Result<Octets, AllocError>
    ensures { IfOk result (λ line. line ≡ mux_line mux.now) }
{
    let version = mux.version;
    let slots = u32::from(mux.sub_frames) + 1;
    let fullness = mux.fullness;
    let other = number_or_dash(alloc, other_of(mux.other))?;
    let crc = crc_text(alloc, mux.crc)?;
    let text = format!(in alloc;
        "mux version={version} subframes={slots} fullness={fullness} other={other} crc={crc}\n"
    )?;
    Ok(Octets::from_vec(text.into_bytes()))
}

/// The lines of a StreamMuxConfig whose AudioSpecificConfig is well formed, each with its line feed: its own, with the number
/// of slots, latmBufferFullness, the number of bits of other data and crcCheckSum, and behind it those of
/// [`configuration_lines`](crate::configuration_lines).
///
/// Errors: out of memory.
///
/// ```text
/// mux version=0 subframes=1 fullness=255 other=- crc=-
/// asc index=3 rate=- channels=1 tail=0
/// usac rate=48000 frame=1024 channels=1 elements=1 extensions=0 id=-
/// element 0 single tw=0 nf=1
/// ```
pub fn mux_lines(alloc: Global, mux: &MuxConfig) -> Result<Items<Octets>, AllocError>
    requires { IsWellFormed mux.now.asc }
    ensures { IfOk result (λ lines. lines ≡ lines_of_mux mux.now) }
{
    let mut lines = Items::new(alloc);
    let first = mux_line(alloc, mux)?;
    lines.push(first)?;
    push_configuration(alloc, &mux.asc, &mut lines)?;
    Ok(lines)
}

// The lines of a configuration.
ghost use Rattle.std.specs.Prelude.{◌≡◌, ◌++◌, IfOk, OnOk};
ghost use Rattle.std.specs.String.{string_bytes};
ghost use Rattle.usac_cfg.specs.UsacConfig.{IsWellFormed as IsUsacWellFormed};
ghost use Rattle.asc.specs.Asc.{IsWellFormed};
ghost use Rattle.tool_text.specs.ConfigurationText.{explicit_of, asc_line, output_text, usac_line, positions_line, positions_lines, extension_line, extensions_from, usac_lines, lines_of};

use crate::element_text::push_elements;
use crate::parts::{hex_or_dash, joined, number_or_dash};
use asc::Asc;
use bit_core::{Items, Octets};
use std::alloc::{AllocError, Global};
use usac_cfg::{ConfigExt, UsacConfig};

/// The rate of an AudioSpecificConfig, where it is there.
fn explicit_of(asc: &Asc) -> Option<u32>
    ensures { result ≡ explicit_of asc.now }
{
    if asc.index == 15 {
        Some(asc.explicit_rate)
    } else {
        None
    }
}

fn asc_line(alloc: Global, asc: &Asc) -> Result<Octets, AllocError>
    ensures { IfOk result (λ line. line ≡ asc_line asc.now) }
{
    let index = asc.index;
    let rate = number_or_dash(alloc, explicit_of(asc))?;
    let channels = asc.channels;
    let tail = asc.tail.len();
    let text = format!(in alloc;
        "asc index={index} rate={rate} channels={channels} tail={tail}\n"
    )?;
    Ok(Octets::from_vec(text.into_bytes()))
}

fn output_text(alloc: Global, config: &UsacConfig) -> Result<String, AllocError>
    requires { IsUsacWellFormed config.now }
    ensures { IfOk result (λ text. string_bytes text ≡ output_text config.now) }
{
    let rate = config.rate();
    let frame = config.frame_length();
    let channels = config.channels();
    format!(in alloc; "rate={rate} frame={frame} channels={channels}")
}

fn usac_line(alloc: Global, config: &UsacConfig) -> Result<Octets, AllocError>
    requires { IsUsacWellFormed config.now }
    ensures { IfOk result (λ line. line ≡ usac_line config.now) }
{
    let output = output_text(alloc, config)?;
    let elements = config.elements.len();
    let extensions = config.extensions.len();
    let id = number_or_dash(alloc, config.stream_id().map(u32::from))?;
    let text = format!(in alloc;
        "usac {output} elements={elements} extensions={extensions} id={id}\n"
    )?;
    Ok(Octets::from_vec(text.into_bytes()))
}

fn positions_line(alloc: Global, positions: &[u8]) -> Result<Octets, AllocError>
    ensures { IfOk result (λ line. line ≡ positions_line positions.now) }
{
    let positions = joined(alloc, positions)?;
    let text = format!(in alloc; "positions {positions}\n")?;
    Ok(Octets::from_vec(text.into_bytes()))
}

fn push_positions(
    alloc: Global,
    config: &UsacConfig,
    lines: &mut Items<Octets>,
) -> Result<(), AllocError>
    ensures { OnOk result (lines.new ≡ lines.old ++ positions_lines config.now) }
{
    if config.channel_index == 0 {
        let line = positions_line(alloc, config.positions.as_slice())?;
        lines.push(line)?;
    }
    Ok(())
}

fn extension_line(alloc: Global, i: usize, extension: &ConfigExt) -> Result<Octets, AllocError>
    ensures { IfOk result (λ line. line ≡ extension_line i extension.now) }
{
    let kind = extension.kind;
    let bytes = hex_or_dash(alloc, extension.bytes.as_slice())?;
    let text = format!(in alloc; "extension {i} type={kind} bytes={bytes}\n")?;
    Ok(Octets::from_vec(text.into_bytes()))
}

fn push_extensions(
    alloc: Global,
    extensions: &[ConfigExt],
    lines: &mut Items<Octets>,
) -> Result<(), AllocError>
    ensures { OnOk result (lines.new ≡ lines.old ++ extensions_from 0 extensions.now) }
{
    for i in 0..extensions.len() {
        let line = extension_line(alloc, i, &extensions[i])?;
        lines.push(line)?;
    }
    Ok(())
}

/// Adds the lines of a well formed UsacConfig.
fn push_usac(
    alloc: Global,
    config: &UsacConfig,
    lines: &mut Items<Octets>,
) -> Result<(), AllocError>
    requires { IsUsacWellFormed config.now }
    ensures { OnOk result (lines.new ≡ lines.old ++ usac_lines config.now) }
{
    let line = usac_line(alloc, config)?;
    lines.push(line)?;
    push_positions(alloc, config, lines)?;
    push_elements(alloc, config.elements.as_slice(), lines)?;
    push_extensions(alloc, config.extensions.as_slice(), lines)?;
    Ok(())
}

/// Adds the lines of a well formed configuration.
pub fn push_configuration(
    alloc: Global,
    asc: &Asc,
    lines: &mut Items<Octets>,
) -> Result<(), AllocError>
    requires { IsWellFormed asc.now }
    ensures { OnOk result (lines.new ≡ lines.old ++ lines_of asc.now) }
{
    let line = asc_line(alloc, asc)?;
    lines.push(line)?;
    push_usac(alloc, &asc.usac, lines)?;
    Ok(())
}

/// The lines of a well formed configuration, each with its line feed: the one of AudioSpecificConfig, the one of UsacConfig,
/// the one of the channel positions where these are there, those of each element, and one for each extension.
///
/// Errors: out of memory.
///
/// ```text
/// asc index=3 rate=- channels=1 tail=0
/// usac rate=48000 frame=1024 channels=1 elements=2 extensions=1 id=1
/// element 0 ext type=3 default=- frag=0 config=-
/// element 1 single tw=0 nf=1
/// extension 0 type=7 bytes=0001
/// ```
pub fn configuration_lines(alloc: Global, asc: &Asc) -> Result<Items<Octets>, AllocError>
    requires { IsWellFormed asc.now }
    ensures { IfOk result (λ lines. lines ≡ lines_of asc.now) }
{
    let mut lines = Items::new(alloc);
    push_configuration(alloc, asc, &mut lines)?;
    Ok(lines)
}

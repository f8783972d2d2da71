// The fields of a configuration, written in their order. On error some fields may already be written.
ghost use Rattle.std.specs.Prelude.{◌≡◌, ◌++◌, ◌≤◌, ◌<◌, [], length, OnOk, OnErr};
ghost use Rattle.std.specs.List.{flat_map, AllByRecursion};
ghost use Rattle.layout.specs.Text.{num};
ghost use Rattle.layout.specs.Layout.{spelling_of};
ghost use Rattle.bit_core.specs.Writer.{Extends};
ghost use Rattle.sbr_mps.specs.SbrConfig.{sbr_config};
ghost use Rattle.sbr_mps.specs.Mps212.{mps212_text};
ghost use Rattle.usac_cfg.specs.ElementConfig.{IsWellFormed as IsElementWellFormed, HasSbr, HasMps, IsStereo, stereo, element};
ghost use Rattle.usac_cfg.specs.UsacConfig.{IsWellFormed, IsExplicit, ArePositions, has_sbr};
ghost use Rattle.usac_cfg.specs.ConfigExtension.{IsWellFormed as IsExtensionWellFormed, config_extension, extensions};
ghost use Rattle.usac_cfg.specs.Spelling.{explicit, positions, elements, fields};

use crate::config_extension::{ConfigExt, write_config_extension};
use crate::element_config::ElementConfig;
use crate::extension_element::write_extension_element;
use crate::reading::goes_with_sbr;
use crate::usac_config::UsacConfig;
use bit_core::{BitWriter, put_small};
use esc_value::Escaped;
use sbr_mps::{CoreConfig, Mps212, SbrConfig};
use std::alloc::AllocError;

fn write_sbr(
    has_sbr: bool,
    there: Option<SbrConfig>,
    writer: &mut BitWriter,
) -> Result<(), AllocError>
    requires { HasSbr has_sbr there }
    ensures ok { OnOk result (writer.new ≡ writer.old ++ spelling_of sbr_config.spelling there) }
    ensures kept { Extends writer.old writer.new }
{
    if let Some(value) = there {
        value.write(writer)?;
    }
    Ok(())
}

fn write_stereo(has_sbr: bool, index: u8, writer: &mut BitWriter) -> Result<(), AllocError>
    requires { IsStereo has_sbr index }
    ensures ok { OnOk result (writer.new ≡ writer.old ++ (stereo has_sbr).spelling index) }
    ensures kept { Extends writer.old writer.new }
{
    if has_sbr {
        put_small(writer, index, 2)?;
    }
    Ok(())
}

fn write_mps(index: u8, there: Option<Mps212>, writer: &mut BitWriter) -> Result<(), AllocError>
    requires { HasMps index there }
    ensures ok { OnOk result (writer.new ≡ writer.old ++ spelling_of mps212_text there) }
    ensures kept { Extends writer.old writer.new }
{
    if let Some(value) = there {
        value.write(writer)?;
    }
    Ok(())
}

/// Writes the configuration of an element.
fn write_element(
    has_sbr: bool,
    value: &ElementConfig,
    writer: &mut BitWriter,
) -> Result<(), AllocError>
    requires { IsElementWellFormed has_sbr value.now }
    ensures ok { OnOk result (writer.new ≡ writer.old ++ (element has_sbr).spelling value.now) }
    ensures kept { Extends writer.old writer.new }
{
    match value {
        ElementConfig::Single { core, sbr } => {
            writer.put(0, 2)?;
            core.write(writer)?;
            write_sbr(has_sbr, *sbr, writer)
        }
        ElementConfig::Pair {
            core,
            sbr,
            stereo,
            mps,
        } => {
            writer.put(1, 2)?;
            core.write(writer)?;
            write_sbr(has_sbr, *sbr, writer)?;
            write_stereo(has_sbr, *stereo, writer)?;
            write_mps(*stereo, *mps, writer)
        }
        ElementConfig::Lfe => writer.put(2, 2),
        ElementConfig::Ext(ext) => {
            writer.put(3, 2)?;
            write_extension_element(ext, writer)
        }
    }
}

fn write_each_element(
    has_sbr: bool,
    values: &[ElementConfig],
    writer: &mut BitWriter,
) -> Result<(), AllocError>
    requires { AllByRecursion (IsElementWellFormed has_sbr) values.now }
    ensures ok { OnOk result (writer.new ≡ writer.old ++ flat_map (element has_sbr).spelling values.now) }
    ensures kept { Extends writer.old writer.new }
{
    for value in values {
        write_element(has_sbr, value, writer)?;
    }
    Ok(())
}

fn write_each_position(values: &[u8], writer: &mut BitWriter) -> Result<(), AllocError>
    requires { AllByRecursion (λ p. p < 32) values.now }
    ensures ok { OnOk result (writer.new ≡ writer.old ++ flat_map (num 5) values.now) }
    ensures kept { Extends writer.old writer.new }
{
    for value in values {
        put_small(writer, *value, 5)?;
    }
    Ok(())
}

fn write_explicit(there: bool, rate: u32, writer: &mut BitWriter) -> Result<(), AllocError>
    requires { IsExplicit there rate }
    ensures ok { OnOk result (writer.new ≡ writer.old ++ (explicit there).spelling rate) }
    ensures kept { Extends writer.old writer.new }
{
    if there {
        writer.put(rate, 24)?;
    }
    Ok(())
}

fn write_positions(there: bool, values: &[u8], writer: &mut BitWriter) -> Result<(), AllocError>
    requires { ArePositions there values.now }
    ensures ok { OnOk result (writer.new ≡ writer.old ++ (positions there).spelling values.now) }
    ensures kept { Extends writer.old writer.new }
{
    if there {
        Escaped::<5, 8, 16>::put(values.len() as u32, writer)?;
        write_each_position(values, writer)?;
    }
    Ok(())
}

fn write_elements(
    has_sbr: bool,
    values: &[ElementConfig],
    writer: &mut BitWriter,
) -> Result<(), AllocError>
    requires some { 1 ≤ length values.now }
    requires few { length values.now ≤ 64 }
    requires fit { AllByRecursion (IsElementWellFormed has_sbr) values.now }
    ensures ok { OnOk result (writer.new ≡ writer.old ++ (elements has_sbr).spelling values.now) }
    ensures kept { Extends writer.old writer.new }
{
    Escaped::<4, 8, 16>::put(values.len() as u32 - 1, writer)?;
    write_each_element(has_sbr, values, writer)
}

fn write_each_extension(values: &[ConfigExt], writer: &mut BitWriter) -> Result<(), AllocError>
    requires { AllByRecursion IsExtensionWellFormed values.now }
    ensures ok { OnOk result (writer.new ≡ writer.old ++ flat_map config_extension.spelling values.now) }
    ensures kept { Extends writer.old writer.new }
{
    for value in values {
        write_config_extension(value, writer)?;
    }
    Ok(())
}

fn write_extensions(values: &[ConfigExt], writer: &mut BitWriter) -> Result<(), AllocError>
    requires few { length values.now ≤ 274 }
    requires fit { AllByRecursion IsExtensionWellFormed values.now }
    ensures ok { OnOk result (writer.new ≡ writer.old ++ extensions.spelling values.now) }
    ensures kept { Extends writer.old writer.new }
{
    if values.is_empty() {
        return writer.put_flag(false);
    }
    writer.put_flag(true)?;
    Escaped::<2, 4, 8>::put(values.len() as u32 - 1, writer)?;
    write_each_extension(values, writer)
}

/// Writes a configuration.
pub fn write_fields(value: &UsacConfig, writer: &mut BitWriter) -> Result<(), AllocError>
    requires { IsWellFormed value.now }
    ensures ok { OnOk result (writer.new ≡ writer.old ++ fields.spelling value.now) }
    ensures kept { Extends writer.old writer.new }
{
    put_small(writer, value.rate_index, 5)?;
    write_explicit(value.rate_index == 31, value.rate_explicit, writer)?;
    put_small(writer, value.frame_index, 3)?;
    put_small(writer, value.channel_index, 5)?;
    write_positions(value.channel_index == 0, value.positions.as_slice(), writer)?;
    let has_sbr = goes_with_sbr(value.frame_index);
    write_elements(has_sbr, value.elements.as_slice(), writer)?;
    write_extensions(value.extensions.as_slice(), writer)?;
    Ok(())
}

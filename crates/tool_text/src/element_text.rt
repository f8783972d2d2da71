// The lines of the elements of a configuration.
ghost use Rattle.std.specs.Prelude.{◌≡◌, ◌++◌, IfOk, OnOk};
ghost use Rattle.std.specs.String.{string_bytes};
ghost use Rattle.tool_text.specs.SettingText.{sbr_line, mps_line};
ghost use Rattle.tool_text.specs.ElementText.{core_text, default_of, ext_text, element_text, element_line, sbr_of, mps_of, line_where, lines_of_element, elements_from};

use crate::parts::{digit, hex_or_dash, number_or_dash};
use crate::setting_text::{mps_line, sbr_line};
use bit_core::{Items, Octets};
use sbr_mps::{CoreConfig, Mps212, SbrConfig};
use std::alloc::{AllocError, Global};
use usac_cfg::{ElementConfig, ExtConfig};

fn core_text(alloc: Global, core: &CoreConfig) -> Result<String, AllocError>
    ensures { IfOk result (λ text. string_bytes text ≡ core_text core.now) }
{
    let tw = digit(core.tw_mdct);
    let nf = digit(core.noise_filling);
    format!(in alloc; "tw={tw} nf={nf}")
}

/// The default length, where one is coded.
fn default_of(ext: &ExtConfig) -> Option<u32>
    ensures { result ≡ default_of ext.now }
{
    if ext.default_length == 0 {
        None
    } else {
        Some(ext.default_length)
    }
}

fn ext_text(alloc: Global, ext: &ExtConfig) -> Result<String, AllocError>
    ensures { IfOk result (λ text. string_bytes text ≡ ext_text ext.now) }
{
    let kind = ext.kind;
    let default = number_or_dash(alloc, default_of(ext))?;
    let frag = digit(ext.frag);
    let config = hex_or_dash(alloc, ext.bytes.as_slice())?;
    format!(in alloc; "type={kind} default={default} frag={frag} config={config}")
}

/// What the line of an element says behind its number.
fn element_text(alloc: Global, element: &ElementConfig) -> Result<String, AllocError>
    ensures { IfOk result (λ text. string_bytes text ≡ element_text element.now) }
{
    match element {
        ElementConfig::Single { core, .. } => {
            let core = core_text(alloc, core)?;
            format!(in alloc; "single {core}")
        }
        ElementConfig::Pair { core, stereo, .. } => {
            let core = core_text(alloc, core)?;
            let stereo = *stereo;
            format!(in alloc; "pair {core} stereo={stereo}")
        }
        ElementConfig::Lfe => format!(in alloc; "lfe"),
        ElementConfig::Ext(ext) => {
            let ext = ext_text(alloc, ext)?;
            format!(in alloc; "ext {ext}")
        }
    }
}

fn element_line(alloc: Global, i: usize, element: &ElementConfig) -> Result<Octets, AllocError>
    ensures { IfOk result (λ line. line ≡ element_line i element.now) }
{
    let element = element_text(alloc, element)?;
    let text = format!(in alloc; "element {i} {element}\n")?;
    Ok(Octets::from_vec(text.into_bytes()))
}

fn sbr_of(element: &ElementConfig) -> Option<SbrConfig>
    ensures { result ≡ sbr_of element.now }
{
    match element {
        ElementConfig::Single { sbr, .. } => *sbr,
        ElementConfig::Pair { sbr, .. } => *sbr,
        _ => None,
    }
}

fn mps_of(element: &ElementConfig) -> Option<Mps212>
    ensures { result ≡ mps_of element.now }
{
    match element {
        ElementConfig::Pair { mps, .. } => *mps,
        _ => None,
    }
}

fn push_sbr(
    alloc: Global,
    value: Option<SbrConfig>,
    lines: &mut Items<Octets>,
) -> Result<(), AllocError>
    ensures { OnOk result (lines.new ≡ lines.old ++ line_where sbr_line value) }
{
    if let Some(value) = value {
        let line = sbr_line(alloc, &value)?;
        lines.push(line)?;
    }
    Ok(())
}

fn push_mps(
    alloc: Global,
    value: Option<Mps212>,
    lines: &mut Items<Octets>,
) -> Result<(), AllocError>
    ensures { OnOk result (lines.new ≡ lines.old ++ line_where mps_line value) }
{
    if let Some(value) = value {
        let line = mps_line(alloc, &value)?;
        lines.push(line)?;
    }
    Ok(())
}

/// Adds the line of an element and those of its settings.
fn push_element(
    alloc: Global,
    i: usize,
    element: &ElementConfig,
    lines: &mut Items<Octets>,
) -> Result<(), AllocError>
    ensures { OnOk result (lines.new ≡ lines.old ++ lines_of_element i element.now) }
{
    let line = element_line(alloc, i, element)?;
    lines.push(line)?;
    push_sbr(alloc, sbr_of(element), lines)?;
    push_mps(alloc, mps_of(element), lines)?;
    Ok(())
}

/// Adds the lines of all elements.
pub fn push_elements(
    alloc: Global,
    elements: &[ElementConfig],
    lines: &mut Items<Octets>,
) -> Result<(), AllocError>
    ensures { OnOk result (lines.new ≡ lines.old ++ elements_from 0 elements.now) }
{
    for i in 0..elements.len() {
        push_element(alloc, i, &elements[i], lines)?;
    }
    Ok(())
}

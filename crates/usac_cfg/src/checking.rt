// Whether the parts of a configuration are well formed.
ghost use Rattle.std.specs.Prelude.{◌≡◌, ◌<◌, ◌↔◌, IsTrue};
ghost use Rattle.std.specs.List.{AllByRecursion};
ghost use Rattle.usac_cfg.specs.ExtensionElement.{IsWellFormed as IsExtWellFormed};
ghost use Rattle.usac_cfg.specs.ConfigExtension.{IsWellFormed as IsExtensionWellFormed};
ghost use Rattle.usac_cfg.specs.ElementConfig.{IsWellFormed as IsElementWellFormed, HasSbr, HasMps, IsStereo};
ghost use Rattle.usac_cfg.specs.UsacConfig.{IsExplicit, ArePositions};

use crate::config_extension::ConfigExt;
use crate::element_config::ElementConfig;
use crate::extension_element::ExtConfig;
use sbr_mps::{Mps212, SbrConfig};

fn fits_ext(value: &ExtConfig) -> bool
    ensures { IsTrue result ↔ IsExtWellFormed value.now }
{
    let bytes = value.bytes.as_slice();
    value.kind <= 65805 && value.default_length <= 65791 && bytes.len() <= 65805
}

fn fits_extension(value: &ConfigExt) -> bool
    ensures { IsTrue result ↔ IsExtensionWellFormed value.now }
{
    let bytes = value.bytes.as_slice();
    value.kind <= 65805 && bytes.len() <= 65805
}

fn fits_sbr(has_sbr: bool, there: Option<SbrConfig>) -> bool
    ensures { IsTrue result ↔ HasSbr has_sbr there }
{
    match there {
        Some(value) => has_sbr && value.is_well_formed(),
        None => !has_sbr,
    }
}

fn fits_stereo(has_sbr: bool, stereo: u8) -> bool
    ensures { IsTrue result ↔ IsStereo has_sbr stereo }
{
    if has_sbr { stereo < 4 } else { stereo == 0 }
}

fn fits_mps(stereo: u8, there: Option<Mps212>) -> bool
    ensures { IsTrue result ↔ HasMps stereo there }
{
    match there {
        Some(value) => stereo > 0 && value.is_well_formed() && value.goes_with(stereo),
        None => stereo == 0,
    }
}

fn fits_element(has_sbr: bool, value: &ElementConfig) -> bool
    ensures { IsTrue result ↔ IsElementWellFormed has_sbr value.now }
{
    match value {
        ElementConfig::Single { core: _, sbr } => fits_sbr(has_sbr, *sbr),
        ElementConfig::Pair {
            core: _,
            sbr,
            stereo,
            mps,
        } => fits_sbr(has_sbr, *sbr) && fits_stereo(has_sbr, *stereo) && fits_mps(*stereo, *mps),
        ElementConfig::Lfe => true,
        ElementConfig::Ext(ext) => fits_ext(ext),
    }
}

pub fn fit_elements(has_sbr: bool, values: &[ElementConfig]) -> bool
    ensures { IsTrue result ↔ AllByRecursion (IsElementWellFormed has_sbr) values.now }
{
    for value in values {
        if !fits_element(has_sbr, value) {
            return false;
        }
    }
    true
}

pub fn fit_extensions(values: &[ConfigExt]) -> bool
    ensures { IsTrue result ↔ AllByRecursion IsExtensionWellFormed values.now }
{
    for value in values {
        if !fits_extension(value) {
            return false;
        }
    }
    true
}

fn fit_positions(values: &[u8]) -> bool
    ensures { IsTrue result ↔ AllByRecursion (λ p. p < 32) values.now }
{
    for value in values {
        if *value >= 32 {
            return false;
        }
    }
    true
}

pub fn are_positions(there: bool, values: &[u8]) -> bool
    ensures { IsTrue result ↔ ArePositions there values.now }
{
    if there {
        !values.is_empty() && values.len() <= 64 && fit_positions(values)
    } else {
        values.is_empty()
    }
}

pub fn is_explicit(there: bool, rate: u32) -> bool
    ensures { IsTrue result ↔ IsExplicit there rate }
{
    if there {
        rate >= 1 && rate < 16_777_216
    } else {
        rate == 0
    }
}

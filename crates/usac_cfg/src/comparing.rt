// Whether the parts of two configurations are equal.
ghost use Rattle.std.specs.Prelude.{◌≡◌, ◌↔◌, IsTrue};

use crate::config_extension::ConfigExt;
use crate::element_config::ElementConfig;
use crate::extension_element::ExtConfig;
use sbr_mps::{CoreConfig, Mps212, Residual, SbrConfig, SbrFreq, SbrLimit};

pub fn same_bytes(a: &[u8], b: &[u8]) -> bool
    ensures { IsTrue result ↔ (a.now ≡ b.now) }
{
    a == b
}

fn same_ext(a: &ExtConfig, b: &ExtConfig) -> bool
    ensures { IsTrue result ↔ (a.now ≡ b.now) }
{
    a.kind == b.kind
        && a.default_length == b.default_length
        && a.frag == b.frag
        && same_bytes(a.bytes.as_slice(), b.bytes.as_slice())
}

fn same_core(a: &CoreConfig, b: &CoreConfig) -> bool
    ensures { IsTrue result ↔ (a.now ≡ b.now) }
{
    a == b
}

fn same_freq(a: &Option<SbrFreq>, b: &Option<SbrFreq>) -> bool
    ensures { IsTrue result ↔ (a.now ≡ b.now) }
{
    match (a, b) {
        (Some(a), Some(b)) => a == b,
        (None, None) => true,
        _ => false,
    }
}

fn same_limit(a: &Option<SbrLimit>, b: &Option<SbrLimit>) -> bool
    ensures { IsTrue result ↔ (a.now ≡ b.now) }
{
    match (a, b) {
        (Some(a), Some(b)) => a == b,
        (None, None) => true,
        _ => false,
    }
}

fn same_sbr_config(a: &SbrConfig, b: &SbrConfig) -> bool
    ensures { IsTrue result ↔ (a.now ≡ b.now) }
{
    a.harmonic == b.harmonic
        && a.inter_tes == b.inter_tes
        && a.pvc == b.pvc
        && a.start == b.start
        && a.stop == b.stop
        && same_freq(&a.extra1, &b.extra1)
        && same_limit(&a.extra2, &b.extra2)
}

fn same_sbr(a: &Option<SbrConfig>, b: &Option<SbrConfig>) -> bool
    ensures { IsTrue result ↔ (a.now ≡ b.now) }
{
    match (a, b) {
        (Some(a), Some(b)) => same_sbr_config(a, b),
        (None, None) => true,
        _ => false,
    }
}

fn same_residual(a: &Option<Residual>, b: &Option<Residual>) -> bool
    ensures { IsTrue result ↔ (a.now ≡ b.now) }
{
    match (a, b) {
        (Some(a), Some(b)) => a == b,
        (None, None) => true,
        _ => false,
    }
}

fn same_mps212(a: &Mps212, b: &Mps212) -> bool
    ensures { IsTrue result ↔ (a.now ≡ b.now) }
{
    a.freq_res == b.freq_res
        && a.fixed_gain == b.fixed_gain
        && a.temp_shape == b.temp_shape
        && a.decorr == b.decorr
        && a.high_rate == b.high_rate
        && a.phase_coding == b.phase_coding
        && a.ott_phase == b.ott_phase
        && same_residual(&a.residual, &b.residual)
        && a.env_quant == b.env_quant
}

fn same_mps(a: &Option<Mps212>, b: &Option<Mps212>) -> bool
    ensures { IsTrue result ↔ (a.now ≡ b.now) }
{
    match (a, b) {
        (Some(a), Some(b)) => same_mps212(a, b),
        (None, None) => true,
        _ => false,
    }
}

fn same_element(a: &ElementConfig, b: &ElementConfig) -> bool
    ensures { IsTrue result ↔ (a.now ≡ b.now) }
{
    match (a, b) {
        (ElementConfig::Single { core: c, sbr: s }, ElementConfig::Single { core: d, sbr: t }) => {
            same_core(c, d) && same_sbr(s, t)
        }
        (
            ElementConfig::Pair {
                core: c,
                sbr: s,
                stereo: n,
                mps: m,
            },
            ElementConfig::Pair {
                core: d,
                sbr: t,
                stereo: k,
                mps: o,
            },
        ) => same_core(c, d) && same_sbr(s, t) && *n == *k && same_mps(m, o),
        (ElementConfig::Lfe, ElementConfig::Lfe) => true,
        (ElementConfig::Ext(e), ElementConfig::Ext(f)) => same_ext(e, f),
        _ => false,
    }
}

pub fn same_elements(a: &[ElementConfig], b: &[ElementConfig]) -> bool
    ensures { IsTrue result ↔ (a.now ≡ b.now) }
{
    if a.len() != b.len() {
        return false;
    }
    for i in 0..a.len() {
        if !same_element(&a[i], &b[i]) {
            return false;
        }
    }
    true
}

fn same_extension(a: &ConfigExt, b: &ConfigExt) -> bool
    ensures { IsTrue result ↔ (a.now ≡ b.now) }
{
    a.kind == b.kind && same_bytes(a.bytes.as_slice(), b.bytes.as_slice())
}

pub fn same_extensions(a: &[ConfigExt], b: &[ConfigExt]) -> bool
    ensures { IsTrue result ↔ (a.now ≡ b.now) }
{
    if a.len() != b.len() {
        return false;
    }
    for i in 0..a.len() {
        if !same_extension(&a[i], &b[i]) {
            return false;
        }
    }
    true
}

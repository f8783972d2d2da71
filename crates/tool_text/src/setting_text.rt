// The lines of the settings of an element.
ghost use Rattle.std.specs.Prelude.{◌≡◌, IfOk};
ghost use Rattle.std.specs.String.{string_bytes};
ghost use Rattle.tool_text.specs.SettingText.{freq_text, limit_text, residual_text, tools_text, fixed_text, sbr_line, mps_line};

use crate::parts::{dash, digit, number_or_dash, truth_or_dash};
use bit_core::Octets;
use sbr_mps::{Mps212, Residual, SbrConfig, SbrFreq, SbrLimit};
use std::alloc::{AllocError, Global};

fn freq_text(alloc: Global, freq: Option<SbrFreq>) -> Result<String, AllocError>
    ensures { IfOk result (λ text. string_bytes text ≡ freq_text freq) }
{
    let Some(freq) = freq else {
        return dash(alloc);
    };
    let scale = freq.scale;
    let alter = digit(freq.alter);
    let noise_bands = freq.noise_bands;
    format!(in alloc; "{scale},{alter},{noise_bands}")
}

fn limit_text(alloc: Global, limit: Option<SbrLimit>) -> Result<String, AllocError>
    ensures { IfOk result (λ text. string_bytes text ≡ limit_text limit) }
{
    let Some(limit) = limit else {
        return dash(alloc);
    };
    let bands = limit.bands;
    let gains = limit.gains;
    let interpol = digit(limit.interpol);
    let smoothing = digit(limit.smoothing);
    format!(in alloc; "{bands},{gains},{interpol},{smoothing}")
}

fn tools_text(alloc: Global, value: &SbrConfig) -> Result<String, AllocError>
    ensures { IfOk result (λ text. string_bytes text ≡ tools_text value.now) }
{
    let harmonic = digit(value.harmonic);
    let tes = digit(value.inter_tes);
    let pvc = digit(value.pvc);
    format!(in alloc; "harmonic={harmonic} tes={tes} pvc={pvc}")
}

/// The line of the SBR settings.
pub fn sbr_line(alloc: Global, value: &SbrConfig) -> Result<Octets, AllocError>
    ensures { IfOk result (λ line. line ≡ sbr_line value.now) }
{
    let tools = tools_text(alloc, value)?;
    let start = value.start;
    let stop = value.stop;
    let extra1 = freq_text(alloc, value.extra1)?;
    let extra2 = limit_text(alloc, value.extra2)?;
    let text = format!(in alloc;
        "sbr {tools} start={start} stop={stop} extra1={extra1} extra2={extra2}\n"
    )?;
    Ok(Octets::from_vec(text.into_bytes()))
}

fn residual_text(alloc: Global, residual: Option<Residual>) -> Result<String, AllocError>
    ensures { IfOk result (λ text. string_bytes text ≡ residual_text residual) }
{
    let Some(residual) = residual else {
        return dash(alloc);
    };
    let bands = residual.bands;
    let pseudo_lr = digit(residual.pseudo_lr);
    format!(in alloc; "{bands},{pseudo_lr}")
}

/// The settings that are always there.
fn fixed_text(alloc: Global, value: &Mps212) -> Result<String, AllocError>
    ensures { IfOk result (λ text. string_bytes text ≡ fixed_text value.now) }
{
    let freq = value.freq_res;
    let gain = value.fixed_gain;
    let shape = value.temp_shape;
    let decorr = value.decorr;
    let high = digit(value.high_rate);
    let phase = digit(value.phase_coding);
    format!(in alloc;
        "freq={freq} gain={gain} shape={shape} decorr={decorr} high={high} phase={phase}"
    )
}

/// The line of the MPEG Surround settings.
pub fn mps_line(alloc: Global, value: &Mps212) -> Result<Octets, AllocError>
    ensures { IfOk result (λ line. line ≡ mps_line value.now) }
{
    let fixed = fixed_text(alloc, value)?;
    let ott = number_or_dash(alloc, value.ott_phase.map(u32::from))?;
    let residual = residual_text(alloc, value.residual)?;
    let quant = truth_or_dash(alloc, value.env_quant)?;
    let text = format!(in alloc; "mps {fixed} ott={ott} residual={residual} quant={quant}\n")?;
    Ok(Octets::from_vec(text.into_bytes()))
}

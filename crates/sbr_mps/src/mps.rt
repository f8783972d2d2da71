ghost use Rattle.std.specs.Prelude.{◌≡◌, ◌<◌, ◌++◌, ◌==◌, ◌↔◌, IsTrue, is_some, OnOk, OnErr};
ghost use Rattle.layout.specs.Layout.{where_set, FitsOption, spelling_of};
ghost use Rattle.layout.specs.Reading.{Gives, Reads};
ghost use Rattle.bit_core.specs.Plain.{bits, bit};
ghost use Rattle.bit_core.specs.Writer.{Extends};
ghost use Rattle.sbr_mps.specs.Mps212.{IsResidualWellFormed, IsWellFormed, has_residual, residual, mps212, mps212_text};

use crate::fields::{read_fields, write_fields};
use bit_core::{BitReader, BitWriter, Short, flag, put_small, small};
use std::alloc::AllocError;

/// How the residual signal is coded (ISO/IEC 23003-3, Mps212Config, where stereoConfigIndex is 2 or 3).
///
/// Well formed where the number fits in its bits.
#[derive(Clone, Copy, Debug, PartialEq, Eq)]
pub struct Residual {
    /// `bsResidualBands`, from 0 to 31.
    pub bands: u8,
    /// `bsPseudoLr`
    pub pseudo_lr: bool,
}

/// The settings of MPEG Surround 2-1-2 (ISO/IEC 23003-3, Mps212Config).
///
/// Well formed where each number fits in its bits and `env_quant` is there exactly where `temp_shape` is 2.
///
/// ```text
/// bsFreqRes                3
/// bsFixedGainDMX           3
/// bsTempShapeConfig        2
/// bsDecorrConfig           2
/// bsHighRateMode           1
/// bsPhaseCoding            1
/// bsOttBandsPhasePresent   1
/// bsOttBandsPhase          5   where bsOttBandsPhasePresent is 1
/// bsResidualBands          5   these two where stereoConfigIndex is 2 or 3
/// bsPseudoLr               1
/// bsEnvQuantMode           1   where bsTempShapeConfig is 2
/// ```
#[derive(Clone, Copy, Debug, PartialEq, Eq)]
pub struct Mps212 {
    /// `bsFreqRes`, from 0 to 7.
    pub freq_res: u8,
    /// `bsFixedGainDMX`, from 0 to 7.
    pub fixed_gain: u8,
    /// `bsTempShapeConfig`, from 0 to 3.
    pub temp_shape: u8,
    /// `bsDecorrConfig`, from 0 to 3.
    pub decorr: u8,
    /// `bsHighRateMode`
    pub high_rate: bool,
    /// `bsPhaseCoding`
    pub phase_coding: bool,
    /// `bsOttBandsPhase`, from 0 to 31, where `bsOttBandsPhasePresent` is 1.
    pub ott_phase: Option<u8>,
    /// There where the stereo index is 2 or 3.
    pub residual: Option<Residual>,
    /// `bsEnvQuantMode`, where `temp_shape` is 2.
    pub env_quant: Option<bool>,
}

impl Mps212 {
    /// Reads the settings that stand behind this `stereoConfigIndex`, from 13 to 25 bits. They are well formed, and their
    /// residual is there exactly where the index is 2 or 3.
    ///
    /// Errors: `Short` at the first bit of the first field that lacks bits; the reader stays where it was.
    pub fn read(reader: &mut BitReader, stereo: u8) -> Result<Mps212, Short>
        ensures reads { Reads (mps212 stereo) reader.old reader.new result }

        // For the proofs of the readers above.
        ensures exact { Gives (mps212 stereo) reader.old reader.new result }
    {
        let start = reader.at();
        match read_mps(reader, stereo) {
            Ok(value) => Ok(value),
            Err(fault) => {
                reader.back_to(start);
                Err(fault)
            }
        }
    }

    /// Whether each number fits in its bits, and `env_quant` is there exactly where `temp_shape` is 2.
    pub fn is_well_formed(&self) -> bool
        ensures { IsTrue result ↔ IsWellFormed self.now }
    {
        self.freq_res < 8
            && self.fixed_gain < 8
            && self.temp_shape < 4
            && self.decorr < 4
            && fits_phase(self.ott_phase)
            && fits_residual(self.residual)
            && self.env_quant.is_some() == (self.temp_shape == 2)
    }

    /// Whether the residual is there exactly where it goes with this `stereoConfigIndex`.
    pub fn goes_with(&self, stereo: u8) -> bool
        ensures { IsTrue result ↔ (is_some self.now.residual ≡ has_residual stereo) }
    {
        self.residual.is_some() == goes_with_residual(stereo)
    }

    /// Writes well formed settings.
    ///
    /// Errors: out of memory; nothing is written.
    #[tactic(auto, using(bit_core::proofs::Writing::extends_cut, bit_core::proofs::Writing::extends_long))]
    pub fn write(&self, writer: &mut BitWriter) -> Result<(), AllocError>
        requires { IsWellFormed self.now }
        ensures ok { OnOk result (writer.new ≡ writer.old ++ mps212_text self.now) }
        ensures err { OnErr result (writer.new ≡ writer.old) }
    {
        let start = writer.len();
        match write_mps(self, writer) {
            Ok(()) => Ok(()),
            Err(fault) => {
                writer.truncate(start);
                Err(fault)
            }
        }
    }
}

fn fits_phase(there: Option<u8>) -> bool
    ensures { IsTrue result ↔ FitsOption (λ p. p < 32) there }
{
    match there {
        Some(value) => value < 32,
        None => true,
    }
}

fn fits_residual(there: Option<Residual>) -> bool
    ensures { IsTrue result ↔ FitsOption IsResidualWellFormed there }
{
    match there {
        Some(value) => value.bands < 32,
        None => true,
    }
}

fn read_phase(reader: &mut BitReader, there: bool) -> Result<Option<u8>, Short>
    ensures { Gives (where_set there (bits 5)) reader.old reader.new result }
{
    if !there {
        return Ok(None);
    }
    read_fields!(reader: phase 5);
    Ok(Some(phase))
}

fn read_residual(reader: &mut BitReader, there: bool) -> Result<Option<Residual>, Short>
    ensures { Gives (where_set there residual) reader.old reader.new result }
{
    if !there {
        return Ok(None);
    }
    read_fields!(reader: bands 5, pseudo_lr bit);
    Ok(Some(Residual { bands, pseudo_lr }))
}

fn read_quant(reader: &mut BitReader, there: bool) -> Result<Option<bool>, Short>
    ensures { Gives (where_set there bit) reader.old reader.new result }
{
    if !there {
        return Ok(None);
    }
    read_fields!(reader: quant bit);
    Ok(Some(quant))
}

/// Whether a residual signal goes with this stereo index.
fn goes_with_residual(stereo: u8) -> bool
    ensures { result ≡ has_residual stereo }
{
    stereo == 2 || stereo == 3
}

fn read_mps(reader: &mut BitReader, stereo: u8) -> Result<Mps212, Short>
    ensures { Gives (mps212 stereo) reader.old reader.new result }
{
    let has_residual = goes_with_residual(stereo);
    read_fields!(reader:
        freq_res 3, fixed_gain 3, temp_shape 2, decorr 2, high_rate bit, phase_coding bit, has_phase bit,
        ott_phase (read_phase has_phase), residual (read_residual has_residual),
        env_quant (read_quant temp_shape == 2));
    Ok(Mps212 {
        freq_res,
        fixed_gain,
        temp_shape,
        decorr,
        high_rate,
        phase_coding,
        ott_phase,
        residual,
        env_quant,
    })
}

fn write_phase(phase: Option<u8>, writer: &mut BitWriter) -> Result<(), AllocError>
    requires { FitsOption (λ p. p < 32) phase }
    ensures ok { OnOk result (writer.new ≡ writer.old ++ spelling_of (bits 5).spelling phase) }
    ensures kept { Extends writer.old writer.new }
{
    if let Some(value) = phase {
        write_fields!(writer: value => 5);
    }
    Ok(())
}

fn write_residual(there: Option<Residual>, writer: &mut BitWriter) -> Result<(), AllocError>
    requires { FitsOption IsResidualWellFormed there }
    ensures ok { OnOk result (writer.new ≡ writer.old ++ spelling_of residual.spelling there) }
    ensures kept { Extends writer.old writer.new }
{
    if let Some(value) = there {
        write_fields!(writer: value.bands => 5, value.pseudo_lr => bit);
    }
    Ok(())
}

fn write_quant(quant: Option<bool>, writer: &mut BitWriter) -> Result<(), AllocError>
    ensures ok { OnOk result (writer.new ≡ writer.old ++ spelling_of bit.spelling quant) }
    ensures kept { Extends writer.old writer.new }
{
    if let Some(value) = quant {
        write_fields!(writer: value => bit);
    }
    Ok(())
}

fn write_mps(value: &Mps212, writer: &mut BitWriter) -> Result<(), AllocError>
    requires { IsWellFormed value.now }
    ensures ok { OnOk result (writer.new ≡ writer.old ++ mps212_text value.now) }
    ensures kept { Extends writer.old writer.new }
{
    write_fields!(writer:
        value.freq_res => 3, value.fixed_gain => 3, value.temp_shape => 2, value.decorr => 2,
        value.high_rate => bit, value.phase_coding => bit, value.ott_phase.is_some() => bit,
        value.ott_phase => (write_phase), value.residual => (write_residual), value.env_quant => (write_quant));
    Ok(())
}

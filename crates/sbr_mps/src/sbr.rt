ghost use Rattle.std.specs.Prelude.{◌≡◌, ◌++◌, ◌↔◌, IsTrue, OnOk, OnErr};
ghost use Rattle.layout.specs.Layout.{where_set, FitsOption, spelling_of};
ghost use Rattle.layout.specs.Reading.{Gives, Reads};
ghost use Rattle.bit_core.specs.Writer.{Extends};
ghost use Rattle.sbr_mps.specs.SbrConfig.{IsFreqWellFormed, IsLimitWellFormed, IsWellFormed, freq, limit, fields, sbr_config};

use crate::fields::{read_fields, write_fields};
use bit_core::{BitReader, BitWriter, Short, flag, put_small, small};
use std::alloc::AllocError;

/// How the frequency bands are made (ISO/IEC 23003-3, SbrDfltHeader, behind dflt_header_extra1).
///
/// Well formed where each number fits in its bits.
#[derive(Clone, Copy, Debug, PartialEq, Eq)]
pub struct SbrFreq {
    /// `dflt_freq_scale`, from 0 to 3.
    pub scale: u8,
    /// `dflt_alter_scale`
    pub alter: bool,
    /// `dflt_noise_bands`, from 0 to 3.
    pub noise_bands: u8,
}

/// How the limiter works (ISO/IEC 23003-3, SbrDfltHeader, behind dflt_header_extra2).
///
/// Well formed where each number fits in its bits.
#[derive(Clone, Copy, Debug, PartialEq, Eq)]
pub struct SbrLimit {
    /// `dflt_limiter_bands`, from 0 to 3.
    pub bands: u8,
    /// `dflt_limiter_gains`, from 0 to 3.
    pub gains: u8,
    /// `dflt_interpol_freq`
    pub interpol: bool,
    /// `dflt_smoothing_mode`
    pub smoothing: bool,
}

/// The settings of spectral band replication (ISO/IEC 23003-3, SbrConfig).
///
/// Well formed where each number fits in its bits.
///
/// ```text
/// harmonicSBR            1
/// bs_interTes            1
/// bs_pvc                 1
/// SbrDfltHeader
///   dflt_start_freq      4
///   dflt_stop_freq       4
///   dflt_header_extra1   1
///   dflt_header_extra2   1
///   dflt_freq_scale      2   these three where dflt_header_extra1 is 1
///   dflt_alter_scale     1
///   dflt_noise_bands     2
///   dflt_limiter_bands   2   these four where dflt_header_extra2 is 1
///   dflt_limiter_gains   2
///   dflt_interpol_freq   1
///   dflt_smoothing_mode  1
/// ```
#[derive(Clone, Copy, Debug, PartialEq, Eq)]
pub struct SbrConfig {
    /// `harmonicSBR`
    pub harmonic: bool,
    /// `bs_interTes`
    pub inter_tes: bool,
    /// `bs_pvc`
    pub pvc: bool,
    /// `dflt_start_freq`, from 0 to 15.
    pub start: u8,
    /// `dflt_stop_freq`, from 0 to 15.
    pub stop: u8,
    /// There where `dflt_header_extra1` is 1.
    pub extra1: Option<SbrFreq>,
    /// There where `dflt_header_extra2` is 1.
    pub extra2: Option<SbrLimit>,
}

impl SbrConfig {
    /// Reads the settings, from 13 to 24 bits. They are well formed.
    ///
    /// Errors: `Short` at the first bit of the first field that lacks bits; the reader stays where it was.
    pub fn read(reader: &mut BitReader) -> Result<SbrConfig, Short>
        ensures reads { Reads sbr_config reader.old reader.new result }

        // For the proofs of the readers above.
        ensures exact { Gives sbr_config reader.old reader.new result }
    {
        let start = reader.at();
        match read_sbr(reader) {
            Ok(value) => Ok(value),
            Err(fault) => {
                reader.back_to(start);
                Err(fault)
            }
        }
    }

    /// Whether each number fits in its bits.
    pub fn is_well_formed(&self) -> bool
        ensures { IsTrue result ↔ IsWellFormed self.now }
    {
        self.start < 16 && self.stop < 16 && fits_freq(self.extra1) && fits_limit(self.extra2)
    }

    /// Writes well formed settings.
    ///
    /// Errors: out of memory; nothing is written.
    #[tactic(auto, using(bit_core::proofs::Writing::extends_cut, bit_core::proofs::Writing::extends_long))]
    pub fn write(&self, writer: &mut BitWriter) -> Result<(), AllocError>
        requires { IsWellFormed self.now }
        ensures ok { OnOk result (writer.new ≡ writer.old ++ sbr_config.spelling self.now) }
        ensures err { OnErr result (writer.new ≡ writer.old) }
    {
        let start = writer.len();
        match write_sbr(self, writer) {
            Ok(()) => Ok(()),
            Err(fault) => {
                writer.truncate(start);
                Err(fault)
            }
        }
    }
}

fn fits_freq(there: Option<SbrFreq>) -> bool
    ensures { IsTrue result ↔ FitsOption IsFreqWellFormed there }
{
    match there {
        Some(value) => value.scale < 4 && value.noise_bands < 4,
        None => true,
    }
}

fn fits_limit(there: Option<SbrLimit>) -> bool
    ensures { IsTrue result ↔ FitsOption IsLimitWellFormed there }
{
    match there {
        Some(value) => value.bands < 4 && value.gains < 4,
        None => true,
    }
}

fn read_freq(reader: &mut BitReader, there: bool) -> Result<Option<SbrFreq>, Short>
    ensures { Gives (where_set there freq) reader.old reader.new result }
{
    if !there {
        return Ok(None);
    }
    read_fields!(reader: scale 2, alter bit, noise_bands 2);
    Ok(Some(SbrFreq {
        scale,
        alter,
        noise_bands,
    }))
}

fn read_limit(reader: &mut BitReader, there: bool) -> Result<Option<SbrLimit>, Short>
    ensures { Gives (where_set there limit) reader.old reader.new result }
{
    if !there {
        return Ok(None);
    }
    read_fields!(reader: bands 2, gains 2, interpol bit, smoothing bit);
    Ok(Some(SbrLimit {
        bands,
        gains,
        interpol,
        smoothing,
    }))
}

fn read_sbr(reader: &mut BitReader) -> Result<SbrConfig, Short>
    ensures { Gives sbr_config reader.old reader.new result }
{
    read_fields!(reader:
        harmonic bit, inter_tes bit, pvc bit, start 4, stop 4, has_freq bit, has_limit bit,
        extra1 (read_freq has_freq), extra2 (read_limit has_limit));
    Ok(SbrConfig {
        harmonic,
        inter_tes,
        pvc,
        start,
        stop,
        extra1,
        extra2,
    })
}

fn write_freq(there: Option<SbrFreq>, writer: &mut BitWriter) -> Result<(), AllocError>
    requires { FitsOption IsFreqWellFormed there }
    ensures ok { OnOk result (writer.new ≡ writer.old ++ spelling_of freq.spelling there) }
    ensures kept { Extends writer.old writer.new }
{
    if let Some(value) = there {
        write_fields!(writer: value.scale => 2, value.alter => bit, value.noise_bands => 2);
    }
    Ok(())
}

fn write_limit(there: Option<SbrLimit>, writer: &mut BitWriter) -> Result<(), AllocError>
    requires { FitsOption IsLimitWellFormed there }
    ensures ok { OnOk result (writer.new ≡ writer.old ++ spelling_of limit.spelling there) }
    ensures kept { Extends writer.old writer.new }
{
    if let Some(value) = there {
        write_fields!(writer:
            value.bands => 2, value.gains => 2, value.interpol => bit, value.smoothing => bit);
    }
    Ok(())
}

fn write_sbr(value: &SbrConfig, writer: &mut BitWriter) -> Result<(), AllocError>
    requires { IsWellFormed value.now }
    ensures ok { OnOk result (writer.new ≡ writer.old ++ sbr_config.spelling value.now) }
    ensures kept { Extends writer.old writer.new }
{
    write_fields!(writer:
        value.harmonic => bit, value.inter_tes => bit, value.pvc => bit, value.start => 4, value.stop => 4,
        value.extra1.is_some() => bit, value.extra2.is_some() => bit,
        value.extra1 => (write_freq), value.extra2 => (write_limit));
    Ok(())
}

ghost use Rattle.std.specs.Prelude.{◌≡◌, ◌++◌, ◌↔◌, IsTrue, OnOk, OnErr, IfOk};
ghost use Rattle.usac_cfg.specs.UsacConfig.{id_of, first_id, leading_of};

use crate::checking::{are_positions, fit_elements, fit_extensions, is_explicit};
use crate::comparing::{same_bytes, same_elements, same_extensions};
use crate::config_extension::ConfigExt;
use crate::copying::{copy_elements, copy_extensions};
use crate::element_config::ElementConfig;
use crate::faults::CfgFault;
use crate::lists::{Elements, Extensions, Positions};
use crate::reading::{goes_with_sbr, read_fields};
use crate::writing::write_fields;
use bit_core::{BitReader, BitWriter};
use std::alloc::{AllocError, Global};
use tables::{channels_of, frame_of, rate_of};

/// A configuration (ISO/IEC 23003-3, UsacConfig).
///
/// Well formed where every field fits its bits, no index is reserved, and what depends on an index is there exactly where
/// it says so.
///
/// An example, which is a test of this crate:
///
/// ```text
/// let mut reader = BitReader::new(&[0x19, 0x08, 0x08]);
/// let config = UsacConfig::read(alloc, &mut reader)?;
/// Ok((config.rate(), config.frame_length(), reader.at()))     // 48000, 1024, 22
/// ```
///
/// The fields, in their order:
///
/// ```text
/// usacSamplingFrequencyIndex   5
/// usacSamplingFrequency        24                       where the index is 31
/// coreSbrFrameLengthIndex      3
/// channelConfigurationIndex    5
/// UsacChannelConfig                                     where the index is 0
///   numOutChannels             escapedValue(5, 8, 16)
///   bsOutputChannelPos         5                        for each channel
/// UsacDecoderConfig
///   numElements - 1            escapedValue(4, 8, 16)
///   the configuration of each element
/// usacConfigExtensionPresent   1
/// UsacConfigExtension                                   where that is 1
///   numConfigExtensions - 1    escapedValue(2, 4, 8)
///   each extension
/// ```
#[derive(Debug, Drop)]
pub struct UsacConfig {
    /// `usacSamplingFrequencyIndex`, which names the rate of the decoder's output, or is 31: then `rate_explicit` has it.
    pub rate_index: u8,
    /// `usacSamplingFrequency` in Hz, from 1 to 16,777,215, or 0 where the index is not 31.
    pub rate_explicit: u32,
    /// `coreSbrFrameLengthIndex`, from 0 to 4.
    pub frame_index: u8,
    /// `channelConfigurationIndex`, from 0 to 13; 0 says that the positions are there.
    pub channel_index: u8,
    /// `bsOutputChannelPos`, from 1 to 64 of them where `channel_index` is 0, and none elsewhere.
    pub positions: Positions,
    /// From 1 to 64 elements.
    pub elements: Elements,
    /// At most 274 extensions.
    pub extensions: Extensions,
}

impl UsacConfig {
    ghost use Rattle.usac_cfg.specs.UsacConfig.{IsWellFormed, HasIndices, HasLists, rate, ratio, frame_length, channels, stream_id, declares_preroll, leading};
    ghost use Rattle.usac_cfg.specs.Spelling.{usac_config};
    ghost use Rattle.usac_cfg.specs.Faults.{is_memory};
    ghost use Rattle.layout.specs.Reading.{GivesUnless, ReadsUnless};

    /// Reads a configuration, which is well formed.
    ///
    /// Errors: the fault of the leftmost field at fault, at its first bit, or out of memory; the reader stays where it was.
    pub fn read(alloc: Global, reader: &mut BitReader) -> Result<UsacConfig, CfgFault>
        ensures reads { ReadsUnless is_memory usac_config reader.old reader.new result }

        // For the proofs of the readers above.
        ensures exact { GivesUnless is_memory usac_config reader.old reader.new result }
    {
        let start = reader.at();
        match read_fields(alloc, reader) {
            Ok(config) => Ok(config),
            Err(fault) => {
                reader.back_to(start);
                Err(fault)
            }
        }
    }

    /// Writes a well formed configuration.
    ///
    /// Errors: out of memory; nothing is written.
    #[tactic(auto, using(bit_core::proofs::Writing::extends_cut, bit_core::proofs::Writing::extends_long))]
    pub fn write(&self, writer: &mut BitWriter) -> Result<(), AllocError>
        requires { IsWellFormed self.now }
        ensures ok { OnOk result (writer.new ≡ writer.old ++ usac_config.spelling self.now) }
        ensures err { OnErr result (writer.new ≡ writer.old) }
    {
        let start = writer.len();
        match write_fields(self, writer) {
            Ok(()) => Ok(()),
            Err(fault) => {
                writer.truncate(start);
                Err(fault)
            }
        }
    }

    /// A copy. The one error is out of memory.
    pub fn copy(&self, alloc: Global) -> Result<UsacConfig, AllocError>
        ensures { IfOk result (λ copied. copied ≡ self.now) }
    {
        let positions = self.positions.copy(alloc)?;
        let elements = copy_elements(alloc, self.elements.as_slice())?;
        let extensions = copy_extensions(alloc, self.extensions.as_slice())?;
        Ok(UsacConfig {
            rate_index: self.rate_index,
            rate_explicit: self.rate_explicit,
            frame_index: self.frame_index,
            channel_index: self.channel_index,
            positions,
            elements,
            extensions,
        })
    }

    /// `sbrRatioIndex`: 0 without SBR, 1 for 4:1, 2 for 8:3, 3 for 2:1.
    pub fn ratio(&self) -> u8
        requires { IsWellFormed self.now }
        ensures { result ≡ ratio self.now }
    {
        match frame_of(self.frame_index) {
            Some(shape) => shape.ratio,
            None => 0,
        }
    }

    /// The number of samples of a frame and a channel at the decoder's output: 768, 1024, 2048 or 4096.
    pub fn frame_length(&self) -> u32
        requires { IsWellFormed self.now }
        ensures { result ≡ frame_length self.now }
    {
        match frame_of(self.frame_index) {
            Some(shape) => shape.output,
            None => 0,
        }
    }

    /// The number of output channels, from 1 to 64.
    pub fn channels(&self) -> u32
        requires { IsWellFormed self.now }
        ensures { result ≡ channels self.now }
    {
        if self.channel_index == 0 {
            return self.positions.len() as u32;
        }
        channels_of(self.channel_index).unwrap_or(0)
    }

    /// Whether every field fits its bits, no index is reserved, and what depends on an index is there exactly where it
    /// says so.
    pub fn is_well_formed(&self) -> bool
        ensures { IsTrue result ↔ IsWellFormed self.now }
    {
        self.has_indices() && self.has_lists()
    }

    fn has_indices(&self) -> bool
        ensures { IsTrue result ↔ HasIndices self.now }
    {
        (rate_of(self.rate_index).is_some() || self.rate_index == 31)
            && is_explicit(self.rate_index == 31, self.rate_explicit)
            && frame_of(self.frame_index).is_some()
            && (channels_of(self.channel_index).is_some() || self.channel_index == 0)
            && are_positions(self.channel_index == 0, self.positions.as_slice())
    }

    fn has_lists(&self) -> bool
        ensures { IsTrue result ↔ HasLists self.now }
    {
        let sbr = goes_with_sbr(self.frame_index);
        let elements = self.elements.as_slice();
        let extensions = self.extensions.as_slice();
        !elements.is_empty()
            && elements.len() <= 64
            && fit_elements(sbr, elements)
            && extensions.len() <= 274
            && fit_extensions(extensions)
    }

    /// The rate of the decoder's output, in Hz.
    pub fn rate(&self) -> u32
        requires { IsWellFormed self.now }
        ensures { result ≡ rate self.now }
    {
        if self.rate_index == 31 {
            return self.rate_explicit;
        }
        rate_of(self.rate_index).unwrap_or(0)
    }

    /// The identifier of the stream (`ID_CONFIG_EXT_STREAM_ID`): that of the first extension of type 7 which has exactly
    /// two bytes. `None` exactly where there is none.
    pub fn stream_id(&self) -> Option<u16>
        ensures { result ≡ stream_id self.now }
    {
        first_id(self.extensions.as_slice())
    }

    /// Whether element 0 is an extension element of type 3 (`ID_EXT_ELE_AUDIOPREROLL`).
    pub fn declares_preroll(&self) -> bool
        ensures { result ≡ declares_preroll self.now }
    {
        match self.elements.get(0) {
            Some(ElementConfig::Ext(ext)) => ext.kind == 3,
            _ => false,
        }
    }

    /// How many extension elements stand before the first other element.
    pub fn leading(&self) -> u64
        ensures { result ≡ leading self.now }
    {
        leading_in(self.elements.as_slice())
    }

    /// Whether the two are equal. Well formed configurations are equal exactly where their spellings are.
    pub fn same(&self, other: &UsacConfig) -> bool
        ensures equal { IsTrue result ↔ (self.now ≡ other.now) }
        ensures spelled { IsWellFormed self.now → IsWellFormed other.now → IsTrue result ↔ (usac_config.spelling self.now ≡ usac_config.spelling other.now) }
    {
        self.has_fields_of(other)
    }

    fn has_fields_of(&self, other: &UsacConfig) -> bool
        ensures { IsTrue result ↔ (self.now ≡ other.now) }
    {
        self.rate_index == other.rate_index
            && self.rate_explicit == other.rate_explicit
            && self.frame_index == other.frame_index
            && self.channel_index == other.channel_index
            && same_bytes(self.positions.as_slice(), other.positions.as_slice())
            && same_elements(self.elements.as_slice(), other.elements.as_slice())
            && same_extensions(self.extensions.as_slice(), other.extensions.as_slice())
    }
}

fn id_in(extension: &ConfigExt) -> Option<u16>
    ensures { result ≡ id_of extension.now }
{
    if extension.kind != 7 {
        return None;
    }
    match extension.bytes.as_slice() {
        [high, low] => Some(256 * u16::from(*high) + u16::from(*low)),
        _ => None,
    }
}

fn first_id(extensions: &[ConfigExt]) -> Option<u16>
    ensures { result ≡ first_id extensions.now }
{
    for extension in extensions {
        let id = id_in(extension);
        if id.is_some() {
            return id;
        }
    }
    None
}

fn leading_in(elements: &[ElementConfig]) -> u64
    ensures { result ≡ leading_of elements.now }
{
    let mut count: u64 = 0;
    for element in elements {
        match element {
            ElementConfig::Ext(_) => count += 1,
            _ => return count,
        }
    }
    count
}

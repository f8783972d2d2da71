ghost use Rattle.std.specs.Prelude.{◌≡◌, ◌<◌, ◌++◌, nat_lt, is_some, OnOk, OnErr, IfOk};
ghost use Rattle.layout.specs.Layout.{where_set, FitsOption, spelling_of, wrapped};
ghost use Rattle.layout.specs.Reading.{Gives, GivesUnless};
ghost use Rattle.bit_core.specs.Writer.{Extends};
ghost use Rattle.sbr_mps.specs.CoreConfig.{core_config};
ghost use Rattle.sbr_mps.specs.SbrConfig.{sbr_config, IsWellFormed as IsSbrWellFormed};
ghost use Rattle.sbr_mps.specs.Mps212.{mps212, mps212_text};
ghost use Rattle.usac_cfg.specs.Faults.{is_memory};
ghost use Rattle.usac_cfg.specs.ElementConfig.{IsWellFormed, single, pair, stereo, element};

use crate::extension_element::{ExtConfig, read_extension_element, write_extension_element};
use crate::faults::CfgFault;
use bit_core::{BitReader, BitWriter, Short, put_small, small};
use sbr_mps::{CoreConfig, Mps212, SbrConfig};
use std::alloc::{AllocError, Global};

/// The configuration of an element (ISO/IEC 23003-3, UsacDecoderConfig).
///
/// Well formed in a configuration where its parts are, where `sbr` is there exactly where the configuration has SBR, and
/// for a pair besides: `stereo` is 0 where there is no SBR, and `mps` is there exactly where `stereo` is not 0, with a
/// residual exactly where it is 2 or 3.
///
/// ```text
/// usacElementType            2
/// single channel element
///   UsacCoreConfig
///   SbrConfig                    where there is SBR
/// channel pair element
///   UsacCoreConfig
///   SbrConfig                    where there is SBR
///   stereoConfigIndex        2   where there is SBR
///   Mps212Config                 where stereoConfigIndex is over 0
/// LFE element: nothing
/// extension element
///   UsacExtElementConfig
/// ```
#[derive(Debug, Drop)]
pub enum ElementConfig {
    /// A single channel element (UsacSingleChannelElementConfig).
    Single {
        core: CoreConfig,
        sbr: Option<SbrConfig>,
    },
    /// A channel pair element (UsacChannelPairElementConfig).
    Pair {
        core: CoreConfig,
        sbr: Option<SbrConfig>,
        /// `stereoConfigIndex`, from 0 to 3.
        stereo: u8,
        mps: Option<Mps212>,
    },
    /// An element of low frequency effects (UsacLfeElementConfig), which has no settings.
    Lfe,
    /// An extension element (UsacExtElementConfig).
    Ext(ExtConfig),
}

impl ElementConfig {
    /// A copy. The one error is out of memory.
    pub fn copy(&self, alloc: Global) -> Result<ElementConfig, AllocError>
        ensures { IfOk result (λ copied. copied ≡ self.now) }
    {
        match self {
            ElementConfig::Single { core, sbr } => Ok(ElementConfig::Single {
                core: *core,
                sbr: *sbr,
            }),
            ElementConfig::Pair {
                core,
                sbr,
                stereo,
                mps,
            } => Ok(ElementConfig::Pair {
                core: *core,
                sbr: *sbr,
                stereo: *stereo,
                mps: *mps,
            }),
            ElementConfig::Lfe => Ok(ElementConfig::Lfe),
            ElementConfig::Ext(ext) => {
                let copied = ext.copy(alloc)?;
                Ok(ElementConfig::Ext(copied))
            }
        }
    }
}

fn read_sbr(reader: &mut BitReader, there: bool) -> Result<Option<SbrConfig>, Short>
    ensures { Gives (where_set there sbr_config) reader.old reader.new result }
{
    if there {
        let config = SbrConfig::read(reader)?;
        return Ok(Some(config));
    }
    Ok(None)
}

fn read_stereo(reader: &mut BitReader, there: bool) -> Result<u8, Short>
    ensures { Gives (stereo there) reader.old reader.new result }
{
    if there { small(reader, 2) } else { Ok(0) }
}

fn read_mps(reader: &mut BitReader, stereo: u8) -> Result<Option<Mps212>, Short>
    ensures { Gives (where_set (nat_lt 0 stereo) (mps212 stereo)) reader.old reader.new result }
{
    if stereo > 0 {
        let config = Mps212::read(reader, stereo)?;
        return Ok(Some(config));
    }
    Ok(None)
}

fn read_single(reader: &mut BitReader, has_sbr: bool) -> Result<ElementConfig, Short>
    ensures { Gives (single has_sbr) reader.old reader.new result }
{
    let core = CoreConfig::read(reader)?;
    let sbr = read_sbr(reader, has_sbr)?;
    Ok(ElementConfig::Single { core, sbr })
}

fn read_pair(reader: &mut BitReader, has_sbr: bool) -> Result<ElementConfig, Short>
    ensures { Gives (pair has_sbr) reader.old reader.new result }
{
    let core = CoreConfig::read(reader)?;
    let sbr = read_sbr(reader, has_sbr)?;
    let stereo = read_stereo(reader, has_sbr)?;
    let mps = read_mps(reader, stereo)?;
    Ok(ElementConfig::Pair {
        core,
        sbr,
        stereo,
        mps,
    })
}

/// Reads the configuration of an element. On error some fields may already be consumed.
pub fn read_element(
    alloc: Global,
    reader: &mut BitReader,
    has_sbr: bool,
) -> Result<ElementConfig, CfgFault>
    ensures { GivesUnless is_memory (element has_sbr) reader.old reader.new result }
{
    match small(reader, 2)? {
        0 => Ok(read_single(reader, has_sbr)?),
        1 => Ok(read_pair(reader, has_sbr)?),
        2 => Ok(ElementConfig::Lfe),
        _ => Ok(ElementConfig::Ext(read_extension_element(alloc, reader)?)),
    }
}

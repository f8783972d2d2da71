ghost use Rattle.std.specs.Prelude.{IfOk};
ghost use Rattle.usac_cfg.specs.UsacConfig.{IsWellFormed};

use crate::{
    CfgFault, CoreConfig, ElementConfig, Elements, Mps212, Residual, SbrConfig, SbrFreq, SbrLimit,
    UsacConfig,
};
use bit_core::{BitReader, BitWriter};
use std::alloc::Global;
use std::process::Abort;
use std::test::Fail;
use vectors::{
    ConfigRow, EXPLICIT_RATE, FULL_PAIR, MONO, PREROLL, REFUSED, SECOND_ID, STREAM_1, STREAM_2,
    THREE_BYTES, TWO_POSITIONS, bytes_of,
};

const CORE: CoreConfig = CoreConfig {
    tw_mdct: false,
    noise_filling: true,
};

const FULL_SBR: SbrConfig = SbrConfig {
    harmonic: true,
    inter_tes: false,
    pvc: false,
    start: 5,
    stop: 9,
    extra1: Some(SbrFreq {
        scale: 2,
        alter: true,
        noise_bands: 2,
    }),
    extra2: Some(SbrLimit {
        bands: 2,
        gains: 2,
        interpol: true,
        smoothing: true,
    }),
};

const FULL_MPS: Mps212 = Mps212 {
    freq_res: 3,
    fixed_gain: 1,
    temp_shape: 2,
    decorr: 0,
    high_rate: true,
    phase_coding: true,
    ott_phase: Some(10),
    residual: Some(Residual {
        bands: 7,
        pseudo_lr: false,
    }),
    env_quant: Some(true),
};

const PLAIN_SBR: SbrConfig = SbrConfig {
    harmonic: false,
    inter_tes: false,
    pvc: false,
    start: 5,
    stop: 9,
    extra1: None,
    extra2: None,
};

fn read_row(rt: &(impl Abort + AllocGlobal), row: ConfigRow) -> Result<UsacConfig, Fail>
    ensures { IfOk result (λ config. IsWellFormed config) }
{
    let (bits, text) = row;
    let bytes = bytes_of(rt.alloc(), text)?;
    assert!(rt; bytes.len() <= 10);
    let mut reader = BitReader::new(&bytes);
    let config = UsacConfig::read(rt.alloc(), &mut reader)?;
    assert_eq!(rt; reader.at(), bits, "{text}");
    Ok(config)
}

fn check_written(
    rt: &(impl Abort + AllocGlobal),
    config: &UsacConfig,
    row: ConfigRow,
) -> Result<(), Fail>
    requires { IsWellFormed config.now }
{
    let (bits, text) = row;
    let mut writer = BitWriter::new(rt.alloc());
    config.write(&mut writer)?;
    assert_eq!(rt; writer.len(), bits, "{text}");
    let bytes = bytes_of(rt.alloc(), text)?;
    assert_eq!(rt; writer.finish()?.as_slice(), bytes.as_slice(), "{text}");
    Ok(())
}

#[test]
fn configurations_are_read_copied_and_written(rt: HostRuntime) -> Result<(), Fail> {
    let rows = [
        MONO,
        TWO_POSITIONS,
        FULL_PAIR,
        PREROLL,
        STREAM_1,
        STREAM_2,
        EXPLICIT_RATE,
        THREE_BYTES,
        SECOND_ID,
    ];
    for row in rows {
        let config = read_row(&rt, row)?;
        assert!(rt; config.is_well_formed(), "{}", row.1);
        check_written(&rt, &config, row)?;
        let copy = config.copy(rt.alloc())?;
        assert!(rt; copy.same(&config), "{}", row.1);
    }
    Ok(())
}

#[test]
fn streams_with_other_identifiers_are_not_the_same(rt: HostRuntime) -> Result<(), Fail> {
    let first = read_row(&rt, STREAM_1)?;
    let second = read_row(&rt, STREAM_2)?;
    assert!(rt; !first.same(&second));
    Ok(())
}

#[test]
fn a_stereo_index_needs_sbr(rt: HostRuntime) -> Result<(), Fail> {
    let mut config = read_row(&rt, TWO_POSITIONS)?;
    let mut elements = Elements::new(rt.alloc());
    elements.push(ElementConfig::Pair {
        core: CORE,
        sbr: None,
        stereo: 3,
        mps: Some(FULL_MPS),
    })?;
    config.elements = elements;
    assert!(rt; !config.is_well_formed());
    Ok(())
}

#[test]
fn what_a_configuration_stands_for_is_that_of_the_rows(rt: HostRuntime) -> Result<(), Fail> {
    // the rate, the stream's identifier, whether a preroll is declared, and the leading extension elements
    let rows = [
        (MONO, (48000, None, false, 0)),
        (PREROLL, (48000, None, true, 1)),
        (STREAM_1, (48000, Some(1), true, 1)),
        (STREAM_2, (48000, Some(2), true, 1)),
        (EXPLICIT_RATE, (44056, None, false, 0)),
        (THREE_BYTES, (48000, None, false, 0)),
        (SECOND_ID, (48000, Some(261), false, 0)),
    ];
    for (row, wanted) in rows {
        let config = read_row(&rt, row)?;
        let (rate, id) = (config.rate(), config.stream_id());
        let found = (rate, id, config.declares_preroll(), config.leading());
        assert_eq!(rt; found, wanted, "{}", row.1);
    }
    Ok(())
}

#[test]
fn fields_and_lengths_are_those_of_the_rows(rt: HostRuntime) -> Result<(), Fail> {
    // the indices of rate, frame length and channels; sbrRatioIndex, the samples of a frame and the channels
    let rows = [
        (MONO, (3, 1, 1), (0, 1024, 1)),
        (TWO_POSITIONS, (3, 1, 0), (0, 1024, 2)),
        (FULL_PAIR, (3, 3, 2), (3, 2048, 2)),
        (PREROLL, (3, 3, 1), (3, 2048, 1)),
        (STREAM_1, (3, 1, 1), (0, 1024, 1)),
        (EXPLICIT_RATE, (31, 1, 1), (0, 1024, 1)),
    ];
    for (row, indices, shape) in rows {
        let config = read_row(&rt, row)?;
        let found = (config.rate_index, config.frame_index, config.channel_index);
        assert_eq!(rt; found, indices, "{}", row.1);
        let found = (config.ratio(), config.frame_length(), config.channels());
        assert_eq!(rt; found, shape, "{}", row.1);
    }
    Ok(())
}

#[test]
fn pairs_are_those_of_the_rows(rt: HostRuntime) -> Result<(), Fail> {
    let rows = [
        (TWO_POSITIONS, b"\x00\x01".as_slice(), (CORE, None, 0, None)),
        (FULL_PAIR, b"", (CORE, Some(FULL_SBR), 3, Some(FULL_MPS))),
    ];
    for (row, positions, wanted) in rows {
        let config = read_row(&rt, row)?;
        assert_eq!(rt; config.positions.as_slice(), positions, "{}", row.1);
        assert_eq!(rt; config.elements.len(), 1, "{}", row.1);
        let found = match config.elements.get(0) {
            Some(
                ElementConfig::Pair {
                    core,
                    sbr,
                    stereo,
                    mps,
                },
            ) => Some((*core, *sbr, *stereo, *mps)),
            _ => None,
        };
        assert_eq!(rt; found, Some(wanted), "{}", row.1);
    }
    Ok(())
}

#[test]
fn a_preroll_stands_before_its_single_element(rt: HostRuntime) -> Result<(), Fail> {
    let config = read_row(&rt, PREROLL)?;
    assert_eq!(rt; config.elements.len(), 2);
    let preroll = match config.elements.get(0) {
        Some(ElementConfig::Ext(ext)) => {
            Some((ext.kind, ext.default_length, ext.frag, ext.bytes.len()))
        }
        _ => None,
    };
    assert_eq!(rt; preroll, Some((3, 0, false, 0)));
    let single = match config.elements.get(1) {
        Some(ElementConfig::Single { core, sbr }) => Some((*core, *sbr)),
        _ => None,
    };
    assert_eq!(rt; single, Some((CORE, Some(PLAIN_SBR))));
    Ok(())
}

#[test]
fn extensions_are_those_of_the_rows(rt: HostRuntime) -> Result<(), Fail> {
    let rows = [
        (STREAM_1, b"\x00\x01".as_slice(), 1),
        (THREE_BYTES, b"\x00\x01\x02", 1),
        (SECOND_ID, b"\x00\x01\x02", 2),
    ];
    for (row, bytes, count) in rows {
        let config = read_row(&rt, row)?;
        assert_eq!(rt; config.extensions.len(), count, "{}", row.1);
        if let Some(extension) = config.extensions.get(0) {
            assert_eq!(rt; extension.kind, 7, "{}", row.1);
            assert_eq!(rt; extension.bytes.as_slice(), bytes, "{}", row.1);
        }
    }
    Ok(())
}

fn name_and_place(fault: &CfgFault) -> Option<(&'static str, u64)> {
    match fault {
        CfgFault::Short { at } => Some(("Short", *at)),
        CfgFault::RateReserved { at } => Some(("RateReserved", *at)),
        CfgFault::RateZero { at } => Some(("RateZero", *at)),
        CfgFault::FrameReserved { at } => Some(("FrameReserved", *at)),
        CfgFault::ChannelReserved { at } => Some(("ChannelReserved", *at)),
        CfgFault::NoChannels { at } => Some(("NoChannels", *at)),
        CfgFault::TooManyChannels { at } => Some(("TooManyChannels", *at)),
        CfgFault::TooManyElements { at } => Some(("TooManyElements", *at)),
        CfgFault::Memory(_) => None,
    }
}

#[test]
fn other_texts_are_refused(rt: HostRuntime) -> Result<(), Fail> {
    for (text, name, at) in REFUSED {
        let bytes = bytes_of(rt.alloc(), text)?;
        assert!(rt; bytes.len() <= 4);
        let mut reader = BitReader::new(&bytes);
        let found = match UsacConfig::read(rt.alloc(), &mut reader) {
            Err(fault) => name_and_place(&fault),
            Ok(_) => None,
        };
        assert_eq!(rt; found, Some((*name, *at)), "{text}");
        assert_eq!(rt; reader.at(), 0, "{text}");
    }
    Ok(())
}

#[test]
fn cut_texts_are_short(rt: HostRuntime) -> Result<(), Fail> {
    // so many bits of a configuration, and the first bit of the field that lacks some
    let rows = [
        (0, 0),
        (4, 0),
        (7, 5),
        (12, 8),
        (16, 13),
        (18, 17),
        (22, 19),
        (26, 23),
        (27, 27),
        (28, 28),
        (30, 29),
        (31, 31),
        (32, 32),
        (33, 33),
        (35, 34),
        (39, 36),
        (43, 40),
        (59, 44),
    ];
    let bytes = bytes_of(rt.alloc(), STREAM_1.1)?;
    assert!(rt; bytes.len() == 8);
    for (bits, wanted) in rows {
        assert!(rt; bits <= 64);
        let mut reader = BitReader::within(&bytes, 0, bits);
        let place = match UsacConfig::read(rt.alloc(), &mut reader) {
            Err(CfgFault::Short { at }) => Some(at),
            _ => None,
        };
        assert_eq!(rt; place, Some(wanted), "the first {bits} bits");
        assert_eq!(rt; reader.at(), 0, "the first {bits} bits");
    }
    Ok(())
}

// The example at `UsacConfig`.
fn rate_length_and_end(alloc: Global) -> Result<(u32, u32, u64), CfgFault> {
    let mut reader = BitReader::new(&[0x19, 0x08, 0x08]);
    let config = UsacConfig::read(alloc, &mut reader)?;
    Ok((config.rate(), config.frame_length(), reader.at()))
}

#[test]
fn the_example_is_read(rt: HostRuntime) -> Result<(), Fail> {
    let read = rate_length_and_end(rt.alloc())?;
    assert_eq!(rt; read, (48_000, 1024, 22));
    Ok(())
}

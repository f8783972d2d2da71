use crate::{CoreConfig, Mps212, Residual, SbrConfig, SbrFreq, SbrLimit, laws};
use bit_core::{BitReader, BitWriter};
use std::test::Fail;
use vectors::{FULL_CORE, FULL_MPS, FULL_PAIR, FULL_SBR, bytes_of};

const CORE: CoreConfig = CoreConfig {
    tw_mdct: false,
    noise_filling: true,
};

const SBR: SbrConfig = SbrConfig {
    harmonic: true,
    inter_tes: false,
    pvc: false,
    start: 5,
    stop: 9,
    extra1: Some(SbrFreq {
        scale: 2,
        alter: true,
        noise_bands: 2,
    }),
    extra2: Some(SbrLimit {
        bands: 2,
        gains: 2,
        interpol: true,
        smoothing: true,
    }),
};

const MPS: Mps212 = Mps212 {
    freq_res: 3,
    fixed_gain: 1,
    temp_shape: 2,
    decorr: 0,
    high_rate: true,
    phase_coding: true,
    ott_phase: Some(10),
    residual: Some(Residual {
        bands: 7,
        pseudo_lr: false,
    }),
    env_quant: Some(true),
};

#[test]
fn settings_are_read(rt: HostRuntime) -> Result<(), Fail> {
    let bytes = bytes_of(rt.alloc(), FULL_PAIR.1)?;
    assert!(rt; bytes.len() == 10);
    let mut reader = BitReader::within(&bytes, 19, 80);
    assert_eq!(rt; CoreConfig::read(&mut reader), Ok(CORE));
    assert_eq!(rt; reader.at(), 21);
    assert_eq!(rt; SbrConfig::read(&mut reader), Ok(SBR));
    assert_eq!(rt; reader.at(), 45);
    assert_eq!(rt; reader.take(2), Ok(3));
    assert_eq!(rt; Mps212::read(&mut reader, 3), Ok(MPS));
    assert_eq!(rt; reader.at(), 72);
    Ok(())
}

#[test]
fn settings_are_written(rt: HostRuntime) -> Result<(), Fail> {
    let alloc = rt.alloc();
    let mut core = BitWriter::new(alloc);
    CORE.write(&mut core)?;
    let mut sbr = BitWriter::new(alloc);
    SBR.write(&mut sbr)?;
    let mut mps = BitWriter::new(alloc);
    MPS.write(&mut mps)?;
    for (writer, (bits, text)) in [(core, FULL_CORE), (sbr, FULL_SBR), (mps, FULL_MPS)] {
        assert_eq!(rt; writer.len(), bits, "{text}");
        let bytes = bytes_of(alloc, text)?;
        assert_eq!(rt; writer.finish()?.as_slice(), bytes.as_slice(), "{text}");
    }
    Ok(())
}

#[test]
fn the_laws_are_called() {
    laws::core_config_has_one_spelling();
    laws::sbr_config_has_one_spelling();
    laws::mps212_has_one_spelling();
}

use crate::{Core, FoldCore, Unit, push_sample_bytes, set_sample_bytes};
use bit_core::{BitReader, Bits};
use std::alloc::{AllocError, Global};
use std::process::Abort;
use std::test::Fail;
use usac_cfg::UsacConfig;

// Four units, independent or not, by their bits. Their values are 2, 3 * 2 + 3 = 9, 1 and 3 * 1 + (1 + 2) = 6.
const UNITS: [(bool, &[u8]); 4] = [
    (true, &[0, 1]),
    (false, &[0, 0, 1]),
    (true, &[1]),
    (false, &[1, 1]),
];

// A configuration of one LFE element with its warm-up; of the block of each unit the length, one place in its middle, and the
// samples at its first, second, middle and last place; and of what is drained behind them the length, and the samples at its
// first and last place.
struct Row {
    config: &'static [u8],
    warm_up: u32,
    length: usize,
    middle: usize,
    blocks: [[i16; 4]; 4],
    drained: usize,
    drain: [i16; 2],
}

// The levels of the blocks by the warm-up:
//   1: 2, 9 + 2 * 2 = 13, 1 + 2 * 9 = 19, 6 + 2 * 1 = 8
//   2: 2, 13, 19 + 3 * 2 = 25, 8 + 3 * 9 = 35
//   3: 2, 13, 25, 35 + 4 * 2 = 43
// The levels of what is drained:
//   1: 2 * 6 = 12
//   2: 12 + 3 * 1 = 15
//   3: 15 + 4 * 9 = 51
// The sample at place n * channels + c is the level + n * (c + 1).
const ROWS: [Row; 5] = [
    // 1 channel, 1024 times, no SBR. Middle: n 500, level + 500. Last: level + 1023.
    Row {
        config: b"\x19\x08\x40",
        warm_up: 1,
        length: 1024,
        middle: 500,
        blocks: [
            [2, 3, 502, 1025],
            [13, 14, 513, 1036],
            [19, 20, 519, 1042],
            [8, 9, 508, 1031],
        ],
        drained: 128,
        drain: [12, 139],
    },
    // 2 channels, 768 times, no SBR. Middle: n 500 of channel 1, level + 500 * 2. Last: level + 767 * 2.
    Row {
        config: b"\x18\x10\x40",
        warm_up: 1,
        length: 1536,
        middle: 1001,
        blocks: [
            [2, 2, 1002, 1536],
            [13, 13, 1013, 1547],
            [19, 19, 1019, 1553],
            [8, 8, 1008, 1542],
        ],
        drained: 256,
        drain: [12, 266],
    },
    // 2 channels, 2048 times, 8:3. Middle: n 1500 of channel 0, level + 1500. Last: level + 2047 * 2.
    Row {
        config: b"\x1A\x10\x40",
        warm_up: 2,
        length: 4096,
        middle: 3000,
        blocks: [
            [2, 2, 1502, 4096],
            [13, 13, 1513, 4107],
            [25, 25, 1525, 4119],
            [35, 35, 1535, 4129],
        ],
        drained: 256,
        drain: [15, 269],
    },
    // 3 channels by their positions, 2048 times, 2:1. Middle: n 1000 of channel 2, level + 1000 * 3. Last: level + 2047 * 3.
    Row {
        config: b"\x1B\x00\xC0\x11\x04",
        warm_up: 2,
        length: 6144,
        middle: 3002,
        blocks: [
            [2, 2, 3002, 6143],
            [13, 13, 3013, 6154],
            [25, 25, 3025, 6166],
            [35, 35, 3035, 6176],
        ],
        drained: 384,
        drain: [15, 396],
    },
    // 24 channels, 4096 times, 4:1. Middle: n 2000 of channel 22, level + 2000 * 23 - 65536. Last: level + 4095 * 24 - 65536, which
    // is level + 32744, and 65536 less where that is above 32767.
    Row {
        config: b"\x1C\x68\x40",
        warm_up: 3,
        length: 98304,
        middle: 48022,
        blocks: [
            [2, 2, -19534, 32746],
            [13, 13, -19523, 32757],
            [25, 25, -19511, -32767],
            [43, 43, -19493, -32749],
        ],
        drained: 3072,
        drain: [51, 3099],
    },
];

fn unit(alloc: Global, independent: bool, ones: &[u8]) -> Result<Unit, AllocError> {
    let mut bits = Bits::new(alloc);
    for one in ones {
        bits.push(*one == 1)?;
    }
    Ok(Unit { independent, bits })
}

// The block of a unit.
fn check_block(rt: &impl Abort, row: &Row, i: usize, out: &[i16]) {
    assert!(rt; i < 4);
    let [first, second, middle, last] = row.blocks[i];
    assert_eq!(rt; out.len(), row.length, "unit {i}");
    assert_eq!(rt; out.first().copied(), Some(first), "unit {i}");
    assert_eq!(rt; out.get(1).copied(), Some(second), "unit {i}");
    assert_eq!(rt; out.get(row.middle).copied(), Some(middle), "unit {i}");
    assert_eq!(rt; out.last().copied(), Some(last), "unit {i}");
}

// What is drained behind the units.
fn check_drain(rt: &impl Abort, row: &Row, out: &[i16]) {
    let [first, last] = row.drain;
    assert_eq!(rt; out.len(), row.drained);
    assert_eq!(rt; out.first().copied(), Some(first));
    assert_eq!(rt; out.last().copied(), Some(last));
}

// The core was fed a unit before it was reset.
fn check_blocks(rt: &(impl Abort + AllocGlobal), row: &Row) -> Result<(), Fail> {
    let alloc = rt.alloc();
    assert!(rt; row.config.len() <= 5);
    let config = UsacConfig::read(alloc, &mut BitReader::new(row.config))?;
    let mut core = FoldCore::new();
    let mut out = Vec::new(alloc);
    assert_eq!(rt; core.warm_up(&config), row.warm_up);
    core.reset(alloc, &config)?;
    let before = unit(alloc, true, &[0, 0, 0, 1])?;
    core.step(alloc, &before, &mut out)?;
    core.reset(alloc, &config)?;
    for i in 0..4 {
        let (independent, ones) = UNITS[i];
        let unit = unit(alloc, independent, ones)?;
        out.clear();
        core.step(alloc, &unit, &mut out)?;
        check_block(rt, row, i, &out);
    }
    out.clear();
    core.flush(alloc, &mut out)?;
    check_drain(rt, row, &out);
    assert_eq!(rt; core.fed(), 5);
    assert_eq!(rt; core.faults(), 0);
    Ok(())
}

#[test]
fn blocks_of_units(rt: HostRuntime) -> Result<(), Fail> {
    for row in &ROWS {
        check_blocks(&rt, row)?;
    }
    Ok(())
}

#[test]
fn bytes_of_samples(rt: HostRuntime) -> Result<(), Fail> {
    let mut bytes = Vec::new(rt.alloc());
    push_sample_bytes(&[-1, 258, -32768], &mut bytes)?;
    let wanted: &[u8] = &[0xff, 0xff, 0x02, 0x01, 0x00, 0x80];
    assert_eq!(rt; bytes.as_slice(), wanted);
    set_sample_bytes(&[258], &mut bytes)?;
    assert_eq!(rt; bytes.as_slice(), [0x02u8, 0x01].as_slice());
    Ok(())
}

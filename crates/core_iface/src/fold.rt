ghost use Rattle.std.specs.Prelude.{◌≡◌, ◌+◌, ◌*◌, ◌%◌, ◌<◌, ◌≤◌, List, ℕ, ◌∷◌, ◌++◌, length, map, take, None, OnOk, OnErr};
ghost use Rattle.usac_cfg.specs.UsacConfig.{IsWellFormed};
ghost use Rattle.core_iface.specs.Folding.{warm_of, places, value_of, weighted, below, sample, ramp};
ghost use Rattle.layout.specs.Text.{num};

use crate::cores::Core;
use crate::fault::CoreFault;
use bit_core::Bits;
use std::alloc::{AllocError, Global};
use std::marker::Model;
use usac_cfg::UsacConfig;
use usac_frame::Unit;

/// How many samples of each channel are drained.
const DRAINED: u32 = 128;

/// The example core, which decodes no audio. It never fails, but where memory runs out.
///
/// The value of an independent unit is the sum of the places of its ones, modulo 32768; that of
/// another unit takes in three times the value of the unit before. Its block is a ramp that starts
/// at this value plus twice the value before, and with SBR three times the one before that, and at
/// 4:1 four times the third. What is drained is a short ramp of the weighted values alone.
#[derive(Drop)]
pub struct FoldCore {
    /// None where the core is not ready.
    config: Option<UsacConfig>,
    context: u16,
    /// The values of the last units, the newest first. How many of them tell is the warm-up of the
    /// configuration.
    past: [u16; 3],
    fed: u64,
}

impl Model for FoldCore {
    ghost use Rattle.std.specs.Prelude.{IfSome};
    ghost use Rattle.usac_cfg.specs.UsacConfig.{IsWellFormed};
    ghost use Rattle.core_iface.specs.Folding.{Folded, ready_with};

    ghost Value = { Folded };

    ghost view = { λ k. record { ready = ready_with k.config k.context k.past; fed = k.fed } };

    ghost invariant = { λ k. IfSome k.config IsWellFormed };
}

impl FoldCore {
    /// A core that is not ready, and was fed nothing.
    pub fn new() -> FoldCore
        ensures { result ≡ record { ready = None; fed = 0 } }
    {
        FoldCore {
            config: None,
            context: 0,
            past: [0; 3],
            fed: 0,
        }
    }
}

impl Core for FoldCore {
    ghost use Rattle.core_iface.specs.Folding.{fold_core, meaning_of};
    ghost use Rattle.core_iface.specs.FoldLaws.{fold_stays_sound, fold_emits_blocks, fold_warms_up};

    ghost does = { fold_core };

    ghost meaning = { meaning_of };

    ghost IsCalm = { λ _. Unit {0} };

    fn warm_up(&self, config: &UsacConfig) -> u32 {
        values_told(config) as u32
    }

    fn faults(&self) -> u64 {
        0
    }

    fn fed(&self) -> u64 {
        self.fed
    }

    fn reset(&mut self, alloc: Global, config: &UsacConfig) -> Result<(), CoreFault> {
        self.config = None;
        self.config = Some(config.copy(alloc)?);
        self.context = 0;
        self.past = [0; 3];
        Ok(())
    }

    fn step(&mut self, _alloc: Global, unit: &Unit, out: &mut Vec<i16>) -> Result<(), CoreFault> {
        let Some(config) = &self.config else {
            unreachable!()
        };
        let value = value_behind(self.context, unit);
        let level = u32::from(value) + weighted_sum(&self.past[..values_told(config)]);
        if let Err(fault) = append_ramp(level, config.channels(), config.frame_length(), out) {
            self.config = None;
            return Err(CoreFault::from(fault));
        }
        self.context = value;
        self.past = [value, self.past[0], self.past[1]];
        self.fed += 1;
        Ok(())
    }

    fn flush(&mut self, _alloc: Global, out: &mut Vec<i16>) -> Result<(), CoreFault> {
        let Some(config) = &self.config else {
            unreachable!()
        };
        let level = weighted_sum(&self.past[..values_told(config)]);
        let appended = append_ramp(level, config.channels(), DRAINED, out);
        self.config = None;
        appended?;
        Ok(())
    }

    ghost stays_sound = { fold_stays_sound };

    ghost emits_blocks = { fold_emits_blocks };

    ghost warms_up = { fold_warms_up };
}

/// How many values of units before it a unit's block takes in.
fn values_told(config: &UsacConfig) -> usize
    requires { IsWellFormed config.now }
    ensures same { result ≡ warm_of config.now }
    ensures few { result ≤ 3 }
{
    match config.ratio() {
        0 => 1,
        1 => 3,
        _ => 2,
    }
}

/// The value of a unit behind a context.
fn value_behind(context: u16, unit: &Unit) -> u16
    ensures { (past : List ℕ) → result ≡ value_of (context ∷ past) unit.now }
{
    let places = sum_of_places(&unit.bits);
    if unit.independent {
        places as u16
    } else {
        ((3 * u32::from(context) + places) % 32768) as u16
    }
}

/// The sum of the places of a word's ones, where its first bit stands at that place. The mask before a power of two has the
/// bits whose places, counted from 0, have that power.
#[inline(always)]
fn places_in_word(word: u64, place: u32) -> u32
    requires { place ≤ 32768 }
    ensures places { result ≡ places place (num 64 word) }
    ensures small { result ≤ 2101184 }
{
    let ones = word.count_ones();
    let in_1 = (word & 0x5555_5555_5555_5555).count_ones();
    let in_2 = (word & 0x3333_3333_3333_3333).count_ones();
    let in_4 = (word & 0x0F0F_0F0F_0F0F_0F0F).count_ones();
    let in_8 = (word & 0x00FF_00FF_00FF_00FF).count_ones();
    let in_16 = (word & 0x0000_FFFF_0000_FFFF).count_ones();
    let in_32 = (word & 0x0000_0000_FFFF_FFFF).count_ones();
    place * ones + (in_1 + (2 * in_2 + (4 * in_4 + (8 * in_8 + (16 * in_16 + 32 * in_32)))))
}

/// The sum of the places of the ones, counted from 1, modulo 32768.
fn sum_of_places(bits: &Bits) -> u32
    ensures { result ≡ places 1 bits.now % 32768 }
{
    let mut sum: u32 = 0;
    let words = bits.words();
    for i in 0..words.len() {
        let place = (i % 512) as u32 * 64 + 1;
        sum = (sum + places_in_word(words[i], place)) % 32768;
    }
    sum
}

/// Twice the first value, three times the second, and so on.
fn weighted_sum(past: &[u16]) -> u32
    requires { length past.now ≤ 3 }
    ensures sum { result ≡ weighted 2 past.now }
    ensures small { result ≤ 786420 }
{
    let mut sum: u32 = 0;
    for (i, value) in past.iter().enumerate() {
        sum += (i as u32 + 2) * u32::from(*value);
    }
    sum
}

/// Appends a ramp that starts at the level, or nothing.
fn append_ramp(level: u32, channels: u32, times: u32, out: &mut Vec<i16>) -> Result<(), AllocError>
    ensures ok { OnOk result (out.new.items ≡ out.old.items ++ ramp level channels times) }
    ensures err { OnErr result (out.new.items ≡ out.old.items) }
{
    let before = out.len();
    let count = channels as usize * times as usize;
    out.reserve(count)?;
    out.resize(before + count, 0)?;
    fill_ramp(level, channels, times, &mut out[before..]);
    Ok(())
}

/// Writes a ramp that starts at the level. A body of its own for one channel and for two is what makes them fast.
fn fill_ramp(level: u32, channels: u32, times: u32, out: &mut [i16])
    requires { length out.old ≡ channels * times }
    ensures { out.new ≡ ramp level channels times }
{
    match channels {
        1 => fill_rows(level, 1, times, out),
        2 => fill_rows(level, 2, times, out),
        _ => fill_rows(level, channels, times, out),
    }
}

#[inline(always)]
fn fill_rows(level: u32, channels: u32, times: u32, out: &mut [i16])
    requires { length out.old ≡ channels * times }
    ensures { out.new ≡ ramp level channels times }
{
    for time in 0..times {
        for channel in 0..channels {
            let place = time as usize * channels as usize + channel as usize;
            out[place] = sample_at(level, time, channel);
        }
    }
}

#[inline(always)]
fn sample_at(level: u32, time: u32, channel: u32) -> i16
    ensures { result ≡ sample level time channel }
{
    let step = ((u64::from(channel) + 1) % 65536) as u16;
    let climb = ((time % 65536) as u16).wrapping_mul(step);
    ((level % 65536) as u16).wrapping_add(climb).cast_signed()
}

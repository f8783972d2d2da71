ghost use Rattle.std.specs.Prelude.{◌≡◌, ◌*◌, ◌<◌, ◌≤◌, length};
ghost use Rattle.switch_player.specs.Blending.{mixed, blended};

/// The mixture of two samples at a time of the fade, rounded down.
fn mix(time: u32, old: i16, new: i16) -> i16
    requires { time < 128 }
    ensures { result ≡ mixed time old new }
{
    let time = time as i32;
    ((i32::from(old) * (128 - time) + i32::from(new) * time) >> 7) as i16
}

/// Fades a block in behind the old samples: 128 of each channel, one time after another. At time n of the fade a sample becomes
/// the old one times 128 - n plus the new one times n, divided by 128 and rounded down. All other samples stay.
///
/// An example, which is a test of this crate: of -1 and 0, at time 64, it makes -1.
pub fn blend(old: &[i16], block: &mut [i16], channels: u32)
    requires some { 1 ≤ channels }
    requires fade { length old.now ≡ 128 * channels }
    requires within { length old.now ≤ length block.old }
    ensures { block.new ≡ blended channels old.now block.old }
{
    for (i, sample) in old.iter().enumerate() {
        let time = (i / channels as usize) as u32;
        block[i] = mix(time, *sample, block[i]);
    }
}

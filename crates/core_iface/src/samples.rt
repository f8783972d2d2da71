ghost use Rattle.std.specs.Prelude.{◌≡◌, ◌++◌, ◌*◌, length, OnOk, OnErr};
ghost use Rattle.core_iface.specs.Samples.{sample_bytes};

use std::alloc::AllocError;

/// Appends the samples as bytes: each as two, the least significant first, in two's complement.
///
/// An error leaves the bytes as they were.
pub fn push_sample_bytes(samples: &[i16], bytes: &mut Vec<u8>) -> Result<(), AllocError>
    ensures ok { OnOk result (bytes.new.items ≡ bytes.old.items ++ sample_bytes samples.now) }
    ensures err { OnErr result (bytes.new.items ≡ bytes.old.items) }
{
    let before = bytes.len();
    let count = 2 * samples.len();
    bytes.reserve(count)?;
    bytes.resize(before + count, 0)?;
    put_each(samples, &mut bytes[before..]);
    Ok(())
}

/// Puts the samples as such bytes in the place of what the vector holds. Where it has their length already nothing is cleared first.
///
/// An error leaves the bytes as they were.
pub fn set_sample_bytes(samples: &[i16], bytes: &mut Vec<u8>) -> Result<(), AllocError>
    ensures ok { OnOk result (bytes.new.items ≡ sample_bytes samples.now) }
    ensures err { OnErr result (bytes.new.items ≡ bytes.old.items) }
{
    bytes.resize(2 * samples.len(), 0)?;
    put_each(samples, &mut bytes[..]);
    Ok(())
}

fn put_each(samples: &[i16], out: &mut [u8])
    requires { length out.old ≡ 2 * length samples.now }
    ensures { out.new ≡ sample_bytes samples.now }
{
    for i in 0..samples.len() {
        let number = samples[i].cast_unsigned();
        out[2 * i] = (number % 256) as u8;
        out[2 * i + 1] = (number / 256) as u8;
    }
}

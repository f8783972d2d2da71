// Hands bytes to a sink until all are taken.
ghost use Rattle.std.specs.Prelude.{◌≡◌, OnOk, OnErr};
ghost use Rattle.std.specs.Io.KnownBytes.{append_known};
ghost use Rattle.causes.specs.Counts.{HasCause};
ghost use Rattle.outside.specs.Answers.{has_failed, IsFailed};
ghost use Rattle.commands.specs.Handing.{WroteLess};

use outside::{DeviceFault, Sink};

/// Writes all of the bytes. A fault may come behind a front of them, and never behind all.
pub fn give_all<K: Sink>(out: &mut K, bytes: &[u8]) -> Result<(), DeviceFault>
    ensures ok { OnOk result (K.written out.new ≡ append_known (K.written out.old) bytes.now) }
    ensures err { OnErr result (WroteLess (K.written out.old) (K.written out.new) bytes.now) }
    ensures cause { HasCause (has_failed result) (K.faults out.old) (K.faults out.new) }
    ensures calm { K.calm out.old → K.calm out.new }
    ensures calm_answers { K.calm out.old → IsFailed result → ⊥ }
{
    let mut rest = bytes;
    'pieces: while !rest.is_empty() {
        let count = out.write(rest)?;
        rest = &rest[count..];
    }
    Ok(())
}

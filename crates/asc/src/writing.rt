// The fields of a configuration, written in their order. On error some fields may already be written.
ghost use Rattle.std.specs.Prelude.{◌≡◌, ◌++◌, OnOk};
ghost use Rattle.bit_core.specs.Writer.{Extends};
ghost use Rattle.asc.specs.Asc.{IsWellFormed, IsExplicit, explicit, asc_text};

use crate::asc_config::Asc;
use bit_core::{BitWriter, put_small};
use std::alloc::AllocError;

fn write_explicit(there: bool, rate: u32, writer: &mut BitWriter) -> Result<(), AllocError>
    requires { IsExplicit there rate }
    ensures ok { OnOk result (writer.new ≡ writer.old ++ (explicit there).spelling rate) }
    ensures kept { Extends writer.old writer.new }
{
    if there {
        writer.put(rate, 24)?;
    }
    Ok(())
}

pub fn write_fields(value: &Asc, writer: &mut BitWriter) -> Result<(), AllocError>
    requires { IsWellFormed value.now }
    ensures ok { OnOk result (writer.new ≡ writer.old ++ asc_text value.now) }
    ensures kept { Extends writer.old writer.new }
{
    put_small(writer, 31, 5)?;
    put_small(writer, 10, 6)?;
    put_small(writer, value.index, 4)?;
    write_explicit(value.index == 15, value.explicit_rate, writer)?;
    put_small(writer, value.channels, 4)?;
    value.usac.write(writer)?;
    writer.put_bits(&value.tail)?;
    Ok(())
}

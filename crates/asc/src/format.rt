use crate::asc_config::Asc;
use layout::Format;

impl Format for Asc {
    ghost use Rattle.asc.specs.declared.asc_config.Asc.{Asc};
    ghost use Rattle.asc.specs.declared.fault.AscFault.{AscFault};
    ghost use Rattle.asc.specs.Asc.{asc};
    ghost use Rattle.asc.specs.AscExact.{asc_exact};

    ghost Value = { Asc };

    ghost Fault = { AscFault };

    ghost layout = { asc };

    ghost exact = { asc_exact };
}

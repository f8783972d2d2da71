use crate::core_config::CoreConfig;
use crate::sbr::SbrConfig;
use layout::Format;

impl Format for CoreConfig {
    ghost use Rattle.bit_core.specs.declared.faults.Short.{Short};
    ghost use Rattle.sbr_mps.specs.declared.core_config.CoreConfig.{CoreConfig};
    ghost use Rattle.sbr_mps.specs.CoreConfig.{core_config};
    ghost use Rattle.sbr_mps.specs.Exact.{core_config_exact};

    ghost Value = { CoreConfig };

    ghost Fault = { Short };

    ghost layout = { core_config };

    ghost exact = { core_config_exact };
}

impl Format for SbrConfig {
    ghost use Rattle.bit_core.specs.declared.faults.Short.{Short};
    ghost use Rattle.sbr_mps.specs.declared.sbr.SbrConfig.{SbrConfig};
    ghost use Rattle.sbr_mps.specs.SbrConfig.{sbr_config};
    ghost use Rattle.sbr_mps.specs.Exact.{sbr_config_exact};

    ghost Value = { SbrConfig };

    ghost Fault = { Short };

    ghost layout = { sbr_config };

    ghost exact = { sbr_config_exact };
}

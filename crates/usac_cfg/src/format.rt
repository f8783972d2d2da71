use crate::usac_config::UsacConfig;
use layout::Format;

impl Format for UsacConfig {
    ghost use Rattle.usac_cfg.specs.declared.usac_config.UsacConfig.{UsacConfig};
    ghost use Rattle.usac_cfg.specs.declared.faults.CfgFault.{CfgFault};
    ghost use Rattle.usac_cfg.specs.Spelling.{usac_config};
    ghost use Rattle.usac_cfg.specs.UsacExact.{usac_config_exact};

    ghost Value = { UsacConfig };

    ghost Fault = { CfgFault };

    ghost layout = { usac_config };

    ghost exact = { usac_config_exact };
}

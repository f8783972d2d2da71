use crate::mux_config::MuxConfig;
use layout::Format;

impl Format for MuxConfig {
    ghost use Rattle.latm.specs.declared.mux_config.MuxConfig.{MuxConfig};
    ghost use Rattle.latm.specs.declared.fault.MuxFault.{MuxFault};
    ghost use Rattle.latm.specs.MuxConfig.{mux_config};
    ghost use Rattle.latm.specs.MuxConfigExact.{mux_config_exact};

    ghost Value = { MuxConfig };

    ghost Fault = { MuxFault };

    ghost layout = { mux_config };

    ghost exact = { mux_config_exact };
}

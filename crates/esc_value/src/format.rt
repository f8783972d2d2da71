use crate::escaped::Escaped;
use crate::latm_value::LatmValue;
use layout::Format;

impl<const A: u32, const B: u32, const C: u32> Format for Escaped<A, B, C> {
    ghost use Rattle.std.specs.Prelude.{ℕ};
    ghost use Rattle.bit_core.specs.declared.faults.Short.{Short};
    ghost use Rattle.esc_value.specs.Escaped.{escaped};
    ghost use Rattle.esc_value.specs.EscapedExact.{escaped_exact};

    ghost Value = { ℕ };

    ghost Fault = { Short };

    ghost layout = { escaped A B C };

    ghost exact = { escaped_exact A B C };
}

impl Format for LatmValue {
    ghost use Rattle.bit_core.specs.declared.faults.Short.{Short};
    ghost use Rattle.esc_value.specs.declared.latm_value.LatmValue.{LatmValue};
    ghost use Rattle.esc_value.specs.LatmValue.{latm_value};
    ghost use Rattle.esc_value.specs.LatmExact.{latm_value_exact};

    ghost Value = { LatmValue };

    ghost Fault = { Short };

    ghost layout = { latm_value };

    ghost exact = { latm_value_exact };
}

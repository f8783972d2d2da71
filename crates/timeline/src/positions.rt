ghost use Rattle.std.specs.Prelude.{◌≡◌, ◌<◌, ◌^◌, length};
ghost use Rattle.timeline.specs.Order.{order_result};

use crate::fault::PlanFault;

/// Refuses positions that do not rise. It takes no memory.
///
/// Errors: `BadOrder` of the first piece behind piece 0 whose position is not larger than the one before.
pub fn check_positions(positions: &[u64]) -> Result<(), PlanFault>
    requires few { length positions.now < 2 ^ 32 }
    ensures judged { result ≡ order_result positions.now }
{
    for piece in 1..positions.len() {
        if positions[piece] <= positions[piece - 1] {
            return Err(PlanFault::BadOrder {
                piece: piece as u32,
            });
        }
    }
    Ok(())
}

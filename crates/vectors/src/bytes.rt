ghost use Rattle.std.specs.Prelude.{◌≡◌, IfOk, Ok};
ghost use Rattle.hex.specs.Hex.{decode_of};

use hex::FromHexError;
use std::alloc::Global;

/// The bytes that a text of hex digits stands for.
///
/// # Errors
/// Where a character is no hex digit, where their number is odd, and where memory runs out.
pub fn bytes_of(alloc: Global, text: &str) -> Result<Vec<u8>, FromHexError>
    ensures { IfOk result (λ bytes. decode_of text.now ≡ Ok bytes.items) }
{
    hex::decode(alloc, text)
}

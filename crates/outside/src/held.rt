ghost use Rattle.std.specs.Prelude.{◌≡◌, IfOk};
ghost use Rattle.std.specs.Option.{option_copied};
ghost use Rattle.std.specs.Str.{bytes_eq};
ghost use Rattle.outside.specs.Stock.{bytes_of};

use std::alloc::{AllocError, Global};
use std::marker::Model;

/// Bytes under a name.
#[derive(Drop)]
pub struct NamedBytes {
    name: String,
    bytes: Vec<u8>,
}

impl Model for NamedBytes {
    ghost use Rattle.std.specs.Prelude.{string_bytes};
    ghost use Rattle.outside.specs.Stock.{Named};

    ghost Value = { Named };

    ghost view = { λ n. record { name = string_bytes n.name; bytes = n.bytes.items } };
}

impl NamedBytes {
    /// A copy of both.
    pub fn copy_of(alloc: Global, name: &str, bytes: &[u8]) -> Result<NamedBytes, AllocError>
        ensures { IfOk result (λ one. one ≡ record { name = name.now; bytes = bytes.now }) }
    {
        Ok(NamedBytes {
            name: String::from_str(alloc, name)?,
            bytes: bytes.to_vec(alloc)?,
        })
    }

    fn has_name(&self, name: &str) -> bool
        ensures { result ≡ bytes_eq self.now.name name.now }
    {
        self.name.as_str() == name
    }

    fn bytes(&self) -> &[u8]
        ensures { result.now ≡ self.now.bytes }
    {
        &self.bytes
    }
}

/// The bytes under that name, where it is held.
pub fn find_bytes<'a>(held: &'a [NamedBytes], name: &str) -> Option<&'a [u8]>
    ensures { option_copied result ≡ bytes_of held.now name.now }
{
    let one = held.iter().find(|one| one.has_name(name))?;
    Some(one.bytes())
}

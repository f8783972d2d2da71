// Copies of the lists of a configuration.
ghost use Rattle.std.specs.Prelude.{◌≡◌, IfOk};

use crate::config_extension::ConfigExt;
use crate::element_config::ElementConfig;
use crate::lists::{Elements, Extensions};
use std::alloc::{AllocError, Global};

pub fn copy_elements(alloc: Global, elements: &[ElementConfig]) -> Result<Elements, AllocError>
    ensures { IfOk result (λ copied. copied ≡ elements.now) }
{
    let mut copied = Elements::new(alloc);
    for element in elements {
        let one = element.copy(alloc)?;
        copied.push(one)?;
    }
    Ok(copied)
}

pub fn copy_extensions(alloc: Global, extensions: &[ConfigExt]) -> Result<Extensions, AllocError>
    ensures { IfOk result (λ copied. copied ≡ extensions.now) }
{
    let mut copied = Extensions::new(alloc);
    for extension in extensions {
        let one = extension.copy(alloc)?;
        copied.push(one)?;
    }
    Ok(copied)
}

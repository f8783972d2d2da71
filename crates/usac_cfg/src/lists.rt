use crate::config_extension::ConfigExt;
use crate::element_config::ElementConfig;
use bit_core::Items;

/// The channel positions of a configuration (ISO/IEC 23003-3, bsOutputChannelPos), each from 0 to 31.
pub type Positions = Items<u8>;

/// The element configurations of a configuration, in the order of the elements.
pub type Elements = Items<ElementConfig>;

/// The extensions of a configuration, in their order.
pub type Extensions = Items<ConfigExt>;

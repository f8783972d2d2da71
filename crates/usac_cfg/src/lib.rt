//! Configurations of USAC streams (ISO/IEC 23003-3, UsacConfig).
//!
//! What is read is well formed and takes exactly its spelling; a text that begins with no spelling is refused at the first
//! bit of its leftmost field at fault, and the reader stays where it was. A write puts exactly the spelling, or nothing.
#![tactic(auto)]

mod checking;
mod comparing;
mod config_extension;
mod copying;
mod element_config;
mod extension_element;
mod faults;
mod format;
pub mod laws;
mod lists;
mod reading;
#[cfg(test)]
mod tests;
mod usac_config;
mod writing;

pub use config_extension::ConfigExt;
pub use element_config::ElementConfig;
pub use extension_element::ExtConfig;
pub use faults::CfgFault;
pub use lists::{Elements, Extensions, Positions};
pub use sbr_mps::{CoreConfig, Mps212, Residual, SbrConfig, SbrFreq, SbrLimit};
pub use usac_config::UsacConfig;

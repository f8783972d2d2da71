//! The settings of a core element: those of the core, of spectral band replication (SBR) and of MPEG Surround 2-1-2
//! (ISO/IEC 23003-3, UsacCoreConfig, SbrConfig and Mps212Config).
//!
//! A read takes exactly the spelling of what it answers, which is well formed, or is short at the first bit of the first
//! field that lacks bits; then the reader stays where it was. A write puts exactly the spelling of well formed settings,
//! or nothing.
#![tactic(auto)]

mod core_config;
mod fields;
mod format;
pub mod laws;
mod mps;
mod sbr;
#[cfg(test)]
mod tests;

pub use core_config::CoreConfig;
pub use mps::{Mps212, Residual};
pub use sbr::{SbrConfig, SbrFreq, SbrLimit};

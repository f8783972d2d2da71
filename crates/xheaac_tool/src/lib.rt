//! The commands of the program, over a shelf of files, two sinks and a core. [`run`] reads the words of
//! the command line, does what they ask for, and answers the status. Its contract says, from the bytes
//! of the files alone, what was written, what was noted and which status is answered; and where a device
//! or the core fails, what was written before. [`do_show`], [`do_check`], [`do_play`], [`do_start`],
//! [`do_plan`], [`do_splice`], [`do_switch`], [`do_insert`] and [`do_strip`] are the commands without their
//! note, for a program that has its own.
//!
//! What they share is the crate `commands`: its runners go over the frames of a file for any task, or read
//! it whole. The tasks are `show_task` and `check_task`, in the crate `playing` those of `play` and `start`,
//! in the crate `joining` those of `plan` and `splice`, and in the crate `switching` that of `switch`. The
//! crate `editing` has `insert` and `strip`, which read their file whole.
#![tactic(auto)]

mod check;
mod check_task;
mod insert;
mod listing;
mod numbers;
mod piece_words;
mod plan;
mod play;
mod show;
mod show_task;
mod splice;
mod start;
mod strip;
mod strip_words;
mod switch;
mod target_words;
mod top;
mod unit_frame;
mod words;

pub use check::do_check;
pub use commands::Outcome;
pub use insert::do_insert;
pub use plan::do_plan;
pub use play::do_play;
pub use show::do_show;
pub use splice::do_splice;
pub use start::do_start;
pub use strip::do_strip;
pub use switch::do_switch;
pub use top::{run, run_line};
pub use words::WordsFault;

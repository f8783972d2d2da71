//! Worked streams through the commands, over devices in memory and cores that fail where they are told to. It is tests alone,
//! and the program that docs/PLAYER.md shows.
#![tactic(auto)]

#[cfg(test)]
mod calls;
#[cfg(test)]
mod cases;
#[cfg(test)]
mod checks;
#[cfg(test)]
mod counted;
#[cfg(test)]
mod faults;
#[cfg(test)]
mod insert_rows;
#[cfg(test)]
mod plan_rows;
#[cfg(test)]
mod plays;
mod program;
#[cfg(test)]
mod refusals;
#[cfg(test)]
mod shows;
#[cfg(test)]
mod splice_rows;
#[cfg(test)]
mod starts;
#[cfg(test)]
mod streams;
#[cfg(test)]
mod strip_rows;
#[cfg(test)]
mod switch_rows;

pub use program::play_source;

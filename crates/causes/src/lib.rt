//! The one meaning of "a count of faults rose in a call", for devices and for cores.
//!
//! `Rose`, `Counted` and `HasCause` stand in `specs/`, for the contracts of every crate that counts
//! faults. `raised` is the one step by which a count goes up, and `rose_in_a_part` is the law that
//! carries a rise in one call of a run over to the whole run.
#![tactic(auto)]

ghost use Rattle.std.specs.Prelude.{◌≡◌, ℕ, ◌^◌, ◌<◌, ◌≤◌};
ghost use Rattle.causes.specs.Counts.{Rose, one_more};

/// The count after one more fault. It stays at its last value once it has reached it.
pub fn raised(count: u64) -> u64
    ensures exact { result ≡ one_more count }
    ensures later { count ≤ result }
    ensures rose { Rose count result }
{
    count.saturating_add(1)
}

/// A law and no work: a count that rose in one part of a run, and never fell before or after it,
/// rose over the whole run.
pub fn rose_in_a_part()
    ensures { (a b c d : ℕ) → a ≤ b → Rose b c → c ≤ d → d < 2 ^ 64 → Rose a d }
{}

#[cfg(test)]
mod tests {
    use super::*;

    #[test]
    fn raises_up_to_the_last_value(rt: HostRuntime) {
        for (count, want) in [
            (0, 1),
            (7, 8),
            (u64::MAX - 1, u64::MAX),
            (u64::MAX, u64::MAX),
        ] {
            assert_eq!(rt; raised(count), want, "at {count}");
        }
    }
}

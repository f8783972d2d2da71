use crate::Targets;
use std::process::Abort;
use std::test::Fail;

/// A step, a number of frames, and the targets.
const MULTIPLES: &[(u64, u64, &[u64])] = &[
    (2, 7, &[2, 4, 6]),
    (2, 6, &[2, 4]),
    (1, 3, &[1, 2]),
    (3, 3, &[]),
    (3, 4, &[3]),
    (24, 0, &[]),
    (0, 5, &[]),
    (999_999_999_999_999_999, 4_294_967_295, &[]),
];

#[test]
fn every_names_multiples(rt: HostRuntime) -> Result<(), Fail> {
    for (step, frames, wanted) in MULTIPLES {
        let list = Targets::Every(*step).list(rt.alloc(), *frames)?;
        assert_eq!(rt; list.as_slice(), *wanted, "every:{step} of {frames}");
    }
    Ok(())
}

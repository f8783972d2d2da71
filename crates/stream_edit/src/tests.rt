use crate::first_misplaced;
use std::process::Abort;
use std::test::Fail;

/// How many frames there are, the targets, and the place of the first one that is misplaced.
const LISTS: &[(u64, &[u64], Option<u64>)] = &[
    (0, &[], None),
    (0, &[0], Some(0)),
    (3, &[0, 1, 2], None),
    (3, &[0, 3], Some(1)),
    (3, &[1, 1], Some(1)),
    (3, &[2, 1, 4], Some(1)),
];

#[test]
fn targets_are_frames_and_rise(rt: HostRuntime) -> Result<(), Fail> {
    for (frames, targets, wanted) in LISTS {
        let place = first_misplaced(*frames, targets);
        assert_eq!(rt; place, *wanted, "{frames} frames");
    }
    Ok(())
}

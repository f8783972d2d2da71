// The numbers of the frames that are to be changed.
ghost use Rattle.std.specs.Prelude.{◌≡◌, ◌+◌, ◌≤◌};
ghost use Rattle.stream_edit.specs.Targets.{is_target, has_target, misplaced};
ghost use Rattle.stream_edit.specs.Steps.{IsRising};

/// The place of the first target, counted from 0, that is no frame of so many, or not larger than the one before it.
pub fn first_misplaced(frames: u64, targets: &[u64]) -> Option<u64>
    ensures { result ≡ misplaced frames targets.now }
{
    let mut least = 0;
    for place in 0..targets.len() {
        let target = targets[place];
        if target < least || target >= frames {
            return Some(place as u64);
        }
        least = target + 1;
    }
    None
}

/// Whether a frame is a target.
pub fn is_target(targets: &[u64], frame: u64) -> bool
    requires { IsRising targets.now }
    ensures { result ≡ is_target targets.now frame }
{
    targets.binary_search(&frame).is_ok()
}

/// Whether one of so many frames is a target.
pub fn has_target(targets: &[u64], first: u64, count: u64) -> bool
    requires rising { IsRising targets.now }
    requires few { first + count ≤ 4294967296 }
    ensures { result ≡ has_target targets.now first count }
{
    for frame in first..first + count {
        if is_target(targets, frame) {
            return true;
        }
    }
    false
}

use crate::{channels_of, frame_of, rate_of};

#[test]
fn looks_up_what_an_index_stands_for(rt: HostRuntime) {
    for (index, rate) in [
        (0, Some(96000)),
        (3, Some(48000)),
        (12, Some(7350)),
        (13, None),
        (14, None),
        (15, Some(57600)),
        (19, Some(34150)),
        (27, Some(9600)),
        (28, None),
        (31, None),
        (255, None),
    ] {
        assert_eq!(rt; rate_of(index), rate, "rate {index}");
    }
    for (index, lengths) in [
        (0, Some((768, 0, 768))),
        (1, Some((1024, 0, 1024))),
        (2, Some((768, 2, 2048))),
        (3, Some((1024, 3, 2048))),
        (4, Some((1024, 1, 4096))),
        (5, None),
        (7, None),
    ] {
        let found = frame_of(index).map(|frame| (frame.core, frame.ratio, frame.output));
        assert_eq!(rt; found, lengths, "frame {index}");
    }
    for (index, count) in [
        (0, None),
        (1, Some(1)),
        (6, Some(6)),
        (7, Some(8)),
        (8, Some(2)),
        (13, Some(24)),
        (14, None),
        (31, None),
    ] {
        assert_eq!(rt; channels_of(index), count, "channels {index}");
    }
}

// The program of docs/PLAYER.md, and a stream that it plays.
use anyhow::Result;
use au_stream::AuReader;
use core_iface::FoldCore;
use outside::Source;
use std::alloc::Global;
use switch_player::Player;

/// Plays a source of LOAS frames to its end, and gives all samples.
pub fn play_source<S: Source>(alloc: Global, source: &mut S) -> Result<Vec<i16>> {
    let mut reader = AuReader::new(alloc);
    let mut player = Player::new();
    let mut core = FoldCore::new();
    let mut samples = Vec::new(alloc);
    while let Some(frame) = reader.next(alloc, source)? {
        let Some(config) = reader.config() else {
            unreachable!()
        };
        player.feed(alloc, &mut core, config, frame.au.as_slice(), &mut samples)?;
    }
    Ok(samples)
}

use usac_cfg::UsacConfig;

/// Which piece is wanted of a rendition.
#[derive(Drop)]
pub struct Asked {
    /// The number of the piece.
    pub piece: u32,
    /// The position at which it begins, in output samples of one channel.
    pub position: u64,
    /// The position at which the next piece begins; `None` where it is the last one.
    pub until: Option<u64>,
    /// The configuration of the rendition before, where there is one.
    pub before: Option<UsacConfig>,
}

use preroll::CarriedUnits;

/// How a frame is played that no rule refuses.
#[derive(Drop)]
pub enum Turn {
    /// The configuration goes on.
    GoesOn,
    /// It is the first frame. Where it has a preroll, this is what it carries.
    Start(Option<CarriedUnits>),
    /// Another configuration begins.
    Join(CarriedUnits),
}

//! The points at which a worker asks whether to go on.

/// The point at which a worker asks.
#[derive(Clone, Copy)]
pub enum Point {
    /// Just after a send was begun.
    SendBegun,
    /// Just after a send was answered.
    SendAnswered,
    /// Just after a take was begun.
    TakeBegun,
    /// Just after a take was answered.
    TakeAnswered,
}

/// The gate's answer.
#[derive(Clone, Copy)]
pub enum Go {
    /// To go on.
    On,
    /// To ask again; this counts as a turn.
    Again,
}

/// The gate of a worker: each has one of its own, which may hold it up.
pub trait Gate: Drop {
    ghost use Rattle.std.specs.Prelude.{⊤};
    ghost use Rattle.cc_drive.specs.Names.{Go, Point};

    /// The answers that it may give at a point, and the gate afterwards. A gate without a clause of its own may give
    /// any.
    ghost tells: { Self → Point → Go → Self → Type 0 } = { λ _ _ _ _. ⊤ };

    /// The answer at this point.
    fn at(&mut self, point: Point) -> Go
        ensures { tells self.old point result self.new };
}

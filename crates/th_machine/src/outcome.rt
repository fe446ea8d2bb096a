// What comes of steps and events.

/// What a step came to.
#[derive(Clone, Copy, Debug, PartialEq, Eq)]
pub enum Stepped {
    /// A frame is left, and the run goes on.
    Running,
    /// No frame is left.
    Idle,
    /// The step ended the run.
    Ended,
    /// The state after it would hold too much. Nothing was changed.
    Full,
}

/// What an event and the steps after it came to.
#[derive(Clone, Copy, Debug, PartialEq, Eq)]
pub enum Outcome {
    /// No frame is left.
    Idle,
    /// The event or a step ended the run.
    Ended,
    /// A frame is left, and no fuel.
    Fuel,
    /// The state after the event or the next step would hold too much. That event or step changed nothing.
    Full,
}

// The handlers that the harness calls on launched objects. They are this project's own, after the
// documented lifecycle of an Activity.

/// The descriptor of a handler that takes a Bundle.
pub const TAKES_BUNDLE: &str = "(Landroid/os/Bundle;)V";

/// The descriptor of a handler that takes nothing.
pub const TAKES_NOTHING: &str = "()V";

/// The handler that is called first.
pub const ON_CREATE: &str = "onCreate";

/// The handler before the Activity is seen.
pub const ON_START: &str = "onStart";

/// The handler before a stopped Activity is seen again.
pub const ON_RESTART: &str = "onRestart";

/// The handler before the Activity takes input.
pub const ON_RESUME: &str = "onResume";

/// The handler after the Activity took input.
pub const ON_PAUSE: &str = "onPause";

/// The handler after the Activity was seen.
pub const ON_STOP: &str = "onStop";

/// The handler that is called last.
pub const ON_DESTROY: &str = "onDestroy";

/// The handler that saves what a later `onCreate` is given.
pub const ON_SAVE_INSTANCE_STATE: &str = "onSaveInstanceState";

/// The handlers, in order: the name and the descriptor of the method that each selects.
pub const HANDLERS: [(&str, &str); 8] = [
    (ON_CREATE, TAKES_BUNDLE),
    (ON_START, TAKES_NOTHING),
    (ON_RESTART, TAKES_NOTHING),
    (ON_RESUME, TAKES_NOTHING),
    (ON_PAUSE, TAKES_NOTHING),
    (ON_STOP, TAKES_NOTHING),
    (ON_DESTROY, TAKES_NOTHING),
    (ON_SAVE_INSTANCE_STATE, TAKES_BUNDLE),
];

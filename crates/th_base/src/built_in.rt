// The built-in classes, which stand before the classes of the files. They are this project's own.

/// The name of the class above all others.
pub const OBJECT: &str = "java/lang/Object";

/// The name of the class of texts.
pub const STRING: &str = "java/lang/String";

/// The name of the first interface that every array implements.
pub const CLONEABLE: &str = "java/lang/Cloneable";

/// The name of the second interface that every array implements.
pub const SERIALIZABLE: &str = "java/io/Serializable";

/// The name of the class of what two handlers take.
pub const BUNDLE: &str = "android/os/Bundle";

/// The name of the class whose subclasses the harness launches.
pub const ACTIVITY: &str = "android/app/Activity";

/// The name of an instance initialisation method (Java specification 2.9).
pub const CONSTRUCTOR: &str = "<init>";

/// How many built-in classes there are. A file's first class has this number.
pub const BUILT_IN_COUNT: u32 = 11;

/// The number of the class of texts.
pub const STRING_NUMBER: u32 = 1;

/// The number of the class of what two handlers take.
pub const BUNDLE_NUMBER: u32 = 8;

/// The number of the class whose subclasses the harness launches.
pub const ACTIVITY_NUMBER: u32 = 10;

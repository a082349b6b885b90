//! What the program says of itself.

/// The version, as `--version` prints it. In the copy that `./build` compiles the commit and the logic stand behind it.
pub const VERSION: &str = "0.1.0";

//! What the program is.

/// The version of the program.
pub const VERSION: &str = "0.1.0";

/// The logic of the kit with which it was proved and built, as `rt version` prints it.
pub const LOGIC: &str = "dac8208d650f15bf";

/// The version of the journals that it begins and opens.
pub const JOURNAL_VERSION: u8 = 1;

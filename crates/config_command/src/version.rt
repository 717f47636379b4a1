//! The text of `--version`.

/// The program's version, and the version of the kit that proves it, as `rt version` prints it.
pub(crate) const VERSION: &str = "\
0.9.0
rattle-kit-13b logic dac8208d650f15bf";

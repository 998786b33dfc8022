// What `--help` and `--version` print, without the last newline.

pub(crate) const HELP: &str = "hostext_erofs STORE [--mark=G] [--time=SECONDS]";

/// The version, the kit that the program is proved with, and the licences, as `hostext` has them.
pub(crate) const VERSION: &str = "hostext_erofs 0.3.0
proved with rattle-kit-13f logic dac8208d650f15bf
SPDX-License-Identifier: MIT OR Apache-2.0";

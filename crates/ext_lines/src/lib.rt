//! What every text format shares, and no notion of ours: splitting a text at a byte, lines, blanks and words, text
//! without control bytes, numbers and hexadecimal digits as text. Beside these stands [`OutOfMemory`], which comes out of
//! every call that takes memory.
//!
//! Each reader is exact: it gives the value, or that no value is printed so. The crates above read and print their
//! formats by these calls.
#![tactic(auto)]

mod blanks;
mod hexadecimal;
pub mod laws;
mod lines;
mod memory;
mod numbers;
mod plain;
mod prefix;
mod split;
mod words;

pub use blanks::{after_blanks, before_blanks, is_blank, trimmed, trimmed_str};
pub use hexadecimal::{five_digits, hex_digits, read_five_digits, read_hex_digits};
pub use lines::{next_line, next_text_line, split_line, strip_carriage_return};
pub use memory::{OutOfMemory, allocated};
pub use numbers::{append_decimal, append_octal, read_decimal, read_octal};
pub use plain::{is_plain, is_plain_byte, is_plain_or_tab, plain_text, plain_text_with_tabs};
pub use prefix::begins_with;
pub use split::{before_last, split_around, split_at_byte, split_str_at_byte};
pub use words::{has_word, next_word};

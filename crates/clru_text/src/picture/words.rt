//! The words that arguments give a picture: heading and unit.

use std::fmt::{self, Write};

/// Words as they may stand in a picture: what would begin or end a tag is escaped, and a sign that no text has is a blank.
pub(super) fn write_words<W: Write>(text: &mut W, words: &str) -> fmt::Result {
    for letter in words.chars() {
        match letter {
            '&' => text.write_str("&amp;")?,
            '<' => text.write_str("&lt;")?,
            '>' => text.write_str("&gt;")?,
            '\u{fffe}' | '\u{ffff}' => text.write_char(' ')?,
            _ if letter.is_control() => text.write_char(' ')?,
            _ => text.write_char(letter)?,
        }
    }
    Ok(())
}

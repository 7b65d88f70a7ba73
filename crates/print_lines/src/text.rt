// Text where records should be.

// Printable, a tab or a line end, or a byte of a letter beyond ASCII, as in a byte order mark.
fn in_text(byte: u8) -> bool {
    matches!(byte, 9..=10 | 13 | 32..=126 | 128..=255)
}

// Whether the input reads as text by its first bytes. Records have zeros among them.
pub fn reads_as_text(input: &[u8]) -> bool {
    input.iter().take(104).all(|b| in_text(*b))
}

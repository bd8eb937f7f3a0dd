// A look at the spelling of the end of a text, before its lines are read.

/// How many bytes are looked at.
const LAST: usize = 1_024;

/// Where a byte stands in its line.
#[derive(Clone, Copy)]
enum Standing {
    /// Before anything but white space.
    First,
    /// Behind nothing but opening brackets.
    Header,
    /// Behind something else.
    Within,
}

/// Where the byte behind this one stands.
fn behind(standing: Standing, byte: u8) -> Standing {
    match (standing, byte) {
        (_, b'\n') => Standing::First,
        (Standing::First, b' ' | b'\t') => Standing::First,
        (Standing::First | Standing::Header, b'[') => Standing::Header,
        _ => Standing::Within,
    }
}

/// The byte begins a key in quotes, or a header with white space in its brackets.
fn is_other_spelling(standing: Standing, byte: u8) -> bool {
    match (standing, byte) {
        (Standing::First | Standing::Header, b'"' | b'\'') => true,
        (Standing::Header, b' ' | b'\t') => true,
        _ => false,
    }
}

/// No line of the last ones begins as one of a plain text can't. It only saves work: to a text whose other
/// lines are plain somebody may have added rows in a spelling of his own, and such a text is so left to
/// the document before it was read. What it lets through is read with care.
pub(crate) fn looks_plain(text: &str) -> bool {
    let bytes = text.as_bytes();
    let from = bytes.len().saturating_sub(LAST);
    let mut standing = Standing::Within;
    for place in from..bytes.len() {
        let byte = bytes[place];
        if is_other_spelling(standing, byte) {
            return false;
        }
        standing = behind(standing, byte);
    }
    true
}

//! Blanks at the ends of a text.
ghost use Rattle.std.specs.Prelude.{◌≡◌};
ghost use Rattle.ksh_attrs.specs.Shapes.{is_blank, without_front, without_back, begins_with_digit};

/// Whether a byte is a space or a tab.
fn is_blank(byte: u8) -> bool
    ensures { result ≡ is_blank byte }
{
    byte == b' ' || byte == b'\t'
}

/// The text from its first byte on that isn't a blank.
pub fn without_front(text: &[u8]) -> &[u8]
    ensures { result.now ≡ without_front text.now }
{
    for (index, byte) in text.iter().enumerate() {
        if !is_blank(*byte) {
            return &text[index..];
        }
    }
    &text[text.len()..]
}

/// The text up to its last byte that isn't a blank.
pub fn without_back(text: &[u8]) -> &[u8]
    ensures { result.now ≡ without_back text.now }
{
    let mut end = text.len();
    while end > 0 {
        if !is_blank(text[end - 1]) {
            return &text[..end];
        }
        end -= 1;
    }
    &text[..0]
}

/// Whether the first byte is a digit.
pub fn begins_with_digit(text: &[u8]) -> bool
    ensures { result ≡ begins_with_digit text.now }
{
    match text.first() {
        Some(byte) => byte.is_ascii_digit(),
        None => false,
    }
}

// The kinds of bytes that a line is made of.
ghost use Rattle.std.specs.Prelude.{◌≡◌};
ghost use Rattle.source.specs.Lines as lines;

// A space or a tab.
pub(crate) fn is_blank(byte: u8) -> bool
    ensures { result ≡ lines.is_blank byte }
{
    byte == b' ' || byte == b'\t'
}

// A comma, a colon or a parenthesis.
pub(crate) fn is_mark(byte: u8) -> bool
    ensures { result ≡ lines.is_mark byte }
{
    matches!(byte, b',' | b':' | b'(' | b')')
}

// Neither a blank nor a mark.
pub(crate) fn joins(byte: u8) -> bool
    ensures { result ≡ lines.joins byte }
{
    !(is_blank(byte) || is_mark(byte))
}

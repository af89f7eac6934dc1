// Classes of bytes.

ghost use Rattle.std.specs.Prelude.{◌≡◌};
ghost use Rattle.lotos_ast.specs.Bytes.{is_blank, is_letter_or_digit, is_low_line, is_word_byte, is_operation_byte};

// Whether a byte parts tokens.
pub fn is_blank(byte: u8) -> bool
    ensures { result ≡ is_blank byte }
{
    b" \t\n\r".contains(&byte)
}

// Whether a byte is a letter or a digit.
pub fn is_letter_or_digit(byte: u8) -> bool
    ensures { result ≡ is_letter_or_digit byte }
{
    byte.is_ascii_alphanumeric()
}

// Whether a byte is `_`.
pub fn is_low_line(byte: u8) -> bool
    ensures { result ≡ is_low_line byte }
{
    byte == b'_'
}

// Whether a byte belongs to the words of a comment.
pub fn is_word_byte(byte: u8) -> bool
    ensures { result ≡ is_word_byte byte }
{
    is_letter_or_digit(byte) || is_low_line(byte)
}

// Whether a byte belongs to the names of operations that aren't words.
pub fn is_operation_byte(byte: u8) -> bool
    ensures { result ≡ is_operation_byte byte }
{
    b"#%&*+-./<=>@\\^~{}".contains(&byte)
}

// The words and marks of a text.

ghost use Rattle.std.specs.Prelude.{◌≡◌, ◌≢◌, nat_eq, true, slice_index, IfSome, IfNone, ◌≤◌, ◌<◌, ◌∷◌, [], false, MatchOption, drop};
ghost use Rattle.std.specs.Prelude.{length, take};
ghost use Rattle.value_text.specs.Bytes.{is_name_byte};
ghost use Rattle.std.specs.List.{list_any};
ghost use Rattle.value_reader.specs.Items.{as_sort, begins_word, is_of, is_word, items, mark, pieces};
ghost use Rattle.value_reader.specs.Views.{AreNameBytes, piece_of};

/// A word, a mark of punctuation, the sort that follows the word `of`, or any other byte.
#[derive(Clone, Copy)]
pub enum Piece<'a> {
    Word(&'a [u8]),
    Opening,
    Closing,
    Comma,
    OfSort(&'a [u8]),
    Other,
}

/// Whether the byte is one of these.
pub fn is_among(byte: u8, bytes: &[u8]) -> bool
    ensures { result ≡ list_any (nat_eq byte) bytes.now }
{
    bytes.iter().any(|other| byte == *other)
}

// Whether names can have this byte.
fn is_name_byte(byte: u8) -> bool
    ensures { result ≡ is_name_byte byte }
{
    byte.is_ascii_alphanumeric() || is_among(byte, b"_#%&*+-./<=>@\\^~{}")
}

// How many bytes of names the text begins with.
fn word_length(text: &[u8]) -> usize
    ensures within { result ≤ length text.now }
    ensures run { AreNameBytes (take result text.now) }
    ensures ends { begins_word (drop result text.now) ≡ false }
{
    for (i, byte) in text.iter().enumerate() {
        if !is_name_byte(*byte) {
            return i;
        }
    }
    text.len()
}

// The mark that a byte alone is.
fn mark(byte: u8) -> Piece<'static>
    ensures { piece_of result ≡ mark byte }
{
    if byte == b'(' {
        Piece::Opening
    } else if byte == b')' {
        Piece::Closing
    } else if byte == b',' {
        Piece::Comma
    } else {
        Piece::Other
    }
}

// The first piece of a text that doesn't begin with a blank, and what is behind it.
fn first_piece(text: &[u8]) -> (Piece<'_>, &[u8])
    requires some { 0 < length text.now }
    requires no_blank { slice_index text.now 0 ≢ 32 }
    ensures { pieces text.now ≡ piece_of result.0 ∷ pieces result.1.now }
{
    let length = word_length(text);
    if length > 0 {
        (Piece::Word(&text[..length]), &text[length..])
    } else {
        (mark(text[0]), &text[1..])
    }
}

// The first piece of a text, and what is behind it.
fn next_piece(text: &[u8]) -> Option<(Piece<'_>, &[u8])>
    ensures { MatchOption result (pieces text.now ≡ []) (λ r. pieces text.now ≡ piece_of r.0 ∷ pieces r.1.now) }
{
    for (i, byte) in text.iter().enumerate() {
        if *byte != b' ' {
            return Some(first_piece(&text[i..]));
        }
    }
    None
}

// Whether a piece is the word `of`.
fn is_of(piece: &Piece) -> bool
    ensures { result ≡ is_of (piece_of piece.now) }
{
    match piece {
        Piece::Word(word) => *word == b"of".as_slice(),
        Piece::Opening => false,
        Piece::Closing => false,
        Piece::Comma => false,
        Piece::OfSort(_) => false,
        Piece::Other => false,
    }
}

// The sort that a word is behind the word `of`.
fn as_sort<'a>(piece: &Piece<'a>) -> Option<Piece<'a>>
    ensures some { IfSome result (λ p. (is_word (piece_of piece.now) ≡ true) × (piece_of p ≡ as_sort (piece_of piece.now))) }
    ensures none { IfNone result (is_word (piece_of piece.now) ≡ false) }
{
    match piece {
        Piece::Word(word) => Some(Piece::OfSort(*word)),
        Piece::Opening => None,
        Piece::Closing => None,
        Piece::Comma => None,
        Piece::OfSort(_) => None,
        Piece::Other => None,
    }
}

/// The first piece of a text, `of` and the word behind it being one, and what is behind it.
pub fn next_item(text: &[u8]) -> Option<(Piece<'_>, &[u8])>
    ensures { MatchOption result (items text.now ≡ []) (λ r. items text.now ≡ piece_of r.0 ∷ items r.1.now) }
{
    match next_piece(text) {
        None => None,
        Some((first, rest)) => {
            if !is_of(&first) {
                return Some((first, rest));
            }
            match next_piece(rest) {
                None => Some((first, rest)),
                Some((second, behind)) => match as_sort(&second) {
                    None => Some((first, rest)),
                    Some(sort) => Some((sort, behind)),
                },
            }
        }
    }
}

// Symbols that aren't runs of operation bytes.

ghost use Rattle.std.specs.Prelude.{◌≡◌, ◌<◌, ◌≤◌, map, length, All, IfSome};
ghost use Rattle.lotos_ast.specs.Pieces.{symbols_where, first_length};

// The symbols, each before those with which it begins.
const SYMBOLS: [&[u8]; 16] = [
    b"[]", b"[>", b"[", b"]", b"|||", b"||", b"|[", b":=", b":", b"(", b")", b";", b",", b"!",
    b"?", b"_",
];

// The length of the first symbol with which a text begins, where a `|[` is open or not.
pub fn symbol_length(text: &[u8], opened: bool) -> Option<usize>
    ensures symbol { result ≡ first_length text.now (symbols_where opened) }
    ensures within { IfSome result (λ n. (0 < n) × (n ≤ length text.now)) }
{
    if opened && text.starts_with(b"]|") {
        return Some(2);
    }
    first_length(text, &SYMBOLS)
}

// The length of the first of these spellings with which a text begins.
fn first_length(text: &[u8], spellings: &[&[u8]]) -> Option<usize>
    requires { All (λ w. 0 < length w.now) spellings.now }
    ensures first { result ≡ first_length text.now (map (λ w. w.now) spellings.now) }
    ensures within { IfSome result (λ n. (0 < n) × (n ≤ length text.now)) }
{
    for spelling in spellings {
        if text.starts_with(spelling) {
            return Some(spelling.len());
        }
    }
    None
}

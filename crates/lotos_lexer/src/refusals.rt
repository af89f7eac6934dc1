// The refusals of a text whose tokens can't be told.

ghost use Rattle.std.specs.Prelude.{◌≡◌, ◌<◌, IfOk, string_bytes};
ghost use Rattle.lotos_ast.specs.Tokenizes.{hex_digit, hex_text, bad_byte, open_comment, too_long};

use lotos_ast::names::Names;
use lotos_ast::place::Place;
use lotos_ast::refusal::{Refusal, RefusalKind};
use spec_core::memory::Memory;
use spec_core::name::Name;
use std::alloc::{AllocError, Global};

// The text is too long.
pub fn too_long(alloc: Global) -> Refusal
    ensures { result ≡ too_long }
{
    Refusal {
        kind: RefusalKind::TooLong,
        place: Place::START,
        names: Names::none(alloc),
    }
}

// The comment that begins at this place has no end.
pub fn open_comment(alloc: Global, place: Place) -> Refusal
    ensures { result ≡ open_comment place }
{
    Refusal {
        kind: RefusalKind::OpenComment,
        place,
        names: Names::none(alloc),
    }
}

// The byte at this place begins no token.
pub fn bad_byte(alloc: Global, byte: u8, place: Place) -> Result<Refusal, Memory>
    ensures { IfOk result (λ refusal. refusal ≡ bad_byte byte place) }
{
    let mut names = Vec::new(alloc);
    names.push(Name::new(hex_text(alloc, byte)?))?;
    Ok(Refusal {
        kind: RefusalKind::BadByte,
        place,
        names: Names::new(names),
    })
}

// A byte as two hexadecimal digits.
fn hex_text(alloc: Global, byte: u8) -> Result<String, AllocError>
    ensures { IfOk result (λ text. string_bytes text ≡ hex_text byte) }
{
    let mut text = String::new(alloc);
    text.push(hex_digit(byte / 16))?;
    text.push(hex_digit(byte % 16))?;
    Ok(text)
}

// A number below 16 as a hexadecimal digit.
fn hex_digit(number: u8) -> char
    requires { number < 16 }
    ensures digit { result ≡ hex_digit number }
    ensures ascii { result < 128 }
{
    if number < 10 {
        (48 + number) as char
    } else {
        (87 + number) as char
    }
}

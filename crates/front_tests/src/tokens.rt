// Texts and their tokens, worked out from the rules of docs/LANGUAGE.md.

use lotos_ast::mark::Mark;
use lotos_ast::refusal::FrontFault;
use lotos_ast::token::{Token, TokenKind};
use lotos_lexer::tokens;
use spec_core::memory::Memory;
use std::alloc::Global;
use std::test::Fail;

// A token as its class, its spelling and its place, and tokens parted by ` / `; or `refused`.
fn describe(alloc: Global, text: &[u8]) -> Result<String, Memory> {
    match tokens(alloc, text) {
        Ok(all) => describe_tokens(alloc, &all),
        Err(FrontFault::Refused(_)) => Ok(String::from_str(alloc, "refused")?),
        Err(FrontFault::Memory) => Err(Memory),
    }
}

fn describe_tokens(alloc: Global, tokens: &[Token]) -> Result<String, Memory> {
    let mut out = String::new(alloc);
    for token in tokens {
        if !out.is_empty() {
            out.push_str(" / ")?;
        }
        let class = letter_of(token.kind);
        let text = token.text.as_str();
        let line = token.place.line;
        let column = token.place.column;
        out.push_str(&format!(in alloc; "{class} {text} {line}:{column}")?)?;
    }
    Ok(out)
}

fn letter_of(kind: TokenKind) -> &'static str {
    match kind {
        TokenKind::Keyword => "k",
        TokenKind::Identifier => "i",
        TokenKind::Numeral => "n",
        TokenKind::Operation => "o",
        TokenKind::Symbol => "s",
        TokenKind::ConstructorMark => "c",
        TokenKind::ExternalMark => "e",
    }
}

// Words, symbols, comments and marks.
const ROWS: [(&[u8], &str); 66] = [
    (b"a", "i a 1:1"),
    (b"a b", "i a 1:1 / i b 1:3"),
    (b"a_b", "i a_b 1:1"),
    (b"a__b", "i a__b 1:1"),
    (b"_and_", "s _ 1:1 / i and 1:2 / s _ 1:5"),
    (b"a_", "i a 1:1 / s _ 1:2"),
    (b"a__", "i a 1:1 / s _ 1:2 / s _ 1:3"),
    (b"a_+", "i a 1:1 / s _ 1:2 / o + 1:3"),
    (b"__a", "s _ 1:1 / s _ 1:2 / i a 1:3"),
    (b"0", "n 0 1:1"),
    (b"0a_1b", "n 0a_1b 1:1"),
    (b"_0_", "s _ 1:1 / n 0 1:2 / s _ 1:3"),
    (b"a0", "i a0 1:1"),
    (b"StoP", "k StoP 1:1"),
    (b"stops", "i stops 1:1"),
    (b"stop_x", "i stop_x 1:1"),
    (b"stop_", "k stop 1:1 / s _ 1:5"),
    (b"I i1", "k I 1:1 / i i1 1:3"),
    (b"behavior behaviour", "k behavior 1:1 / k behaviour 1:10"),
    (b"[]", "s [] 1:1"),
    (b"[ ]", "s [ 1:1 / s ] 1:3"),
    (b"[>", "s [> 1:1"),
    (b"[>>", "s [> 1:1 / o > 1:3"),
    (b"[]>", "s [] 1:1 / o > 1:3"),
    (b"[[]", "s [ 1:1 / s [] 1:2"),
    (b"[a]", "s [ 1:1 / i a 1:2 / s ] 1:3"),
    (b"|[a]|", "s |[ 1:1 / i a 1:3 / s ]| 1:4"),
    (b"[a]||", "s [ 1:1 / i a 1:2 / s ] 1:3 / s || 1:4"),
    (
        b"[a]|[b]|",
        "s [ 1:1 / i a 1:2 / s ] 1:3 / s |[ 1:4 / i b 1:6 / s ]| 1:7",
    ),
    (b"|[ [] ]|", "s |[ 1:1 / s [] 1:4 / s ]| 1:7"),
    (
        b"|[a]||[b]|",
        "s |[ 1:1 / i a 1:3 / s ]| 1:4 / s |[ 1:6 / i b 1:8 / s ]| 1:9",
    ),
    (b"|[(* ] *)a]|", "s |[ 1:1 / i a 1:10 / s ]| 1:11"),
    (b"|[a]|||", "s |[ 1:1 / i a 1:3 / s ]| 1:4 / s || 1:6"),
    (b"|||", "s ||| 1:1"),
    (b"|||||", "s ||| 1:1 / s || 1:4"),
    (b"||[a]", "s || 1:1 / s [ 1:3 / i a 1:4 / s ] 1:5"),
    (b"::=", "s : 1:1 / s := 1:2"),
    (b":==", "s := 1:1 / s = 1:3"),
    (b": =", "s : 1:1 / s = 1:3"),
    (b"= => -> >>", "s = 1:1 / s => 1:3 / s -> 1:6 / s >> 1:9"),
    (
        b"== =>> ->> > - >=",
        "o == 1:1 / o =>> 1:4 / o ->> 1:8 / o > 1:12 / o - 1:14 / o >= 1:16",
    ),
    (b"a->b", "i a 1:1 / s -> 1:2 / i b 1:4"),
    (b"#%&*+-./<=>@\\^~{}", "o #%&*+-./<=>@\\^~{} 1:1"),
    (
        b"();,!?_",
        "s ( 1:1 / s ) 1:2 / s ; 1:3 / s , 1:4 / s ! 1:5 / s ? 1:6 / s _ 1:7",
    ),
    (b"*)", "o * 1:1 / s ) 1:2"),
    (b"a*(b)", "i a 1:1 / o * 1:2 / s ( 1:3 / i b 1:4 / s ) 1:5"),
    (b"(* (* *) b *)", "i b 1:10 / o * 1:12 / s ) 1:13"),
    (b"(* \xff\x00$| *)a", "i a 1:11"),
    (b"(*! constructor *)", "c (*! constructor *) 1:1"),
    (b"(*!constructor*)", "c (*!constructor*) 1:1"),
    (b"(*! a-CONSTRUCTOR *)", "c (*! a-CONSTRUCTOR *) 1:1"),
    (b"(*! external *)", "e (*! external *) 1:1"),
    (b"(*! External *)", "e (*! External *) 1:1"),
    (
        b"(*! external constructor *)",
        "e (*! external constructor *) 1:1",
    ),
    (
        b"(*! constructor external *)",
        "e (*! constructor external *) 1:1",
    ),
    (
        b"(*! \xff constructor *)",
        "c (*! \u{fffd} constructor *) 1:1",
    ),
    (
        b"(*! constructor\n*) a",
        "c (*! constructor\n*) 1:1 / i a 2:4",
    ),
    (
        b"f(*!constructor*):",
        "i f 1:1 / c (*!constructor*) 1:2 / s : 1:18",
    ),
    (b"\ta", "i a 1:2"),
    (b"a\nb", "i a 1:1 / i b 2:1"),
    (b"a\r\nb", "i a 1:1 / i b 2:1"),
    (b"a\rb", "i a 1:1 / i b 1:3"),
    (b"\n\n  a", "i a 3:3"),
    (b"(*\n\n*) a", "i a 3:4"),
    (b"(* \xc3\xa4 *)a", "i a 1:9"),
    (
        b"specification S : noexit behaviour stop endspec",
        "k specification 1:1 / i S 1:15 / s : 1:17 / k noexit 1:19 / k behaviour 1:26 / k stop 1:36 / k endspec 1:41",
    ),
];

#[test]
fn texts_have_these_tokens(rt: HostRuntime) -> Result<(), Fail> {
    for (text, due) in &ROWS {
        let found = describe(rt.alloc(), text)?;
        assert_eq!(rt; found.as_str(), *due);
    }
    Ok(())
}

// Every reserved word, and then every symbol.
const KEYWORDS_AND_SYMBOLS: &[u8] =
    b"accept actualizedby any behavior behaviour choice endlib endproc endspec endtype eqns exit for forall formaleqns \
    formalopns formalsorts hide i in is let library noexit of ofsort opnnames opns par process renamedby sortnames sorts \
    specification stop type using where [] [> [ ] |[ ]| ||| || := : = => -> >> ( ) ; , ! ? _";

#[test]
fn keywords_and_symbols_are_known_to_the_grammar(rt: HostRuntime) -> Result<(), Fail> {
    let Ok(all) = tokens(rt.alloc(), KEYWORDS_AND_SYMBOLS) else {
        return Err(Fail::from(Memory));
    };
    assert_eq!(rt; all.len(), 38 + 21);
    for (index, token) in all.iter().enumerate() {
        let due = if index < 38 {
            TokenKind::Keyword
        } else {
            TokenKind::Symbol
        };
        assert_eq!(rt; token.kind, due);
        assert_ne!(rt; token.mark(), Mark::Unknown);
    }
    Ok(())
}

// One letter for each byte as a text of its own: its class, g for a gap, x where it is refused. Bytes from 128 on are refused.
const ASCII: [&[u8]; 8] = [
    b"xxxxxxxxxggxxgxx",
    b"xxxxxxxxxxxxxxxx",
    b"gsxoxooxssoosooo",
    b"nnnnnnnnnnssosos",
    b"oiiiiiiiikiiiiii",
    b"iiiiiiiiiiisosos",
    b"xiiiiiiiikiiiiii",
    b"iiiiiiiiiiioxoox",
];

#[test]
fn single_bytes(rt: HostRuntime) -> Result<(), Fail> {
    for byte in 0..=255u8 {
        let found = describe(rt.alloc(), &[byte])?;
        let expected = match ASCII
            .get(usize::from(byte / 16))
            .and_then(|row| row.get(usize::from(byte % 16)))
        {
            Some(b'g') => "",
            Some(b'x') | None => "r",
            Some(b'i') => "i",
            Some(b'k') => "k",
            Some(b'n') => "n",
            Some(b'o') => "o",
            Some(_) => "s",
        };
        assert!(rt; found.starts_with(expected), "at {byte}");
        assert_eq!(rt; found.is_empty(), expected.is_empty());
    }
    Ok(())
}

// What a token is to the grammar.

ghost use Rattle.std.specs.Prelude.{◌≡◌, map};
ghost use Rattle.lotos_ast.specs.MarkNumbers.{is_same_mark};
ghost use Rattle.lotos_ast.specs.Marks.{keyword_of, symbol_of, is_same_word, find_mark, entry_of};

/// What a token is to the grammar: one keyword, one symbol, or a class of tokens whose texts differ.
#[derive(Clone, Copy, Debug, PartialEq, Eq)]
pub enum Mark {
    Accept,
    ActualizedBy,
    Any,
    Behaviour,
    Choice,
    EndLib,
    EndProc,
    EndSpec,
    EndType,
    Eqns,
    Exit,
    For,
    ForAll,
    FormalEqns,
    FormalOpns,
    FormalSorts,
    Hide,
    I,
    In,
    Is,
    Let,
    Library,
    NoExit,
    Of,
    OfSort,
    OpnNames,
    Opns,
    Par,
    Process,
    RenamedBy,
    SortNames,
    Sorts,
    Specification,
    Stop,
    /// `type`
    TypeKeyword,
    Using,
    Where,
    /// `[]`
    Brackets,
    /// `[>`
    Disable,
    /// `[`
    LeftBracket,
    /// `]|`
    RightBars,
    /// `]`
    RightBracket,
    /// `|||`
    Interleave,
    /// `||`
    Synchronise,
    /// `|[`
    LeftBars,
    /// `:=`
    ColonEquals,
    /// `:`
    Colon,
    /// `=`
    Equals,
    /// `=>`
    DoubleArrow,
    /// `->`
    Arrow,
    /// `>>`
    Enable,
    /// `(`
    LeftParenthesis,
    /// `)`
    RightParenthesis,
    /// `;`
    Semicolon,
    /// `,`
    Comma,
    /// `!`
    Exclamation,
    /// `?`
    Question,
    /// `_`
    Underscore,
    /// A word that begins with a letter and isn't reserved.
    Identifier,
    /// A word that begins with a digit.
    Numeral,
    /// A run of operation characters that is no symbol.
    Operation,
    /// A comment that marks the operation before it as a constructor.
    ConstructorMark,
    /// A comment that says that an item is external.
    ExternalMark,
    /// The end of the tokens.
    End,
    /// A keyword or symbol of no known spelling.
    Unknown,
}

impl Mark {
    /// Whether two marks are the same. It takes no memory.
    pub fn is_same(self, other: Mark) -> bool
        ensures { result ≡ is_same_mark self other }
    {
        self == other
    }
}

// The reserved words, each with its keyword. Letters of either case serve.
const KEYWORDS: [(&str, Mark); 38] = [
    ("accept", Mark::Accept),
    ("actualizedby", Mark::ActualizedBy),
    ("any", Mark::Any),
    ("behavior", Mark::Behaviour),
    ("behaviour", Mark::Behaviour),
    ("choice", Mark::Choice),
    ("endlib", Mark::EndLib),
    ("endproc", Mark::EndProc),
    ("endspec", Mark::EndSpec),
    ("endtype", Mark::EndType),
    ("eqns", Mark::Eqns),
    ("exit", Mark::Exit),
    ("for", Mark::For),
    ("forall", Mark::ForAll),
    ("formaleqns", Mark::FormalEqns),
    ("formalopns", Mark::FormalOpns),
    ("formalsorts", Mark::FormalSorts),
    ("hide", Mark::Hide),
    ("i", Mark::I),
    ("in", Mark::In),
    ("is", Mark::Is),
    ("let", Mark::Let),
    ("library", Mark::Library),
    ("noexit", Mark::NoExit),
    ("of", Mark::Of),
    ("ofsort", Mark::OfSort),
    ("opnnames", Mark::OpnNames),
    ("opns", Mark::Opns),
    ("par", Mark::Par),
    ("process", Mark::Process),
    ("renamedby", Mark::RenamedBy),
    ("sortnames", Mark::SortNames),
    ("sorts", Mark::Sorts),
    ("specification", Mark::Specification),
    ("stop", Mark::Stop),
    ("type", Mark::TypeKeyword),
    ("using", Mark::Using),
    ("where", Mark::Where),
];

// The symbols.
const SYMBOLS: [(&str, Mark); 21] = [
    ("[]", Mark::Brackets),
    ("[>", Mark::Disable),
    ("[", Mark::LeftBracket),
    ("]|", Mark::RightBars),
    ("]", Mark::RightBracket),
    ("|||", Mark::Interleave),
    ("||", Mark::Synchronise),
    ("|[", Mark::LeftBars),
    (":=", Mark::ColonEquals),
    (":", Mark::Colon),
    ("=", Mark::Equals),
    ("=>", Mark::DoubleArrow),
    ("->", Mark::Arrow),
    (">>", Mark::Enable),
    ("(", Mark::LeftParenthesis),
    (")", Mark::RightParenthesis),
    (";", Mark::Semicolon),
    (",", Mark::Comma),
    ("!", Mark::Exclamation),
    ("?", Mark::Question),
    ("_", Mark::Underscore),
];

/// The keyword that a word is, if it is reserved. Letters compare without case. It takes no memory.
pub fn keyword(word: &[u8]) -> Option<Mark>
    ensures { result ≡ keyword_of word.now }
{
    find_mark(word, &KEYWORDS)
}

/// The symbol with this spelling, if there is one. It takes no memory.
pub fn symbol(text: &[u8]) -> Option<Mark>
    ensures { result ≡ symbol_of text.now }
{
    find_mark(text, &SYMBOLS)
}

// The mark of the first entry with this spelling.
fn find_mark(word: &[u8], table: &[(&str, Mark)]) -> Option<Mark>
    ensures { result ≡ find_mark word.now (map entry_of table.now) }
{
    for (spelling, mark) in table {
        if is_same_word(word, spelling.as_bytes()) {
            return Some(*mark);
        }
    }
    None
}

/// Whether two words are equal when letters compare without case. It takes no memory.
pub fn is_same_word(word: &[u8], other: &[u8]) -> bool
    ensures { result ≡ is_same_word word.now other.now }
{
    word.eq_ignore_ascii_case(other)
}

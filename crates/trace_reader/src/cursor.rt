// A place in a line.

ghost use Rattle.std.specs.Prelude.{◌≡◌, ◌≤◌, IfSome, MatchOption, None, Some, is_none, length};
ghost use Rattle.value_reader.specs.Views.{bytes_of};
ghost use Rattle.trace_reader.specs.Cursors.{Takes, behind, ending_there, past, size};

use std::marker::Model;
use value_reader::ends_there;

/// What is left of a line, which contracts see as its bytes. A cursor is lost where something that had to come didn't: then nothing is
/// left, not even an empty text, and what is read from there on is of no account.
#[derive(Drop)]
pub struct Cursor<'a> {
    rest: Option<&'a [u8]>,
}

impl<'a> Model for Cursor<'a> {
    ghost use Rattle.std.specs.Prelude.{ℕ, List, Option};
    ghost use Rattle.value_reader.specs.Views.{bytes_of};

    ghost Value = { Option (List ℕ) };

    ghost view = { λ cursor. bytes_of cursor.rest };
}

impl<'a> Cursor<'a> {
    /// A cursor before this text.
    pub fn new(text: &'a [u8]) -> Cursor<'a>
        ensures { result ≡ Some text.now }
    {
        Cursor { rest: Some(text) }
    }

    /// What is left, if the cursor isn't lost.
    pub fn rest(&self) -> Option<&'a [u8]>
        ensures { bytes_of result ≡ self.now }
    {
        self.rest
    }

    /// Whether the cursor is lost.
    pub fn is_lost(&self) -> bool
        ensures { result ≡ is_none self.now }
    {
        self.rest.is_none()
    }

    /// Puts the cursor before this text.
    pub fn stand(&mut self, text: &'a [u8])
        ensures { self.new ≡ Some text.now }
    {
        self.rest = Some(text);
    }

    /// The cursor is lost.
    pub fn lose(&mut self)
        ensures { self.new ≡ None }
    {
        self.rest = None;
    }

    /// Takes this word, if it is next.
    pub fn takes(&mut self, word: &[u8]) -> bool
        ensures { Takes (past word.now self.old) self.old result self.new }
    {
        match self.rest {
            None => false,
            Some(text) => match behind(text, word) {
                None => false,
                Some(rest) => {
                    self.rest = Some(rest);
                    true
                }
            },
        }
    }

    /// Takes this word, if it is next and a name may end behind it.
    pub fn takes_name(&mut self, word: &[u8]) -> bool
        ensures takes { Takes (ending_there (past word.now self.old)) self.old result self.new }
        ensures fewer { size self.new ≤ size self.old }
    {
        match self.rest {
            None => false,
            Some(text) => match behind(text, word) {
                None => false,
                Some(rest) => {
                    if ends_there(rest) {
                        self.rest = Some(rest);
                        true
                    } else {
                        false
                    }
                }
            },
        }
    }

    /// Takes this word, which has to be next.
    pub fn skip(&mut self, word: &[u8])
        ensures { self.new ≡ past word.now self.old }
    {
        if !self.takes(word) {
            self.lose();
        }
    }
}

// What stands behind this word, if the text begins with it.
fn behind<'a>(text: &'a [u8], word: &[u8]) -> Option<&'a [u8]>
    ensures behind { MatchOption result (behind word.now text.now ≡ None) (λ r. behind word.now text.now ≡ Some r.now) }
    ensures fewer { IfSome result (λ r. length r.now ≤ length text.now) }
{
    text.strip_prefix(word)
}

// Places in a text.

ghost use Rattle.std.specs.Prelude.{◌≡◌, ◌+◌, ◌<◌, ◌≤◌, ◌^◌, length};
ghost use Rattle.lotos_ast.specs.Places.{next_place, place_after};

/// A place in a text, counted in bytes.
#[derive(Clone, Copy, Debug, PartialEq, Eq)]
pub struct Place {
    /// The line, from 1; a line ends with LF. Texts of the library have line 0.
    pub line: u32,
    /// The byte in its line, from 1.
    pub column: u32,
}

impl Place {
    /// The place of the first byte of a text.
    pub const START: Place = Place { line: 1, column: 1 };

    /// The place just behind these bytes, the first of which stands at this place. It takes no memory.
    pub fn after(self, bytes: &[u8]) -> Place
        requires room { self.line + self.column + length bytes.now < 2 ^ 32 }
        requires column { 0 < self.column }
        ensures place { result ≡ place_after self bytes.now }
        ensures column { 0 < result.column }
        ensures bound { result.line + result.column ≤ self.line + self.column + length bytes.now }
    {
        let mut place = self;
        for byte in bytes {
            place = place.next(*byte);
        }
        place
    }

    // The place behind the byte that stands here.
    fn next(self, byte: u8) -> Place
        requires room { self.line + self.column + 1 < 2 ^ 32 }
        requires column { 0 < self.column }
        ensures place { result ≡ next_place self byte }
        ensures column { 0 < result.column }
        ensures bound { result.line + result.column ≤ self.line + self.column + 1 }
    {
        if byte == b'\n' {
            Place {
                line: self.line + 1,
                column: 1,
            }
        } else {
            Place {
                line: self.line,
                column: self.column + 1,
            }
        }
    }
}

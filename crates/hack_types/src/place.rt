// Places in a text.
ghost use Rattle.std.specs.Prelude.{◌≡◌, ◌+◌, ◌<◌, ◌≤◌, ◌^◌, length};
ghost use Rattle.hack_types.specs.Places.{behind_all};

/// Where something stands in a file: its line, from 1, and its column in bytes, from 1.
///
/// A line ends with LF and with nothing else (docs/script.md, Places).
#[derive(Clone, Copy, Debug, PartialEq, Eq, PartialOrd, Ord)]
pub struct Place {
    /// The line, from 1.
    pub line: u32,
    /// The column in bytes, from 1.
    pub column: u32,
}

impl Place {
    /// Where a file begins: line 1, column 1.
    pub const START: Place = Place { line: 1, column: 1 };

    /// The place behind these bytes, of which the first stands here (docs/script.md, Places).
    pub fn behind(self, bytes: &[u8]) -> Place
        requires line { self.line + length bytes.now < 2 ^ 32 }
        requires column { self.column + length bytes.now < 2 ^ 32 }
        ensures place { result ≡ behind_all self bytes.now }
        ensures line { result.line ≤ self.line + length bytes.now }
        ensures column { result.column ≤ self.column + length bytes.now }
    {
        let mut place = self;
        for byte in bytes {
            place = if *byte == b'\n' {
                Place {
                    line: place.line + 1,
                    column: 1,
                }
            } else {
                Place {
                    line: place.line,
                    column: place.column + 1,
                }
            };
        }
        place
    }
}

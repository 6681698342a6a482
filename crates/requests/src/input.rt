// The lines of an input, one after the other.
ghost use Rattle.std.specs.Prelude.{◌≡◌};
ghost use Rattle.std.specs.Iterator.{YieldsFirstBy, item_count};
ghost use Rattle.requests.specs.Lines.{lines};
ghost use Rattle.requests.specs.Views.{line_of};

// The bytes of a line: byte 10 follows them, or the input ends.
#[derive(Clone, Copy, Debug, PartialEq, Eq, Drop)]
pub enum Line<'a> {
    Ended(&'a [u8]),
    Unended(&'a [u8]),
}

// The lines that are left.
#[derive(Clone, Copy, Debug, PartialEq, Eq, Drop)]
pub struct Lines<'a> {
    rest: &'a [u8],
}

impl<'a> Lines<'a> {
    pub fn of(input: &'a [u8]) -> Lines<'a>
        ensures { result.rest.now ≡ input.now }
    {
        Lines { rest: input }
    }

    // Their bytes.
    pub fn rest(self) -> &'a [u8]
        ensures { result.now ≡ self.entry.rest.now }
    {
        let Lines { rest } = self;
        rest
    }
}

impl<'a> Iterator for Lines<'a> {
    type Item = Line<'a>;

    ghost next_gives = { YieldsFirstBy line_of (λ s. lines s.rest.now) };

    ghost remaining = { item_count (λ s. lines s.rest.now) };

    fn next(&mut self) -> Option<Line<'a>> {
        if self.rest.is_empty() {
            return None;
        }
        let bytes = self.rest;
        match text::find::first_place(bytes, crate::LINE_END) {
            Some(end) => {
                self.rest = &bytes[end + 1..];
                Some(Line::Ended(&bytes[..end]))
            }
            None => {
                self.rest = &[];
                Some(Line::Unended(bytes))
            }
        }
    }
}

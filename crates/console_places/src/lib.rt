// Places in a text: offset, line and column, and the byte that stands there.
#![tactic(auto)]

ghost use Rattle.std.specs.Prelude.{◌≡◌, ◌≤◌};
ghost use Rattle.console_places.specs.Places.{first, next, after, seen_at, back, within};

use crate::part::first;

pub mod part;

#[derive(Clone, Copy)]
pub struct Place {
    pub offset: usize,
    pub line: usize,
    pub column: usize,
    // None where the text ends, or where what stands there is not known.
    pub byte: Option<u8>,
}

impl Place {
    // Where a text begins.
    pub fn first() -> Place
        ensures { result ≡ first }
    {
        Place {
            offset: 0,
            line: 1,
            column: 1,
            byte: None,
        }
    }

    // Behind a text that begins here.
    pub fn after(self, text: &[u8]) -> Place
        ensures { result ≡ after self text.now }
    {
        let mut place = self;
        for b in text {
            place = place.next(*b);
        }
        place
    }

    // Of an offset, where a piece of a text begins here. An offset before the piece is taken to be on this line.
    pub fn within(self, piece: &[u8], offset: usize) -> Place
        ensures { result ≡ within self piece.now offset }
    {
        if offset < self.offset {
            return self.back(offset);
        }
        self.after(first(piece, offset - self.offset))
    }

    fn back(self, offset: usize) -> Place
        requires { offset ≤ self.offset }
        ensures { result ≡ back self offset }
    {
        Place {
            offset,
            line: self.line,
            column: self.column.saturating_sub(self.offset - offset),
            byte: None,
        }
    }

    fn next(self, b: u8) -> Place
        ensures { result ≡ next self b }
    {
        let offset = self.offset.saturating_add(1);
        if b == b'\n' {
            return Place {
                offset,
                line: self.line.saturating_add(1),
                column: 1,
                byte: None,
            };
        }
        Place {
            offset,
            line: self.line,
            column: self.column.saturating_add(1),
            byte: None,
        }
    }
}

// Of an offset in a text, or of its end where it has no such byte; with what stands there.
pub fn of(text: &[u8], offset: usize) -> Place
    ensures { result ≡ seen_at text.now offset }
{
    let place = Place::first().after(first(text, offset));
    Place {
        offset: place.offset,
        line: place.line,
        column: place.column,
        byte: text.get(offset).copied(),
    }
}

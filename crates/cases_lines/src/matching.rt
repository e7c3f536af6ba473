//! Whether what is found is what a line expects.
use crate::expected::{Expected, Pattern, Quotes};

impl Expected<'_> {
    /// Whether one of the alternatives is found. It takes no memory.
    pub fn matches(&self, found: &str) -> bool {
        self.patterns.iter().any(|pattern| pattern.fits(found))
    }
}

impl Pattern {
    fn fits(&self, found: &str) -> bool {
        match self {
            Pattern::Any => true,
            Pattern::Text(text) => text.as_str() == found,
            Pattern::Cells(pieces) => cells_fit(pieces, found),
            Pattern::Bytes(digits) => bytes_fit(digits.as_bytes(), found.as_bytes()),
        }
    }
}

/// Whether the pieces are found, in their order, with a cell between any two of them.
fn cells_fit(pieces: &[String], found: &str) -> bool {
    let [first, others @ ..] = pieces else {
        return false;
    };
    let Some(mut rest) = found.strip_prefix(first.as_str()) else {
        return false;
    };
    for piece in others {
        let behind = after_cell(rest);
        if behind.len() == rest.len() {
            return false;
        }
        let Some(next) = behind.strip_prefix(piece.as_str()) else {
            return false;
        };
        rest = next;
    }
    rest.is_empty()
}

/// What stands behind a cell.
fn after_cell(text: &str) -> &str {
    let mut reader = CellReader {
        depth: 0,
        quotes: Quotes::default(),
    };
    text.trim_start_matches(|letter| reader.takes(letter))
}

/// Reads a JSON value, letter by letter.
#[derive(Drop)]
struct CellReader {
    depth: u64,
    quotes: Quotes,
}

impl CellReader {
    /// Whether the letter is the next one of the value.
    fn takes(&mut self, letter: char) -> bool {
        if !self.quotes.are_closed(letter) {
            return true;
        }
        match letter {
            '[' => self.depth = self.depth.saturating_add(1),
            ',' | ']' if self.depth == 0 => return false,
            ']' => self.depth = self.depth.saturating_sub(1),
            _ => {}
        }
        true
    }
}

/// Whether these digits are found, where `?` is any digit of a byte.
fn bytes_fit(digits: &[u8], found: &[u8]) -> bool {
    digits.len() == found.len()
        && digits.iter().zip(found).all(|(digit, other)| digit == other
            || *digit == b'?' && matches!(*other, b'0'..=b'9' | b'a'..=b'f'))
}

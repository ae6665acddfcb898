//! Where the parts of a program are in its text.

use giotto_read::ReadFault;
use rig_model::text::lexer;
use rig_model::text::tokens::{Keyword, PlacedToken, Token};
use std::alloc::{AllocError, Global};

/// A range of a text: its offset and its length, in bytes.
#[derive(Clone, Copy, Debug, PartialEq, Eq)]
pub(crate) struct Spot {
    pub(crate) offset: usize,
    pub(crate) len: usize,
}

impl Spot {
    /// The start of a text.
    pub(crate) fn front() -> Spot {
        Spot { offset: 0, len: 0 }
    }
}

/// The tokens of a program, in which its parts are found.
#[derive(Drop)]
pub(crate) struct Spots {
    tokens: Vec<PlacedToken>,
}

impl Spots {
    /// The tokens of a text. There are none if the text doesn't split into tokens.
    ///
    /// # Errors
    /// Out of memory.
    pub(crate) fn of(alloc: Global, text: &str) -> Result<Spots, AllocError> {
        match lexer::tokens(alloc, text.as_bytes()) {
            Ok(tokens) => Ok(Spots { tokens }),
            Err(ReadFault::Memory) => Err(AllocError),
            Err(_) => Ok(Spots {
                tokens: Vec::new(alloc),
            }),
        }
    }

    /// The name of the task at this place.
    pub(crate) fn task(&self, place: usize) -> Spot {
        self.spot(self.find(0, Keyword::Task, place).saturating_add(1))
    }

    /// The name of the mode at this place.
    pub(crate) fn mode(&self, place: usize) -> Spot {
        self.spot(self.find(0, Keyword::Mode, place).saturating_add(1))
    }

    /// The word that begins a driver: the one at this place among the drivers of the mode that begin with this word.
    pub(crate) fn driver(&self, mode: usize, word: Keyword, place: usize) -> Spot {
        let begin = self.find(0, Keyword::Mode, mode);
        self.spot(self.find(begin, word, place))
    }

    /// The line number of the sensor or actuator at this place. `word` says which of the two.
    pub(crate) fn line(&self, word: Keyword, place: usize) -> Spot {
        let begin = self.find(0, word, place);
        let line = self.find(begin, Keyword::Line, 0);
        self.spot(line.saturating_add(1))
    }

    // The place of this word among the tokens, from `begin` on, after `before` other occurrences of it.
    fn find(&self, begin: usize, word: Keyword, before: usize) -> usize {
        let mut left = before;
        for (place, placed) in self.tokens.iter().enumerate() {
            if place >= begin && is_keyword(placed, word) {
                if left == 0 {
                    return place;
                }
                left = left.saturating_sub(1);
            }
        }
        self.tokens.len()
    }

    // Where the token at this place is. It is the start of the text if there is no such token.
    fn spot(&self, place: usize) -> Spot {
        match self.tokens.get(place) {
            Some(placed) => Spot {
                offset: placed.offset,
                len: len_of(&placed.token),
            },
            None => Spot::front(),
        }
    }
}

fn is_keyword(placed: &PlacedToken, word: Keyword) -> bool {
    matches!(&placed.token, Token::Keyword(found) if *found == word)
}

// The length of a token. For a number, it is that of the first digit.
fn len_of(token: &Token) -> usize {
    match token {
        Token::Keyword(keyword) => keyword.as_str().len(),
        Token::Name(name) => name.len(),
        Token::Number(_) => 1,
        Token::Symbol(symbol) => symbol.as_str().len(),
    }
}

//! The keywords of a proof's text.
use keyword_text::Spelled;

/// A keyword of a proof's text.
#[derive(Clone, Copy)]
pub enum Keyword {
    Proof,
    Bound,
    Turns,
    TurnsOn,
    Crowd,
    Power,
    Wide,
    Place,
    Sum,
    Pack,
    Of,
}

/// The keywords as they are spelled.
pub static KEYWORDS: [Spelled<Keyword>; 11] = [
    Spelled {
        key: Keyword::Proof,
        word: b"Proof",
    },
    Spelled {
        key: Keyword::Bound,
        word: b"Bound",
    },
    Spelled {
        key: Keyword::Turns,
        word: b"Turns",
    },
    Spelled {
        key: Keyword::TurnsOn,
        word: b"TurnsOn",
    },
    Spelled {
        key: Keyword::Crowd,
        word: b"Crowd",
    },
    Spelled {
        key: Keyword::Power,
        word: b"Power",
    },
    Spelled {
        key: Keyword::Wide,
        word: b"Wide",
    },
    Spelled {
        key: Keyword::Place,
        word: b"Place",
    },
    Spelled {
        key: Keyword::Sum,
        word: b"Sum",
    },
    Spelled {
        key: Keyword::Pack,
        word: b"Pack",
    },
    Spelled {
        key: Keyword::Of,
        word: b"Of",
    },
];

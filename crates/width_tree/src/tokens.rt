//! The keywords of a tree's text.
use keyword_text::Spelled;

/// A keyword of a tree's text.
#[derive(Clone, Copy)]
pub enum Keyword {
    Tree,
    Bound,
    Split,
    Time,
    Area,
    Bus,
    Apart,
}

/// The keywords as they are spelled.
pub static KEYWORDS: [Spelled<Keyword>; 7] = [
    Spelled {
        key: Keyword::Tree,
        word: b"Tree",
    },
    Spelled {
        key: Keyword::Bound,
        word: b"Bound",
    },
    Spelled {
        key: Keyword::Split,
        word: b"Split",
    },
    Spelled {
        key: Keyword::Time,
        word: b"Time",
    },
    Spelled {
        key: Keyword::Area,
        word: b"Area",
    },
    Spelled {
        key: Keyword::Bus,
        word: b"Bus",
    },
    Spelled {
        key: Keyword::Apart,
        word: b"Apart",
    },
];

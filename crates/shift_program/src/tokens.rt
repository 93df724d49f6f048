//! The keywords of a program's text.
use keyword_text::Spelled;

/// A keyword of a program's text.
#[derive(Clone, Copy)]
pub enum Keyword {
    Program,
    Test,
    Rest,
    Shift,
    Capture,
}

/// The keywords as they are spelled.
pub static KEYWORDS: [Spelled<Keyword>; 5] = [
    Spelled {
        key: Keyword::Program,
        word: b"Program",
    },
    Spelled {
        key: Keyword::Test,
        word: b"Test",
    },
    Spelled {
        key: Keyword::Rest,
        word: b"Rest",
    },
    Spelled {
        key: Keyword::Shift,
        word: b"Shift",
    },
    Spelled {
        key: Keyword::Capture,
        word: b"Capture",
    },
];

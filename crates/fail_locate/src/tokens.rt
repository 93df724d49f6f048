//! The keywords of a fail log.
use keyword_text::Spelled;

/// A keyword of a fail log.
#[derive(Clone, Copy)]
pub enum Keyword {
    Log,
    Fail,
}

/// The keywords as they are spelled.
pub static KEYWORDS: [Spelled<Keyword>; 2] = [
    Spelled {
        key: Keyword::Log,
        word: b"Log",
    },
    Spelled {
        key: Keyword::Fail,
        word: b"Fail",
    },
];

//! The keywords of a plan's text.
use keyword_text::Spelled;

/// A keyword of a plan's text.
#[derive(Clone, Copy)]
pub enum Keyword {
    Plan,
    Cycles,
    Bus,
    Wrapper,
    Scan,
    Terminals,
    Chain,
    Start,
    Bound,
    Module,
    Pair,
    Area,
    Power,
    Forced,
}

/// The keywords as they are spelled. Those that long texts have most come first.
pub static KEYWORDS: [Spelled<Keyword>; 14] = [
    Spelled {
        key: Keyword::Chain,
        word: b"Chain",
    },
    Spelled {
        key: Keyword::Start,
        word: b"Start",
    },
    Spelled {
        key: Keyword::Wrapper,
        word: b"Wrapper",
    },
    Spelled {
        key: Keyword::Scan,
        word: b"scan",
    },
    Spelled {
        key: Keyword::Terminals,
        word: b"terminals",
    },
    Spelled {
        key: Keyword::Plan,
        word: b"Plan",
    },
    Spelled {
        key: Keyword::Cycles,
        word: b"Cycles",
    },
    Spelled {
        key: Keyword::Bus,
        word: b"Bus",
    },
    Spelled {
        key: Keyword::Bound,
        word: b"Bound",
    },
    Spelled {
        key: Keyword::Module,
        word: b"Module",
    },
    Spelled {
        key: Keyword::Pair,
        word: b"Pair",
    },
    Spelled {
        key: Keyword::Area,
        word: b"Area",
    },
    Spelled {
        key: Keyword::Power,
        word: b"Power",
    },
    Spelled {
        key: Keyword::Forced,
        word: b"Forced",
    },
];

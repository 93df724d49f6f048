//! The lines of a file of rows.
use outside::number;

/// A line of a file of rows.
pub enum RowLine<'a> {
    /// Nothing, or a comment that `#` begins.
    Blank,
    /// `hold NAME TEXT`: the file NAME holds the text from here on.
    Hold {
        name: &'a str,
        text: &'a str,
    },
    /// `more N NAME TEXT`: the file NAME holds N copies of the text behind what it has.
    More {
        name: &'a str,
        copies: u64,
        text: &'a str,
    },
    /// `data NAME FILE`: the file NAME holds what the file FILE of the system has.
    Data {
        name: &'a str,
        file: &'a str,
    },
    /// `keep NAME BEGIN END`: the file NAME holds what the last run wrote, from behind the first line that begins with the word
    /// BEGIN to before the next one that begins with the word END. Without END it is all that follows; without BEGIN, or with `""`
    /// in its place, it begins with the first line.
    Keep {
        name: &'a str,
        begin: &'a str,
        end: &'a str,
    },
    /// `loads N ..`: a new shelf over the same files, whose loads of these numbers fail. They are counted from 0 over all
    /// runs until the next such line.
    Loads {
        failing: &'a str,
    },
    /// `puts ROOM MOST N ..`: the output of each run from here on has room for ROOM bytes, takes at most MOST of them
    /// a call, and fails at the calls N, counted from 0. `puts` alone: room for every answer, seven bytes a call.
    Puts {
        shape: &'a str,
    },
    /// `reports ROOM MOST N ..`: the same for the second output, on which is reported how far a run has come.
    Reports {
        shape: &'a str,
    },
    /// `KIND WORDS -> WANTED`: what has to be answered: a text, or `=` and the name of the file that holds it, maybe behind a
    /// status.
    Row {
        kind: &'a str,
        words: &'a str,
        wanted: &'a str,
    },
}

/// The parts of a text before and behind its first space; nothing behind where it has none.
pub fn part(text: &str) -> (&str, &str) {
    text.split_once(' ').unwrap_or((text, ""))
}

/// A word of a line: `""` is the empty one.
pub fn word_of(word: &str) -> &str {
    if word == "\"\"" { "" } else { word }
}

/// The line `more N NAME TEXT`, by what stands behind its first word.
fn more_of(rest: &str) -> RowLine<'_> {
    let (copies, rest) = part(rest);
    let (name, text) = part(rest);
    RowLine::More {
        name,
        copies: count_of(copies),
        text,
    }
}

/// The line `keep NAME BEGIN END`, by what stands behind its first word.
fn keep_of(rest: &str) -> RowLine<'_> {
    let (name, rest) = part(rest);
    let (begin, end) = part(rest);
    RowLine::Keep {
        name,
        begin: word_of(begin),
        end,
    }
}

/// The row of a kind, by what stands behind its first word.
fn row_of<'a>(kind: &'a str, rest: &'a str) -> RowLine<'a> {
    let (words, wanted) = rest.split_once("-> ").unwrap_or((rest, ""));
    RowLine::Row {
        kind,
        words,
        wanted,
    }
}

/// What a line says.
pub fn line_of(text: &str) -> RowLine<'_> {
    let (word, rest) = part(text);
    let (name, behind) = part(rest);
    match word {
        "hold" => RowLine::Hold { name, text: behind },
        "more" => more_of(rest),
        "data" => RowLine::Data { name, file: behind },
        "keep" => keep_of(rest),
        "loads" => RowLine::Loads { failing: rest },
        "puts" => RowLine::Puts { shape: rest },
        "reports" => RowLine::Reports { shape: rest },
        "" => RowLine::Blank,
        kind if kind.starts_with('#') => RowLine::Blank,
        kind => row_of(kind, rest),
    }
}

/// The number that a word is, 0 where it is none.
pub fn count_of(word: &str) -> u64 {
    number(word.as_bytes(), u64::MAX).unwrap_or(0)
}

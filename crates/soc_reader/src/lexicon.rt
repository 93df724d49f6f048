//! What kinds of words there are.
ghost use Rattle.std.specs.Prelude.{◌≡◌, ◌||◌, ◌&&◌, length, nat_eq, nat_le, true, false};
ghost use Rattle.soc_reader.specs.Keywords.{keywords, sized, named, key_of as key_that_is, is_lengths_word as says_lengths, is_printable as prints, is_free_word as is_free, is_letter_word as has_letter, is_coordinate as is_number_like, number as number_in, flag_of as flag_in};

use crate::keys::Key;
use outside::{number, same_word};
use soc_model::NUMBER_WORD_MOST;

/// The keyword that a word of four letters is.
#[tactic(auto)]
fn keyword_of_four(word: &[u8]) -> Option<Key>
    ensures { result ≡ named (sized (nat_eq 4)) word.now }
{
    if same_word(word, b"Test") {
        return Some(Key::Test);
    }
    None
}

/// The keyword that a word of five letters is, the most frequent one first.
#[tactic(auto)]
fn keyword_of_five(word: &[u8]) -> Option<Key>
    ensures { result ≡ named (sized (nat_eq 5)) word.now }
{
    if same_word(word, b"Power") {
        return Some(Key::Power);
    }
    if same_word(word, b"Level") {
        return Some(Key::Level);
    }
    if same_word(word, b"Setup") {
        return Some(Key::Setup);
    }
    if same_word(word, b"Tests") {
        return Some(Key::TotalTests);
    }
    None
}

/// The keyword that a word of six letters is, the most frequent ones first.
#[tactic(auto)]
fn keyword_of_six(word: &[u8]) -> Option<Key>
    ensures { result ≡ named (sized (nat_eq 6)) word.now }
{
    if same_word(word, b"Module") {
        return Some(Key::Module);
    }
    if same_word(word, b"TamUse") {
        return Some(Key::TamUse);
    }
    if same_word(word, b"Inputs") {
        return Some(Key::Inputs);
    }
    if same_word(word, b"Bidirs") {
        return Some(Key::Bidirs);
    }
    None
}

/// The keyword that a word of seven letters is, the most frequent ones first.
#[tactic(auto)]
fn keyword_of_seven(word: &[u8]) -> Option<Key>
    ensures { result ≡ named (sized (nat_eq 7)) word.now }
{
    if same_word(word, b"ScanUse") {
        return Some(Key::ScanUse);
    }
    if same_word(word, b"Outputs") {
        return Some(Key::Outputs);
    }
    if same_word(word, b"SocName") {
        return Some(Key::SocName);
    }
    if same_word(word, b"Options") {
        return Some(Key::Options);
    }
    None
}

/// The keyword that a word of more letters is, the most frequent one first.
#[tactic(auto)]
fn long_keyword(word: &[u8]) -> Option<Key>
    ensures { result ≡ named (sized (nat_le 8)) word.now }
{
    if same_word(word, b"Patterns") {
        return Some(Key::Patterns);
    }
    if same_word(word, b"ScanChains") || same_word(word, b"TotalScanChains") {
        return Some(Key::ScanChains);
    }
    if same_word(word, b"TotalTests") {
        return Some(Key::TotalTests);
    }
    if same_word(word, b"TotalModules") {
        return Some(Key::TotalModules);
    }
    None
}

/// The keyword that a word is, but directly after `Options`. It is looked for among those of its length.
#[tactic(auto, using(crate::proofs::Sizes::of_length, crate::proofs::Sizes::of_more, crate::proofs::Sizes::of_fewer))]
fn keyword(word: &[u8]) -> Option<Key>
    ensures { result ≡ named keywords word.now }
{
    let length = word.len();
    if length < 4 {
        return None;
    }
    if length > 7 {
        return long_keyword(word);
    }
    if length == 4 {
        return keyword_of_four(word);
    }
    if length == 5 {
        return keyword_of_five(word);
    }
    if length == 6 {
        return keyword_of_six(word);
    }
    keyword_of_seven(word)
}

/// The keyword that a word is, directly after `Options` and its flags or elsewhere.
#[tactic(auto, unfolding(crate::specs::Keywords::key_of))]
pub fn key_of(after_options: bool, word: &[u8]) -> Option<Key>
    ensures { result ≡ key_that_is after_options word.now }
{
    if after_options && same_word(word, b"Power") {
        return Some(Key::PowerFlag);
    }
    if after_options && same_word(word, b"XY") {
        return Some(Key::XyFlag);
    }
    keyword(word)
}

/// Whether a word is `ScanChainLengths`.
#[tactic(auto, unfolding(crate::specs::Keywords::is_lengths_word))]
pub fn is_lengths_word(word: &[u8]) -> bool
    ensures { result ≡ says_lengths word.now }
{
    same_word(word, b"ScanChainLengths")
}

/// Whether all bytes of a word are printable.
#[tactic(auto, unfolding(crate::specs::Keywords::is_printable))]
pub fn is_printable(word: &[u8]) -> bool
    ensures { result ≡ prints word.now }
{
    for b in word {
        if *b < 0x21 || *b > 0x7e {
            return false;
        }
    }
    true
}

/// A word that may be a name or stand in place data.
#[tactic(auto, unfolding(crate::specs::Keywords::is_free_word, crate::specs::Keywords::is_lengths_word))]
pub fn is_free_word(word: &[u8]) -> bool
    ensures { result ≡ is_free word.now }
{
    is_printable(word) && !is_lengths_word(word) && !same_word(word, b"XY")
}

/// Whether a word begins with an ASCII letter.
#[tactic(auto, unfolding(crate::specs::Keywords::is_letter_word))]
pub fn is_letter_word(word: &[u8]) -> bool
    ensures { result ≡ has_letter word.now }
{
    match word {
        [] => false,
        [first, ..] => first.is_ascii_alphabetic(),
    }
}

/// A word of place data that begins with a digit, `-` or `+`.
#[tactic(auto, unfolding(crate::specs::Keywords::is_coordinate))]
pub fn is_coordinate(word: &[u8]) -> bool
    ensures { result ≡ is_number_like word.now }
{
    if !is_printable(word) {
        return false;
    }
    match word {
        [] => false,
        [first, ..] => first.is_ascii_digit() || *first == b'-' || *first == b'+',
    }
}

/// The number that a word stands for.
#[tactic(auto, unfolding(crate::specs::Keywords::number))]
pub fn number_of(word: &[u8]) -> Option<u64>
    ensures { result ≡ number_in word.now }
{
    number(word, NUMBER_WORD_MOST)
}

/// The flag that a word stands for.
#[tactic(auto, unfolding(crate::specs::Keywords::flag_of))]
pub fn flag_of(word: &[u8]) -> Option<bool>
    ensures { result ≡ flag_in word.now }
{
    if same_word(word, b"1") || same_word(word, b"yes") {
        return Some(true);
    }
    if same_word(word, b"0") || same_word(word, b"no") {
        return Some(false);
    }
    None
}

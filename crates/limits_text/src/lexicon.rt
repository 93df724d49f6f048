//! What kinds of words there are.
ghost use Rattle.std.specs.Prelude.{◌≡◌, ◌&&◌};
ghost use Rattle.limits_text.specs.Items.{number as number_in, is_title as says_title, key_of as key_that_is, is_in_range as is_ranged};

use crate::items::{Amount, Key};
use outside::{number, same_word};
use plan_model::{BUDGET_MOST, WIRES_MOST};
use soc_model::{NUMBER_WORD_MOST, POWER_MOST};

/// The number that a word is.
#[tactic(auto, unfolding(crate::specs::Items::number))]
pub fn number_of(word: &[u8]) -> Option<u64>
    ensures { result ≡ number_in word.now }
{
    number(word, NUMBER_WORD_MOST)
}

/// Whether a word is `Limits`, which begins a text.
#[tactic(auto, unfolding(crate::specs::Items::is_title))]
pub fn is_title(word: &[u8]) -> bool
    ensures { result ≡ says_title word.now }
{
    same_word(word, b"Limits")
}

/// The keyword that a word is, the most frequent one first.
#[tactic(auto, unfolding(crate::specs::Items::key_of))]
pub fn key_of(word: &[u8]) -> Option<Key>
    ensures { result ≡ key_that_is word.now }
{
    if same_word(word, b"Before") {
        return Some(Key::Before);
    }
    if same_word(word, b"Wires") {
        return Some(Key::One(Amount::Wires));
    }
    if same_word(word, b"Power") {
        return Some(Key::One(Amount::Power));
    }
    if same_word(word, b"Budget") {
        return Some(Key::One(Amount::Budget));
    }
    if same_word(word, b"Profile") {
        return Some(Key::Profile);
    }
    None
}

/// Whether a number is one that an amount may be.
pub fn is_in_range(amount: Amount, value: u64) -> bool
    ensures { result ≡ is_ranged amount value }
{
    match amount {
        Amount::Wires => 1 <= value && value <= WIRES_MOST,
        Amount::Power => value <= POWER_MOST,
        Amount::Budget => value <= BUDGET_MOST,
    }
}

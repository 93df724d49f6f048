//! The words of a command line, and the command that they are.
ghost use Rattle.std.specs.Prelude.{◌≡◌, ◌≤◌, map, string_bytes, option_map, IfSome};
ghost use Rattle.outside.specs.Decimal.{number_of};
ghost use Rattle.soc_model.specs.declared.TheConstants.{NUMBER_WORD_MOST};
ghost use Rattle.plan_model.specs.declared.TheConstants.{WIRES_MOST};
ghost use Rattle.commands.specs.Commands.{EachHasWords, IsInRange, command_of as asked_command, command_value, improve_of, prove_of, sample_of, split_of, widths_of, with_five, with_four, with_one, with_three, with_two};
ghost use Rattle.commands.specs.declared.TheConstants.{NODES_MOST, TRIES_MOST};

use crate::{Command, NODES_MOST, TRIES_MOST};
use outside::number;
use plan_model::WIRES_MOST;
use soc_model::NUMBER_WORD_MOST;
use std::env;
use std::io::ErrorKind;
use std::rt::Env;

/// The words after the program's name: none where one of them is no text. `None` where there is no memory for them.
pub fn words_after_name(rt: &(impl Env + AllocGlobal)) -> Option<Vec<String>> {
    match env::args(rt) {
        Ok(all) => all.skip(1).collect(rt.alloc()).ok(),
        Err(e) => {
            if e.kind() == ErrorKind::OutOfMemory {
                return None;
            }
            Some(Vec::new(rt.alloc()))
        }
    }
}

/// The number of a word, where it is one below 10^12.
fn number_word(word: &str) -> Option<u64>
    ensures value { result ≡ number_of word.now NUMBER_WORD_MOST }
    ensures range { IfSome result (λ n. n ≤ NUMBER_WORD_MOST) }
{
    number(word.as_bytes(), NUMBER_WORD_MOST)
}

/// `widths` with a word for the wires, where that is a number from 1 to 256.
fn widths<'a>(soc: &'a str, wires: &str) -> Option<Command<'a>>
    ensures value { option_map command_value result
        ≡ widths_of soc.now (number_of wires.now WIRES_MOST) }
    ensures range { IfSome result (λ c. IsInRange (command_value c)) }
{
    let wires = number(wires.as_bytes(), WIRES_MOST)?;
    if wires < 1 {
        return None;
    }
    Some(Command::Widths { soc, wires })
}

/// `sample` with words for the modules and for the seed, where both are numbers.
fn sample<'a>(n: &str, seed: &str) -> Option<Command<'a>>
    ensures value { option_map command_value result
        ≡ sample_of (number_of n.now NUMBER_WORD_MOST) (number_of seed.now NUMBER_WORD_MOST) }
    ensures range { IfSome result (λ c. IsInRange (command_value c)) }
{
    let n = number_word(n)?;
    let seed = number_word(seed)?;
    Some(Command::Sample { n, seed })
}

/// `split` with a word for the patterns of a part, where that is a number of at least 1.
fn split_words<'a>(soc: &'a str, limits: &'a str, most: &str) -> Option<Command<'a>>
    ensures value { option_map command_value result
        ≡ split_of soc.now limits.now (number_of most.now NUMBER_WORD_MOST) }
    ensures range { IfSome result (λ c. IsInRange (command_value c)) }
{
    let most = number_word(most)?;
    if most < 1 {
        return None;
    }
    Some(Command::Split { soc, limits, most })
}

/// `improve` with words for the tries and for the seed, where both are numbers, the tries at most 10,000,000.
fn improve_words<'a>(
    soc: &'a str,
    limits: &'a str,
    plan: &'a str,
    tries: &str,
    seed: &str,
) -> Option<Command<'a>>
    ensures value { option_map command_value result
        ≡ improve_of soc.now limits.now plan.now (number_of tries.now TRIES_MOST)
        (number_of seed.now NUMBER_WORD_MOST) }
    ensures range { IfSome result (λ c. IsInRange (command_value c)) }
{
    let tries = number(tries.as_bytes(), TRIES_MOST)?;
    let seed = number_word(seed)?;
    Some(Command::Improve {
        soc,
        limits,
        plan,
        tries,
        seed,
    })
}

/// `prove` with a word for the nodes, where that is a number from 1 to 1,000,000.
fn prove_words<'a>(soc: &'a str, limits: &'a str, plan: &'a str, nodes: &str) -> Option<Command<'a>>
    ensures value { option_map command_value result
        ≡ prove_of soc.now limits.now plan.now (number_of nodes.now NODES_MOST) }
    ensures range { IfSome result (λ c. IsInRange (command_value c)) }
{
    let nodes = number(nodes.as_bytes(), NODES_MOST)?;
    if nodes < 1 {
        return None;
    }
    Some(Command::Prove {
        soc,
        limits,
        plan,
        nodes,
    })
}

/// The command of a word with one more word.
#[tactic(auto, unfolding(crate::specs::Commands::with_one))]
fn one<'a>(word: &str, soc: &'a str) -> Option<Command<'a>>
    ensures value { option_map command_value result ≡ with_one word.now soc.now }
    ensures range { IfSome result (λ c. IsInRange (command_value c)) }
{
    if word == "print" {
        return Some(Command::Print { soc });
    }
    None
}

/// The command of a word with two more words.
#[tactic(auto, unfolding(crate::specs::Commands::with_two))]
fn two<'a>(word: &str, first: &'a str, last: &'a str) -> Option<Command<'a>>
    ensures value { option_map command_value result ≡ with_two word.now first.now last.now }
    ensures range { IfSome result (λ c. IsInRange (command_value c)) }
{
    if word == "widths" {
        return widths(first, last);
    }
    if word == "plan" {
        return Some(Command::Plan {
            soc: first,
            limits: last,
        });
    }
    if word == "sample" {
        return sample(first, last);
    }
    if word == "data" {
        let seed = number_word(last)?;
        return Some(Command::Data { soc: first, seed });
    }
    None
}

/// The command of a word with three more words.
#[tactic(auto, unfolding(crate::specs::Commands::with_three))]
fn three<'a>(word: &str, soc: &'a str, limits: &'a str, last: &'a str) -> Option<Command<'a>>
    ensures value { option_map command_value result
        ≡ with_three word.now soc.now limits.now last.now }
    ensures range { IfSome result (λ c. IsInRange (command_value c)) }
{
    if word == "check" {
        return Some(Command::Check {
            soc,
            limits,
            plan: last,
        });
    }
    if word == "chart" {
        return Some(Command::Chart {
            soc,
            limits,
            plan: last,
        });
    }
    if word == "picture" {
        return Some(Command::Picture {
            soc,
            limits,
            plan: last,
        });
    }
    if word == "report" {
        return Some(Command::Report {
            soc,
            limits,
            plan: last,
        });
    }
    if word == "tree" {
        return Some(Command::Tree {
            soc,
            limits,
            tree: last,
        });
    }
    if word == "bound" {
        return Some(Command::Bound {
            soc,
            limits,
            proof: last,
        });
    }
    if word == "split" {
        return split_words(soc, limits, last);
    }
    None
}

/// The command of a word with four more words.
#[tactic(auto, unfolding(crate::specs::Commands::with_four))]
fn four<'a>(
    word: &str,
    soc: &'a str,
    limits: &'a str,
    plan: &'a str,
    last: &'a str,
) -> Option<Command<'a>>
    ensures value { option_map command_value result
        ≡ with_four word.now soc.now limits.now plan.now last.now }
    ensures range { IfSome result (λ c. IsInRange (command_value c)) }
{
    if word == "vectors" {
        let seed = number_word(last)?;
        return Some(Command::Vectors {
            soc,
            limits,
            plan,
            seed,
        });
    }
    if word == "simulate" {
        let seed = number_word(last)?;
        return Some(Command::Simulate {
            soc,
            limits,
            plan,
            seed,
        });
    }
    if word == "locate" {
        return Some(Command::Locate {
            soc,
            limits,
            plan,
            log: last,
        });
    }
    if word == "shift" {
        return Some(Command::Shift {
            soc,
            limits,
            plan,
            program: last,
        });
    }
    if word == "prove" {
        return prove_words(soc, limits, plan, last);
    }
    if word == "retarget" {
        return Some(Command::Retarget {
            soc,
            limits,
            plan,
            data: last,
        });
    }
    if word == "stil" {
        return Some(Command::Stil {
            soc,
            limits,
            plan,
            data: last,
        });
    }
    if word == "vcd" {
        return Some(Command::Vcd {
            soc,
            limits,
            plan,
            data: last,
        });
    }
    if word == "verilog" {
        return Some(Command::Verilog {
            soc,
            limits,
            plan,
            data: last,
        });
    }
    if word == "picture" {
        return Some(Command::PictureWithProof {
            soc,
            limits,
            plan,
            proof: last,
        });
    }
    None
}

/// The command of a word with five more words.
#[tactic(auto, unfolding(crate::specs::Commands::with_five))]
fn five<'a>(
    word: &str,
    soc: &'a str,
    limits: &'a str,
    plan: &'a str,
    tries: &str,
    seed: &str,
) -> Option<Command<'a>>
    ensures value { option_map command_value result
        ≡ with_five word.now soc.now limits.now plan.now tries.now seed.now }
    ensures range { IfSome result (λ c. IsInRange (command_value c)) }
{
    if word == "improve" {
        return improve_words(soc, limits, plan, tries, seed);
    }
    None
}

/// The command that the words are, where they are one.
#[tactic(auto, unfolding(crate::specs::Commands::command_of))]
fn named(words: &[String]) -> Option<Command<'_>>
    ensures value { option_map command_value result ≡ asked_command (map string_bytes words.now) }
    ensures range { IfSome result (λ c. IsInRange (command_value c)) }
{
    match words {
        [word, soc] => one(word.as_str(), soc.as_str()),
        [word, first, last] => two(word.as_str(), first.as_str(), last.as_str()),
        [word, soc, limits, last] => {
            three(word.as_str(), soc.as_str(), limits.as_str(), last.as_str())
        }
        [word, soc, limits, plan, last] => four(
            word.as_str(),
            soc.as_str(),
            limits.as_str(),
            plan.as_str(),
            last.as_str(),
        ),
        [word, soc, limits, plan, tries, seed] => five(
            word.as_str(),
            soc.as_str(),
            limits.as_str(),
            plan.as_str(),
            tries.as_str(),
            seed.as_str(),
        ),
        _ => None,
    }
}

/// The command that the words of a command line are, where they are one; its numbers are in their ranges.
pub fn command_of(words: &[String]) -> Option<Command<'_>>
    ensures value { option_map command_value result ≡ asked_command (map string_bytes words.now) }
    ensures range { IfSome result (λ c. IsInRange (command_value c)) }
    ensures in_range { IfSome (asked_command (map string_bytes words.now)) IsInRange }
{
    named(words)
}

/// The law of a command's words: each command has words that ask for it. It is the contract of a function that does nothing.
pub fn each_command_has_words()
    ensures { EachHasWords }
{}

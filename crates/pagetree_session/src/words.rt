//! The words of a command line.
ghost use Rattle.std.specs.Prelude.{◌≡◌, ◌++◌, [], ◌∷◌, ℕ, List, IfOk, OnOk, OnErr, bytes_eq};
ghost use Rattle.std.specs.List.{list_all};
ghost use Rattle.std.specs.Char.{is_ascii_digit};
ghost use Rattle.pagetree_session.specs.Words.{number_in, given_once, with_at, with_step, with_joined, options_after, session_options};

use crate::options::Options;
use site_types::{NoMemory, Text};
use std::alloc::Global;
use std::marker::Model;

/// The word of the command that answers requests from standard input.
pub const SESSION: &[u8] = b"session";

/// The option that gives the first moment of a clock in memory; its number is the next word.
pub const AT: &[u8] = b"--at";

/// The same with its number in the same word.
pub const AT_FRONT: &[u8] = b"--at=";

/// The option that gives the seconds from one moment to the next; its number is the next word.
pub const STEP: &[u8] = b"--step";

/// The same with its number in the same word.
pub const STEP_FRONT: &[u8] = b"--step=";

/// The most digits that a number has.
pub const MAX_DIGITS: usize = 12;

/// The greatest number of so many digits.
const LAST_NUMBER: u64 = 999_999_999_999;

/// The words of a command line after the folder, each in UTF-8. A contract sees the list of their
/// bytes.
#[derive(Drop)]
pub struct Words {
    alloc: Global,
    words: Vec<Text>,
}

impl Model for Words {
    ghost Value = { List (List ℕ) };

    ghost view = { λ words. words.words.items };
}

impl Words {
    /// No words. It takes no memory, and keeps the allocator for the words to come.
    pub fn new(alloc: Global) -> Words
        ensures { result ≡ [] }
    {
        Words {
            alloc,
            words: Vec::new(alloc),
        }
    }

    /// Adds a word at the end, unless memory is refused.
    pub fn push(&mut self, word: &str) -> Result<(), NoMemory>
        ensures ok { OnOk result (self.new ≡ self.old ++ word.now ∷ []) }
        ensures err { OnErr result (self.new ≡ self.old) }
    {
        let word = String::from_str(self.alloc, word)?;
        self.words.push(Text::from_string(word))?;
        Ok(())
    }

    /// The options of the session that the words ask for, or `None` exactly if they ask for none.
    pub fn session_options(&self) -> Option<Options>
        ensures { result ≡ session_options self.now }
    {
        session_in(self.words.as_slice())
    }
}

/// The options of the session that words ask for.
fn session_in(words: &[Text]) -> Option<Options>
    ensures { result ≡ session_options words.now }
{
    let [word, rest @ ..] = words else {
        return None;
    };
    if !is_word(word, SESSION) {
        return None;
    }
    let none = Options {
        at: None,
        step: None,
    };
    options_after(none, rest)
}

/// The options with those that words give, if they give options and nothing else.
fn options_after(options: Options, words: &[Text]) -> Option<Options>
    ensures { result ≡ options_after options words.now }
{
    match words {
        [] => Some(options),
        [word] => with_joined(options, word.as_bytes()),
        [word, value, rest @ ..] => {
            if is_word(word, AT) {
                let Some(more) = with_at(options, number_in(value.as_bytes())) else {
                    return None;
                };
                return options_after(more, rest);
            }
            if is_word(word, STEP) {
                let Some(more) = with_step(options, number_in(value.as_bytes())) else {
                    return None;
                };
                return options_after(more, rest);
            }
            let Some(more) = with_joined(options, word.as_bytes()) else {
                return None;
            };
            options_after(more, &words[1..])
        }
    }
}

/// Whether the word is this one.
fn is_word(word: &Text, name: &[u8]) -> bool
    ensures { result ≡ bytes_eq word.now name.now }
{
    word.as_bytes() == name
}

/// The options with a word that gives one of them and its number.
fn with_joined(options: Options, word: &[u8]) -> Option<Options>
    ensures { result ≡ with_joined options word.now }
{
    if let Some(number) = word.strip_prefix(AT_FRONT) {
        return with_at(options, number_in(number));
    }
    if let Some(number) = word.strip_prefix(STEP_FRONT) {
        return with_step(options, number_in(number));
    }
    None
}

/// The options with the first moment, which may be given once.
fn with_at(options: Options, number: Option<u64>) -> Option<Options>
    ensures { result ≡ with_at options number }
{
    let at = given_once(options.at, number)?;
    Some(Options {
        at: Some(at),
        step: options.step,
    })
}

/// The options with the seconds between moments, which may be given once.
fn with_step(options: Options, number: Option<u64>) -> Option<Options>
    ensures { result ≡ with_step options number }
{
    let step = given_once(options.step, number)?;
    Some(Options {
        at: options.at,
        step: Some(step),
    })
}

/// The number of what may be given once, if it was not given before.
fn given_once(before: Option<u64>, number: Option<u64>) -> Option<u64>
    ensures { result ≡ given_once before number }
{
    match before {
        None => number,
        Some(_) => None,
    }
}

/// The number that a word of 1 to 12 decimal digits writes.
fn number_in(word: &[u8]) -> Option<u64>
    ensures { result ≡ number_in word.now }
{
    if word.is_empty() {
        return None;
    }
    if word.len() > MAX_DIGITS {
        return None;
    }
    let mut n: u64 = 0;
    for b in word {
        if !b.is_ascii_digit() {
            return None;
        }
        n = (n * 10 + u64::from(*b - b'0')).min(LAST_NUMBER);
    }
    Some(n)
}

ghost use Rattle.std.specs.Prelude.{◌≡◌, ◌↔◌, [], IsTrue, OnOk, map, length};
ghost use Rattle.run_words.specs.Words.{CanJoin, IsOption, role_of, with_word};
ghost use Rattle.run_words.specs.Readings.{parts_in, no_parts};

use crate::Shape;
use crate::fits::{fits_next, is_same};
use std::alloc::{AllocError, AllocFailed, Global};

/// What a word behind a command's name is.
#[derive(Clone, Copy)]
pub(crate) enum WordRole {
    /// The first `--`.
    Ends,
    /// A word before it that begins with `-` and isn't `-` alone.
    Option,
    /// Any other word.
    Plain,
}

/// The words behind a command's name, as far as they are read.
#[derive(Drop)]
pub(crate) struct Reading<'w> {
    pub ended: bool,
    pub options: Vec<&'w str>,
    pub plain: Vec<&'w str>,
}

impl<'w> Reading<'w> {
    /// No word yet.
    pub fn new(alloc: Global) -> Reading<'w>
        ensures { parts_in result ≡ no_parts }
    {
        Reading {
            ended: false,
            options: Vec::new(alloc),
            plain: Vec::new(alloc),
        }
    }

    /// Whether the word can come next.
    pub fn can_join(&self, shape: &Shape<'_>, word: &str) -> bool
        ensures { IsTrue result ↔ CanJoin shape.now (parts_in self.now) word.now }
    {
        match role_behind(self.ended, word.as_bytes()) {
            WordRole::Ends => true,
            WordRole::Option => is_option(shape, self.options.as_slice(), word),
            WordRole::Plain => fits_next(shape.words, self.plain.as_slice(), word),
        }
    }

    /// Takes the word as the next one.
    pub fn join(&mut self, word: &'w str) -> Result<(), AllocFailed<&'w str>>
        ensures { OnOk result (parts_in self.new ≡ with_word (parts_in self.old) word.now) }
    {
        match role_behind(self.ended, word.as_bytes()) {
            WordRole::Ends => {
                self.ended = true;
                Ok(())
            }
            WordRole::Option => self.options.push(word),
            WordRole::Plain => self.plain.push(word),
        }
    }
}

/// What a word is, behind words with or without a `--`.
fn role_behind(ended: bool, word: &[u8]) -> WordRole
    ensures { result ≡ role_of ended word.now }
{
    if ended {
        return WordRole::Plain;
    }
    match word {
        [b'-', b'-'] => WordRole::Ends,
        [b'-', _, ..] => WordRole::Option,
        _ => WordRole::Plain,
    }
}

/// Whether the word is the command's option, which stood nowhere before.
fn is_option(shape: &Shape<'_>, options: &[&str], word: &str) -> bool
    ensures { IsTrue result ↔ IsOption shape.now (map (λ o. o.now) options.now) word.now }
{
    if !options.is_empty() {
        return false;
    }
    match shape.option {
        Some(option) => is_same(option, word),
        None => false,
    }
}

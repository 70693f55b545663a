//! The uses of options, as clap reads them.

ghost use Rattle.std.specs.Prelude.{◌≡◌, IfOk, MatchOption, None, Some, codes, false, true};
ghost use Rattle.std.specs.List.{list_any};
ghost use Rattle.std.specs.Str.{bytes_eq};
ghost use Rattle.clap.specs.Words.{app_of, rule_of};
ghost use Rattle.ab_words.specs.Language.{flag};
ghost use Rattle.ab_words.specs.Values.{of_name, optional_of, value_of};
ghost use Rattle.ab_words.specs.Uses.{text_at, texts, uses_in};
ghost use Rattle.ab_words.specs.Options.{action_for, app_with, is_flag, is_optional, rule_named};
ghost use Rattle.ab_words.specs.Found.{HasOnly, Refuses, are_names, dashes};

use crate::options::{CHECKPOINT, JOURNAL, TRACE};
use ab_num::OutOfMemory;
use clap::error::ErrorKind;
use clap::{Arg, ArgAction, ArgMatches, Command};
use std::alloc::{AllocError, Global};
use std::marker::Model;

/// The uses of options that words are.
#[derive(Drop)]
pub(crate) struct Uses<'a> {
    matches: ArgMatches<'a>,
}

impl<'a> Model for Uses<'a> {
    ghost use Rattle.std.specs.Prelude.{List};
    ghost use Rattle.ab_words.specs.Uses.{Use};
    ghost use Rattle.ab_words.specs.Found.{AnswersFound, uses_of};
    ghost use Rattle.clap.specs.Words.{found_of};

    ghost Value = { List Use };

    ghost view = { λ u. uses_of (found_of u.matches) };

    ghost invariant = { λ u. AnswersFound (found_of u.matches) };
}

impl<'a> Uses<'a> {
    /// The value of an option that is used once.
    pub(crate) fn value_of(&self, name: &str) -> Option<&'a [u8]>
        requires { is_flag name.now ≡ false }
        ensures { text_at result ≡ value_of name.now self.now }
    {
        match self.matches.get_str(name) {
            None => None,
            Some(value) => Some(value.as_bytes()),
        }
    }

    /// The name of a journal, or None where the option is left out.
    pub(crate) fn journal(&self) -> Option<&'a str>
        ensures { optional_of (codes "journal") self.now ≡ Some (text_at result) }
    {
        self.matches.get_str(JOURNAL)
    }

    /// After how many requests a checkpoint is due, or None where the option is left out.
    pub(crate) fn checkpoint(&self) -> Option<&'a str>
        ensures { optional_of (codes "checkpoint") self.now ≡ Some (text_at result) }
    {
        self.matches.get_str(CHECKPOINT)
    }

    /// Whether the flag is used.
    pub(crate) fn trace(&self) -> bool
        ensures { flag (of_name (codes "trace") self.now) ≡ Some result }
    {
        self.matches.get_flag(TRACE)
    }
}

/// Whether an option is a flag.
fn is_flag(name: &str) -> bool
    ensures { result ≡ is_flag name.now }
{
    name == TRACE
}

/// Whether an option may be left out.
fn is_optional(name: &str) -> bool
    ensures { result ≡ is_optional name.now }
{
    name == JOURNAL || name == CHECKPOINT
}

/// What is done at a use.
fn action_for(flag: bool) -> ArgAction
    ensures { result ≡ action_for flag }
{
    if flag {
        ArgAction::SetTrue
    } else {
        ArgAction::Set
    }
}

/// An option.
fn option<'a>(alloc: Global, name: &'a str) -> Arg<'a>
    ensures rule { rule_of result ≡ rule_named name.entry.now }
    ensures local { result.global ≡ false }
{
    let flag = is_flag(name);
    Arg::new(alloc, name)
        .long(name)
        .action(action_for(flag))
        .required(!flag && !is_optional(name))
}

/// A command of these options.
fn command_with<'a>(alloc: Global, names: &'a [&'a str]) -> Result<Command<'a>, AllocError>
    ensures { IfOk result (λ c. app_of c ≡ app_with (texts names.entry.now)) }
{
    let mut command = Command::new(alloc, "abstract_bft")
        .no_binary_name(true)
        .disable_help_flag(true);
    for name in names {
        command = command.arg(option(alloc, name))?;
    }
    Ok(command)
}

/// Whether a word is `--`, with which clap ends the options.
fn has_dashes(words: &[&str]) -> bool
    ensures { result ≡ list_any (λ w. bytes_eq w.now dashes) words.now }
{
    words.iter().any(|word| *word == "--")
}

/// The uses of these options that the words are.
pub(crate) fn uses_in<'a>(
    alloc: Global,
    names: &'a [&'a str],
    words: &'a [&'a str],
) -> Result<Option<Uses<'a>>, OutOfMemory>
    requires { are_names (texts names.now) ≡ true }
    ensures { IfOk result (λ r. MatchOption r (Refuses (texts names.entry.now) (texts words.entry.now))
        (λ u. (uses_in (texts words.entry.now) ≡ Some u) × HasOnly (texts names.entry.now) u)) }
{
    if has_dashes(words) {
        return Ok(None);
    }
    match command_with(alloc, names)?.try_get_matches_from(words) {
        Ok(matches) => Ok(Some(Uses { matches })),
        Err(error) => {
            if error.kind() == ErrorKind::OutOfMemory {
                Err(OutOfMemory)
            } else {
                Ok(None)
            }
        }
    }
}

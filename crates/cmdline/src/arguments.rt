// The words behind a command's name, walked by `clap`.
ghost use Rattle.std.specs.Prelude.{◌≡◌, IfOk, IfErr, None, [], map, string_bytes, true};
ghost use Rattle.clap.specs.Words.{app_of, fault_of, found_of, is_simple_and_free, matches_of, new_rule};
ghost use Rattle.clap.specs.Walk.{rows_of};
ghost use Rattle.cmdline.specs.Jobs.{syntax_of};
ghost use Rattle.cmdline.specs.Parsers.{plain_app, option_named, with_rules, app_for, Gives};
ghost use Rattle.cmdline.specs.Words.{given_by, has_no_lone_hyphen};

use crate::fault::WordFault;
use crate::verb::Verb;
use clap::error::ErrorKind;
use clap::{Arg, ArgMatches, Command};
use std::alloc::{AllocError, Global};

fn plain<'w>(alloc: Global) -> Command<'w>
    ensures { app_of result ≡ plain_app }
{
    Command::new(alloc, "pengines")
        .no_binary_name(true)
        .disable_help_flag(true)
}

fn with_operands<'w>(
    alloc: Global,
    command: Command<'w>,
    names: &[&'static str],
) -> Result<Command<'w>, AllocError>
    ensures { IfOk result (λ c. app_of c ≡ with_rules (app_of command.entry) (map new_rule (map (λ s. s.now) names.now))) }
{
    let mut command = command;
    'names: for name in names {
        command = command.arg(Arg::new(alloc, name))?;
    }
    Ok(command)
}

fn with_options<'w>(
    alloc: Global,
    command: Command<'w>,
    names: &[&'static str],
) -> Result<Command<'w>, AllocError>
    ensures { IfOk result (λ c. app_of c ≡ with_rules (app_of command.entry) (map option_named (map (λ s. s.now) names.now))) }
{
    let mut command = command;
    'names: for name in names {
        command = command.arg(Arg::new(alloc, name).long(name))?;
    }
    Ok(command)
}

fn parser<'w>(alloc: Global, verb: Verb) -> Result<Command<'w>, AllocError>
    ensures { IfOk result (λ c. app_of c ≡ app_for (syntax_of verb)) }
{
    let command = with_operands(alloc, plain(alloc), verb.operands())?;
    with_options(alloc, command, verb.options())
}

/// The matches of a plain command, and exactly when the words are refused.
fn matches_of<'w>(command: Command<'w>, words: &'w [String]) -> Result<ArgMatches<'w>, WordFault>
    requires { is_simple_and_free (app_of command) ≡ true }
    ensures ok { IfOk result (λ m. (fault_of (app_of command.entry) (map string_bytes words.entry.now) ≡ [])
        × (rows_of (found_of m) ≡ matches_of (app_of command.entry) (map string_bytes words.entry.now))) }
    ensures refused { IfErr result (λ e. e ≡ WordFault.Refused
        → ¬ (fault_of (app_of command.entry) (map string_bytes words.entry.now) ≡ [])) }
{
    match command.try_get_matches_from(words) {
        Ok(matches) => Ok(matches),
        Err(error) => match error.kind() {
            ErrorKind::OutOfMemory => Err(WordFault::Memory),
            _ => Err(WordFault::Refused),
        },
    }
}

/// Whether no word before the first `--` is a lone `-`.
fn has_no_lone_hyphen(words: &[String]) -> bool
    ensures { result ≡ has_no_lone_hyphen (map string_bytes words.now) }
{
    'words: for word in words {
        let text = word.as_str();
        if text == "--" {
            return true;
        }
        if text == "-" {
            return false;
        }
    }
    true
}

/// What the words behind the command's name give.
pub fn arguments<'w>(
    alloc: Global,
    verb: Verb,
    words: &'w [String],
) -> Result<ArgMatches<'w>, WordFault>
    ensures ok { IfOk result (λ m. Gives (syntax_of verb) (map string_bytes words.entry.now) m) }
    ensures refused { IfErr result (λ e. e ≡ WordFault.Refused → given_by (syntax_of verb) (map string_bytes words.entry.now) ≡ None) }
{
    if !has_no_lone_hyphen(words) {
        return Err(WordFault::Refused);
    }
    let Ok(command) = parser(alloc, verb) else {
        return Err(WordFault::Memory);
    };
    matches_of(command, words)
}

ghost use Rattle.std.specs.Prelude.{◌≡◌, IfOk, IfErr, Some, None, map, string_bytes};
ghost use Rattle.cmdline.specs.Jobs.{job_of, job_asked, doors_of};

use crate::arguments::arguments;
use crate::command::Command;
use crate::fault::WordFault;
use crate::jobs::command_of;
use crate::verb::Verb;
use std::alloc::Global;
use term_core::Memory;

/// The command that the words behind the program's name ask for.
///
/// `Refused` comes exactly where they are no command as the [usage](crate::usage) says; `Memory` where
/// memory is wanting.
pub fn read_words<'w>(alloc: Global, words: &'w [String]) -> Result<Command<'w>, WordFault>
    ensures ok { IfOk result (λ c. job_asked (map string_bytes words.entry.now) ≡ Some (job_of c)) }
    ensures refused { IfErr result (λ e. e ≡ WordFault.Refused → job_asked (map string_bytes words.entry.now) ≡ None) }
{
    let Some((name, rest)) = words.split_first() else {
        return Err(WordFault::Refused);
    };
    let Some(verb) = Verb::named(name.as_str()) else {
        return Err(WordFault::Refused);
    };
    let given = match arguments(alloc, verb, rest) {
        Ok(given) => given,
        Err(fault) => return Err(fault),
    };
    match command_of(verb, &given) {
        Some(command) => Ok(command),
        None => Err(WordFault::Refused),
    }
}

/// The port and the number of doors that a `serve` asks for; `None` exactly where the words are none.
pub fn doors_wanted(alloc: Global, words: &[String]) -> Result<Option<(u16, u32)>, Memory>
    ensures { IfOk result (λ r. r ≡ doors_of (job_asked (map string_bytes words.now))) }
{
    match read_words(alloc, words) {
        Ok(Command::Serve { port, doors, .. }) => Ok(Some((port, doors))),
        Ok(_) => Ok(None),
        Err(fault) => match fault {
            WordFault::Refused => Ok(None),
            WordFault::Memory => Err(Memory),
        },
    }
}

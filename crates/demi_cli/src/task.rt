ghost use Rattle.std.specs.Prelude.{◌≡◌, false, map, string_bytes, IfOk, IsErrOf, Err};
ghost use Rattle.demi_cli.specs.Words.{AsksFor, Does, IsUsage};
ghost use Rattle.demi_words.specs.Commands.{is_named};

use demi_words::{Command, WordsRefusal, read_words};
use std::alloc::Global;

/// What the words of the command line ask of the program.
#[derive(Clone, Copy)]
pub enum Task<'a> {
    /// Answer the requests of standard input, and append each put to the log of this name, which may have so many records.
    Pipe(u32, &'a str),
    /// Audit the session that is kept under this name.
    Check(&'a str),
    /// Say the records of the log of this name.
    Log(&'a str),
    /// `serve` or `bench`, which are not there yet.
    Later,
}

// The task of a command.
fn task_of(command: Command<'_>) -> Task<'_>
    ensures { Does command.entry result }
{
    match command {
        Command::Pipe { limit, log } => Task::Pipe(limit, log),
        Command::Check { name } => Task::Check(name),
        Command::Log { name } => Task::Log(name),
        Command::Serve { .. } | Command::Bench { .. } => Task::Later,
    }
}

/// The task of the words after the program's name.
///
/// `Usage` comes only where the words are no command, and always where the first of them names none. `NoMemory` may come at any others.
pub fn read_task<'a>(alloc: Global, words: &'a Vec<String>) -> Result<Task<'a>, WordsRefusal>
    ensures asks { IfOk result (λ t. AsksFor (map string_bytes words.now.items) t) }
    ensures usage { IsErrOf result WordsRefusal.Usage → IsUsage (map string_bytes words.now.items) }
    ensures unnamed { is_named (map string_bytes words.now.items) ≡ false → result ≡ Err WordsRefusal.Usage }
{
    match read_words(alloc, words) {
        Ok(command) => Ok(task_of(command)),
        Err(refusal) => Err(refusal),
    }
}

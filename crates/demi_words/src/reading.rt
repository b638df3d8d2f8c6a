// From words to commands.
ghost use Rattle.std.specs.Prelude.{◌≡◌, false, map, string_bytes, IfOk, IsErrOf, Err, None, Some};
ghost use Rattle.demi_words.specs.Commands.{IsInRange, bench_from, check_from, command_of, is_named, log_from, pipe_from, serve_from};
ghost use Rattle.demi_words.specs.Plain.{plain_of};

use crate::command::{Command, WordsRefusal};
use crate::descriptions;
use crate::matching::{find, long_number, number_or, text_at, word_at};
use std::alloc::Global;

// How many records a log may have where `--limit` is not given.
const DEFAULT_LIMIT: u32 = 1_000_000;

// A `pipe`, by the words after its name; and so of each command.
fn read_pipe<'a>(alloc: Global, rest: &'a [String]) -> Result<Command<'a>, WordsRefusal>
    ensures read { IfOk result (λ c. pipe_from (map string_bytes rest.entry.now) ≡ Some (plain_of c)) }
    ensures in_range { IfOk result (λ c. IsInRange (plain_of c)) }
    ensures refused { IsErrOf result WordsRefusal.Usage → pipe_from (map string_bytes rest.entry.now) ≡ None }
{
    let matches = find(descriptions::pipe(alloc)?, rest)?;
    Ok(Command::Pipe {
        limit: number_or(&matches, "limit", DEFAULT_LIMIT),
        log: word_at(&matches, "log"),
    })
}

fn read_serve<'a>(alloc: Global, rest: &'a [String]) -> Result<Command<'a>, WordsRefusal>
    ensures read { IfOk result (λ c. serve_from (map string_bytes rest.entry.now) ≡ Some (plain_of c)) }
    ensures in_range { IfOk result (λ c. IsInRange (plain_of c)) }
    ensures refused { IsErrOf result WordsRefusal.Usage → serve_from (map string_bytes rest.entry.now) ≡ None }
{
    let matches = find(descriptions::serve(alloc)?, rest)?;
    Ok(Command::Serve {
        links: number_or(&matches, "links", 0),
        workers: number_or(&matches, "workers", 0),
        limit: number_or(&matches, "limit", DEFAULT_LIMIT),
        address: word_at(&matches, "address"),
        log: word_at(&matches, "log"),
    })
}

fn read_bench<'a>(alloc: Global, rest: &'a [String]) -> Result<Command<'a>, WordsRefusal>
    ensures read { IfOk result (λ c. bench_from (map string_bytes rest.entry.now) ≡ Some (plain_of c)) }
    ensures in_range { IfOk result (λ c. IsInRange (plain_of c)) }
    ensures refused { IsErrOf result WordsRefusal.Usage → bench_from (map string_bytes rest.entry.now) ≡ None }
{
    let matches = find(descriptions::bench(alloc)?, rest)?;
    Ok(Command::Bench {
        links: number_or(&matches, "links", 0),
        workers: number_or(&matches, "workers", 0),
        count: number_or(&matches, "count", 0),
        seed: long_number(&matches, "seed"),
        keep: text_at(&matches, "keep"),
    })
}

fn read_check<'a>(alloc: Global, rest: &'a [String]) -> Result<Command<'a>, WordsRefusal>
    ensures read { IfOk result (λ c. check_from (map string_bytes rest.entry.now) ≡ Some (plain_of c)) }
    ensures in_range { IfOk result (λ c. IsInRange (plain_of c)) }
    ensures refused { IsErrOf result WordsRefusal.Usage → check_from (map string_bytes rest.entry.now) ≡ None }
{
    let matches = find(descriptions::of_one_name(alloc, "check")?, rest)?;
    Ok(Command::Check {
        name: word_at(&matches, "name"),
    })
}

fn read_log<'a>(alloc: Global, rest: &'a [String]) -> Result<Command<'a>, WordsRefusal>
    ensures read { IfOk result (λ c. log_from (map string_bytes rest.entry.now) ≡ Some (plain_of c)) }
    ensures in_range { IfOk result (λ c. IsInRange (plain_of c)) }
    ensures refused { IsErrOf result WordsRefusal.Usage → log_from (map string_bytes rest.entry.now) ≡ None }
{
    let matches = find(descriptions::of_one_name(alloc, "log")?, rest)?;
    Ok(Command::Log {
        name: word_at(&matches, "name"),
    })
}

/// The command that the words after the program's name ask for.
///
/// The first word is the command's name. The rest is read as a plain command of `clap`: an option is `--name VALUE` or `--name=VALUE`, and
/// stands anywhere and at most once; behind `--` there are only words; a number is decimal digits, which zeros or a plus sign may precede; a
/// word may be empty, or `-`. There is no option for help or a version.
///
/// | refusal | comes |
/// |---|---|
/// | `Usage` | only where the words are no command, and always where the first is no command's name or is missing |
/// | `NoMemory` | memory was refused |
///
/// Not promised: that memory is found.
pub fn read_words<'a>(alloc: Global, words: &'a [String]) -> Result<Command<'a>, WordsRefusal>
    ensures read { IfOk result (λ c. command_of (map string_bytes words.entry.now) ≡ Some (plain_of c)) }
    ensures in_range { IfOk result (λ c. IsInRange (plain_of c)) }
    ensures usage { IsErrOf result WordsRefusal.Usage → command_of (map string_bytes words.entry.now) ≡ None }
    ensures unnamed { is_named (map string_bytes words.entry.now) ≡ false → result ≡ Err WordsRefusal.Usage }
{
    let Some((name, rest)) = words.split_first() else {
        return Err(WordsRefusal::Usage);
    };
    match name.as_str() {
        "pipe" => read_pipe(alloc, rest),
        "serve" => read_serve(alloc, rest),
        "bench" => read_bench(alloc, rest),
        "check" => read_check(alloc, rest),
        "log" => read_log(alloc, rest),
        _ => Err(WordsRefusal::Usage),
    }
}

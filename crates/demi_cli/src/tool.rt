ghost use Rattle.std.specs.Prelude.{◌≡◌, ◌≢◌, ◌<◌, ◌≤◌, ◌⊎◌, List, ℕ, false, true, map, string_bytes, IfOk, IfErr};
ghost use Rattle.demi_core.specs.Outside.{Rose};
ghost use Rattle.demi_spec.specs.Record.{Record};
ghost use Rattle.demi_cli.specs.Checking.{Checking};
ghost use Rattle.demi_cli.specs.Heads.{HeadsOf};
ghost use Rattle.demi_cli.specs.Listing.{GivesNone, KeepsLog, Listed, Listing, Unread};
ghost use Rattle.demi_cli.specs.Outcome.{reported};
ghost use Rattle.demi_cli.specs.Given.{NoLink};
ghost use Rattle.demi_cli.specs.Run.{BadLog, GoodLog, LogFaulted, Warned};
ghost use Rattle.demi_server.specs.Logs.{HadRecords, contents};
ghost use Rattle.demi_cli.specs.Words.{is_check, is_log, is_tool, log_name};

use crate::checking::check_named;
use crate::heads::Heads;
use crate::outcome::{Outcome, refused};
use crate::printing::say_heads;
use crate::reading::read_heads;
use crate::reporting::report;
use crate::task::{Task, read_task};
use demi_core::{Disk, Failed, Halt, World};
use demi_logq::Log;
use demi_words::WordsRefusal;
use std::alloc::Global;

// The disk of a log that is not empty, and the heads of its records. Nothing is written on it.
fn read_records<D: Disk>(alloc: Global, disk: D) -> (D, Result<Heads, Outcome>)
    requires { 0 < D.held disk }
    ensures read { IfOk result.1 (λ h. (records : List Record) × HadRecords (record { held = D.held disk; bytes = D.bytes disk; faults = D.faults disk }) records × HeadsOf h records) }
    ensures unread { IfErr result.1 (λ o. Unread o
        (record { held = D.held disk; bytes = D.bytes disk; faults = D.faults disk })
        (record { held = D.held result.0; bytes = D.bytes result.0; faults = D.faults result.0 })) }
    ensures same { contents (D.bytes result.0) (D.held result.0) ≡ contents (D.bytes disk) (D.held disk) }
    ensures calls { D.looks disk result.0 }
{
    let mut log = match Log::make(alloc, disk, 1) {
        Ok(log) => log,
        Err((disk, refusal)) => return (disk, Err(refused(refusal))),
    };
    match read_heads(alloc, &mut log) {
        Ok(heads) => (log.disk(), Ok(heads)),
        Err(refusal) => (log.disk(), Err(refused(refusal))),
    }
}

// The same of any disk: an empty one is a log of no records, and stays empty.
fn read_log<D: Disk>(alloc: Global, disk: D) -> (D, Result<Heads, Outcome>)
    ensures read { IfOk result.1 (λ h. (records : List Record) × HadRecords (record { held = D.held disk; bytes = D.bytes disk; faults = D.faults disk }) records × HeadsOf h records) }
    ensures unread { IfErr result.1 (λ o. Unread o
        (record { held = D.held disk; bytes = D.bytes disk; faults = D.faults disk })
        (record { held = D.held result.0; bytes = D.bytes result.0; faults = D.faults result.0 })) }
    ensures same { contents (D.bytes result.0) (D.held result.0) ≡ contents (D.bytes disk) (D.held disk) }
    ensures calls { D.looks disk result.0 }
{
    let mut disk = disk;
    match disk.size() {
        Ok(0) => (disk, Ok(Heads::new(alloc))),
        Ok(_) => read_records(alloc, disk),
        Err(Failed) => (disk, Err(Outcome::LogFault)),
    }
}

// Says the records of the log of a name. The log is kept as soon as it is read.
fn list<W: World>(alloc: Global, name: &str, world: &mut W) -> Outcome
    ensures listed { Listed result (W.state world.old) (W.state world.new) name.now (W.faults world.old) (W.faults world.new) (W.print_faults world.old) (W.print_faults world.new) }
    ensures later { W.faults world.old ≤ W.faults world.new }
    ensures later_prints { W.print_faults world.old ≤ W.print_faults world.new }
{
    let disk = match world.log(alloc, name) {
        Ok(disk) => disk,
        Err(Halt::Failed) => return Outcome::CannotOpen,
        Err(Halt::NoMemory) => return Outcome::NoMemory,
    };
    let (disk, read) = read_log(alloc, disk);
    world.keep_log(name, disk);
    let heads = match read {
        Ok(heads) => heads,
        Err(outcome) => return outcome,
    };
    match say_heads(world, &heads) {
        Ok(()) => Outcome::Done,
        Err(Failed) => Outcome::PrintFault,
    }
}

/// Does the commands that serve no link, and gives the exit status. It always returns.
///
/// `log NAME` opens the log of that name, reads all of its records and then says a line of each, `V link L index I key K value B`, where V
/// is its number from 1, K its key in hexadecimal and B how many bytes its value has; and at the end `records N`.
/// `check NAME` reads all that is kept under that name, audits it as the transcript of a session and says the line
/// `consistent: links L replies R records N` where one store explains it. Neither writes anything to what it reads, also where that is
/// empty. Any other words are no command of it. Whatever the status, the world keeps the log that it gave. A name under which nothing is
/// kept may be opened as an empty one.
///
/// | status | comes |
/// |---|---|
/// | 0 | exactly the lines were said; those of `check` only where the transcript is consistent |
/// | 1 | only where the words are not `log NAME` or `check NAME`, and always then where memory is not refused; the world is as it was, but for the warning |
/// | 3 | only where the world's count of print faults rose; a front of the lines was said |
/// | 4 | only where the count of the log rose; nothing was said |
/// | 5 | memory was refused; nothing was said |
/// | 7 | exactly where the log was read and is no text of records, or the transcript was read and is none; the warning has its first bad byte, and nothing was said |
/// | 8 | only where the world's count of faults rose; nothing was said |
/// | 9 | exactly where the transcript was read and is inconsistent; the warning has its first fault, and nothing was said |
///
/// Where a disk does not tell its bytes nothing is said of the verdict on them. Not promised: that memory is found.
pub fn tool<W: World>(alloc: Global, words: &Vec<String>, world: &mut W) -> u8
    ensures usage { result ≡ 1 → is_tool (map string_bytes words.now.items) ≡ false }
    ensures no_command { is_tool (map string_bytes words.now.items) ≡ false → (result ≡ 1) ⊎ (result ≡ 5) }
    ensures untouched { result ≡ 1 → W.state world.new ≡ reported Outcome.Usage (W.state world.old) }
    ensures keeps { is_tool (map string_bytes words.now.items) ≡ true → KeepsLog (W.state world.old) (W.state world.new) (log_name (map string_bytes words.now.items)) }
    ensures no_link { NoLink (W.state world.old) (W.state world.new) }
    ensures never { (result ≢ 2) × (result ≢ 6) }
    ensures listing { is_log (map string_bytes words.now.items) ≡ true → Listing result (W.state world.old) (W.state world.new) (log_name (map string_bytes words.now.items)) (W.print_faults world.old) (W.print_faults world.new) }
    ensures checking { is_check (map string_bytes words.now.items) ≡ true → Checking result (W.state world.old) (W.state world.new) (log_name (map string_bytes words.now.items)) (W.print_faults world.old) (W.print_faults world.new) }
    ensures audits { result ≡ 9 → is_check (map string_bytes words.now.items) ≡ true }
    ensures silent { result ≢ 0 → result ≢ 3 → (W.state world.new).said ≡ (W.state world.old).said }
    ensures print_fault { result ≡ 3 → Rose (W.print_faults world.old) (W.print_faults world.new) }
    ensures log_fault { result ≡ 4 → LogFaulted (W.state world.old) (W.state world.new) (log_name (map string_bytes words.now.items)) }
    ensures bad_log { is_check (map string_bytes words.now.items) ≡ false → result ≡ 7 → BadLog (W.state world.old) (W.state world.new) (log_name (map string_bytes words.now.items)) }
    ensures good_log { is_check (map string_bytes words.now.items) ≡ false → result ≢ 7 → result ≢ 4 → result ≢ 5 → GoodLog (W.state world.old) (W.state world.new) (log_name (map string_bytes words.now.items)) }
    ensures cannot_open { result ≡ 8 → GivesNone (W.state world.old) (W.state world.new) (W.faults world.old) (W.faults world.new) }
    ensures warned { Warned false result (W.state world.old) (W.state world.new) }
    ensures later { W.faults world.old ≤ W.faults world.new }
    ensures later_prints { W.print_faults world.old ≤ W.print_faults world.new }
{
    match read_task(alloc, words) {
        Ok(Task::Log(name)) => {
            let outcome = list(alloc, name, world);
            report(world, outcome)
        }
        Ok(Task::Check(name)) => {
            let outcome = check_named(alloc, name, world);
            report(world, outcome)
        }
        Ok(Task::Pipe(_, _) | Task::Later) | Err(WordsRefusal::Usage) => report(
            world,
            Outcome::Usage,
        ),
        Err(WordsRefusal::NoMemory) => report(world, Outcome::NoMemory),
    }
}

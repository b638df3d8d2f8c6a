ghost use Rattle.std.specs.Prelude.{◌≡◌, ◌≢◌, ◌⊎◌, true, false, map, string_bytes, IfSome, IsNone, IsSome, MatchOption};
ghost use Rattle.demi_link.specs.declared.phase.Cause.{Cause};
ghost use Rattle.demi_cli.specs.Checking.{Checking};
ghost use Rattle.demi_cli.specs.Given.{Keeps, LinkUnused};
ghost use Rattle.demi_cli.specs.Listing.{Listing};
ghost use Rattle.demi_cli.specs.Outcome.{reported};
ghost use Rattle.demi_cli.specs.Reading.{DueInRun, NothingRead};
ghost use Rattle.demi_cli.specs.Run.{BadLater, BadLog, CannotOpen, FinishedRun, FrontRun, GoodLog, LogFaulted, ReadFaulted, StoppedRun, Unserved, Warned, WriteFaulted, status_by};
ghost use Rattle.demi_cli.specs.Sessions.{AccountedRun, IsFault};
ghost use Rattle.demi_cli.specs.Words.{is_check, is_log, is_pipe, is_tool, log_limit, log_name, refused_words, runs};
ghost use Rattle.demi_words.specs.Commands.{is_named};

use crate::outcome::Outcome;
use crate::piping::pipe;
use crate::reporting::report;
use crate::task::{Task, read_task};
use crate::tool::tool;
use demi_core::World;
use demi_pdpix::DemiEnd;
use demi_served::a_link_reads_and_writes;
use demi_store::StoreLaw;
use demi_words::WordsRefusal;
use std::alloc::Global;
use std::sync::Wait;
use std::thread::Threads;

/// Runs the program on its words, and gives its exit status. It leaves in `ends` the ends of its session's ports, and `None` where it ran
/// no session.
///
/// `pipe [--limit N] LOG` opens the log and reads its records, takes one link at standard input and output, and serves it in a session of
/// one worker over these records, to the end frame, the refused frame or the end of the input. The log then has at most N records, or
/// 1,000,000 where that is not given; any more puts are answered as to a full store. `check NAME` and `log NAME` are [`tool`]'s. `serve`
/// and `bench` are not there yet: their words are read, and a warning says so. Any other words are no command. Whatever the status, the world keeps the log and the link that it gave.
///
/// | status | comes |
/// |---|---|
/// | 0 | the input ended by an end frame or clean, and all of it is answered and logged; or the lines of a log, or of a consistent transcript, were said |
/// | 1 | only where the words are no command that runs, and always then where memory is not refused; the world is as it was, but for the warning |
/// | 2, 3 | only where the count of faults of the link's source, of its sink, rose; 3 also where the world's count of print faults rose |
/// | 4 | only where the count of the log rose |
/// | 5 | memory was refused |
/// | 6 | the input has a refused frame, and all before it is answered and logged |
/// | 7 | exactly where the log was read and is no text of records; the warning has its first bad byte, it is as it was, and no link is taken; or where the transcript was read and is none |
/// | 8 | only where the world's count of faults rose; no link is taken |
/// | 9 | exactly where the transcript was read and is inconsistent; the warning has its first fault |
///
/// The log is read twice, once before the link is taken. Only one that does not tell its bytes can be bad at the second time alone: then
/// the status is 7 too, and the link is kept as it was given.
/// The ends account for every reply and every record of a session: by the one history of the store's port and by those of the link's two.
///
/// Whatever the status, nothing more of the link is read after an end frame, a refused frame, the end of the input or a fault: behind each
/// read but the last there are whole requests and at most a part of one more, and the link is told the whole replies to these requests.
/// Where no session ran nothing is read.
///
/// It may wait for ever: for a link that stays silent, and where a thread could not be started or a link was lost.
/// Not promised: that memory is found, and how many bytes a read asks for.
pub fn run<R: Threads + Wait + Sync, W: World>(
    rt: &R,
    alloc: Global,
    words: &Vec<String>,
    world: &mut W,
    ends: &mut Option<DemiEnd<StoreLaw>>,
) -> u8
    ensures usage { result ≡ 1 → runs (map string_bytes words.now.items) ≡ false }
    ensures no_command { runs (map string_bytes words.now.items) ≡ false → (result ≡ 1) ⊎ (result ≡ 5) }
    ensures unnamed { is_named (map string_bytes words.now.items) ≡ false → result ≡ 1 }
    ensures untouched { result ≡ 1 → W.state world.new ≡ reported (refused_words (map string_bytes words.now.items)) (W.state world.old) }
    ensures keeps { is_pipe (map string_bytes words.now.items) ≡ true → Keeps (W.state world.old) (W.state world.new) (log_name (map string_bytes words.now.items)) }
    ensures cannot_open { result ≡ 8 → CannotOpen (W.state world.old) (W.state world.new) (log_name (map string_bytes words.now.items)) (W.faults world.old) (W.faults world.new) }
    ensures bad_log { is_check (map string_bytes words.now.items) ≡ false → result ≡ 7 → BadLog (W.state world.old) (W.state world.new) (log_name (map string_bytes words.now.items)) ⊎ BadLater (W.state world.old) (W.state world.new) (log_name (map string_bytes words.now.items)) }
    ensures good_log { is_check (map string_bytes words.now.items) ≡ false → result ≢ 7 → result ≢ 4 → result ≢ 5 → GoodLog (W.state world.old) (W.state world.new) (log_name (map string_bytes words.now.items)) }
    ensures log_fault { result ≡ 4 → LogFaulted (W.state world.old) (W.state world.new) (log_name (map string_bytes words.now.items)) }
    ensures read_fault { result ≡ 2 → ReadFaulted (W.state world.old) (W.state world.new) }
    ensures write_fault { is_pipe (map string_bytes words.now.items) ≡ true → result ≡ 3 → WriteFaulted (W.state world.old) (W.state world.new) }
    ensures whole { is_pipe (map string_bytes words.now.items) ≡ true → (result ≡ 0) ⊎ (result ≡ 6) → FinishedRun (log_limit (map string_bytes words.now.items)) (W.state world.old) (W.state world.new) (log_name (map string_bytes words.now.items)) result }
    // Without ends it stopped before anything of the link was read.
    ensures stopped { is_pipe (map string_bytes words.now.items) ≡ true → (why : Cause) → IsFault why → result ≡ status_by why
        → MatchOption ends.new (Unserved why (W.state world.old) (W.state world.new) (log_name (map string_bytes words.now.items)))
        (λ _. StoppedRun (log_limit (map string_bytes words.now.items)) (W.state world.old) (W.state world.new) (log_name (map string_bytes words.now.items))) }
    ensures front { (why : Cause) → IsFault why → result ≡ status_by why → LinkUnused (W.state world.old) (W.state world.new) ⊎ FrontRun (log_limit (map string_bytes words.now.items)) (W.state world.old) (W.state world.new) (log_name (map string_bytes words.now.items)) }
    ensures accounted { IfSome ends.new (λ e. AccountedRun (log_limit (map string_bytes words.now.items)) result (W.state world.old) (W.state world.new) (log_name (map string_bytes words.now.items)) (record { service = e.service; rx = e.rx.items; tx = e.tx.items })) }
    ensures ends { is_pipe (map string_bytes words.now.items) ≡ true → (result ≡ 0) ⊎ ((result ≡ 2) ⊎ ((result ≡ 3) ⊎ (result ≡ 6))) → IsSome ends.new }
    ensures no_ends { is_pipe (map string_bytes words.now.items) ≡ false → IsNone ends.new }
    // Without ends nothing of a link was read; with them only due reads were made.
    ensures reads { MatchOption ends.new (NothingRead W.In.taken W.In.left W.In.faults (W.next_source world.old) (W.kept_source world.new) (W.state world.old) (W.state world.new))
        (λ _. DueInRun (log_limit (map string_bytes words.now.items)) W.In.reads W.In.taken W.In.left W.In.faults (W.next_source world.old) (W.kept_source world.new) (W.state world.old) (W.state world.new) (log_name (map string_bytes words.now.items))) }
    ensures listing { is_log (map string_bytes words.now.items) ≡ true → Listing result (W.state world.old) (W.state world.new) (log_name (map string_bytes words.now.items)) (W.print_faults world.old) (W.print_faults world.new) }
    ensures checking { is_check (map string_bytes words.now.items) ≡ true → Checking result (W.state world.old) (W.state world.new) (log_name (map string_bytes words.now.items)) (W.print_faults world.old) (W.print_faults world.new) }
    ensures audits { result ≡ 9 → is_check (map string_bytes words.now.items) ≡ true }
    ensures said { is_tool (map string_bytes words.now.items) ≡ false → (W.state world.new).said ≡ (W.state world.old).said }
    ensures print_faults { is_pipe (map string_bytes words.now.items) ≡ true → W.print_faults world.new ≡ W.print_faults world.old }
    ensures warned { Warned (is_pipe (map string_bytes words.now.items)) result (W.state world.old) (W.state world.new) }
{
    *ends = None;
    let (limit, name) = match read_task(alloc, words) {
        Ok(Task::Pipe(limit, name)) => (limit, name),
        Ok(Task::Check(_) | Task::Log(_)) => return tool(alloc, words, world),
        Ok(Task::Later) => return report(world, Outcome::NotYet),
        Err(WordsRefusal::Usage) => return report(world, Outcome::Usage),
        Err(WordsRefusal::NoMemory) => return report(world, Outcome::NoMemory),
    };
    let (outcome, left) = pipe(rt, alloc, limit, name, world);
    *ends = left;
    a_link_reads_and_writes();
    report(world, outcome)
}

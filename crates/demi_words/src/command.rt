use std::alloc::AllocError;

/// What the words of the command line ask for. The names are parts of the words.
#[derive(Clone, Copy, Debug, PartialEq, Eq)]
pub enum Command<'a> {
    /// `pipe [--limit N] LOG`: answer the requests of standard input, and append each put to the log of this name.
    Pipe {
        /// How many records the log may have, from 1 to 1,000,000.
        limit: u32,
        /// The name of the log.
        log: &'a str,
    },
    /// `serve --links N --workers N [--limit N] ADDRESS LOG`: answer the requests of so many links at an address.
    Serve {
        /// From 1 to 16.
        links: u32,
        /// From 1 to 4.
        workers: u32,
        /// How many records the log may have, from 1 to 1,000,000.
        limit: u32,
        /// Where to listen.
        address: &'a str,
        /// The name of the log.
        log: &'a str,
    },
    /// `bench --links N --workers N --count N --seed N [--keep NAME]`: answer random requests of so many links in memory.
    Bench {
        /// From 1 to 16.
        links: u32,
        /// From 1 to 4.
        workers: u32,
        /// How many requests, of all links together, from 0 to 1,000,000.
        count: u32,
        /// The number that the requests are drawn from.
        seed: u64,
        /// Where the whole session is to be kept, if anywhere.
        keep: Option<&'a str>,
    },
    /// `check NAME`: audit the session that was kept under this name.
    Check {
        /// Under which it was kept.
        name: &'a str,
    },
    /// `log NAME`: say the records of the log of this name.
    Log {
        /// The name of the log.
        name: &'a str,
    },
}

/// Why words were not read.
#[derive(Clone, Copy, Debug, PartialEq, Eq)]
pub enum WordsRefusal {
    /// They are no command.
    Usage,
    /// Memory was refused. The words may be a command's or not.
    NoMemory,
}

impl From<AllocError> for WordsRefusal {
    ghost use Rattle.std.specs.Prelude.{◌≡◌};
    ghost use Rattle.demi_words.specs.declared.command.WordsRefusal.TheVariants.{NoMemory};

    ghost from_gives = { λ error refusal. refusal ≡ NoMemory };

    fn from(_: AllocError) -> WordsRefusal {
        WordsRefusal::NoMemory
    }
}

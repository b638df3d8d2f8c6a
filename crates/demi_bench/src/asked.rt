//! The words of the command.
use std::{env, io};

/// What the words ask for.
pub enum Asked {
    /// The small fixed case of each.
    Fixed,
    /// The rates of so many rounds.
    Rates(u32),
    /// How long callers wait.
    Waits(Case),
    /// How many requests links serve.
    Chains(Case),
    /// How many requests links serve that share workers and a store.
    Sessions(Shared),
    /// Rounds of so many coroutines, and how many rounds.
    Rounds(u32, u32),
}

/// How many callers or links, how many operations or requests of each, and a time in milliseconds.
#[derive(Clone, Copy)]
pub struct Case {
    pub count: u32,
    pub rounds: u32,
    pub millis: u32,
}

/// How many links share how many workers, and how many requests of each link.
#[derive(Clone, Copy)]
pub struct Shared {
    pub links: u32,
    pub workers: u32,
    pub requests: u32,
}

fn number(word: Option<String>) -> Option<u32> {
    word.and_then(|word| word.as_str().parse().ok())
}

/// `None` where the words ask for nothing.
pub fn read_words(rt: &HostRuntime) -> io::Result<Option<Asked>> {
    let mut words = env::args(rt)?;
    let _program = words.next();
    let Some(first) = words.next() else {
        return Ok(Some(Asked::Fixed));
    };
    if let Ok(rounds) = first.as_str().parse() {
        return Ok(Some(Asked::Rates(rounds)));
    }
    let (Some(count), Some(rounds)) = (number(words.next()), number(words.next())) else {
        return Ok(None);
    };
    if first.as_str() == "round" {
        return Ok(Some(Asked::Rounds(count, rounds)));
    }
    let Some(last) = number(words.next()) else {
        return Ok(None);
    };
    if first.as_str() == "session" {
        return Ok(Some(Asked::Sessions(Shared {
            links: count,
            workers: rounds,
            requests: last,
        })));
    }
    let case = Case {
        count,
        rounds,
        millis: last,
    };
    Ok(match first.as_str() {
        "wait" => Some(Asked::Waits(case)),
        "chain" => Some(Asked::Chains(case)),
        _ => None,
    })
}

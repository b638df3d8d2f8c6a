// The five commands, as `clap` is told of them.
ghost use Rattle.std.specs.Prelude.{◌≡◌, false, true, IfOk};
ghost use Rattle.clap.specs.Words.{app_of, rule_of};
ghost use Rattle.demi_words.specs.Descriptions as describe;

use clap::builder::ValueParser;
use clap::{Arg, ArgAction, Command};
use std::alloc::{AllocError, Global};

// An option `--name N`, where N is a number from `low` to `high`.
fn number<'a>(alloc: Global, name: &'a str, low: u32, high: u32) -> Arg<'a>
    ensures rule { rule_of result ≡ describe.number_option name.entry.now low high false }
    ensures local { result.global ≡ false }
{
    Arg::new(alloc, name)
        .long(name)
        .action(ArgAction::Set)
        .value_parser(ValueParser::signed(low as i64, high as i64))
}

// The same, where it has to be given.
fn required_number<'a>(alloc: Global, name: &'a str, low: u32, high: u32) -> Arg<'a>
    ensures rule { rule_of result ≡ describe.number_option name.entry.now low high true }
    ensures local { result.global ≡ false }
{
    number(alloc, name, low, high).required(true)
}

// An option `--name N` that has to be given, where N is any number of 64 bits.
fn long_number<'a>(alloc: Global, name: &'a str) -> Arg<'a>
    ensures rule { rule_of result ≡ describe.long_option name.entry.now }
    ensures local { result.global ≡ false }
{
    Arg::new(alloc, name)
        .long(name)
        .action(ArgAction::Set)
        .value_parser(ValueParser::unsigned(0, u64::MAX))
        .required(true)
}

// An option `--name TEXT`.
fn text<'a>(alloc: Global, name: &'a str) -> Arg<'a>
    ensures rule { rule_of result ≡ describe.option name.entry.now }
    ensures local { result.global ≡ false }
{
    Arg::new(alloc, name).long(name).action(ArgAction::Set)
}

// A word that has to be there.
fn word<'a>(alloc: Global, name: &'a str) -> Arg<'a>
    ensures rule { rule_of result ≡ describe.word name.entry.now }
    ensures local { result.global ≡ false }
{
    Arg::new(alloc, name).action(ArgAction::Set).required(true)
}

fn links<'a>(alloc: Global) -> Arg<'a>
    ensures rule { rule_of result ≡ describe.links }
    ensures local { result.global ≡ false }
{
    required_number(alloc, "links", 1, 16)
}

fn workers<'a>(alloc: Global) -> Arg<'a>
    ensures rule { rule_of result ≡ describe.workers }
    ensures local { result.global ≡ false }
{
    required_number(alloc, "workers", 1, 4)
}

// How many records a log may have.
fn limit<'a>(alloc: Global) -> Arg<'a>
    ensures rule { rule_of result ≡ describe.limit }
    ensures local { result.global ≡ false }
{
    number(alloc, "limit", 1, 1_000_000)
}

// A command with no arguments yet, which reads the words after its name.
fn bare<'a>(alloc: Global, name: &'a str) -> Command<'a>
    ensures { app_of result ≡ describe.bare name.entry.now }
{
    Command::new(alloc, name)
        .no_binary_name(true)
        .disable_help_flag(true)
        .disable_version_flag(true)
}

pub(crate) fn pipe<'a>(alloc: Global) -> Result<Command<'a>, AllocError>
    ensures { IfOk result (λ c. app_of c ≡ describe.pipe) }
{
    bare(alloc, "pipe")
        .arg(limit(alloc))?
        .arg(word(alloc, "log"))
}

pub(crate) fn serve<'a>(alloc: Global) -> Result<Command<'a>, AllocError>
    ensures { IfOk result (λ c. app_of c ≡ describe.serve) }
{
    bare(alloc, "serve")
        .arg(links(alloc))?
        .arg(workers(alloc))?
        .arg(limit(alloc))?
        .arg(word(alloc, "address"))?
        .arg(word(alloc, "log"))
}

pub(crate) fn bench<'a>(alloc: Global) -> Result<Command<'a>, AllocError>
    ensures { IfOk result (λ c. app_of c ≡ describe.bench) }
{
    bare(alloc, "bench")
        .arg(links(alloc))?
        .arg(workers(alloc))?
        .arg(required_number(alloc, "count", 0, 1_000_000))?
        .arg(long_number(alloc, "seed"))?
        .arg(text(alloc, "keep"))
}

// `check` and `log`.
pub(crate) fn of_one_name<'a>(alloc: Global, command: &'a str) -> Result<Command<'a>, AllocError>
    ensures { IfOk result (λ c. app_of c ≡ describe.of_one_name command.entry.now) }
{
    bare(alloc, command).arg(word(alloc, "name"))
}

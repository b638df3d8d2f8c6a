//! The words of the program `demi`, read by the command-line parser `clap`.
//!
//! [`read_words`] says which command the words after the program's name ask for, and with which limits, numbers and names.
//! The first word is the command's name, and the rest is read as one plain command of `clap`, with no option for help or a
//! version and no subcommands: what `clap` says that such words mean is what they mean here. So a layer above may rely on this:
//! it gets a command exactly where the words are one's, and each number is in its range. It reads all five commands, whichever of them
//! a program runs. Not promised: that memory is found; and what a name names, which may be empty, is not looked at.
#![tactic(auto)]

mod command;
mod descriptions;
mod matching;
mod reading;
#[cfg(test)]
mod tests;

pub use command::{Command, WordsRefusal};
pub use reading::read_words;

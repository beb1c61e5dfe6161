// What the words after a program's name ask for: the programs take none, or `--help` or `--version` alone.
//
// No contract can say which arguments a program was started with (docs/ASSUMED.md).
#![tactic(auto)]

ghost use Rattle.std.specs.Prelude.{◌≡◌};
ghost use Rattle.arguments.specs.Arguments.{asked_by};

use std::env::{Env, FillError};
use templates::same_bytes;

#[derive(Clone, Copy)]
pub enum Command {
    Run,
    Help,
    Version,
    Unknown,
}

// Returns what is asked, by the number of arguments, the program's name among them, and by the first word after the
// name.
fn asked_by(count: usize, word: &[u8]) -> Command
    ensures { result ≡ asked_by count word.now }
{
    if count < 2 {
        return Command::Run;
    }
    if 2 < count {
        return Command::Unknown;
    }
    if same_bytes(word, b"--help") {
        return Command::Help;
    }
    if same_bytes(word, b"--version") {
        return Command::Version;
    }
    Command::Unknown
}

// Tells whether the program was given an argument in this place, its own name being in place 0.
fn is_given(rt: HostRuntime, place: usize) -> bool {
    let mut word = [0u8; 16];
    !matches!(rt.arg(place, &mut word), Err(FillError::NotPresent))
}

// Returns how many arguments there are, the program's name among them, and 3 for any more.
fn argument_count(rt: HostRuntime) -> usize {
    if is_given(rt, 2) {
        return 3;
    }
    if is_given(rt, 1) { 2 } else { 1 }
}

// Returns what the program's own arguments ask. A word longer than the array counts as an empty one, and so is unknown.
pub fn read(rt: HostRuntime) -> Command {
    let mut word = [0u8; 16];
    let n = rt.arg(1, &mut word).unwrap_or(0);
    let count = argument_count(rt);
    asked_by(count, &word[..n])
}

// Writes a text to standard output; where that does not take all of it, says so on standard error, after the program's
// name.
pub fn write_text(rt: HostRuntime, name: &[u8], text: &[u8]) {
    let all = rt.stdout().write_all(text).is_ok();
    if all {
        return;
    }
    let _ = rt.stderr().write_all(name);
    let _ = rt.stderr().write_all(b": a write failed\n");
}

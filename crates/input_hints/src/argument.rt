use crate::key::{COMMANDS, keys_of, nearest, range_of};
use crate::shown::{listed, shown};
use std::alloc::{AllocError, Global};

/// What is wrong with an argument of the command line.
#[derive(Clone, Copy)]
pub enum ArgumentWrong {
    NoCommand,
    UnknownKey,
    Repeated,
    BadValue,
    /// No argument names this file.
    MissingFile(&'static str),
}

/// The hint on an argument, which counts from 1: the argument itself and what would be right.
pub fn argument_hint(
    alloc: Global,
    arguments: &[String],
    number: u64,
    wrong: ArgumentWrong,
) -> Result<String, AllocError> {
    let command = numbered(arguments, 1);
    let argument = numbered(arguments, number);
    let (name, right) = match wrong {
        ArgumentWrong::NoCommand => (command, command_right(alloc)?),
        ArgumentWrong::UnknownKey => {
            let next = numbered(arguments, number.wrapping_add(1));
            (argument, key_right(alloc, command, argument, next)?)
        }
        ArgumentWrong::Repeated => {
            let (key, _) = parts(argument);
            (argument, format!(in alloc; "{key} is given before")?)
        }
        ArgumentWrong::BadValue => {
            let (key, _) = parts(argument);
            (argument, String::from_str(alloc, range_of(key))?)
        }
        ArgumentWrong::MissingFile(name) => {
            (command, format!(in alloc; "{name}=FILE is missing")?)
        }
    };
    if name.is_empty() {
        return Ok(right);
    }
    let name = shown(alloc, name.as_bytes())?;
    format!(in alloc; "{name}: {right}")
}

/// The argument of a number, from 1; empty where there is none.
fn numbered(arguments: &[String], number: u64) -> &str {
    for (index, argument) in arguments.iter().enumerate() {
        if index as u64 + 1 == number {
            return argument.as_str();
        }
    }
    ""
}

/// What stands before the first `=` of an argument, and what stands behind it, if one is there.
fn parts(argument: &str) -> (&str, Option<&str>) {
    match argument.split_once('=') {
        Some((key, value)) => (key, Some(value)),
        None => (argument, None),
    }
}

fn command_right(alloc: Global) -> Result<String, AllocError> {
    let names = listed(alloc, &COMMANDS)?;
    format!(in alloc; "the commands are {names}, see ridepool --help")
}

/// What was meant by an argument that is none of a command. A value without `=` may stand in the next argument.
fn key_right(
    alloc: Global,
    command: &str,
    argument: &str,
    next: &str,
) -> Result<String, AllocError> {
    let bare = argument.trim_start_matches('-');
    let (key, value) = parts(bare);
    let value = match value {
        Some(value) => value,
        None if !next.is_empty() && !next.contains('=') => next,
        None => "VALUE",
    };
    let value = shown(alloc, value.as_bytes())?;
    if let Some(meant) = nearest(alloc, key, keys_of(command))? {
        return format!(in alloc; "did you mean {meant}={value}?");
    }
    let names = listed(alloc, keys_of(command))?;
    format!(in alloc; "{command} takes {names}, each as NAME=VALUE")
}

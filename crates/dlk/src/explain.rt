// What is said on standard error where there is no answer. It says nothing of an answer, and no contract speaks of it.

use crate::run::{NO_MEMORY, READ_FAULT, WRITE_FAULT};
use dlk_replies::{Command, Status};
use std::io::{Eprint, Result};

/// The status where the words of the command line can't be had.
pub const NO_WORDS: u8 = 7;

/// The forms of the words, a line each, with what each does.
const FORMS: [&str; 14] = [
    "dlk 1.0.0: usage, in which - is standard input:",
    "  dlk check MODEL TERM             checks a proof term, and prints its report",
    "  dlk report MODEL TERM            checks a proof term, and prints its report as JSON",
    "  dlk smt MODEL TERM               checks a proof term, and prints its leaves for a solver",
    "  dlk guard MODEL TERM             checks a proof term, and prints whether it is guarded, and its report",
    "  dlk prove MODEL STRATEGY TERM    runs a strategy, writes the term that it makes, and prints its report",
    "  dlk session MODEL SCRIPT TERM    runs the lines of a script, goal by goal, and writes the term that they save",
    "  dlk convert TERM OUT             writes a term in the newest version, and prints its report",
    "  dlk link MODEL TERM LEMMA OUT    proves goals of a term by another term, writes the whole, and prints its report",
    "  dlk trim MODEL TERM OUT          leaves out the lines that a term doesn't need, writes the rest, and prints its report",
    "  dlk print FILE                   prints the canonical text of an expression",
    "  dlk vars FILE                    prints the free, bound and must-bound variables of an expression, and its symbols",
    "  dlk subst FILE SUBST             prints what a substitution makes of an expression",
    "  dlk gen N                        proves a generated model of N assignments, from 1 to 500, and checks the term",
];

fn forms<E: Eprint>(to: &E) -> Result<()> {
    for line in &FORMS {
        to.eprintln(*line)?;
    }
    Ok(())
}

/// Which input could not be read: the one with this number, from 0 on; or of which one it was, where there is none with this number.
fn inputs<E: Eprint>(to: &E, words: &[String], number: usize) -> Result<()> {
    let Some(command) = Command::parse(words) else {
        return to.eprintln("dlk: an input could not be read");
    };
    let names = command.inputs(words);
    if number < names.len() {
        to.eprint("dlk: an input could not be read: ")?;
        return to.eprintln(names[number].as_str());
    }
    to.eprint("dlk: an input could not be read, of:")?;
    for name in names {
        to.eprint(" ")?;
        to.eprint(name.as_str())?;
    }
    to.eprintln("")
}

/// Where the answer was to go.
fn outputs<E: Eprint>(to: &E, words: &[String]) -> Result<()> {
    to.eprint("dlk: the answer could not be written whole, to ")?;
    if let Some(command) = Command::parse(words) {
        if let Some(name) = command.output(words) {
            to.eprint(name)?;
            to.eprint(" or ")?;
        }
    }
    to.eprintln("standard output")
}

/// Says on standard error what a status means that comes without an answer, and nothing with one. The number is that of the input that could
/// not be read.
///
/// # Errors
///
/// A fault of writing. A part may have been written.
#[inline(never)]
pub fn explain<E: Eprint>(to: &E, status: u8, words: &[String], number: usize) -> Result<()> {
    if status == Status::Words.code() {
        return forms(to);
    }
    match status {
        READ_FAULT => inputs(to, words, number),
        WRITE_FAULT => outputs(to, words),
        NO_MEMORY => to.eprintln("dlk: memory ran out"),
        NO_WORDS => to.eprintln("dlk: there was no memory for the words of the command line"),
        _ => Ok(()),
    }
}

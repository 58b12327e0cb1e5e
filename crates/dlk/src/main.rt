//! A theorem prover with a small kernel for differential dynamic logic.
#![tactic(auto)]

ghost use Rattle.std.specs.Prelude.{◌≡◌, ◌<◌, drop, map, string_bytes};
ghost use Rattle.std.specs.Process.{exit_status};
ghost use Rattle.dlk.specs.Served.{Serves};

mod call;
mod explain;
mod fault;
mod give;
mod laws;
mod run;

use dlk_desk::{Desk, HostDesk};
use dlk_store::Steps;
use explain::{NO_WORDS, explain};
use run::run;
use std::alloc::{AllocError, Global};
use std::env;
use std::fs::OpenOptions;
use std::io::ErrorKind;
use std::marker::Brand;
use std::process::ExitCode;
use std::sync::ledger::{Blank, Ledger};

/// A folder that is there. As a file it can be neither read nor written.
const FOLDER: &str = "/";

/// All words behind the program's own name, which stands first.
fn behind_the_name(mut all: Vec<String>) -> Vec<String>
    ensures { result.items ≡ drop 1 all.items }
{
    if !all.is_empty() {
        let _ = all.remove(0);
    }
    all
}

/// The words of the command line, the program's name first. Where one is not UTF-8 there are none, and so they have no form.
#[inline(never)]
fn command_line(rt: &HostRuntime) -> Result<Vec<String>, AllocError> {
    let mut words = Vec::new(rt.alloc());
    let args = match env::args(rt) {
        Ok(args) => args,
        Err(fault) if fault.kind() == ErrorKind::OutOfMemory => return Err(AllocError),
        Err(_) => return Ok(words),
    };
    for word in args {
        words.push(word)?;
    }
    Ok(words)
}

/// Runs on a desk, with a counter of steps that no one reads. The status is that of `run`.
///
/// So are the clauses, of which `Serves` has each but `looks`: that speaks of the counter, which ends here.
fn start<D: Desk, L: Ledger>(alloc: Global, words: &[String], desk: &mut D, blank: Blank) -> u8
    requires name { blank.name ≡ L.name }
    requires parts { blank.parts ≡ L.parts }
    requires some { 0 < blank.parts }
    ensures { Serves D.tells (map string_bytes words.now) result (D.outside desk.old) (D.outside desk.new) }
{
    let mut steps = Steps::<L>::new(blank);
    run(alloc, words, desk, &mut steps)
}

/// The exit code of a status.
fn exit_code(status: u8) -> ExitCode
    ensures { exit_status result ≡ status }
{
    ExitCode::from(status)
}

fn main(rt: HostRuntime) -> ExitCode {
    // The system gives the place of a closed standard stream to what is opened next: to a folder, so that no term stands there.
    let mut options = OpenOptions::new();
    options.read(true);
    let _places = [
        options.open(&rt, FOLDER),
        options.open(&rt, FOLDER),
        options.open(&rt, FOLDER),
    ];
    let alloc = rt.alloc();
    let Ok(all) = command_line(&rt) else {
        let _ = explain(&rt, NO_WORDS, &[], 0);
        return exit_code(NO_WORDS);
    };
    let words = behind_the_name(all);
    let mut desk = HostDesk::new(rt, alloc);
    let status = start::<HostDesk<HostRuntime>, Brand>(alloc, &words, &mut desk, Blank::new(1));
    let _ = explain(&rt, status, &words, desk.failed_input());
    exit_code(status)
}

#[cfg(test)]
mod tests;

// The part of the real outside that is values: options of files, and what becomes of a call by its outcome. The rest is calls of the runtime.
ghost use Rattle.std.specs.Prelude.{◌≡◌, ◌↔◌, ◌<◌, ◌⊎◌, true, codes, Ok, IfOk, OnErr, IsErr, IsTrue};
ghost use Rattle.std.specs.Fs.{new_options, with_create, with_read, with_truncate, with_write};

use crate::Failed;
use std::fs::OpenOptions;
use std::io;

/// The name of standard input.
const STANDARD_INPUT: &str = "-";

/// Whether this is the name of standard input.
pub(crate) fn is_standard_input(name: &str) -> bool
    ensures { IsTrue result ↔ (name.now ≡ codes "-") }
{
    name == STANDARD_INPUT
}

/// How an input is opened: it must be there, and can't be written.
pub(crate) fn input_options() -> OpenOptions
    ensures { result ≡ with_read new_options true }
{
    let mut options = OpenOptions::new();
    options.read(true);
    options
}

/// How an output is opened: it is made, or emptied where it is there, and can't be read.
pub(crate) fn output_options() -> OpenOptions
    ensures { result ≡ with_truncate (with_create (with_write new_options true) true) true }
{
    let mut options = OpenOptions::new();
    options.write(true).create(true).truncate(true);
    options
}

/// What a call that reads answers: the library's count, and a failure exactly where the library fails.
pub(crate) fn read_answer(outcome: io::Result<usize>) -> Result<usize, Failed>
    ensures count { IfOk outcome (λ n. result ≡ Ok n) }
    ensures failed { OnErr outcome (IsErr result) }
{
    outcome.map_err(|_| Failed)
}

/// What a call that writes so many bytes answers: the library's count, and a failure exactly where the library fails or takes nothing of some.
pub(crate) fn write_answer(outcome: io::Result<usize>, bytes: usize) -> Result<usize, Failed>
    ensures count { IfOk outcome (λ n. (0 < n) ⊎ (bytes ≡ 0) → result ≡ Ok n) }
    ensures nothing { IfOk outcome (λ n. n ≡ 0 → 0 < bytes → IsErr result) }
    ensures failed { OnErr outcome (IsErr result) }
{
    match outcome {
        Ok(0) if bytes > 0 => Err(Failed),
        Ok(count) => Ok(count),
        Err(_) => Err(Failed),
    }
}

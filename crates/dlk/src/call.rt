// A command line that is read once.
ghost use Rattle.std.specs.Prelude.{◌≡◌, map, string_bytes, option_copied};
ghost use Rattle.dlk_replies.specs.Forms.{command_of};
ghost use Rattle.dlk_replies.specs.Inputs.{output};

use dlk_replies::Command;

/// The words of a command line, and the command that they call for: none where they have none of the forms.
#[derive(Clone, Copy, Debug)]
pub struct CommandLine<'a> {
    pub words: &'a [String],
    pub command: Option<Command>,
}

impl<'a> CommandLine<'a> {
    /// The name of the file that the words let the program write, if there is one.
    pub fn output(self) -> Option<&'a str>
        requires { self.command ≡ command_of (map string_bytes self.words.now) }
        ensures { option_copied result ≡ output (map string_bytes self.entry.words.now) }
    {
        let command = self.command?;
        command.output(self.words)
    }
}

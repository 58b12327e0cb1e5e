// Gives a reply: writes its file, and then prints.
ghost use Rattle.std.specs.Prelude.{◌≡◌, ◌⊎◌, ◌++◌, OnOk, OnErr, IsNone, option_copied};
ghost use Rattle.dlk_desk.specs.Outside.{Rose, SameFiles};
ghost use Rattle.dlk_desk.specs.Desk.{OnlyWrites};
ghost use Rattle.dlk_transfer.specs.Transfer.{GrowsByFront};
ghost use Rattle.dlk_replies.specs.Shown.{reply_of};
ghost use Rattle.dlk.specs.Outputs.{output_with, after, WrittenInPart};
ghost use Rattle.dlk.specs.Runs.{StartsNoWrite, OnlyWriteFailed};

use dlk_desk::{Desk, Failed};
use dlk_replies::Reply;
use dlk_transfer::{print_all, write_all};

/// Writes the file of a reply, if there are a name and bytes for it.
fn write_output<D: Desk>(desk: &mut D, name: Option<&str>, reply: &Reply) -> Result<(), Failed>
    ensures whole { let output = output_with (option_copied name.entry) (reply_of reply.now).written in
        OnOk result (D.tells → SameFiles (after output (D.outside desk.old).files) (D.outside desk.new).files) }
    ensures part { let output = output_with (option_copied name.entry) (reply_of reply.now).written in D.tells →
        WrittenInPart output (D.outside desk.old).files (D.outside desk.new).files }
    ensures none { IsNone (output_with (option_copied name.entry) (reply_of reply.now).written) →
        StartsNoWrite D.tells (D.outside desk.old) (D.outside desk.new) }
    ensures silent { D.tells → (D.outside desk.new).printed ≡ (D.outside desk.old).printed }
    ensures quiet { (D.outside desk.new).print_faults ≡ (D.outside desk.old).print_faults }
    ensures fault { OnErr result (Rose (D.outside desk.old).write_faults (D.outside desk.new).write_faults) }
    ensures file_fault { OnErr result (Rose (D.outside desk.old).file_faults (D.outside desk.new).file_faults) }
    ensures only { OnlyWrites D.tells (D.outside desk.old) (D.outside desk.new) }
{
    let Some(name) = name else {
        return Ok(());
    };
    let Some(bytes) = &reply.written else {
        return Ok(());
    };
    write_all(desk, name, bytes)
}

/// Gives a reply: writes its file, if the words have a name for one and the reply has its bytes, and prints once the
/// file is whole. Where there is no such file, no write is started.
///
/// # Errors
///
/// [`Failed`] where the file could not be written whole, or what is printed not printed whole. It comes only where the
/// desk's count of faults of writing rose. A front of the file, and behind the whole file a front of what is printed, was
/// given. Where printing failed the file is whole.
#[inline(never)]
pub fn give<D: Desk>(desk: &mut D, name: Option<&str>, reply: &Reply) -> Result<(), Failed>
    ensures file { let output = output_with (option_copied name.entry) (reply_of reply.now).written in
        OnOk result (D.tells → SameFiles (after output (D.outside desk.old).files) (D.outside desk.new).files) }
    ensures printed { OnOk result (D.tells → (D.outside desk.new).printed ≡ (D.outside desk.old).printed ++ (reply_of reply.now).printed) }
    ensures part { let output = output_with (option_copied name.entry) (reply_of reply.now).written in D.tells →
        WrittenInPart output (D.outside desk.old).files (D.outside desk.new).files }
    ensures front { D.tells → GrowsByFront (reply_of reply.now).printed (D.outside desk.old).printed (D.outside desk.new).printed }
    ensures file_first { let output = output_with (option_copied name.entry) (reply_of reply.now).written in D.tells →
        SameFiles (after output (D.outside desk.old).files) (D.outside desk.new).files ⊎ ((D.outside desk.new).printed ≡ (D.outside desk.old).printed) }
    ensures file_kept { let output = output_with (option_copied name.entry) (reply_of reply.now).written in D.tells →
        SameFiles (after output (D.outside desk.old).files) (D.outside desk.new).files ⊎ OnlyWriteFailed (D.outside desk.old) (D.outside desk.new) }
    ensures none { IsNone (output_with (option_copied name.entry) (reply_of reply.now).written) →
        StartsNoWrite D.tells (D.outside desk.old) (D.outside desk.new) }
    ensures fault { OnErr result (Rose (D.outside desk.old).write_faults (D.outside desk.new).write_faults) }
    ensures only { OnlyWrites D.tells (D.outside desk.old) (D.outside desk.new) }
{
    write_output(desk, name, reply)?;
    print_all(desk, &reply.printed)
}

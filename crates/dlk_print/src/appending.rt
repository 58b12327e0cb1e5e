//! Appending bytes and names.
ghost use Rattle.std.specs.Prelude.{◌++◌};
ghost use Rattle.dlk_print.specs.Printed.{Appends};

use crate::fault::PrintFault;
use dlk_tree::Name;

/// Appends the bytes. Without memory a prefix of them was appended.
///
/// # Errors
///
/// `Memory` alone.
pub fn append(out: &mut Vec<u8>, text: &[u8]) -> Result<(), PrintFault>
    ensures { Appends out.old.items out.new.items text.now result }
{
    out.extend_from_slice(text)?;
    Ok(())
}

/// Appends a name and the bytes behind it.
pub(crate) fn append_name(out: &mut Vec<u8>, name: &Name, after: &[u8]) -> Result<(), PrintFault>
    ensures { Appends out.old.items out.new.items (name.now ++ after.now) result }
{
    append(out, name.bytes())?;
    append(out, after)
}

/// Appends a name with the bytes before and behind it.
pub(crate) fn append_between(
    out: &mut Vec<u8>,
    before: &[u8],
    name: &Name,
    after: &[u8],
) -> Result<(), PrintFault>
    ensures { Appends out.old.items out.new.items (before.now ++ (name.now ++ after.now)) result }
{
    append(out, before)?;
    append_name(out, name, after)
}

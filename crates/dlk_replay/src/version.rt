//! The version of a file.
ghost use Rattle.std.specs.Prelude.{◌≤◌, ◌+◌, length};
ghost use Rattle.dlk_replay.specs.Files.{file_lines};
ghost use Rattle.dlk_replay.specs.Replay.{Begins};

use crate::taking::first_line;
use dlk_nodes::NodeTable;
use std::alloc::Global;

/// The version of a file that is read.
#[derive(Drop)]
pub(crate) enum Version {
    /// Version 1, whose trees are spelled in full.
    One,
    /// Version 2, with the nodes so far.
    Two(NodeTable),
}

/// The version of a file by its first line, the bytes behind the head, and how many lines stand before them: version 1 has no head.
pub(crate) fn begin(alloc: Global, bytes: &[u8]) -> (Version, &[u8], usize)
    ensures begins { Begins (file_lines bytes.now) result.0 (file_lines result.1.now) result.2 }
    ensures room { result.2 + length result.1.now ≤ length bytes.now }
{
    if bytes.is_empty() {
        return (Version::One, bytes, 0);
    }
    let (line, behind) = first_line(bytes);
    if line == b"dlk 2".as_slice() {
        return (Version::Two(NodeTable::new(alloc)), behind, 1);
    }
    (Version::One, bytes, 0)
}

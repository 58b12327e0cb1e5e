// Real files: nothing is claimed of them, and this is the one test.
ghost use Rattle.std.specs.Prelude.{IsTrue};

use super::*;
use std::fs;
use std::test::Fail;

/// Reads to the end, in pieces of at most four bytes.
fn read_to_end<D: Desk>(alloc: Global, desk: &mut D) -> Result<Vec<u8>, Fail>
    requires { IsTrue (D.outside desk.old).reading }
{
    let mut bytes = Vec::new(alloc);
    let mut piece = [0; 4];
    'pieces: for _ in 0..100 {
        let count = desk.read(&mut piece)?;
        if count == 0 {
            break;
        }
        bytes.extend_from_slice(&piece[..count])?;
    }
    Ok(bytes)
}

#[test]
fn reads_and_writes_real_files(rt: HostRuntime) -> Result<(), Fail> {
    let alloc = rt.alloc();
    fs::write(&rt, "desk_input.txt", "some bytes\n")?;
    let mut desk = HostDesk::new(rt, alloc);

    desk.start_read("desk_input.txt")?;
    let input = read_to_end(alloc, &mut desk)?;
    assert_eq!(rt; input.as_slice(), b"some bytes\n".as_slice());
    assert!(rt; desk.start_read("desk_missing.txt").is_err());
    assert_eq!(rt; desk.faults.reads, 1);
    assert_eq!(rt; desk.asked.len(), 1);

    fs::write(&rt, "desk_output.txt", "an older text")?;
    desk.start_write("desk_output.txt")?;
    let count = desk.append(b"abc")?;
    assert_eq!(rt; count, 3);
    let count = desk.append(b"de")?;
    assert_eq!(rt; count, 2);
    assert!(rt; desk.start_write("-").is_err());
    assert!(rt; desk.start_write("desk_missing/output.txt").is_err());
    assert_eq!(rt; desk.faults.writes, 2);
    let count = desk.append(b"f")?;
    assert_eq!(rt; count, 1);
    let output = fs::read(&rt, "desk_output.txt")?;
    assert_eq!(rt; output.as_slice(), b"abcdef".as_slice());
    let count = desk.print(b"printed\n")?;
    assert_eq!(rt; count, 8);
    assert_eq!(rt; desk.faults.reads, 1);
    assert_eq!(rt; desk.faults.writes, 2);
    assert_eq!(rt; desk.faults.files, 2);
    assert_eq!(rt; desk.faults.prints, 0);

    fs::remove_file(&rt, "desk_input.txt")?;
    fs::remove_file(&rt, "desk_output.txt")?;
    Ok(())
}

/// A device that is full, a folder, and a file that can't be opened.
#[test]
fn tells_faults_of_devices(rt: HostRuntime) -> Result<(), Fail> {
    let mut desk = HostDesk::new(rt, rt.alloc());
    desk.start_write("/dev/full")?;
    assert!(rt; desk.append(b"abc").is_err());
    assert!(rt; desk.start_write("/").is_err());
    assert_eq!(rt; desk.faults.writes, 2);

    desk.start_read("/")?;
    let mut piece = *b"kept";
    assert!(rt; desk.read(&mut piece).is_err());
    assert_eq!(rt; piece, *b"kept");
    assert!(rt; desk.start_read("/dev/full/none").is_err());
    assert_eq!(rt; desk.faults.reads, 2);
    assert_eq!(rt; desk.asked.len(), 1);
    Ok(())
}

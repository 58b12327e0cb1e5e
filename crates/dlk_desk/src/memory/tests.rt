// That calls succeed where memory is there, with pieces and failures worked by hand.
use super::*;
use std::test::Fail;

/// Makes up to eight calls, and adds to `answers` what each answered: a start that was Ok 0, and a
/// failure None. What a failed start would have begun is left out.
fn play(desk: &mut MemoryDesk, answers: &mut Vec<Option<usize>>) -> Result<(), AllocError> {
    play_reading(desk, answers)?;
    play_writing(desk, answers)?;
    answers.push(desk.print(b"xyz").ok())?;
    answers.push(desk.start_read("missing").ok().map(|()| 0))?;
    Ok(())
}

fn play_reading(desk: &mut MemoryDesk, answers: &mut Vec<Option<usize>>) -> Result<(), AllocError> {
    if desk.start_read("a").is_err() {
        answers.push(None)?;
        return Ok(());
    }
    answers.push(Some(0))?;
    let mut into = [0; 4];
    answers.push(desk.read(&mut into).ok())?;
    answers.push(desk.read(&mut into).ok())?;
    answers.push(desk.read(&mut into).ok())?;
    Ok(())
}

fn play_writing(desk: &mut MemoryDesk, answers: &mut Vec<Option<usize>>) -> Result<(), AllocError> {
    if desk.start_write("out").is_err() {
        answers.push(None)?;
        return Ok(());
    }
    answers.push(Some(0))?;
    answers.push(desk.append(b"abcdef").ok())?;
    Ok(())
}

struct Row {
    chunk: usize,
    fails: &'static [u64],
    answers: &'static [Option<usize>],
    asked: usize,
    printed: &'static [u8],
    out: Option<&'static [u8]>,
    read_faults: u64,
    write_faults: u64,
    file_faults: u64,
    print_faults: u64,
}

/// By hand from the rules: each call has a number, from 1, and moves at most `chunk` bytes.
const ROWS: &[Row] = &[
    Row {
        chunk: 100,
        fails: &[],
        answers: &[
            Some(0),
            Some(4),
            Some(1),
            Some(0),
            Some(0),
            Some(6),
            Some(3),
            None,
        ],
        asked: 1,
        printed: b"xyz",
        out: Some(b"abcdef"),
        read_faults: 1,
        write_faults: 0,
        file_faults: 0,
        print_faults: 0,
    },
    Row {
        chunk: 1,
        fails: &[],
        answers: &[
            Some(0),
            Some(1),
            Some(1),
            Some(1),
            Some(0),
            Some(1),
            Some(1),
            None,
        ],
        asked: 1,
        printed: b"x",
        out: Some(b"a"),
        read_faults: 1,
        write_faults: 0,
        file_faults: 0,
        print_faults: 0,
    },
    Row {
        chunk: 3,
        fails: &[2, 6],
        answers: &[
            Some(0),
            None,
            Some(3),
            Some(2),
            Some(0),
            None,
            Some(3),
            None,
        ],
        asked: 1,
        printed: b"xyz",
        out: Some(b""),
        read_faults: 2,
        write_faults: 1,
        file_faults: 1,
        print_faults: 0,
    },
    Row {
        chunk: 3,
        fails: &[1, 4],
        answers: &[None, Some(0), Some(3), None, None],
        asked: 0,
        printed: b"",
        out: Some(b"abc"),
        read_faults: 2,
        write_faults: 1,
        file_faults: 0,
        print_faults: 1,
    },
    Row {
        chunk: 2,
        fails: &[0, 5, 7, 7],
        answers: &[Some(0), Some(2), Some(2), Some(1), None, Some(2), None],
        asked: 1,
        printed: b"xy",
        out: None,
        read_faults: 1,
        write_faults: 1,
        file_faults: 1,
        print_faults: 0,
    },
];

#[test]
fn moves_pieces_and_fails_where_told(rt: HostRuntime) -> Result<(), Fail> {
    let alloc = rt.alloc();
    for row in ROWS {
        assert!(rt; row.chunk >= 1);
        let mut files = Vec::new(alloc);
        files.push((String::from_str(alloc, "a")?, b"hello".to_vec(alloc)?))?;
        files.push((String::from_str(alloc, "a")?, b"shadowed".to_vec(alloc)?))?;
        let fails = row.fails.to_vec(alloc)?;
        let mut desk = MemoryDesk::new(alloc, files, row.chunk, fails);
        let mut answers = Vec::new(alloc);
        play(&mut desk, &mut answers)?;
        assert_eq!(rt; answers.as_slice(), row.answers);
        assert_eq!(rt; desk.asked().len(), row.asked);
        assert_eq!(rt; desk.printed(), row.printed);
        assert_eq!(rt; desk.file("out"), row.out);
        assert_eq!(rt; desk.file("a"), Some(b"hello".as_slice()));
        assert!(rt; desk.file("missing").is_none());
        assert_eq!(rt; desk.read_faults(), row.read_faults);
        assert_eq!(rt; desk.write_faults(), row.write_faults);
        assert_eq!(rt; desk.file_faults(), row.file_faults);
        assert_eq!(rt; desk.print_faults(), row.print_faults);
        assert_eq!(rt; desk.starved(), 0);
    }
    Ok(())
}

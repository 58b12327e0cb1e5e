// The readers on each byte alone, and on texts of which a byte is changed.
use super::*;
use dlk_lex::{LexFault, tokens};
use dlk_parse::{ParseFault, TextFault, read_extra, read_formula, read_sequent, read_substitution};
use dlk_shared::SharedStore;
use dlk_store::Store;
use dlk_tacsyn::{TacSyntax, strategy};
use dlk_termtext::{LineFault, read_line};
use std::alloc::AllocError;

/// What reads a text.
#[derive(Clone, Copy, Debug, PartialEq, Eq)]
enum Reader {
    Formula,
    Sequent,
    Substitution,
    Extra,
    Strategy,
    Line,
}

const READERS: [Reader; 6] = [
    Reader::Formula,
    Reader::Sequent,
    Reader::Substitution,
    Reader::Extra,
    Reader::Strategy,
    Reader::Line,
];

/// What a reader says of a text.
#[derive(Clone, Copy, Debug, PartialEq, Eq)]
enum Answer {
    Read,
    /// At this byte no token begins.
    Byte(usize),
    /// At this byte no text goes on.
    Syntax(usize),
    /// Something else is wrong with what begins at this byte.
    Wrong(usize),
    /// The line is none.
    Malformed,
    /// A tree is too big or too deep, or memory ran out: of no text of this file.
    Other,
}

fn of_text(fault: Option<TextFault>) -> Answer {
    match fault {
        None => Answer::Read,
        Some(TextFault::BadByte { at }) => Answer::Byte(at),
        Some(TextFault::Unread(ParseFault::Syntax { at })) => Answer::Syntax(at),
        Some(
            TextFault::Unread(
                ParseFault::Literal { at } | ParseFault::Nesting { at } | ParseFault::Shape { at },
            ),
        ) => Answer::Wrong(at),
        Some(_) => Answer::Other,
    }
}

fn of_strategy(fault: Option<TacSyntax>) -> Answer {
    match fault {
        None => Answer::Read,
        Some(TacSyntax::Syntax { at }) => Answer::Syntax(at),
        Some(
            TacSyntax::Nesting { at }
            | TacSyntax::Repeat { at }
            | TacSyntax::UnknownAtom { at }
            | TacSyntax::Arguments { at },
        ) => Answer::Wrong(at),
        Some(TacSyntax::Memory) => Answer::Other,
    }
}

fn of_line(fault: Option<LineFault>) -> Answer {
    match fault {
        None => Answer::Read,
        Some(LineFault::Malformed) => Answer::Malformed,
        Some(LineFault::Memory) => Answer::Other,
    }
}

impl Reader {
    /// What it says of a text.
    fn answer<S: Store>(self, alloc: Global, text: &[u8], store: &mut S) -> Answer {
        match self {
            Reader::Formula => of_text(read_formula(alloc, text, store).err()),
            Reader::Sequent => of_text(read_sequent(alloc, text, store).err()),
            Reader::Substitution => of_text(read_substitution(alloc, text, store).err()),
            Reader::Extra => of_text(read_extra(alloc, text, store).err()),
            Reader::Strategy => of_strategy(strategy(alloc, text, store).err()),
            Reader::Line => of_line(read_line(alloc, text, store).err()),
        }
    }
}

/// Whether an answer names a place of a text of so many bytes; where a text doesn't go on, that may be its end.
fn is_within(answer: Answer, length: usize) -> bool {
    match answer {
        Answer::Read | Answer::Malformed => true,
        Answer::Byte(at) | Answer::Wrong(at) => at < length,
        Answer::Syntax(at) => at <= length,
        Answer::Other => false,
    }
}

/// Whether a byte is white space.
fn is_blank(byte: u8) -> bool {
    matches!(byte, b' ' | b'\t' | b'\r' | b'\n')
}

/// Whether a token is this byte alone.
fn is_token(byte: u8) -> bool {
    match byte {
        b'a'..=b'z' | b'A'..=b'Z' | b'0'..=b'9' | b'_' => true,
        b'(' | b')' | b'[' | b']' | b'{' | b'}' => true,
        b'&' | b'|' | b'!' | b'=' | b'<' | b'>' => true,
        b'+' | b'-' | b'*' | b'/' | b'^' | b'\'' => true,
        b'?' | b';' | b',' => true,
        _ => false,
    }
}

/// Whether a formula goes on behind this byte, and so does a sequent, which begins with one.
fn begins_formula(byte: u8) -> bool {
    match byte {
        b'a'..=b'z' | b'A'..=b'Z' | b'0'..=b'9' | b'-' | b'!' | b'(' | b'[' | b'<' => true,
        _ => is_blank(byte),
    }
}

/// What a reader of tokens says of a byte alone. White space is no pair.
fn of_byte(reader: Reader, byte: u8) -> Answer {
    let goes_on = match reader {
        Reader::Formula | Reader::Sequent => begins_formula(byte),
        _ if is_blank(byte) => return Answer::Read,
        _ => byte.is_ascii_alphabetic() || byte == b'{',
    };
    if !is_token(byte) && !is_blank(byte) {
        Answer::Byte(0)
    } else {
        Answer::Syntax(usize::from(goes_on))
    }
}

/// What the reader of strategies says of a byte alone. A letter is a name: that of an atom that wants a place, or of none. A bracket may
/// open, and a slash may begin a comment.
fn of_byte_of_strategy(byte: u8) -> Answer {
    match byte {
        b'a'..=b'z' | b'A'..=b'Z' => Answer::Wrong(0),
        b'(' | b'/' => Answer::Syntax(1),
        _ => Answer::Syntax(usize::from(is_blank(byte))),
    }
}

/// Each reader on a byte alone. No line has one byte.
fn meets_byte<S: Store>(rt: &impl Abort, alloc: Global, byte: u8, store: &mut S) {
    for reader in READERS {
        let want = match reader {
            Reader::Strategy => of_byte_of_strategy(byte),
            Reader::Line => Answer::Malformed,
            _ => of_byte(reader, byte),
        };
        let found = (reader, byte, reader.answer(alloc, &[byte], store));
        same(rt, &found, &(reader, byte, want), "a byte");
    }
}

/// How many tokens a byte alone is, with the end.
fn count_of(alloc: Global, byte: u8) -> Result<usize, LexFault> {
    Ok(tokens(alloc, &[byte])?.len())
}

/// Each reader on each byte alone, and how many tokens it is.
fn meets_bytes<S: Store>(rt: &impl Abort, alloc: Global, store: &mut S) {
    for byte in 0..=255u8 {
        meets_byte(rt, alloc, byte, store);
        let want = if is_blank(byte) {
            Ok(1)
        } else if is_token(byte) {
            Ok(2)
        } else {
            Err(LexFault::BadByte { at: 0 })
        };
        same(rt, &(byte, count_of(alloc, byte)), &(byte, want), "a byte");
    }
}

#[test]
fn reads_each_byte(rt: HostRuntime) {
    meets_bytes(&rt, rt.alloc(), &mut SharedStore::new(rt.alloc()));
}

/// A car, as a user of KeYmaera X writes it.
const MODEL: &str = "v>=0 & A>0 -> [{{a:=A;++a:=0;}{x'=v,v'=a&v>=0}}*@invariant(v>=0)]v>=0";

/// Its strategy.
const STRATEGY: &str =
    "implyR(1); loop(\"v>=0\",1); <(leaf,\n  useAt(composeb,1); useAt(choiceb,1); andR(1); useAt(assignb,1); dW(1); leaf,\n  leaf)\n";

/// Each reader on a text in which one byte is put in the place of each third one in turn.
fn meets_changed<S: Store>(
    rt: &impl Abort,
    alloc: Global,
    text: &[u8],
    byte: u8,
    store: &mut S,
) -> Result<(), AllocError> {
    for place in (0..text.len()).step_by(3) {
        let mut changed = text.to_vec(alloc)?;
        if let Some(there) = changed.get_mut(place) {
            *there = byte;
        }
        for reader in READERS {
            let answer = reader.answer(alloc, &changed, store);
            assert!(rt;
                is_within(answer, text.len()),
                "{reader:?} at {place} with {byte}: {answer:?}"
            );
        }
    }
    Ok(())
}

/// Which readers read a text: one, or two. And what each says of it with a byte changed.
fn meets_text<S: Store>(
    rt: &impl Abort,
    alloc: Global,
    text: &[u8],
    first: Reader,
    second: Reader,
    store: &mut S,
) -> Result<(), AllocError> {
    for reader in READERS {
        let answer = reader.answer(alloc, text, store);
        let reads = reader == first || reader == second;
        same(
            rt,
            &(reader, answer == Answer::Read),
            &(reader, reads),
            "read",
        );
        assert!(rt; is_within(answer, text.len()), "{reader:?}: {answer:?}");
    }
    for byte in [b'#', b' ', b'(', b'"', b'=', b'7', b'x', 255] {
        meets_changed(rt, alloc, text, byte, store)?;
    }
    Ok(())
}

/// The two texts of a car, and the model in each other kind of text.
fn meets_texts<S: Store>(rt: &impl Abort, alloc: Global, store: &mut S) -> Result<(), AllocError> {
    for (front, text, first, second) in [
        ("", MODEL, Reader::Formula, Reader::Formula),
        ("", STRATEGY, Reader::Strategy, Reader::Strategy),
        ("==> ", MODEL, Reader::Sequent, Reader::Sequent),
        ("p(||)~>", MODEL, Reader::Substitution, Reader::Extra),
        ("x_~~a,p(||)~>", MODEL, Reader::Extra, Reader::Extra),
        ("1 start ==> ", MODEL, Reader::Line, Reader::Line),
    ] {
        let text = format!(in alloc; "{front}{text}")?;
        meets_text(rt, alloc, text.as_bytes(), first, second, store)?;
    }
    Ok(())
}

#[test]
fn reads_changed_texts(rt: HostRuntime) -> Result<(), Fail> {
    let met = meets_texts(&rt, rt.alloc(), &mut SharedStore::new(rt.alloc()));
    Ok(met?)
}

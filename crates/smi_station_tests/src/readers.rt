//! Lines that are cut from a reader.

use smi_schedule::{Cut, Lines};
use smi_testkit::Trickle;
use std::alloc::{AllocError, Global};
use std::io::{self, ErrorKind, Read};
use std::test::Fail;

/// A reader that has nothing yet, and never will.
#[derive(Drop)]
struct Blocked;

impl Read for Blocked {
    fn read(&mut self, _buf: &mut [u8]) -> io::Result<usize> {
        Err(ErrorKind::WouldBlock.into())
    }
}

/// Returns the lines of a text, each with a bar after it, and how the reading ended.
fn cut_all(
    alloc: Global,
    bytes: &[u8],
    most: usize,
    fails: bool,
) -> Result<(Vec<u8>, Cut), AllocError> {
    let mut reader = Trickle {
        bytes,
        most,
        is_interrupted: true,
        fails,
    };
    let mut lines = Lines::new(alloc);
    let mut all = Vec::new(alloc);
    for _ in 0..100 {
        let cut = lines.cut(&mut reader);
        if cut != Cut::Line {
            return Ok((all, cut));
        }
        all.extend_from_slice(lines.line())?;
        all.push(b'|')?;
    }
    Ok((all, Cut::Line))
}

const TEXTS: [(&[u8], bool, &[u8], Cut); 8] = [
    (b"", false, b"", Cut::End),
    (b"a\nbc\n", false, b"a|bc|", Cut::End),
    (b"a\nbc", false, b"a|bc|", Cut::End),
    (b"a\r\nbc\r\r\n", false, b"a|bc\r|", Cut::End),
    (b"a\r", false, b"a\r|", Cut::End),
    (b"\n\n", false, b"||", Cut::End),
    (b"a\nbc", true, b"a|", Cut::ReadFault),
    (b"", true, b"", Cut::ReadFault),
];

#[test]
fn texts(rt: HostRuntime) -> Result<(), Fail> {
    for (bytes, fails, want, end) in TEXTS {
        for most in [1, 2, 1024] {
            let (all, cut) = cut_all(rt.alloc(), bytes, most, fails)?;
            assert!(rt; all.as_slice() == want && cut == end, "{bytes:?} by {most}");
        }
    }
    Ok(())
}

#[test]
fn long_texts(rt: HostRuntime) -> Result<(), Fail> {
    let table = [(201, Cut::End), (202, Cut::TooLong), (5000, Cut::TooLong)];
    for (length, end) in table {
        let bytes = vec![in rt.alloc(); b'x'; length]?;
        let (_, cut) = cut_all(rt.alloc(), bytes.as_slice(), 7, false)?;
        assert_eq!(rt; cut, end, "{length} bytes");
    }
    Ok(())
}

#[test]
fn a_reader_that_would_block_fails(rt: HostRuntime) {
    let cut = Lines::new(rt.alloc()).cut(&mut Blocked);
    assert_eq!(rt; cut, Cut::ReadFault);
}

//! Lines that people and programs typed.

use crate::step::LineContext;
use std::alloc::{AllocError, Global};
use std::io::Write;

/// How many bytes of a typed line a journal tells at most.
const MOST_BYTES: usize = 200;

/// A line that was typed at a console: an order, a report, or a remark, each also behind a tag.
#[derive(Drop)]
pub struct TypedLine {
    /// The number of the session: 0 of the standard input, and of a connection its own.
    session: u64,
    text: Vec<u8>,
}

/// Returns the line without its tag.
fn without_tag(line: &[u8]) -> &[u8] {
    if line.first() != Some(&b'@') {
        return line;
    }
    match line.iter().position(|byte| *byte == b' ') {
        Some(place) => line.get(place.saturating_add(1)..).unwrap_or(&[]),
        None => &[],
    }
}

/// Returns whether a journal tells a line: an order, a report, or a remark, by which clients say who they are.
fn is_told(line: &[u8]) -> bool {
    let said = without_tag(line);
    said.starts_with(b"order ") || said.starts_with(b"report ") || said.starts_with(b"#")
}

impl TypedLine {
    /// Takes a line of a session; none if a journal does not tell it.
    ///
    /// A byte that is not printable ASCII is told as `?`, and no more than 200 bytes are told. Fails if memory was
    /// refused.
    pub fn of(alloc: Global, session: u64, line: &[u8]) -> Result<Option<TypedLine>, AllocError> {
        if !is_told(line) {
            return Ok(None);
        }
        let mut text = Vec::new(alloc);
        for byte in line.iter().take(MOST_BYTES) {
            let is_printable = byte.is_ascii_graphic() || *byte == b' ';
            text.push(if is_printable { *byte } else { b'?' })?;
        }
        Ok(Some(TypedLine { session, text }))
    }

    /// Adds the line to a text: `typed`, the number of the session, and what was typed.
    pub(crate) fn push(
        &self,
        text: &mut Vec<u8>,
        context: LineContext<'_>,
    ) -> Result<(), AllocError> {
        text.extend_from_slice(context.prefix)?;
        write!(text, "typed {} ", self.session).map_err(|_| AllocError)?;
        text.extend_from_slice(self.text.as_slice())?;
        text.push(b'\n')?;
        Ok(())
    }
}

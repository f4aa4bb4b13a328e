// Texts made of lines.
use std::alloc::{AllocError, Global};

// Lines, each with its line end.
pub(crate) fn lines_of(heap: Global, lines: &[&str]) -> Result<Vec<u8>, AllocError> {
    let mut text = Vec::new(heap);
    for line in lines {
        text.extend_from_slice(line.as_bytes())?;
        text.extend_from_slice(b"\n")?;
    }
    Ok(text)
}

// Lines with a text in the place of one, counted from 1, and of its line end.
pub(crate) fn edited(
    heap: Global,
    lines: &[&str],
    line: usize,
    other: &[u8],
) -> Result<Vec<u8>, AllocError> {
    let mut text = Vec::new(heap);
    for (i, kept) in (1..).zip(lines) {
        if i == line {
            text.extend_from_slice(other)?;
        } else {
            text.extend_from_slice(kept.as_bytes())?;
            text.extend_from_slice(b"\n")?;
        }
    }
    Ok(text)
}

//! Texts that tables write in pieces.

use line_config::Result;
use std::alloc::Global;

/// Returns the text of these pieces, with a plus between two: how many times a text stands there, a
/// star, and the text; or a text alone, which stands there once.
///
/// # Errors
/// `Memory` if memory runs out.
pub fn built(alloc: Global, pieces: &str) -> Result<String> {
    let mut text = String::new(alloc);
    for piece in pieces.split('+') {
        let (count, piece) = piece.split_once('*').unwrap_or(("1", piece));
        let count: usize = count.parse().unwrap_or(1);
        let piece = piece.repeat(alloc, count)?;
        text.push_str(piece.as_str())?;
    }
    Ok(text)
}

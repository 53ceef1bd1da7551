//! Clusters at the ends of a text, and kinds of characters.
ghost use Rattle.line_buffer.specs.Offset.{IsOffset, IsOffsetIfAny};
ghost use Rattle.std.specs.Prelude.{◌≡◌, nat_le, ◌≤◌, IfSome, ◌==◌, ◌-◌, length, take, IsCharBoundary};
ghost use Rattle.std.specs.List.{concat, prefix_len, suffix_len};
ghost use Rattle.line_buffer.specs.Character.{is_alphanumeric, is_alphanumeric_cluster, is_one_alphanumeric};
ghost use Rattle.line_buffer.specs.Cluster.{behind_first, before_last, clusters};
ghost use Rattle.line_buffer.specs.ClusterStart.{cluster_start};
ghost use Rattle.line_buffer.specs.Line.{is_no_newline};
ghost use Rattle.line_buffer.specs.Transpose.{first_alphanumeric};
ghost use Rattle.line_buffer.specs.Lines.{line_above, next_line};

use crate::movement::RepeatCount;
use crate::printable::are_plain;
use unicode_segmentation::UnicodeSegmentation;

/// Returns the text after its first `n` clusters.
fn behind_first(text: &str, n: RepeatCount) -> &str
    ensures { result.now ≡ behind_first n text.now }
{
    match behind_plain(text, usize::from(n)) {
        Some(rest) => rest,
        None => behind_clusters(text, n),
    }
}

/// The same where the first `n` bytes and the next one are printable ASCII or newlines, of which
/// each is a cluster. Else `None`.
fn behind_plain(text: &str, n: usize) -> Option<&str>
    ensures { IfSome result (λ rest. rest.now ≡ behind_first n text.now) }
{
    let front = text.as_bytes().get(..=n)?;
    if !are_plain(front) {
        return None;
    }
    Some(&text[n..])
}

/// The same, cluster by cluster.
fn behind_clusters(text: &str, n: RepeatCount) -> &str
    ensures { result.now ≡ behind_first n text.now }
{
    let mut rest = text.graphemes(true);
    for _ in 0..n {
        let Some(_) = rest.next() else {
            return "";
        };
    }
    rest.as_str()
}

/// Returns the text before its last `n` clusters.
fn before_last(text: &str, n: RepeatCount) -> &str
    ensures { result.now ≡ before_last n text.now }
{
    match before_plain(text, usize::from(n)) {
        Some(front) => front,
        None => before_clusters(text, n),
    }
}

/// The same where the last `n` bytes and the one before are printable ASCII or newlines, of which
/// each is a cluster. Else `None`.
fn before_plain(text: &str, n: usize) -> Option<&str>
    ensures { IfSome result (λ front. front.now ≡ before_last n text.now) }
{
    let end = text.len().checked_sub(n)?;
    if end == 0 || !are_plain(&text.as_bytes()[end - 1..]) {
        return None;
    }
    Some(&text[..end])
}

/// The same, cluster by cluster.
fn before_clusters(text: &str, n: RepeatCount) -> &str
    ensures { result.now ≡ before_last n text.now }
{
    let mut rest = text.graphemes(true);
    for _ in 0..n {
        let Some(_) = rest.next_back() else {
            return "";
        };
    }
    rest.as_str()
}

/// Returns the length of the first `n` clusters of the text.
pub(crate) fn first_len(text: &str, n: RepeatCount) -> usize
    ensures { IsOffset result text.now (length (concat (take n (clusters text.now)))) }
{
    text.len() - behind_first(text, n).len()
}

/// Returns where the last `n` clusters of the text begin.
pub(crate) fn last_start(text: &str, n: RepeatCount) -> usize
    ensures { IsOffset result text.now (length (before_last n text.now)) }
{
    before_last(text, n).len()
}

/// Returns where the cluster of the text begins that holds the byte at `place`. Where the text ends
/// before that byte, it is the text's end.
pub fn cluster_start(text: &str, place: usize) -> usize
    ensures { IsOffset result text.now (cluster_start text.now place) }
{
    let mut rest = text.graphemes(true);
    let mut start = 0;
    while let Some(_) = rest.next() {
        let end = text.len() - rest.as_str().len();
        if place < end {
            return start;
        }
        start = end;
    }
    start
}

/// Returns the length of the text up to its first newline, or of all of it.
pub(crate) fn first_line_len(text: &str) -> usize
    ensures { IsOffset result text.now (prefix_len is_no_newline text.now) }
{
    text.find('\n').unwrap_or(text.len())
}

/// Returns where the text goes on after its last newline, or its start.
pub(crate) fn last_line_start(text: &str) -> usize
    ensures { IsOffset result text.now (length text.now - suffix_len is_no_newline text.now) }
{
    match text.rfind('\n') {
        Some(newline) => newline + 1,
        None => 0,
    }
}

/// Of a text that ends where a line begins: where the line above begins, or `None` where the text
/// does not end in a newline.
pub(crate) fn line_above(text: &str) -> Option<usize>
    ensures offset { IsOffsetIfAny result text.now (line_above text.now) }
    ensures up { IfSome result (λ place. place ≤ length text.now) }
{
    let above = text.strip_suffix('\n')?;
    Some(last_line_start(above))
}

/// Returns where the text goes on after its first newline, or `None` where it has none.
pub(crate) fn next_line(text: &str) -> Option<usize>
    ensures { IsOffsetIfAny result text.now (next_line text.now) }
{
    let newline = text.find('\n')?;
    Some(newline + 1)
}

/// Returns whether the character is a letter or a digit of ASCII, or past ASCII and no white space.
pub(crate) fn is_alphanumeric(c: char) -> bool
    ensures { result ≡ is_alphanumeric c }
{
    if c.is_ascii() {
        c.is_ascii_alphanumeric()
    } else {
        !c.is_whitespace()
    }
}

/// Returns whether all characters of the text are alphanumeric.
pub(crate) fn is_alphanumeric_text(text: &str) -> bool
    ensures { result ≡ is_alphanumeric_cluster text.now }
{
    text.chars().all(is_alphanumeric)
}

/// Returns where the first alphanumeric cluster of the text begins, if there is one.
pub(crate) fn first_alphanumeric(text: &str) -> Option<usize>
    ensures { IsOffsetIfAny result text.now (first_alphanumeric text.now) }
{
    let mut rest = text.graphemes(true);
    let mut at = 0;
    while let Some(cluster) = rest.next() {
        if is_alphanumeric_text(cluster) {
            return Some(at);
        }
        at = text.len() - rest.as_str().len();
    }
    None
}

/// Returns whether the text is one cluster.
pub(crate) fn is_one_cluster(text: &str) -> bool
    ensures { result ≡ (length (clusters text.now) == 1) }
{
    if are_plain(text.as_bytes()) {
        return text.len() == 1;
    }
    let mut left = text.graphemes(true);
    left.next().is_some() && left.next().is_none()
}

/// Returns whether the text has two clusters or more.
pub(crate) fn has_two_clusters(text: &str) -> bool
    ensures { result ≡ nat_le 2 (length (clusters text.now)) }
{
    text.graphemes(true).nth(1).is_some()
}

/// Returns whether the text is one cluster of alphanumeric characters.
pub(crate) fn is_one_alphanumeric(text: &str) -> bool
    ensures { result ≡ is_one_alphanumeric text.now }
{
    is_one_cluster(text) && is_alphanumeric_text(text)
}

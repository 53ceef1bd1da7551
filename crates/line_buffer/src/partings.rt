//! Places where the clusters of a text part, whatever stands before and after: between two
//! characters of printable ASCII or newlines.
ghost use Rattle.std.specs.Prelude.{◌≡◌, ◌<◌, ◌≤◌, length, take, IsCharBoundary};
ghost use Rattle.line_buffer.specs.Cluster.{PartsClusters};
ghost use Rattle.line_buffer.specs.Printable.{meets_plain};

use crate::printable::is_plain_byte;

/// Returns a place where the clusters of the text part, in bytes: of the characters in front that
/// are such ones, the last, and else the first place where two of them meet. It is the text's
/// length where none is known, and where all are such ones.
pub fn first_parting(text: &str) -> usize
    ensures place { IsCharBoundary text.now result }
    ensures some { 0 < length text.now → 0 < result }
    ensures parts { PartsClusters text.now result }
{
    let bytes = text.as_bytes();
    let mut in_front = false;
    for place in 1..bytes.len() {
        let meets = meet_plain(bytes, place);
        if meets && !in_front && place > 1 {
            return place;
        }
        if in_front && !meets {
            return place - 1;
        }
        in_front = meets;
    }
    text.len()
}

/// Returns whether two such characters meet at byte `place`.
fn meet_plain(text: &[u8], place: usize) -> bool
    requires some { 0 < place }
    requires within { place < length text.now }
    ensures { result ≡ meets_plain text.now place }
{
    is_plain_byte(text[place - 1]) && is_plain_byte(text[place])
}

/// Returns the last place before byte `end` where two such characters meet, in bytes, or 0 where
/// none do. There the clusters of the text up to `end` part too.
pub fn last_parting(text: &str, end: usize) -> usize
    requires { IsCharBoundary text.now end }
    ensures place { IsCharBoundary text.now result }
    ensures within { result ≤ end }
    ensures parts { PartsClusters text.now result }
    ensures before { PartsClusters (take end text.now) result }
{
    let bytes = text.as_bytes();
    for place in (1..end).rev() {
        if meet_plain(bytes, place) {
            return place;
        }
    }
    0
}

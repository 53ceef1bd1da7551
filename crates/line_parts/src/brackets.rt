//! Brackets in the bytes of a text.
ghost use Rattle.std.specs.Prelude.{◌≡◌, ◌<◌, ◌+◌, ◌-◌, true, length, IfSome, if◌then◌else◌};
ghost use Rattle.std.specs.Prelude.{slice_index};
ghost use Rattle.line_parts.specs.Brackets.{is_bracket, is_close, is_open, partner};
ghost use Rattle.line_parts.specs.BracketMatch.{bracket_at, has_room, looked_at, match_of};
ghost use Rattle.line_parts.specs.BracketMatch.{count_away as ways_away, under_or_before};

/// A bracket, and the place where it was seen.
#[derive(Clone, Copy)]
pub struct Seen {
    /// The bracket, a byte of ASCII.
    pub bracket: u8,
    /// The byte of the text at which it stood.
    pub place: usize,
}

// Returns whether a byte is an opening bracket.
#[tactic(auto, unfolding(crate::specs::Brackets::is_open))]
pub(crate) fn is_open(byte: u8) -> bool
    ensures { result ≡ is_open byte }
{
    matches!(byte, b'(' | b'[' | b'{')
}

// Returns whether a byte is a closing bracket.
#[tactic(auto, unfolding(crate::specs::Brackets::is_close))]
pub(crate) fn is_close(byte: u8) -> bool
    ensures { result ≡ is_close byte }
{
    matches!(byte, b')' | b']' | b'}')
}

// Returns the other bracket of the same kind.
#[tactic(auto, unfolding(crate::specs::Brackets::partner))]
pub(crate) fn partner(bracket: u8) -> u8
    ensures { result ≡ partner bracket }
{
    match bracket {
        b'(' => b')',
        b')' => b'(',
        b'[' => b']',
        b']' => b'[',
        b'{' => b'}',
        b'}' => b'{',
        other => other,
    }
}

#[tactic(auto, unfolding(crate::specs::Brackets::is_open, crate::specs::Brackets::is_close))]
/// Returns the bracket at a byte of a text, if one stands there: one of `()[]{}`.
pub fn bracket_at(line: &[u8], place: usize) -> Option<Seen>
    ensures seen { result ≡ bracket_at line.now place }
    ensures bracket { IfSome result (λ s. is_bracket s.bracket ≡ true) }
    ensures within { IfSome result (λ s. s.place < length line.now) }
    ensures single { IfSome result (λ s. slice_index line.now place < 128) }
{
    match line.get(place) {
        Some(byte) if is_open(*byte) || is_close(*byte) => Some(Seen {
            bracket: *byte,
            place,
        }),
        _ => None,
    }
}

// Returns the bracket under the cursor, else the one before it.
fn under_or_before(line: &[u8], pos: usize) -> Option<Seen>
    ensures { result ≡ under_or_before line.now pos }
{
    match bracket_at(line, pos) {
        Some(seen) => Some(seen),
        None if pos > 0 => bracket_at(line, pos - 1),
        None => None,
    }
}

// Returns whether anything stands where the match of a bracket would be.
fn has_room(line: &[u8], seen: Seen) -> bool
    requires { seen.place < length line.now }
    ensures { result ≡ has_room line.now seen }
{
    if is_open(seen.bracket) {
        seen.place < line.len() - 1
    } else {
        seen.place > 0
    }
}

// Returns the bracket that is looked at with the cursor at `pos`.
pub(crate) fn look_at(line: &[u8], pos: usize) -> Option<Seen>
    ensures seen { result ≡ looked_at line.now pos }
    ensures bracket { IfSome result (λ s. is_bracket s.bracket ≡ true) }
{
    if pos >= line.len() {
        let last = bracket_at(line, line.len().saturating_sub(1))?;
        return if is_close(last.bracket) {
            Some(last)
        } else {
            None
        };
    }
    let seen = under_or_before(line, pos)?;
    if has_room(line, seen) {
        Some(seen)
    } else {
        None
    }
}

// Returns how many of `len` bytes lead away from a bracket.
fn count_away(opens: bool, place: usize, len: usize) -> usize
    requires { place < len }
    ensures { result ≡ ways_away opens place len }
{
    if opens { len - 1 - place } else { place }
}

// Returns the place of one of the bytes that lead away from a bracket.
fn away(opens: bool, place: usize, len: usize, distance: usize) -> usize
    requires place { place < len }
    requires within { distance < ways_away opens place len }
    ensures place { result ≡ (if opens then place + 1 + distance else place - 1 - distance) }
    ensures within { result < len }
{
    if opens {
        place + 1 + distance
    } else {
        place - 1 - distance
    }
}

/// Returns the place of the match of a bracket, in bytes. The bracket counts as standing where it
/// was seen, whatever stands there now. Brackets of its own kind alone are counted, from its place
/// on or back, up to the first at which as many open as close. `None` where there is no such place.
pub fn find_match(line: &[u8], seen: Seen) -> Option<usize>
    requires bracket { is_bracket seen.bracket ≡ true }
    requires within { seen.place < length line.now }
    ensures place { result ≡ match_of line.now seen.bracket seen.place }
    ensures within { IfSome result (λ at. at < length line.now) }
    ensures partner { IfSome result (λ at. slice_index line.now at ≡ partner seen.bracket) }
    ensures single { IfSome result (λ at. slice_index line.now at < 128) }
{
    let opens = is_open(seen.bracket);
    let other = partner(seen.bracket);
    let mut unmatched: usize = 1;
    for distance in 0..count_away(opens, seen.place, line.len()) {
        let at = away(opens, seen.place, line.len(), distance);
        if line[at] == seen.bracket {
            unmatched += 1;
        } else if line[at] == other {
            unmatched -= 1;
            if unmatched == 0 {
                return Some(at);
            }
        }
    }
    None
}

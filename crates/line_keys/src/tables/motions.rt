//! What is read after the first key of a command of Vi: the motion of an operator, or the character
//! of a replacement.
ghost use Rattle.std.specs.Prelude.{◌≡◌};
ghost use Rattle.line_keys.specs.Command.{command_of};
ghost use Rattle.line_keys.specs.Motion.{bracket_motion, char_motions, is_own_key, motion_at, motion_of, multiplied, operated, operated_to_bracket, own_char, replaced_by, word_place};
ghost use Rattle.line_keys.specs.Row.{motion_value};

use crate::cmd::Cmd;
use crate::keys::{KeyCode as K, KeyEvent, KeyEvent as E, Modifiers as M};
use crate::tables::{Motion, Operator, SearchKind};
use line_buffer::{At, Movement, RepeatCount, Word};

impl Operator {
    /// Returns whether a key is the operator's own, its plain character. After the operator it
    /// stands for the whole line.
    pub fn is_own_key(self, key: KeyEvent) -> bool
        ensures { result ≡ is_own_key self key }
    {
        match key {
            E(K::Char(c), M::NONE) => c == self.own_char(),
            _ => false,
        }
    }

    // Returns the character of the operator.
    fn own_char(self) -> char
        ensures { result ≡ own_char self }
    {
        match self {
            Operator::Change => 'c',
            Operator::Delete => 'd',
            Operator::Yank => 'y',
            Operator::Indent => '>',
            Operator::Dedent => '<',
        }
    }

    /// Returns the command that does this to what a movement covers.
    pub fn over(self, movement: Movement) -> Cmd
        ensures { command_of result ≡ operated self movement }
    {
        match self {
            Operator::Change => Cmd::Replace(movement, None),
            Operator::Delete => Cmd::Kill(movement),
            Operator::Yank => Cmd::ViYankTo(movement),
            Operator::Indent => Cmd::Indent(movement),
            Operator::Dedent => Cmd::Dedent(movement),
        }
    }

    /// Returns the operator's command over the text from the bracket at the cursor to its match;
    /// `Unknown` for `Indent` and `Dedent`.
    pub fn to_bracket(self) -> Cmd
        ensures { command_of result ≡ operated_to_bracket self }
    {
        match self {
            Operator::Change => Cmd::ReplaceToBracket(None),
            Operator::Delete => Cmd::KillToBracket,
            Operator::Yank => Cmd::YankToBracket,
            Operator::Indent | Operator::Dedent => Cmd::Unknown,
        }
    }

    // Returns the motion of %: after < and > it is none.
    fn bracket_motion(self) -> Motion
        ensures { motion_value result ≡ bracket_motion self }
    {
        match self {
            Operator::Indent | Operator::Dedent => Motion::None,
            Operator::Change | Operator::Delete | Operator::Yank => Motion::Bracket,
        }
    }

    // Returns where the operator leads after w and W: to the end of a word, or to the start of the
    // next.
    fn word_place(self) -> At
        ensures { result ≡ word_place self }
    {
        match self {
            Operator::Change => At::AfterEnd,
            _ => At::Start,
        }
    }
}

/// Returns the motion of a key after an operator, with its count. The operator's own key is no
/// motion here.
pub fn motion_of_key(operator: Operator, key: KeyEvent, n: RepeatCount) -> Motion
    ensures { motion_value result ≡ motion_of operator key n }
{
    match key {
        E(K::Char(c), M::NONE) => char_motion(operator, c, n),
        E(K::Char('H'), M::CTRL) | E(K::Backspace, M::NONE) => {
            Motion::Covers(Movement::BackwardChar(n))
        }
        _ => Motion::None,
    }
}

// Returns the motion of a plain character after an operator, with its count.
fn char_motion(operator: Operator, c: char, n: RepeatCount) -> Motion
    ensures { motion_value result ≡ motion_at char_motions c operator n }
{
    Motion::Covers(match c {
        '$' => Movement::EndOfLine,
        '%' => return operator.bracket_motion(),
        '0' => Movement::BeginningOfLine,
        '^' => Movement::ViFirstPrint,
        'b' => Movement::BackwardWord(n, Word::Vi),
        'B' => Movement::BackwardWord(n, Word::Big),
        'e' => Movement::ForwardWord(n, At::AfterEnd, Word::Vi),
        'E' => Movement::ForwardWord(n, At::AfterEnd, Word::Big),
        'w' => Movement::ForwardWord(n, operator.word_place(), Word::Vi),
        'W' => Movement::ForwardWord(n, operator.word_place(), Word::Big),
        'f' => return Motion::Search(n, SearchKind::Forward),
        'F' => return Motion::Search(n, SearchKind::Backward),
        't' => return Motion::Search(n, SearchKind::ForwardBefore),
        'T' => return Motion::Search(n, SearchKind::BackwardAfter),
        ';' => return Motion::SearchAgain(n),
        ',' => return Motion::SearchBack(n),
        'h' => Movement::BackwardChar(n),
        'l' | ' ' => Movement::ForwardChar(n),
        'j' | '+' => Movement::LineDown(n),
        'k' | '-' => Movement::LineUp(n),
        _ => return Motion::None,
    })
}

/// Returns the count of a motion together with its operator's, or the greatest count.
pub fn multiplied(n: RepeatCount, m: RepeatCount) -> RepeatCount
    ensures { result ≡ multiplied n m }
{
    n.saturating_mul(m)
}

/// Returns the command that puts a character in place of so many clusters, by the key that is read:
/// a plain character. Esc does nothing, and another key is unknown.
pub fn replaced_by(n: RepeatCount, key: KeyEvent) -> Cmd
    ensures { command_of result ≡ replaced_by n key }
{
    match key {
        E(K::Char(c), M::NONE) => Cmd::ReplaceChar(n, c),
        E(K::Esc, M::NONE) => Cmd::Noop,
        _ => Cmd::Unknown,
    }
}

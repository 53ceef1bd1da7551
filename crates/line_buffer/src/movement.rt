ghost use Rattle.std.specs.Prelude.{◌≡◌};
ghost use Rattle.line_buffer.specs.Search.{opposite};

/// How many times a command or a movement is repeated.
pub type RepeatCount = u16;

/// What a word is made of.
#[derive(Debug, Clone, Copy, PartialEq, Eq)]
pub enum Word {
    /// Clusters that are not blank.
    Big,
    /// Alphanumeric clusters.
    Emacs,
    /// Alphanumeric clusters and `_`; other clusters that are not blank make words of their own.
    Vi,
}

/// Where on a word a movement ends.
#[derive(Debug, Clone, Copy, PartialEq, Eq)]
pub enum At {
    /// At the word's start.
    Start,
    /// Before the word's last cluster.
    BeforeEnd,
    /// After the word's last cluster.
    AfterEnd,
}

/// A search for a character in the line.
#[derive(Debug, Clone, Copy, PartialEq, Eq)]
pub enum CharSearch {
    /// To the character, after the cursor.
    Forward(char),
    /// To the place one character before it, after the cursor.
    ForwardBefore(char),
    /// To the character, before the cursor.
    Backward(char),
    /// To the place after it, before the cursor.
    BackwardAfter(char),
}

impl CharSearch {
    /// Returns the same search in the other direction.
    pub fn opposite(self) -> CharSearch
        ensures { result ≡ opposite self }
    {
        match self {
            CharSearch::Forward(c) => CharSearch::Backward(c),
            CharSearch::ForwardBefore(c) => CharSearch::BackwardAfter(c),
            CharSearch::Backward(c) => CharSearch::Forward(c),
            CharSearch::BackwardAfter(c) => CharSearch::ForwardBefore(c),
        }
    }
}

/// A part of the line, named by where it leads from the cursor.
#[derive(Debug, Clone, PartialEq, Eq, Drop)]
pub enum Movement {
    /// The cursor's line, without its newline.
    WholeLine,
    /// To the start of the cursor's line.
    BeginningOfLine,
    /// To the end of the cursor's line.
    EndOfLine,
    /// So many words back.
    BackwardWord(RepeatCount, Word),
    /// So many words on.
    ForwardWord(RepeatCount, At, Word),
    /// To a character, so many times.
    ViCharSearch(RepeatCount, CharSearch),
    /// To the first character of the cursor's line that is not blank; from a blank line, to that of
    /// a later line.
    ViFirstPrint,
    /// So many clusters back.
    BackwardChar(RepeatCount),
    /// So many clusters on.
    ForwardChar(RepeatCount),
    /// So many lines up.
    LineUp(RepeatCount),
    /// So many lines down.
    LineDown(RepeatCount),
    /// The whole text.
    WholeBuffer,
    /// To the start of the text.
    BeginningOfBuffer,
    /// To the end of the text.
    EndOfBuffer,
}

//! What the keys' tables ask of the editor.
ghost use Rattle.std.specs.Prelude.{◌≡◌, ℕ, ◌↔◌, List, IfOk, OnOk, OnErr, IsTrue, is_some, option_map, option_and_then, length, string_bytes, IsCharBoundary};
ghost use Rattle.line_buffer.specs.Changes.{last_insert_of};
ghost use Rattle.line_config.specs.Error.{MemoryOnly};
ghost use Rattle.line_keys.specs.Model.Draft.{hinted, unhinted, in_group, out_of_group, without_changes};
ghost use Rattle.line_keys.specs.Model.Drawing.{Refreshes, Undrawn, behind_prompt, with_hint, with_text};

use crate::editor_state::EditorState;
use line_config::Result;
use line_parts::CmdKind;

/// An input mode of Vi.
#[derive(Clone, Copy, PartialEq, Eq)]
pub enum InputMode {
    /// Keys are commands.
    Command,
    /// Keys are text.
    Insert,
    /// Keys are text in place of what is there.
    Replace,
}

/// Gives the text that is being edited.
pub trait Invoke {
    ghost input_text: { Self → List ℕ };

    /// Returns the whole text.
    fn input(&self) -> &str
        ensures { result.now ≡ input_text self.now };
}

impl Invoke for &str {
    ghost input_text = { λ s. s.now };

    fn input(&self) -> &str {
        self
    }
}

/// The editor, as far as reading a command needs it: it draws the line, asks for hints, and groups
/// changes.
///
/// Every call leaves the text, the cursor and the history index.
///
/// # Errors
/// `Io` if the renderer fails, or if the helper or the history fails where it is asked for a hint,
/// and `Memory` if memory runs out. Where a call draws, the changes and the kept layout then stay,
/// and the hint is the one from before or the one that was to be drawn. What the screen shows is
/// not specified: draw again.
pub trait Refresher: EditorState {
    /// Asks for the hint and draws all again.
    fn refresh_line(&mut self) -> Result<()>
        ensures { let e = Self.EditorState in Refreshes e result self.old self.new
            (hinted (e.environment self.old) (e.draft self.old)) with_hint };

    /// Takes the hint away, and draws all again with a message, if there is one, after the line.
    fn refresh_line_with_msg(&mut self, msg: Option<&str>, kind: CmdKind) -> Result<()>
        ensures { let e = Self.EditorState in Refreshes e result self.old self.new
            (unhinted (e.draft self.old)) (with_text (option_map (λ s. s.now) msg.entry) kind) };

    /// Asks for the hint and draws all again, with another prompt in place of the editor's.
    fn refresh_prompt_and_line(&mut self, prompt: &str) -> Result<()>
        ensures { let e = Self.EditorState in Refreshes e result self.old self.new
            (hinted (e.environment self.old) (e.draft self.old)) (behind_prompt prompt.now) };

    /// Opens a group of changes.
    ///
    /// # Errors
    /// `Memory` if memory runs out. The changes are then gone. All else of the line stays, and
    /// nothing is drawn.
    fn doing_insert(&mut self) -> Result<()>
        ensures draft { OnOk result (Self.draft self.new ≡ in_group (Self.draft self.old)) }
        ensures err { OnErr result (Self.draft self.new ≡ without_changes (Self.draft self.old)) }
        ensures undrawn { Undrawn Self.EditorState self.old self.new }
        ensures memory { MemoryOnly result };

    /// Closes every open group of changes.
    ///
    /// # Errors
    /// `Memory` if memory runs out. The changes are then gone. All else of the line stays, and
    /// nothing is drawn.
    fn done_inserting(&mut self) -> Result<()>
        ensures draft { OnOk result (Self.draft self.new ≡ out_of_group (Self.draft self.old)) }
        ensures err { OnErr result (Self.draft self.new ≡ without_changes (Self.draft self.old)) }
        ensures undrawn { Undrawn Self.EditorState self.old self.new }
        ensures memory { MemoryOnly result };

    /// Returns the text that was inserted last: that of the newest insert or replacement, unless a
    /// group was begun or a text deleted since.
    ///
    /// # Errors
    /// `Memory` if memory runs out.
    fn last_insert(&self) -> Result<Option<String>>
        ensures text { IfOk result (λ text.
            option_map string_bytes text ≡ last_insert_of (Self.draft self.now).changes.entries) }
        ensures memory { MemoryOnly result };

    /// Returns whether the cursor is at the end of the text.
    fn is_cursor_at_end(&self) -> bool
        ensures { let line = (Self.draft self.now).line in
            IsTrue result ↔ (line.cursor ≡ length line.text) };

    /// Returns whether there is a hint.
    fn has_hint(&self) -> bool
        ensures { result ≡ is_some (Self.draft self.now).hint };

    /// Returns what the hint completes the line with, if there is one and it can be taken.
    fn hint_text(&self) -> Option<&str>
        ensures { option_map (λ s. s.now) result
            ≡ option_and_then (λ hint. hint.completion) (Self.draft self.now).hint };

    /// Returns the whole text.
    fn line(&self) -> &str
        ensures { result.now ≡ (Self.draft self.now).line.text };

    /// Returns the cursor's byte offset.
    fn pos(&self) -> usize
        ensures value { result ≡ (Self.draft self.now).line.cursor }
        ensures boundary { IsCharBoundary (Self.draft self.now).line.text result };
}

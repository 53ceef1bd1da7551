//! A line as it is drawn, which stays while no renderer and no prompt is lent to it.
ghost use Rattle.std.specs.Prelude.{◌≡◌};
ghost use Rattle.line_state.specs.Kept.{IsLeftOn, display_on, kept_of_drawn};

use crate::drawn::Drawn;
use crate::renderer::Renderer;
use crate::screen_state::ScreenState;
use crate::view::View;
use line_buffer::{Layout, Position};
use line_config::Prompt;

/// A line as it is drawn: its layout, what is known of the screen, and whether characters are
/// highlighted.
#[derive(Drop)]
pub struct DrawnLine {
    // Where the own prompt ends.
    pub(crate) prompt_size: Position,
    pub(crate) layout: Layout,
    // Whether the renderer is known to stand at the kept cursor, with the line drawn.
    pub(crate) in_place: bool,
    // Whether the kept cursor was last drawn as that of a line after the own prompt.
    pub(crate) at_cursor: bool,
    // Whether what is shown of the line is known to be printable ASCII and newlines, and how many
    // characters at its end are known to be printable then.
    pub(crate) shows_plain: bool,
    pub(crate) printable_at_end: usize,
    // Whether characters are highlighted that the next drawing has to show without their colors.
    pub(crate) highlight_char: bool,
}

impl<'out, 'prompt, W: Renderer, P: Prompt> View<'out, 'prompt, W, P> {
    /// Returns the drawn line, and the renderer and the prompt that were lent to the view. Nothing
    /// is drawn.
    pub fn release(self) -> (DrawnLine, &'out mut W, &'prompt P)
        ensures display { ⟦<Self as Drawn>⟧.display self.entry ≡ display_on (kept_of_drawn result.0)
            (W.surface result.1.now) (W.screen result.1.now) (P.raw_text result.2.now) }
        ensures left { IsLeftOn (kept_of_drawn result.0)
            (W.surface result.1.now) (W.screen result.1.now) (P.raw_text result.2.now) }
        ensures beside { W.beside result.1.now ≡ ⟦<Self as Drawn>⟧.beside self.entry }
        ensures redraws { W.redraws result.1.now ≡ ⟦<Self as Drawn>⟧.redraws self.entry }
        ensures failures { W.failures result.1.now ≡ ⟦<Self as Drawn>⟧.failures self.entry }
        ensures loan { result.1.ghost_name ≡ ⟦<Self as Drawn>⟧.loan self.entry }
    {
        let View { out, prompt, drawn } = self;
        (drawn, out, prompt)
    }

    /// Returns the view of a drawn line, on the renderer and after the prompt that it was drawn
    /// with. Nothing is drawn.
    pub fn resume(drawn: DrawnLine, out: &'out mut W, prompt: &'prompt P) -> Self
        requires { IsLeftOn (kept_of_drawn drawn)
            (W.surface out.old) (W.screen out.old) (P.raw_text prompt.now) }
        ensures display { ⟦<Self as Drawn>⟧.display result ≡ display_on (kept_of_drawn drawn)
            (W.surface out.old) (W.screen out.old) (P.raw_text prompt.now) }
        ensures beside { ⟦<Self as Drawn>⟧.beside result ≡ W.beside out.old }
        ensures redraws { ⟦<Self as Drawn>⟧.redraws result ≡ W.redraws out.old }
        ensures failures { ⟦<Self as Drawn>⟧.failures result ≡ W.failures out.old }
        ensures loan { ⟦<Self as Drawn>⟧.loan result ≡ out.entry.ghost_name }
    {
        View { out, prompt, drawn }
    }
}

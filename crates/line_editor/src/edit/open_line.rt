//! A line that is open for editing, and how it is kept while nothing is lent to it: what a program
//! with a loop of its own holds between two reads.
ghost use Rattle.std.specs.Prelude.{◌≡◌, ◌≤◌, length, option_map};
ghost use Rattle.line_editor.specs.Editor.{EditorBegins};
ghost use Rattle.line_parts.specs.Helped.{environment_by, sure_by};
ghost use Rattle.line_state.specs.Kept.{IsLeftOn, display_on};

use crate::edit::State;
use line_buffer::LineBuffer;
use line_config::Prompt;
use line_keys::editor_state::EditorState;
use line_parts::helper_context::HelperContext;
use line_parts::{Context, Helper, History};
use line_state::{DrawnLine, EditedLine, Renderer, ScreenState, View};
use std::alloc::Global;
use std::marker::Model;

/// A line that is open for editing: the line with its changes, the line that was left for the
/// history, and the hint.
pub(crate) struct OpenLine<H: Helper> {
    pub(crate) edited: EditedLine,
    pub(crate) saved_line_for_history: LineBuffer,
    pub(crate) hint: Option<H::Hint>,
}

impl<H: Helper> Drop for OpenLine<H> {
    fn drop(self) {
        let OpenLine {
            edited: _,
            saved_line_for_history: _,
            hint: _,
        } = self;
    }
}

/// A line while nothing is lent to it: the open line, its history index, and how it is drawn.
#[derive(Drop)]
pub struct KeptLine<H: Helper> {
    line: OpenLine<H>,
    history_index: usize,
    drawn: DrawnLine,
}

impl<H: Helper> Model for KeptLine<H> {
    ghost use Rattle.std.specs.Prelude.{option_map};
    ghost use Rattle.line_editor.specs.Released.{KeptDraft};
    ghost use Rattle.line_parts.specs.Hint.{suggestion_of};
    ghost use Rattle.line_state.specs.Kept.{kept_of_drawn};

    ghost Value = { KeptDraft };

    ghost view = { λ k. record {
      draft = record {
        line = k.line.edited.line;
        saved = k.line.saved_line_for_history;
        index = k.history_index;
        hint = option_map (suggestion_of H.Hint.Hint) k.line.hint;
        changes = k.line.edited.changes;
      };
      drawing = kept_of_drawn k.drawn;
    } };
}

impl<H: Helper> KeptLine<H> {
    /// Returns the whole text.
    pub fn line(&self) -> &str
        ensures { result.now ≡ self.now.draft.line.text }
    {
        self.line.edited.line().as_str()
    }

    /// Returns the cursor's byte offset, which is on a character boundary.
    pub fn pos(&self) -> usize
        ensures { result ≡ self.now.draft.line.cursor }
    {
        self.line.edited.line().pos()
    }
}

impl<'out, 'prompt, W: Renderer, H: Helper, P: Prompt, S: History> State<
    'out,
    'prompt,
    W,
    H,
    P,
    S,
> {
    /// Ends the state. Returns the line, which `resume` takes up again, and the renderer and the
    /// helper that were lent. Nothing is drawn and nothing changes.
    pub fn release(self) -> (KeptLine<H>, &'out mut W, Option<&'out mut H>)
        ensures draft { result.0.draft ≡ ⟦<Self as EditorState>⟧.draft self.entry }
        ensures display { let d = ⟦<Self as EditorState>⟧.display self.entry in d ≡ display_on
            result.0.drawing (W.surface result.1.now) (W.screen result.1.now) d.prompt }
        ensures left { IsLeftOn result.0.drawing (W.surface result.1.now)
            (W.screen result.1.now) (⟦<Self as EditorState>⟧.display self.entry).prompt }
        ensures redraws { W.redraws result.1.now ≡ ⟦<Self as EditorState>⟧.redraws self.entry }
        ensures failures { W.failures result.1.now ≡ ⟦<Self as EditorState>⟧.failures self.entry }
        ensures loan { (result.1.ghost_name, option_map (λ h. h.ghost_name) result.2)
            ≡ ⟦<Self as EditorState>⟧.loan self.entry }
        ensures environment { let w = ⟦<Self as EditorState>⟧.environment self.entry in
            w ≡ environment_by H.hint_at H.verdict_at H.lights H.Completer result.2 w.lines }
        ensures sure { let s = ⟦<Self as EditorState>⟧.sure self.entry in
            s ≡ sure_by H.Hinter.sure H.Validator.sure H.Completer.sure s.history result.2 }
        ensures within { result.0.draft.index
            ≤ length (⟦<Self as EditorState>⟧.environment self.entry).lines }
    {
        let State {
            alloc: _,
            line,
            view,
            context,
        } = self;
        let (drawn, out, _) = view.release();
        let (helper, ctx) = context.release();
        let history_index = ctx.history_index();
        let kept = KeptLine {
            line,
            history_index,
            drawn,
        };
        (kept, out, helper)
    }

    /// Returns the edit state of a line that was kept, on the renderer and after the prompt that it
    /// was drawn with. Nothing is drawn and nothing changes. The history has at least as many lines
    /// as the line's history index says.
    pub fn resume(
        alloc: Global,
        kept: KeptLine<H>,
        out: &'out mut W,
        prompt: &'prompt P,
        helper: Option<&'out mut H>,
        history: &'out S,
    ) -> Self
        requires left { IsLeftOn kept.drawing
            (W.surface out.old) (W.screen out.old) (P.raw_text prompt.now) }
        requires within { kept.draft.index ≤ length (S.lines history.now) }
        ensures { EditorBegins ⟦<Self as EditorState>⟧ result kept.draft
            (environment_by H.hint_at H.verdict_at H.lights H.Completer
            helper.entry (S.lines history.now))
            (sure_by H.Hinter.sure H.Validator.sure H.Completer.sure (S.sure history.now) helper.entry)
            (display_on kept.drawing
            (W.surface out.old) (W.screen out.old) (P.raw_text prompt.now))
            (W.failures out.old) (W.redraws out.old)
            (out.entry.ghost_name, option_map (λ h. h.ghost_name) helper.entry) }
    {
        let KeptLine {
            line,
            history_index,
            drawn,
        } = kept;
        let mut ctx = Context::new(history);
        ctx.set_history_index(history_index);
        State {
            alloc,
            line,
            view: View::resume(drawn, out, prompt),
            context: HelperContext::new(helper, ctx),
        }
    }
}

//! How the line is validated, and the hint taken away.
ghost use Rattle.std.specs.Prelude.{◌≡◌, ◌||◌, if◌then◌else◌, is_some, IfOk, OnOk};
ghost use Rattle.line_buffer.specs.Changes.{adds_end};
ghost use Rattle.line_buffer.specs.Line.{ends_in_white_space};
ghost use Rattle.line_editor.specs.Accept.{unhinted_by, validated};
ghost use Rattle.line_editor.specs.Drawings.{unhinted_drawn, verdict_drawn};
ghost use Rattle.line_editor.specs.DrawnVerdict.{draws_verdict_on, kind_of_verdict};
ghost use Rattle.line_keys.specs.Model.Draft.{in_group, out_of_group, unhinted};
ghost use Rattle.line_keys.specs.Model.Drawing.{DoesAsking, nothing, with_text};
ghost use Rattle.line_keys.specs.Model.ShownLine.{LosesHint, ShowsNoHint};
ghost use Rattle.line_parts.specs.Asks.{for_verdict, nobody};
ghost use Rattle.line_parts.specs.Environment.{verdict_on};
ghost use Rattle.line_parts.specs.Verdict.{message_of, verdict_of};

use crate::edit::State;
use line_config::{Prompt, Result};
use line_keys::editor_state::EditorState;
use line_keys::refresher::Refresher;
use line_parts::{CmdKind, Helper, History, ValidationResult};
use line_state::Renderer;

impl<'out, 'prompt, W: Renderer, H: Helper, P: Prompt, S: History> State<
    'out,
    'prompt,
    W,
    H,
    P,
    S,
> {
    /// Asks the helper to validate the line, inside a group of changes, and draws the line with the
    /// message of the validation result where there is something to show or to take away. Returns
    /// the result; without a helper every line is valid.
    ///
    /// # Errors
    /// `Io` if the validator or the renderer fails, and `Memory` if memory runs out. The text, its
    /// cursor and its changes then stay, but open groups of changes may have ended, and the hint
    /// may be an earlier one or none. Where memory ran out the line may also be any text, without
    /// changes and with any hint. The saved line and the history index stay. The kept layout and
    /// what the screen shows are not specified: draw the line again.
    #[tactic(auto, using(crate::proofs::EditLemmas::no_verdict, crate::proofs::EditLemmas::not_validated, crate::proofs::EditLemmas::was_validated))]
    pub fn validate(&mut self) -> Result<ValidationResult>
        ensures verdict { let e = ⟦<Self as EditorState>⟧ in IfOk result (λ r.
            verdict_of r ≡ verdict_on (e.environment self.old) (e.draft self.old).line.text) }
        ensures does { let e = ⟦<Self as EditorState>⟧ in
            let w = e.environment self.old in let d = e.draft self.old in
            DoesAsking e for_verdict result self.old self.new (validated w d)
            (verdict_drawn w d) 1 }
        ensures no_hint { let e = ⟦<Self as EditorState>⟧ in
            OnOk result (ShowsNoHint e self.old → ShowsNoHint e self.new) }
    {
        if !self.context.has_validator() {
            return Ok(ValidationResult::Valid(None));
        }
        let (verdict, corrected) = self.ask_verdict()?;
        self.show_verdict(&verdict, corrected)?;
        Ok(verdict)
    }

    // Asks the helper for a validation result, inside a group of changes. Returns it, and whether
    // closing the group added a change.
    #[tactic(auto, using(crate::proofs::DrawnLemmas::line_stays, crate::proofs::DrawnLemmas::no_hint_stays))]
    fn ask_verdict(&mut self) -> Result<(ValidationResult, bool)>
        ensures verdict { let e = ⟦<Self as EditorState>⟧ in IfOk result (λ r.
            verdict_of r.0 ≡ verdict_on (e.environment self.old) (e.draft self.old).line.text) }
        ensures corrected { let c = (in_group (⟦<Self as EditorState>⟧.draft self.old)).changes in
            IfOk result (λ r. r.1 ≡ adds_end c.open_groups c.entries) }
        ensures does { let e = ⟦<Self as EditorState>⟧ in
            DoesAsking e for_verdict result self.old self.new
            (out_of_group (in_group (e.draft self.old))) nothing 1 }
        ensures no_hint { let e = ⟦<Self as EditorState>⟧ in
            OnOk result (ShowsNoHint e self.old → ShowsNoHint e self.new) }
    {
        self.line.edited.begin_group()?;
        let verdict = self.context.validate(self.alloc, self.line.edited.line());
        let corrected = self.line.edited.end_groups()?;
        Ok((verdict?, corrected))
    }

    #[tactic(auto, using(crate::proofs::DrawnLemmas::message_trails, crate::proofs::DrawnLemmas::message_behind, crate::proofs::DrawnLemmas::line_stays, crate::proofs::DrawnLemmas::no_hint_stays))]
    // Draws the line with the message of a validation result, where there is something to show or
    // to take away.
    fn show_verdict(&mut self, verdict: &ValidationResult, corrected: bool) -> Result<()>
        requires { let e = ⟦<Self as EditorState>⟧ in verdict_of verdict.now
            ≡ verdict_on (e.environment self.old) (e.draft self.old).line.text }
        ensures does { let e = ⟦<Self as EditorState>⟧ in
            let v = verdict_of verdict.now in let d = e.draft self.old in
            DoesAsking e nobody result self.old self.new (unhinted_by v d)
            (if draws_verdict_on v (corrected || is_some d.hint)
            then with_text (message_of v) (kind_of_verdict v) else nothing) 1 }
        ensures no_hint { let e = ⟦<Self as EditorState>⟧ in
            OnOk result (ShowsNoHint e self.old → ShowsNoHint e self.new) }
    {
        let (message, kind) = match verdict {
            ValidationResult::Incomplete => return Ok(()),
            ValidationResult::Valid(message) => (message, CmdKind::ForcedRefresh),
            ValidationResult::Invalid(message) => (message, CmdKind::Other),
        };
        if corrected || self.has_hint() || message.is_some() {
            self.refresh_line_with_msg(message.as_ref().map(|m| m.as_str()), kind)?;
        }
        Ok(())
    }

    // Takes the hint away: by a full redraw without it, where a hint is there, a character is
    // highlighted or another prompt is shown.
    pub(crate) fn drop_hint(&mut self) -> Result<()>
        ensures does { let e = ⟦<Self as EditorState>⟧ in let d = e.draft self.old in
            DoesAsking e nobody result self.old self.new (unhinted d)
            (unhinted_drawn (e.display self.old) d) 1 }
        ensures loses { OnOk result (LosesHint ⟦<Self as EditorState>⟧ self.old self.new) }
    {
        if self.has_hint() || self.view.highlight_char() || !self.is_default_prompt() {
            self.refresh_line_with_msg(None, CmdKind::ForcedRefresh)?;
        }
        Ok(())
    }

    // Returns whether only white space stands from the cursor on.
    pub(crate) fn is_end_of_input(&self) -> bool
        ensures { result ≡ ends_in_white_space (⟦<Self as EditorState>⟧.draft self.now).line }
    {
        self.line.edited.line().is_end_of_input()
    }
}

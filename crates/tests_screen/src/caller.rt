//! The caller in the CALLING.md of `line_editor`.
ghost use Rattle.std.specs.Prelude.{◌≡◌, OnOk};
ghost use Rattle.line_editor.specs.DraftEdits.{typed_in};

use line_config::{Prompt, Result};
use line_editor::State;
use line_keys::editor_state::EditorState;
use line_parts::{Helper, History};
use line_state::Renderer;

/// Types a character, and says what the draft is then.
pub fn type_in<'out, 'prompt, W: Renderer, H: Helper, P: Prompt, S: History>(
    state: &mut State<'out, 'prompt, W, H, P, S>,
    c: char,
) -> Result<()>
    ensures { let e = ⟦<State<'out, 'prompt, W, H, P, S> as EditorState>⟧ in OnOk result
        (e.draft state.new ≡ typed_in (e.environment state.old) 1 c (e.draft state.old)) }
{
    state.edit_insert(c, 1)?;
    Ok(())
}

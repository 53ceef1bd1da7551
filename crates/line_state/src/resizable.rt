//! What draws on a screen that can have another size.
ghost use Rattle.std.specs.Prelude.{◌≡◌, ◌<◌};
ghost use Rattle.line_keys.specs.Model.Display.{KeepsShown};
ghost use Rattle.line_state.specs.ScreenState.{ResizesTo};

use crate::renderer::Renderer;
use line_buffer::Unit;

/// A renderer whose screen can be given another size. `View::resized` and `State::resized` ask for
/// it, and so does `Editor::resize` of `line_session`. A renderer for a screen that keeps its size
/// has no need of it.
pub trait Resizable: Renderer {
    /// Gives the screen another number of columns and of rows. Nothing is drawn, and the cursor
    /// counts as standing where it stood. What is known of it then is not specified: a full redraw
    /// is to follow.
    fn resize(&mut self, columns: Unit, rows: Unit)
        requires { 0 < columns }
        ensures surface { ResizesTo columns rows (Self.surface self.old) (Self.surface self.new) }
        ensures position { (Self.screen self.new).position ≡ (Self.screen self.old).position }
        ensures shown { KeepsShown (Self.screen self.old) (Self.screen self.new) }
        ensures beside { Self.beside self.new ≡ Self.beside self.old }
        ensures redraws { Self.redraws self.new ≡ Self.redraws self.old }
        ensures failures { Self.failures self.new ≡ Self.failures self.old };
}

//! Commands that a host binds to keys.
ghost use Rattle.std.specs.Prelude.{◌≡◌, [], OnErr, OnOk, Some};
ghost use Rattle.line_config.specs.Error.{MemoryOnly};
ghost use Rattle.line_editor.specs.Binding.{Rebinds, answers, bound_of};
ghost use Rattle.line_editor.specs.Event.{chord_of};
ghost use Rattle.line_host.specs.Bound.{bound};
ghost use Rattle.line_keys.specs.Command.{command_of};

use line_config::Result;
use line_editor::binding::{ConditionalEventHandler, EventHandler, NoHandler};
use line_editor::{Bindings, Event};
use line_keys::cmd::Cmd;
use std::alloc::Global;
use std::marker::Model;

/// Commands that are bound to keys, each to others: keys that are bound again have the new command.
#[derive(Drop)]
pub struct BoundCommands {
    bindings: Bindings<NoHandler>,
}

impl Model for BoundCommands {
    ghost use Rattle.line_host.specs.Bound.{BoundCommands, bound_commands};

    ghost Value = { BoundCommands };

    ghost view = { λ b. bound_commands b.bindings };
}

impl BoundCommands {
    /// Returns no commands.
    pub fn new(alloc: Global) -> BoundCommands
        ensures { result ≡ [] }
    {
        BoundCommands {
            bindings: Bindings::of_handlers(alloc),
        }
    }

    /// Binds an input event to a command, in place of the one that it was bound to, if it was.
    ///
    /// # Errors
    /// `Memory` if memory runs out. Nothing is then bound.
    pub fn bind(&mut self, event: Event, command: Cmd) -> Result<()>
        ensures bound { OnOk result (Rebinds (bound self.old) (bound self.new) (chord_of event)
            (answers (Some (command_of command)))) }
        ensures kept { OnErr result (self.new ≡ self.old) }
        ensures memory { MemoryOnly result }
    {
        self.bindings.insert(event, EventHandler::from(command))?;
        Ok(())
    }

    /// Returns the bindings, which keys are looked up in.
    pub fn bindings(&self) -> &Bindings<NoHandler>
        ensures { bound_of ⟦<NoHandler as ConditionalEventHandler>⟧ result.now ≡ bound self.now }
    {
        &self.bindings
    }
}

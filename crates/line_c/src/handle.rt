//! The pointer that C keeps.
ghost use Rattle.std.specs.Prelude.{◌≡◌, Option, None, Some};
ghost use Rattle.std.specs.Option.{MatchOption};
ghost use Rattle.std.specs.Coded.{coded_option};
ghost use Rattle.line_host.specs.contracts.session.Session.{the_row};

use crate::loose::Loose;
use line_host::session::Session;
use std::alloc::Global;
use std::marker::Model;
use std::mem;
use std::ptr::null_mut;

/// Holds a session, or nothing. C sees one pointer, which is null at first.
#[repr(C)]
pub struct Handle {
    at: *mut u8,
    alloc: Global,
    pub ghost session: { Option the_row.Denot } by { coded_option the_row.coded },
}

impl Model for Handle {
    ghost use Rattle.line_host.specs.contracts.session.Session.{the_row};
    ghost use Rattle.line_c.specs.Handle.{owned};

    ghost also_owns = { λ h. owned the_row h.alloc h.at h.session };
}

impl Handle {
    /// Returns a handle that holds nothing.
    pub fn empty(alloc: Global) -> Handle
        ensures { result.session ≡ None }
    {
        Handle {
            at: null_mut(),
            alloc,
        }
    }

    /// Returns a handle that holds this session.
    pub fn of(loose: Loose<Session, Global>) -> Handle
        ensures { result.session ≡ Some loose.value }
    {
        let Loose { at, alloc } = loose;
        Handle {
            at: at as *mut u8,
            alloc,
        }
    }

    /// Returns the session that the handle holds, if it holds one.
    pub fn into_loose(self) -> Option<Loose<Session, Global>>
        ensures { MatchOption result (self.session ≡ None) (λ l. self.session ≡ Some l.value) }
    {
        let Handle { at, alloc } = self;
        if at.is_null() {
            None
        } else {
            Some(Loose {
                at: at as *mut Session,
                alloc,
            })
        }
    }

    /// Takes the session out of the handle, if it holds one.
    pub fn take(&mut self, alloc: Global) -> Option<Box<Session>>
        ensures after { self.new.session ≡ None }
        ensures taken { MatchOption result
            (self.old.session ≡ None) (λ b. self.old.session ≡ Some b.value) }
    {
        match mem::replace(self, Handle::empty(alloc)).into_loose() {
            Some(loose) => Some(loose.into_box()),
            None => None,
        }
    }

    /// Puts a session into the handle, which holds none.
    pub fn put(&mut self, session: Box<Session>)
        requires { self.old.session ≡ None }
        ensures { self.new.session ≡ Some session.value }
    {
        let old = mem::replace(self, Handle::of(Loose::of(session)));
        if let Some(loose) = old.into_loose() {
            drop(loose.into_box());
        }
    }
}

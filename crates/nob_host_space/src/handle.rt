//! The handle.

ghost use Rattle.std.specs.Prelude.{◌≡◌, MatchOption};
ghost use Rattle.std.specs.declared.option.Option.{Option};
ghost use Rattle.std.specs.declared.option.Option.TheVariants.{None, Some};
ghost use Rattle.std.specs.contracts.impls.GlobalAllocator.TheImpl.{ghosts};
ghost use Rattle.nob_host_space.specs.contracts.host.Host.{the_row as host_row};
ghost use Rattle.std.specs.Coded.{codes};
ghost use Rattle.nob_pickle.specs.Marks.{trees_code};
ghost use Rattle.nob_host_space.specs.declared.host.Host.{Host as HostOf};
ghost use Rattle.nob_host_space.specs.Kept.{kept};

use crate::Host;
use crate::loose::Loose;
use std::alloc::Global;
use std::marker::Model;
use std::ptr::null_mut;

/// One pointer, which owns the host that it keeps, or is null and keeps none. It crosses to other
/// languages as that pointer. Letting a handle go forgets the host that it keeps.
#[repr(C)]
#[derive(Drop)]
pub struct Handle {
    at: *mut u8,
    alloc: Global,
    /// The host that it keeps.
    pub ghost held: { Option HostOf } by { Prim.hlevel (codes, trees_code) },
}

impl Model for Handle {
    ghost also_owns = { λ handle. kept (ghosts.dealloc_token handle.alloc) host_row handle.at
        handle.held };
}

impl Handle {
    // A handle that keeps nothing.
    fn dead(alloc: Global) -> Handle
        ensures { result.held ≡ None }
    {
        let at: *mut u8 = null_mut();
        Handle { at, alloc }
    }

    // A handle that keeps what a box held.
    fn of(loose: Loose<Host, Global>) -> Handle
        ensures { result.held ≡ Some loose.value }
    {
        let Loose { at, alloc } = loose;
        Handle {
            at: at as *mut u8,
            alloc,
        }
    }

    // The pointer of what it keeps, if it keeps something.
    fn into_loose(self) -> Option<Loose<Host, Global>>
        ensures { MatchOption result (self.held ≡ None) (λ loose. self.held ≡ Some loose.value) }
    {
        let Handle { at, alloc } = self;
        if at.is_null() {
            None
        } else {
            Some(Loose {
                at: at as *mut Host,
                alloc,
            })
        }
    }

    /// The host that the handle keeps, if it keeps one. It keeps nothing then.
    pub fn take(&mut self, alloc: Global) -> Option<Box<Host>>
        ensures taken { MatchOption result (self.old.held ≡ None)
            (λ host. self.old.held ≡ Some host.value) }
        ensures empty { self.new.held ≡ None }
    {
        let full = std::mem::replace(self, Handle::dead(alloc));
        let loose = full.into_loose()?;
        Some(loose.into_box())
    }

    /// The handle keeps this host from now on. The caller's condition: it keeps nothing.
    pub fn put(&mut self, host: Box<Host>)
        requires { self.old.held ≡ None }
        ensures { self.new.held ≡ Some host.value }
    {
        *self = Handle::of(Loose::of(host));
    }
}

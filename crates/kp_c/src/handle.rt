//! A handle: a producer, or none.

ghost use Rattle.std.specs.Prelude.{◌≡◌, Option, Some, None, is_some, IsSome, IfSome, IfNone};
ghost use Rattle.kp_embed.specs.Producer.{Producer};

use crate::parts::Parts;
use kp_embed::Embed;
use std::alloc::Global;
use std::marker::Model;

/// What C sees of a producer: nothing.
#[repr(C)]
pub struct Opaque {
    private: u8,
}

/// A boxed producer as its pointer, or none.
#[repr(C)]
#[derive(Drop)]
pub struct Sealed {
    at: *mut Opaque,
    alloc: Global,
    pub ghost value: { Option Producer },
}

impl Model for Sealed {
    ghost use Rattle.kp_embed.specs.contracts.embed.Embed.{the_row as embed_row};
    ghost use Rattle.kp_c.specs.Held.{held};

    ghost also_owns = { λ s. held embed_row s.alloc s.at s.value };
}

impl Sealed {
    fn none(alloc: Global) -> Sealed
        ensures { result.value ≡ None }
    {
        Sealed {
            at: std::ptr::null_mut(),
            alloc,
        }
    }

    fn of_parts(parts: Parts<Embed, Global>) -> Sealed
        ensures { result.value ≡ Some parts.value }
    {
        let Parts { at, alloc } = parts;
        Sealed {
            at: at as *mut Opaque,
            alloc,
        }
    }

    fn into_parts(self) -> Parts<Embed, Global>
        requires { IsSome self.value }
        ensures { self.value ≡ Some result.value }
    {
        let Sealed { at, alloc } = self;
        Parts {
            at: at as *mut Embed,
            alloc,
        }
    }
}

unsafe impl Send for Sealed {}

/// A producer, or none. C makes none by zeros, and neither reads nor writes its fields.
#[repr(C)]
#[derive(Drop)]
pub struct KpProducer {
    sealed: Sealed,
    full: bool,
    ghost agrees: { full ≡ is_some sealed.value },
}

impl KpProducer {
    /// Takes the producer out: none is left.
    pub(crate) fn take(&mut self, alloc: Global) -> Option<Box<Embed, Global>>
        ensures some { IfSome result (λ b. self.old.sealed.value ≡ Some b.value) }
        ensures none { IfNone result (self.old.sealed.value ≡ None) }
        ensures left { self.new.sealed.value ≡ None }
    {
        if !self.full {
            return None;
        }
        let empty = KpProducer {
            sealed: Sealed::none(alloc),
            full: false,
        };
        let KpProducer { sealed, full: _ } = std::mem::replace(self, empty);
        Some(sealed.into_parts().into_box())
    }

    /// Puts a producer in, where there is none.
    pub(crate) fn put(&mut self, producer: Box<Embed, Global>)
        requires { self.old.sealed.value ≡ None }
        ensures { self.new.sealed.value ≡ Some producer.value }
    {
        *self = KpProducer {
            sealed: Sealed::of_parts(Parts::of(producer)),
            full: true,
        };
    }
}

/// A handle may go to another thread, where C orders the calls on it.
pub(crate) fn handed_over(producer: KpProducer) -> KpProducer {
    crossing(producer)
}

fn crossing<T: Send>(value: T) -> T {
    value
}

//! A box as its pointer, and the box of a handle as C holds it.
ghost use Rattle.std.specs.Prelude.{◌≡◌, Option, Some, None, IsTrue, is_some};
ghost use Rattle.std.specs.Box.Ownership.{box_owns};
ghost use Rattle.std.specs.contracts.impls.GlobalAllocator.TheImpl.{ghosts};
ghost use Rattle.cc_passes.specs.declared.handle_inner.HandleInner.{HandleInner};
ghost use Rattle.cc_passes.specs.contracts.handle_inner.HandleInner.{the_row};
ghost use Rattle.cc_passes.specs.HandleBox.{boxed_owns};

use crate::handle_inner::HandleInner;
use std::alloc::{Allocator, Global};
use std::marker::Model;

/// A box that was taken apart: its pointer, which owns the value, and its allocator.
pub struct RawBox<T, A: Allocator> {
    pub at: *mut T,
    pub alloc: A,
    pub ghost value: { T },
}

impl<T, A: Allocator> Model for RawBox<T, A> {
    ghost also_owns = { λ l. box_owns (A.dealloc_token l.alloc) T.row l.at l.value };
}

impl<T: Drop, A: Allocator> RawBox<T, A> {
    /// Takes a box apart.
    pub fn of(value: Box<T, A>) -> RawBox<T, A>
        ensures { result.value ≡ value.value }
    {
        let (at, alloc) = Box::into_raw_with_allocator(value);
        RawBox { at, alloc }
    }

    /// The box again.
    pub fn into_box(self) -> Box<T, A>
        ensures { result.value ≡ self.value }
    {
        let RawBox { at, alloc } = self;
        unsafe { Box::from_raw(alloc, at) }
    }
}

/// The box of a handle, or nothing. It releases nothing by itself: the handle takes the box out by `into_box`.
#[repr(C)]
#[derive(Drop)]
pub struct HandleBox {
    at: *mut (),
    alloc: Global,
    pub ghost value: { Option HandleInner },
}

impl Model for HandleBox {
    ghost also_owns = { λ h. boxed_owns (ghosts.dealloc_token h.alloc) the_row h.at h.value };
}

impl HandleBox {
    /// Nothing.
    pub(crate) fn none(at: *mut (), alloc: Global) -> HandleBox
        ensures { result.value ≡ None }
    {
        HandleBox { at, alloc }
    }

    /// A box that was taken apart.
    pub(crate) fn pack(whole: RawBox<HandleInner, Global>) -> HandleBox
        ensures { result.value ≡ Some whole.value }
    {
        let RawBox { at, alloc } = whole;
        HandleBox {
            at: at as *mut (),
            alloc,
        }
    }

    /// The same back.
    pub(crate) fn unpack(self) -> RawBox<HandleInner, Global>
        requires { IsTrue (is_some self.value) }
        ensures { Some result.value ≡ self.value }
    {
        let HandleBox { at, alloc } = self;
        RawBox {
            at: at as *mut HandleInner,
            alloc,
        }
    }

    /// The box.
    pub(crate) fn into_box(self) -> Box<HandleInner>
        requires { IsTrue (is_some self.value) }
        ensures { Some result.value ≡ self.value }
    {
        let whole = self.unpack();
        whole.into_box()
    }
}

unsafe impl Send for HandleBox {}

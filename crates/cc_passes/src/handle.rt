//! A handle, as C holds it.
ghost use Rattle.std.specs.Prelude.{◌≡◌, Some, None, is_some, MatchOption};
ghost use Rattle.cc_passes.specs.Closures.{MayRun, RunsWith};

use crate::abandoned::Abandoned;
use crate::handle_inner::HandleInner;
use crate::raw_box::{HandleBox, RawBox};
use crate::return_codes::NO_PASS;
use std::alloc::Global;
use std::mem::replace;
use std::ptr::null_mut;

/// A pass, or nothing if it is not live; then the remains of the pass that it held and that was abandoned.
#[repr(C)]
#[derive(Drop)]
pub struct Handle {
    pub boxed: HandleBox,
    pub live: bool,
    pub abandoned: Abandoned,
    ghost is_live: { is_some boxed.value ≡ live },
}

impl Handle {
    /// A handle that holds this.
    pub fn of(held: Box<HandleInner>) -> Handle
        ensures { result.boxed.value ≡ Some held.value }
    {
        Handle {
            boxed: HandleBox::pack(RawBox::of(held)),
            live: true,
            abandoned: Abandoned::none(),
        }
    }

    /// Holds this in place of nothing.
    pub fn hold(&mut self, held: Box<HandleInner>)
        requires { self.old.boxed.value ≡ None }
        ensures { self.new.boxed.value ≡ Some held.value }
    {
        self.boxed = HandleBox::pack(RawBox::of(held));
        self.live = true;
    }

    /// The content of the handle, which is empty afterwards.
    pub fn take(&mut self, alloc: Global) -> Option<Box<HandleInner>>
        ensures after { self.new.boxed.value ≡ None }
        ensures abandoned { self.new.abandoned.value ≡ None }
        ensures taken { MatchOption result (self.old.boxed.value ≡ None) (λ b. self.old.boxed.value ≡ Some b.value) }
    {
        let Handle {
            boxed,
            live,
            abandoned: _,
        } = replace(self, Handle::empty(alloc));
        if live {
            return Some(boxed.into_box());
        }
        None
    }

    /// Runs this with the content of the handle: its code. An empty handle has the code NO_PASS.
    #[inline(always)]
    pub fn with<F: FnMut(&mut HandleInner) -> u32>(&mut self, alloc: Global, call: &mut F) -> u32
        requires { MayRun F.FnMut call.old }
        ensures { RunsWith F.FnMut call.old self.old.boxed.value self.new.boxed.value result call.new }
    {
        let Some(mut held) = self.take(alloc) else {
            return NO_PASS;
        };
        let code = call(&mut held);
        self.hold(held);
        code
    }

    /// A handle that holds nothing.
    pub fn empty(alloc: Global) -> Handle
        ensures held { result.boxed.value ≡ None }
        ensures abandoned { result.abandoned.value ≡ None }
    {
        let at = null_mut();
        Handle {
            boxed: HandleBox::none(at, alloc),
            live: false,
            abandoned: Abandoned::none(),
        }
    }
}

/// A value that may cross threads.
fn sent<T: Send>(value: T) -> T
    ensures { result ≡ value }
{
    value
}

/// A handle may cross threads: `sent` asks for it.
pub fn is_sent(handle: Handle) -> Handle
    ensures { result ≡ handle }
{
    sent(handle)
}

//! The rule of a lock's table, and what each step of its callers does.
use atomic_table::{Play, TableRule};
use std::marker::PhantomData;

/// What a thread knows: the key of the lock, the log that the thread has seen, and whether the thread has the value. It is
/// ghost state: no value of this type is made.
pub struct Sight<E, K> {
    pub key: K,
    pub seen: E,
    pub has: bool,
}

/// What is kept under a lock. A value of type `T` has a log of type `E`, and the lock has a key of type `K`, which never
/// changes.
pub trait Kept<T, E, K> {
    /// The log of a lock that nobody has looked at.
    ghost start: { E };

    /// The log of a value.
    ghost log: { T → E };

    /// The second log goes on from the first.
    ghost grows: { E → E → Type 0 };

    ghost same: { (a : E) → grows a a };

    ghost onward: { (a b c : E) → grows a b → grows b c → grows a c };

    /// The invariant: what holds of each value that is given back.
    ghost holds: { K → T → Type 0 };
}

/// The rule. If the word is 0, the value is in its slot, and has the whole log. Else one seat has the value, and has seen
/// the whole log.
pub struct Guard<C> {
    kind: PhantomData<C>,
}

impl<T, E, K, C: Kept<T, E, K>> TableRule<Option<T>, Sight<E, K>, K> for Guard<C> {
    ghost use Rattle.cc_guard.specs.Guard.{Guarded, sight};
    ghost use Rattle.std.specs.Prelude.{false};

    ghost holds = { λ key s. Guarded C.grows C.log C.holds key s };

    ghost first = { λ key. sight key C.start false };
}

/// A load that makes a new seat.
pub struct Glance;

impl<T, E, K> Play<Option<T>, Sight<E, K>> for Glance {
    ghost use Rattle.cc_guard.specs.Guard.{looked};

    ghost then = { looked };
}

/// A compare-exchange of 0 for 1, which takes the value if the word was 0.
pub struct Grab<C> {
    kind: PhantomData<C>,
}

impl<T, E, K, C: Kept<T, E, K>> Play<Option<T>, Sight<E, K>> for Grab<C> {
    ghost use Rattle.cc_guard.specs.Guard.{grabbed};

    ghost then = { grabbed C.grows C.log C.holds };
}

/// The store of 0 after the value is back in its slot.
pub struct Release<C> {
    kind: PhantomData<C>,
}

impl<T, E, K, C: Kept<T, E, K>> Play<Option<T>, Sight<E, K>> for Release<C> {
    ghost use Rattle.cc_guard.specs.Guard.{released};

    ghost then = { released C.log };
}

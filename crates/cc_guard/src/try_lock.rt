//! The try-lock, and what a thread holds of it: a look, or the right to the value.
ghost use Rattle.std.specs.Prelude.{◌≡◌, IfOk, IfErr};
ghost use Rattle.cc_guard.specs.Guard.{IsLookAt, HasTaken, IsHoldOf};

use crate::plays::{Glance, Grab, Guard, Kept, Release, Sight};
use atomic_table::{Refused, Seat, Table};
use std::alloc::{AllocError, Global};
use std::marker::Model;

/// A value that threads share, and that one thread at a time has.
#[derive(Drop)]
pub struct TryLock<T: Drop, E, K, C: Kept<T, E, K>> {
    pub(crate) table: Table<Option<T>, Sight<E, K>, K, Guard<C>, Global>,
}

impl<T: Drop, E, K, C: Kept<T, E, K>> Model for TryLock<T, E, K, C> {
    ghost use Rattle.cc_guard.specs.Guard.{LockId, IsOne};

    ghost Value = { LockId K };

    ghost view = { λ c. record { table_id = c.table.shared.table_id; key = c.table.shared.key } };

    ghost invariant = { λ c. IsOne c.table.shared.table_id };
}

/// What a thread has seen of a lock. It is zero-sized.
#[derive(Drop)]
pub struct Look<T, E, K> {
    pub(crate) seat: Seat<Option<T>, Sight<E, K>>,
}

impl<T, E, K> Model for Look<T, E, K> {
    ghost use Rattle.cc_guard.specs.Guard.{Looked, looked_of, IsAtRest};

    ghost Value = { Looked E K };

    ghost view = { λ l. looked_of l.seat };

    ghost invariant = { λ l. IsAtRest l.seat.me };
}

/// The right to give a lock its value back. It has no `Drop`: who takes the value has to give it back.
pub struct Hold<T, E, K> {
    pub(crate) seat: Seat<Option<T>, Sight<E, K>>,
}

impl<T, E, K> Model for Hold<T, E, K> {
    ghost use Rattle.cc_guard.specs.Guard.{Looked, looked_of, IsOut};

    ghost Value = { Looked E K };

    ghost view = { λ l. looked_of l.seat };

    ghost invariant = { λ l. IsOut l.seat.me };
}

impl<T: Drop, E, K, C: Kept<T, E, K>> TryLock<T, E, K, C> {
    /// A lock with this value and this key.
    ///
    /// # Errors
    ///
    /// `AllocError` if memory was refused. The value is dropped then.
    pub fn new(alloc: Global, value: T, key: &K) -> Result<TryLock<T, E, K, C>, AllocError>
        requires begins { C.grows C.start (C.log value) }
        requires holds { C.holds key.now value }
        ensures { IfOk result (λ c. c.key ≡ key.now) }
    {
        let mut slots = Vec::with_capacity(alloc, 1)?;
        slots.push_reserved(Some(value));
        match Table::new(alloc, &[0], slots, key) {
            Ok((table, _seat)) => Ok(TryLock { table }),
            Err(Refused { slots: _ }) => Err(AllocError),
        }
    }

    /// A look for a thread that has none. It has seen some log from which the present one goes on.
    pub fn look(&self) -> Look<T, E, K>
        ensures { IsLookAt self.now result }
    {
        let (_, seat) = self.table.shared.load_new_seat::<Glance>(0);
        Look { seat }
    }

    /// Takes the value. The thread has seen the whole log then.
    ///
    /// # Errors
    ///
    /// The look, unchanged, if another thread has the value right now.
    pub fn take(&self, look: Look<T, E, K>) -> Result<(Hold<T, E, K>, T), Look<T, E, K>>
        requires { IsLookAt self.now look }
        ensures taken { IfOk result (λ r. HasTaken C.grows C.log C.holds self.now look r.0 r.1) }
        ensures same { IfErr result (λ l. l ≡ look) }
    {
        let Look { mut seat } = look;
        let shared = &self.table.shared;
        if shared.compare_exchange::<Grab<C>>(&mut seat, 0, 0, 1) != 0 {
            return Err(Look { seat });
        }
        match shared.exchange(&mut seat, 0, None) {
            Some(value) => Ok((Hold { seat }, value)),
            None => unreachable!(),
        }
    }

    /// Gives a value back, whose log goes on from the one that was taken.
    pub fn put_back(&self, hold: Hold<T, E, K>, value: T) -> Look<T, E, K>
        requires here { IsHoldOf self.now hold }
        requires grows { C.grows hold.seen (C.log value) }
        requires holds { C.holds self.now.key value }
        ensures look { IsLookAt self.now result }
        ensures seen { result.seen ≡ C.log value }
    {
        let Hold { mut seat } = hold;
        let shared = &self.table.shared;
        let None = shared.exchange(&mut seat, 0, Some(value)) else {
            unreachable!()
        };
        shared.store::<Release<C>>(&mut seat, 0, 0);
        Look { seat }
    }
}

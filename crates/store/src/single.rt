//! A bank of one store.
ghost use Rattle.std.specs.Prelude.{[], ◌∷◌};

use crate::bank::Bank;
use crate::power::Power;
use crate::store::Store;
use protocol::{Change, Record};

/// One store as a bank.
#[derive(Drop)]
pub struct Single<S> {
    pub store: S,
}

impl<S: Store> Bank for Single<S> {
    ghost meaning = { λ b. S.Store.meaning b.store ∷ [] };

    ghost lawful = { λ b. (S.Store.lawful b.store, tt) };

    fn count(&self) -> u32 {
        1
    }

    fn is_sound(&self, at: u16) -> Option<bool> {
        (at == 0).then(|| self.store.is_sound())
    }

    fn all_sound(&self) -> bool {
        self.store.is_sound()
    }

    // Here and below a `match`: with `(at == 0).then(..)` the proof did not close, since of a closure
    // that changes the store it knows no more what the store means.
    fn read(&mut self, at: u16) -> Option<Record> {
        match at {
            0 => Some(self.store.read()),
            _ => None,
        }
    }

    fn write(&mut self, at: u16, change: Change, power: Power) -> Option<bool> {
        match at {
            0 => Some(self.store.write(change, power)),
            _ => None,
        }
    }
}

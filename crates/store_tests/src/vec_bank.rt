//! A bank whose stores stand in a `Vec`.
ghost use Rattle.std.specs.Prelude.{map};
ghost use Rattle.store_tests.specs.VecBanks.{each_lawful};

use protocol::{Change, Record};
use store::{Bank, Power, Store};

/// Stores of one make, in the order of the `Vec`.
#[derive(Drop)]
pub struct VecBank<S> {
    pub stores: Vec<S>,
}

impl<S: Store> Bank for VecBank<S> {
    ghost meaning = { λ b. map S.Store.meaning b.stores.items };

    ghost lawful = { λ b. each_lawful S.Store.meaning S.Store.lawful b.stores.items };

    fn count(&self) -> u32 {
        u32::try_from(self.stores.len()).unwrap_or(u32::MAX)
    }

    fn is_sound(&self, at: u16) -> Option<bool> {
        self.stores
            .get(usize::from(at))
            .map(|store| store.is_sound())
    }

    fn all_sound(&self) -> bool {
        self.stores.iter().all(|store| store.is_sound())
    }

    fn read(&mut self, at: u16) -> Option<Record> {
        let store = self.stores.get_mut(usize::from(at))?;
        Some(store.read())
    }

    fn write(&mut self, at: u16, change: Change, power: Power) -> Option<bool> {
        let store = self.stores.get_mut(usize::from(at))?;
        Some(store.write(change, power))
    }
}

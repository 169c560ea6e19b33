//! What every bank promises.
ghost use Rattle.std.specs.Prelude.{◌≡◌, min, List, length};
ghost use Rattle.std.specs.List.{AllByRecursion};
ghost use Rattle.store.specs.Banks.{most_counted, asked, all_sound, BankWritten};
ghost use Rattle.store.specs.Stores.{Meaning, Lawful};

use crate::power::Power;
use protocol::{Change, Record};

/// Stores with the numbers from 0 on. `None` says that there is no such store.
pub trait Bank {
    /// What each store means, in the order of their numbers.
    ghost meaning: { Self → List Meaning };

    /// What holds of every store.
    ghost lawful: { (s : Self) → AllByRecursion Lawful (meaning s) };

    /// How many stores there are, or `u32::MAX` for more: it saturates, as a sum of counts does.
    fn count(&self) -> u32
        ensures { result ≡ min (length (meaning self.now)) most_counted };

    /// Whether the store is sound.
    fn is_sound(&self, at: u16) -> Option<bool>
        ensures { result ≡ asked (λ store. store.sound) (meaning self.now) at };

    /// Whether every store is sound, however many there are.
    fn all_sound(&self) -> bool
        ensures { result ≡ all_sound (meaning self.now) };

    /// The store's record.
    fn read(&mut self, at: u16) -> Option<Record>
        ensures value { result ≡ asked (λ store. store.content) (meaning self.old) at }
        ensures same { meaning self.new ≡ meaning self.old };

    /// Makes a change in the store, and answers whether the write finished: a `bool`, as a store's.
    fn write(&mut self, at: u16, change: Change, power: Power) -> Option<bool>
        ensures { BankWritten (meaning self.old) at change power result (meaning self.new) };
}

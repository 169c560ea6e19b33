//! Two banks side by side.
ghost use Rattle.std.specs.Prelude.{◌≡◌, ◌++◌};
ghost use Rattle.std.proofs.ByRecursion.{All-append};
ghost use Rattle.store.specs.Banks.{number_on_right};
ghost use Rattle.store.specs.Stores.{Lawful};

use crate::bank::Bank;
use crate::power::Power;
use protocol::{Change, Record};

/// Two banks as one: the left one's stores come first.
#[derive(Drop)]
pub struct Pair<L, R> {
    pub left: L,
    pub right: R,
}

/// The number in the right bank of the store `at` of a pair, or `None` where that is one of the
/// left bank's `left` stores.
fn number_on_right(left: u32, at: u16) -> Option<u16>
    ensures { result ≡ number_on_right left at }
{
    u32::from(at).checked_sub(left).map(|at| at as u16)
}

impl<L: Bank, R: Bank> Bank for Pair<L, R> {
    ghost meaning = { λ b. L.Bank.meaning b.left ++ R.Bank.meaning b.right };

    ghost lawful = { λ b. All-append Lawful (L.Bank.meaning b.left) (R.Bank.meaning b.right) (L.Bank.lawful b.left) (R.Bank.lawful b.right) };

    fn count(&self) -> u32 {
        self.left.count().saturating_add(self.right.count())
    }

    // The three calls by number differ in what they call: a closure for each side would be longer.
    fn is_sound(&self, at: u16) -> Option<bool> {
        match number_on_right(self.left.count(), at) {
            None => self.left.is_sound(at),
            Some(at) => self.right.is_sound(at),
        }
    }

    #[tactic(auto, using(crate::proofs::Sides::all_sound_append))]
    fn all_sound(&self) -> bool {
        self.left.all_sound() && self.right.all_sound()
    }

    fn read(&mut self, at: u16) -> Option<Record> {
        match number_on_right(self.left.count(), at) {
            None => self.left.read(at),
            Some(at) => self.right.read(at),
        }
    }

    #[tactic(auto, using(crate::proofs::Sides::written_left, crate::proofs::Sides::written_right))]
    fn write(&mut self, at: u16, change: Change, power: Power) -> Option<bool> {
        match number_on_right(self.left.count(), at) {
            None => self.left.write(at, change, power),
            Some(at) => self.right.write(at, change, power),
        }
    }
}

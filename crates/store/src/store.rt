//! What every store promises.
ghost use Rattle.std.specs.Prelude.{◌≡◌};
ghost use Rattle.store.specs.Stores.{Meaning, Lawful, Written};
ghost use Rattle.protocol.specs.declared.change.Change.TheVariants.{Term as ChangeTerm, Accept as ChangeAccept, Mark as ChangeMark};

use crate::power::Power;
use protocol::{Accepted, Change, Record, Term};

/// A place for one record that no power cut tears.
pub trait Store {
    /// The record, the write size, whether the store is sound, and what a cut may keep.
    ghost meaning: { Self → Meaning };

    /// What holds of every store.
    ghost lawful: { (s : Self) → Lawful (meaning s) };

    /// Whether the store can hold a record.
    fn is_sound(&self) -> bool
        ensures { result ≡ (meaning self.now).sound };

    /// The record. An unsound store reads as zeros.
    fn read(&mut self) -> Record
        ensures value { result ≡ (meaning self.old).content }
        ensures same { meaning self.new ≡ meaning self.old };

    /// Makes a change, and answers whether the write finished.
    // A `bool`, and no error: an unfinished write leaves a whole record too, and the definitions
    // speak of both answers alike.
    fn write(&mut self, change: Change, power: Power) -> bool
        ensures written { Written (meaning self.old) change power result (meaning self.new) };

    /// Replaces the current term.
    fn set_term(&mut self, term: Term, power: Power) -> bool
        ensures written { Written (meaning self.old) (ChangeTerm term) power result (meaning self.new) }
    {
        self.write(Change::Term(term), power)
    }

    /// Replaces the five other numbers.
    fn accept(&mut self, accepted: Accepted, power: Power) -> bool
        ensures written { Written (meaning self.old) (ChangeAccept accepted) power result (meaning self.new) }
    {
        self.write(Change::Accept(accepted), power)
    }

    /// Makes the committed configuration equal to the accepted one.
    fn mark(&mut self, power: Power) -> bool
        ensures written { Written (meaning self.old) ChangeMark power result (meaning self.new) }
    {
        self.write(Change::Mark, power)
    }
}

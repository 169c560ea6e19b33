//! A store that simply holds its record.
ghost use Rattle.std.specs.Prelude.{◌≡◌};
ghost use Rattle.store.specs.Plain.{plain};
ghost use Rattle.store.specs.Laws.{plain_lawful};

use crate::power::Power;
use crate::store::Store;
use protocol::{Change, Record};

/// A store in memory. Its write is a single byte write, so only an empty budget can cut it.
#[derive(Clone, Copy)]
pub struct PlainStore {
    content: Record,
}

impl PlainStore {
    /// A store that holds a record.
    pub fn new(content: Record) -> PlainStore
        ensures { result.content ≡ content }
    {
        PlainStore { content }
    }
}

impl Store for PlainStore {
    ghost meaning = { λ s. plain s.content };

    ghost lawful = { λ s. plain_lawful s.content };

    fn is_sound(&self) -> bool {
        true
    }

    fn read(&mut self) -> Record {
        self.content
    }

    fn write(&mut self, change: Change, power: Power) -> bool {
        if power.lands() {
            self.content = change.apply(self.content);
        }
        power.budget >= 1
    }
}

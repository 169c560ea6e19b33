//! A store that does as it likes with a cut write.
ghost use Rattle.std.specs.Prelude.{◌≡◌};
ghost use Rattle.store_tests.specs.Fickle.{fickle, fickle_lawful};

use protocol::{Change, Record};
use store::{Power, Store};

/// How many byte writes a write takes.
const SIZE: u16 = 7;

/// A cut write keeps the new record where the store was read an odd number of times, of which it tells no one.
#[derive(Clone, Copy)]
pub struct FickleStore {
    content: Record,
    read_oddly: bool,
}

impl FickleStore {
    /// A store that holds a record.
    pub fn new(content: Record) -> FickleStore
        ensures { result.content ≡ content }
    {
        FickleStore {
            content,
            read_oddly: false,
        }
    }
}

impl Store for FickleStore {
    ghost meaning = { λ s. fickle s.content };

    ghost lawful = { λ s. fickle_lawful s.content };

    fn is_sound(&self) -> bool {
        true
    }

    fn read(&mut self) -> Record {
        self.read_oddly = !self.read_oddly;
        self.content
    }

    fn write(&mut self, change: Change, power: Power) -> bool {
        let finished = power.budget >= SIZE;
        if finished || self.read_oddly {
            self.content = change.apply(self.content);
        }
        finished
    }
}

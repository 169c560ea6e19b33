//! A store over lent bytes that fills its slots in turn, so that a cut never touches the current record.
ghost use Rattle.std.specs.Prelude.{◌≡◌};
ghost use Rattle.store.specs.Laws.{ring_lawful};
ghost use Rattle.store.specs.Ring.{ring, Rewritten};
ghost use Rattle.protocol.specs.declared.change.Change.TheVariants.{Term as ChangeTerm, Accept as ChangeAccept, Mark as ChangeMark};

use crate::power::Power;
use crate::ring_bytes::{Ring, read_ring, write_ring};
use crate::store::Store;
use protocol::{Accepted, Change, Record, Term};

/// A ring over lent bytes. Bytes that have not its form make it unsound.
#[derive(Drop)]
pub struct RingStore<'a> {
    bytes: &'a mut [u8],
}

impl<'a> RingStore<'a> {
    /// The store that the lent bytes hold.
    pub fn new(bytes: &'a mut [u8]) -> RingStore<'a>
        ensures value { result.bytes.now ≡ bytes.old }
        ensures lender { result.bytes.ghost_name ≡ bytes.entry.ghost_name }
    {
        RingStore { bytes }
    }
}

impl<'a> Store for RingStore<'a> {
    ghost meaning = { λ s. ring s.bytes.now };

    ghost lawful = { λ s. ring_lawful s.bytes.now };

    fn is_sound(&self) -> bool {
        Ring::open(self.bytes).is_some()
    }

    fn read(&mut self) -> Record
        ensures value { result ≡ (ring self.old.bytes.now).content }
        ensures same { ring self.new.bytes.now ≡ ring self.old.bytes.now }
        ensures bytes { self.new.bytes.now ≡ self.old.bytes.now }
        ensures lender { self.new.bytes.ghost_name ≡ self.old.bytes.ghost_name }
    {
        // Reborrowed by hand: with `read_ring(self.bytes)` the proof that the bytes stay did not close.
        let bytes = &mut *self.bytes;
        read_ring(bytes)
    }

    fn write(&mut self, change: Change, power: Power) -> bool
        ensures { Rewritten self.old change power result self.new }
    {
        write_ring(self.bytes, change, power)
    }

    // These three repeat the trait's bodies: a provided one is proved from the trait's clauses, which
    // say nothing of bytes.
    fn set_term(&mut self, term: Term, power: Power) -> bool
        ensures { Rewritten self.old (ChangeTerm term) power result self.new }
    {
        self.write(Change::Term(term), power)
    }

    fn accept(&mut self, accepted: Accepted, power: Power) -> bool
        ensures { Rewritten self.old (ChangeAccept accepted) power result self.new }
    {
        self.write(Change::Accept(accepted), power)
    }

    fn mark(&mut self, power: Power) -> bool
        ensures { Rewritten self.old ChangeMark power result self.new }
    {
        self.write(Change::Mark, power)
    }
}

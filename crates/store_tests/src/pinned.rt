//! Over our own stores a cut leaves nothing open, through a bank too: which record is read, as contracts.
ghost use Rattle.std.specs.Prelude.{◌≡◌, ◌%◌, Some};
ghost use Rattle.protocol.specs.Changes.{changed};
ghost use Rattle.protocol.specs.declared.change.Change.TheVariants.{Mark};
ghost use Rattle.store.specs.Ring.{ring, after_change};

use protocol::{Change, Record};
use store::{Bank, Pair, PlainStore, Power, RingStore, Single, Store};

/// A mark whose only byte write is caught: an odd residue keeps the new record, an even one the old.
pub fn cut_plain(content: Record, residue: u8) -> Record
    ensures oddly { residue % 2 ≡ 1 → result ≡ changed Mark content }
    ensures evenly { residue % 2 ≡ 0 → result ≡ content }
{
    let mut store = PlainStore::new(content);
    let _ = store.mark(Power { budget: 0, residue });
    store.read()
}

/// The second store of a pair, cut with an odd residue.
pub fn cut_on_the_right(left: Record, right: Record) -> Option<Record>
    ensures { result ≡ Some (changed Mark right) }
{
    let mut bank = Pair {
        left: single(PlainStore::new(left)),
        right: single(PlainStore::new(right)),
    };
    let power = Power {
        budget: 0,
        residue: 3,
    };
    let _ = bank.write(1, Change::Mark, power);
    bank.read(1)
}

/// The lent bytes after a cut at the slot number, once the ring is gone, and the record that was read.
pub fn cut_ring(bytes: &mut [u8]) -> Record
    ensures after { bytes.new ≡ after_change Mark (record { budget = 20; residue = 3 }) bytes.old }
    ensures reads { result ≡ (ring bytes.new).content }
{
    let mut store = RingStore::new(bytes);
    let _ = store.mark(Power {
        budget: 20,
        residue: 3,
    });
    store.read()
}

/// One store as a bank.
// In both test crates: a public function of `store` would say no more than the field does.
pub(crate) fn single<S>(store: S) -> Single<S>
    ensures { result.store ≡ store }
{
    Single { store }
}

//! The bytes of a ring: their form, the record that they hold, and how a record is written to them.
ghost use Rattle.std.specs.Prelude.{◌≡◌, ◌<◌, true, length, is_some, IfSome, Some};
ghost use Rattle.protocol.specs.Changes.{changed};
ghost use Rattle.store.specs.Overwriting.{spent};
ghost use Rattle.store.specs.Ring.{current_place, slots_of, current_of, well_formed, LiesIn, next_slot, left_for_number, record_in, ring, filled, turned, after_change};
ghost use Rattle.store.specs.Slots.{term_size, state_size, ReadsBack};
ghost use Rattle.store.specs.Stores.{finishes};

use crate::parts::{overwrite_at, part_at};
use crate::power::Power;
use crate::slot::{STATE, TERM, decode, encode_state};
use protocol::{Change, Record};

/// The header's bytes: how many slots, the width of a state, the current slot.
const HEADER: usize = 3;

const CURRENT: usize = 2;

const LEAST_SLOTS: u8 = 2;

const MOST_SLOTS: u8 = 16;

/// Bytes that have the form of a ring, and two numbers of their header.
#[derive(Clone, Copy)]
pub(crate) struct Ring<'a> {
    bytes: &'a [u8],
    slots: u8,
    current: u8,
    ghost form: { well_formed bytes.now ≡ true },
    ghost slots_read: { slots ≡ slots_of bytes.now },
    ghost current_read: { current ≡ current_of bytes.now },
}

impl<'a> Ring<'a> {
    /// The ring that the bytes hold, if they have its form.
    pub(crate) fn open(bytes: &'a [u8]) -> Option<Ring<'a>>
        ensures form { is_some result ≡ well_formed bytes.now }
        ensures bytes { IfSome result (λ ring. ring.bytes.now ≡ bytes.now) }
    {
        let [slots, width, current, ..] = *bytes else {
            return None;
        };
        let well_formed = (LEAST_SLOTS..=MOST_SLOTS).contains(&slots)
            && usize::from(width) == STATE
            && current < slots
            && bytes.len() == HEADER + (TERM + STATE) * usize::from(slots);
        if well_formed {
            Some(Ring {
                bytes,
                slots,
                current,
            })
        } else {
            None
        }
    }

    /// The record in the current slot.
    fn record(&self) -> Record
        ensures { result ≡ (ring self.now.bytes.now).content }
    {
        self.slot(self.current).read(self.bytes)
    }

    /// The slot after the current one; after the last comes slot 0.
    fn next(&self) -> Slot
        ensures number { result.number ≡ next_slot (slots_of self.now.bytes.now) (current_of self.now.bytes.now) }
        ensures place { LiesIn self.now.bytes.now result }
    {
        let next = self.current + 1;
        self.slot(if next < self.slots { next } else { 0 })
    }

    /// The slot with this number.
    fn slot(&self, number: u8) -> Slot
        requires { number < self.now.slots }
        ensures number { result.number ≡ number }
        ensures place { LiesIn self.now.bytes.now result }
    {
        Slot {
            number,
            term: HEADER + TERM * usize::from(number),
            state: HEADER + TERM * usize::from(self.slots) + STATE * usize::from(number),
        }
    }
}

/// A slot of a ring, and where its term and its state stand.
// That it lies in the bytes is a clause, and no field: they are written while the slot is used.
#[derive(Clone, Copy)]
struct Slot {
    number: u8,
    term: usize,
    state: usize,
}

impl Slot {
    /// The record in the slot.
    fn read(self, bytes: &[u8]) -> Record
        requires { LiesIn bytes.now self }
        ensures { result ≡ record_in self.number bytes.now }
    {
        decode(part_at(bytes, self.term), part_at(bytes, self.state))
    }

    /// Writes a record to the slot, first its term and then its state, and last makes the slot the
    /// current one. Answers whether that finished.
    fn write(self, bytes: &mut [u8], new: Record, power: Power) -> bool
        requires { LiesIn bytes.old self }
        ensures after { bytes.new ≡ turned self.number (left_for_number power) (filled self.number new power bytes.old) }
        ensures finished { result ≡ is_some (spent 1 (left_for_number power)) }
        ensures back { ReadsBack new }
    {
        let term = new.current_term.to_be_bytes();
        let state = encode_state(new);
        let left = overwrite_at(bytes, self.term, &term, Some(power));
        let left = overwrite_at(bytes, self.state, &state, left);
        turn(bytes, self.number, left)
    }
}

/// Writes the current slot number with the power that is left, and answers whether that finished.
fn turn(bytes: &mut [u8], slot: u8, power: Option<Power>) -> bool
    requires { current_place < length bytes.old }
    ensures after { bytes.new ≡ turned slot power bytes.old }
    ensures finished { result ≡ is_some (spent 1 power) }
{
    let Some(power) = power else {
        return false;
    };
    if power.lands() {
        bytes[CURRENT] = slot;
    }
    power.budget >= 1
}

/// Writes the changed record to the next slot.
pub(crate) fn write_ring(bytes: &mut [u8], change: Change, power: Power) -> bool
    ensures after { bytes.new ≡ after_change change power bytes.old }
    ensures finished { result ≡ finishes (ring bytes.old) power }
    ensures back { well_formed bytes.old ≡ true → ReadsBack (changed change (ring bytes.old).content) }
{
    let Some(ring) = Ring::open(bytes) else {
        return false;
    };
    let new = change.apply(ring.record());
    ring.next().write(bytes, new, power)
}

/// The record in the current slot, or zeros.
pub(crate) fn read_ring(bytes: &[u8]) -> Record
    ensures { result ≡ (ring bytes.now).content }
{
    Ring::open(bytes)
        .map(|ring| ring.record())
        .unwrap_or_default()
}

//! A record as the bytes of a slot: its term, and its state, which is the five other numbers.
ghost use Rattle.std.specs.Prelude.{◌≡◌};
ghost use Rattle.store.specs.Slots.{record_of, state_bytes, ReadsBack};

use protocol::Record;
use quorum::NodeSet;

/// How many bytes a term takes, and a state.
pub(crate) const TERM: usize = 4;

pub(crate) const STATE: usize = 16;

/// The record that a slot's term and state stand for.
// No `From`, here and below: a slot has its term and its state in two places.
pub(crate) fn decode(term: &[u8; TERM], state: &[u8; STATE]) -> Record
    ensures { result ≡ record_of term.now state.now }
{
    let [
        t0,
        t1,
        t2,
        t3,
        n0,
        n1,
        n2,
        n3,
        v0,
        v1,
        v2,
        v3,
        a0,
        a1,
        c0,
        c1,
    ] = *state;
    Record {
        current_term: u32::from_be_bytes(*term),
        last_accepted_term: u32::from_be_bytes([t0, t1, t2, t3]),
        last_accepted_version: u32::from_be_bytes([n0, n1, n2, n3]),
        last_accepted_value: u32::from_be_bytes([v0, v1, v2, v3]),
        last_accepted_configuration: NodeSet::from_bits(u16::from_be_bytes([a0, a1])),
        last_committed_configuration: NodeSet::from_bits(u16::from_be_bytes([c0, c1])),
    }
}

/// The state of a record: all but its current term.
// `back` goes up from here to the ring: that the numbers fit their bytes is known of code's numbers
// alone.
pub(crate) fn encode_state(content: Record) -> [u8; STATE]
    ensures bytes { result ≡ state_bytes content }
    ensures back { ReadsBack content }
{
    let [t0, t1, t2, t3] = content.last_accepted_term.to_be_bytes();
    let [n0, n1, n2, n3] = content.last_accepted_version.to_be_bytes();
    let [v0, v1, v2, v3] = content.last_accepted_value.to_be_bytes();
    let [a0, a1] = content.last_accepted_configuration.bits().to_be_bytes();
    let [c0, c1] = content.last_committed_configuration.bits().to_be_bytes();
    [
        t0, t1, t2, t3, n0, n1, n2, n3, v0, v1, v2, v3, a0, a1, c0, c1,
    ]
}

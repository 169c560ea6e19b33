//! A node of a cluster, as it decides.
ghost use Rattle.std.specs.Prelude.{◌≡◌};

use crate::setup::Setup;
use protocol::NodeState;

/// A node of a cluster, as it decides: what is fixed, its number, and what it is now.
// No `Model`, by which clauses would be shorter: a value cannot name what a bound's rule means.
#[derive(Drop)]
pub struct Member<'a, R> {
    pub setup: &'a Setup<R>,
    pub number: u8,
    pub state: &'a NodeState,
}

impl<R> Setup<R> {
    /// Node `number` of a cluster with this setup, as it is now.
    pub fn member<'a>(&'a self, number: u8, state: &'a NodeState) -> Member<'a, R>
        ensures setup { result.setup.now ≡ self.now }
        ensures number { result.number ≡ number }
        ensures state { result.state.now ≡ state.now }
    {
        Member {
            setup: self,
            number,
            state,
        }
    }
}

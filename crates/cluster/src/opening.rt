//! Opening a cluster.
ghost use Rattle.std.specs.Prelude.{◌≡◌, ℕ, ◌<◌, ◌≤◌, List, length};
ghost use Rattle.store.specs.Banks.{store_at};
ghost use Rattle.node.specs.Setups.{meant};
ghost use Rattle.cluster.specs.States.{fresh, all_fresh, opening, opened};
ghost use Rattle.cluster.specs.Clusters.{with_log};

use crate::cluster::Cluster;
use crate::nodes::Nodes;
use node::Setup;
use protocol::{Record, Refusal, Volatile};
use quorum::{MAX_NODES, NodeSet, VotingRule};
use store::Bank;

impl<B: Bank, R: VotingRule> Cluster<B, R> {
    /// Opens a cluster over a bank: a node for each store. Where that is refused, the cluster is
    /// shut, and every call on it is refused.
    pub fn open(mut bank: B, setup: Setup<R>) -> Cluster<B, R>
        ensures setup { result.setup ≡ setup }
        ensures opened { (log : List ℕ) → with_log B.meaning result.nodes log ≡ opened (meant R.quorum setup) (B.meaning bank) log }
    {
        let shut = examine(&setup, &mut bank).err();
        let nodes = Nodes {
            bank,
            volatile: [Volatile::default(); 16],
            shut,
        };
        Cluster { setup, nodes }
    }
}

// The three functions that follow are lent the bank to read it, and say that it stays: a struct
// around the bank would have to say so too.

// Whether a cluster can be opened over the bank, or why not.
fn examine<B: Bank, R: VotingRule>(setup: &Setup<R>, bank: &mut B) -> Result<(), Refusal>
    ensures same { B.meaning bank.new ≡ B.meaning bank.old }
    ensures value { result ≡ opening (meant R.quorum setup.now) (B.meaning bank.old) }
{
    if !bank.all_sound() {
        return Err(Refusal::UnsoundStore);
    }
    let count = bank.count();
    if count > u32::from(MAX_NODES) {
        return Err(Refusal::TooManyStores);
    }
    if !setup.initial_configuration.is_configuration(count as u8) {
        return Err(Refusal::IllegalInitialConfiguration);
    }
    if !are_fresh(setup, bank, count as u16) {
        return Err(Refusal::StoreNotFresh);
    }
    Ok(())
}

// Whether each store of the bank is fresh.
fn are_fresh<B: Bank, R: VotingRule>(setup: &Setup<R>, bank: &mut B, count: u16) -> bool
    requires { count ≡ length (B.meaning bank.old) }
    ensures same { B.meaning bank.new ≡ B.meaning bank.old }
    ensures value { result ≡ all_fresh (meant R.quorum setup.now) (B.meaning bank.old) }
{
    // `all` was tried, and the proof did not close: of a closure that reads the bank it knows that
    // it ran, and no longer what the bank means.
    for at in 0..count {
        if !has_fresh(setup, bank, at) {
            return false;
        }
    }
    true
}

// Whether a store of the bank is fresh.
fn has_fresh<B: Bank, R: VotingRule>(setup: &Setup<R>, bank: &mut B, at: u16) -> bool
    ensures same { B.meaning bank.new ≡ B.meaning bank.old }
    ensures value { result ≡ fresh (meant R.quorum setup.now) (store_at (B.meaning bank.old) at).content }
{
    is_fresh(setup, &bank.read(at).unwrap_or_default())
}

// Whether the record is one to start from.
fn is_fresh<R: VotingRule>(setup: &Setup<R>, kept: &Record) -> bool
    ensures { result ≡ fresh (meant R.quorum setup.now) kept.now }
{
    let fresh = Record {
        last_accepted_version: kept.last_accepted_version,
        last_accepted_value: setup.initial_value,
        ..Record::default()
    };
    *kept == fresh
}

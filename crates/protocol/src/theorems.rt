//! Theorems about the definitions, each as the contract of a function that does nothing.
ghost use Rattle.protocol.specs.Runs.{NoRunSplitsTheHistory, MessagesAreLegal};
ghost use Rattle.protocol.specs.Steps.{StepsAreTheModels};
ghost use Rattle.protocol.specs.Traces.{DescendantIsDescent};
ghost use Rattle.protocol.specs.WorkedCases.{WorkedRun};

/// After every call of every run of a cluster, over values of any type, there is one commit per
/// version, and later commits descend from earlier ones.
#[tactic(auto, using(crate::proofs::Safety::no_run_splits_the_history))]
pub fn no_run_splits_the_history<V>()
    ensures { NoRunSplitsTheHistory V }
{}

/// Every message that a run has sent is legal in its cluster, so that a cluster refuses no entry
/// that it wrote itself as unreadable.
#[tactic(auto, using(crate::proofs::MessagesAreLegal::messages_are_legal))]
pub fn messages_are_legal<V>()
    ensures { MessagesAreLegal V }
{}

/// The worked run of docs/PROTOCOL.md, by the definitions of the calls.
#[tactic(auto, unfolding(quorum::specs::Sets::member, quorum::specs::Rules::weight_below, crate::specs::Positions::position))]
pub fn worked_run()
    ensures { WorkedRun }
{}

/// The steps of the calls are the steps of the public model of docs/MODEL.md, and an opening is
/// its beginning.
#[tactic(auto, using(crate::proofs::Stepping::steps_are_the_models))]
pub fn steps_are_the_models<V>()
    ensures { StepsAreTheModels V }
{}

/// On runs from an opening, the public model's set `descendant` is descent, as read from the
/// publications in the log.
#[tactic(auto, using(crate::proofs::DescendantIsDescent::descendant_is_descent))]
pub fn descendant_is_descent<V>()
    ensures { DescendantIsDescent V }
{}

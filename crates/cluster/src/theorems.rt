//! Theorems about the definitions, each as the contract of a function that does nothing.
ghost use Rattle.cluster.specs.Runs.{NoRunSplitsTheLog, BytesAreMessages};
ghost use Rattle.cluster.specs.Models.{StepsOverBytesAreTheModels};
ghost use Rattle.cluster.specs.WorkedCases.{WorkedCases};

/// After every call of every run, over any bank's meaning, any voting rule with the laws and any
/// power, the bytes of the log are the encoding of messages, and these have one commit per
/// version, and later commits descend from earlier ones.
#[tactic(auto, using(crate::proofs::Unsplitting::no_run_splits_the_log))]
pub fn no_run_splits_the_log()
    ensures { NoRunSplitsTheLog }
{}

/// From a cleared log on, the calls over bytes are the calls on messages: the same answers, and
/// states that denote the same worlds.
#[tactic(auto, using(crate::proofs::Unsplitting::bytes_are_messages))]
pub fn bytes_are_messages()
    ensures { BytesAreMessages }
{}

/// A call over bytes is a step of the public model: it is taken exactly when the model's action is
/// enabled, the log has room and the write finishes; a write that is cut is a restart, or the
/// action and then a restart; else nothing changes. It is so in every state that calls reach from a
/// cleared log, while the cluster is open; and in any other that is sensible, where the entries of
/// the log may be any bytes.
#[tactic(auto, using(crate::proofs::Modelling::steps_over_bytes_are_the_models))]
pub fn steps_over_bytes_are_the_models()
    ensures { StepsOverBytesAreTheModels }
{}

/// Worked cases: a run of three nodes over bytes, its answers and a publication as it lies in the
/// log; a write to a ring that is cut at the slot number, with an even and with an odd residue; and
/// weights 3, 1 and 1.
#[tactic(auto, using(crate::proofs::WorkedRuns::worked_cases))]
pub fn worked_cases()
    ensures { WorkedCases }
{}

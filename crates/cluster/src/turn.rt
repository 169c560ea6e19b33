//! The turns of a run.
use crate::call::Call;
use crate::carrying::Answer;

/// A call of a run, and the place for its answer.
#[derive(Clone, Copy, PartialEq, Eq, Debug)]
pub struct Turn {
    pub call: Call,
    pub answer: Answer,
}

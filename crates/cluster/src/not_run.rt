//! A run that was refused.
use node::Setup;
use protocol::Refusal;

/// Why nothing was run, with what was to be run on.
#[derive(Drop)]
pub struct NotRun<B, R> {
    pub refusal: Refusal,
    pub bank: B,
    pub setup: Setup<R>,
}

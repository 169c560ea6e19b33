//! What a node does where nothing refuses.
use crate::change::Change;
use crate::message::{Message, Value};
use crate::volatile::Volatile;

/// What a node writes, if anything, its next volatile values, and the message that it sends, if
/// any.
#[derive(Clone, Copy, PartialEq, Eq, Debug)]
pub struct Effect<V = Value> {
    pub change: Option<Change<V>>,
    pub volatile: Volatile,
    pub message: Option<Message<V>>,
}

//! How far a state has come.

/// What a poll of a state gives, unless it is refused: its answer, or the state as it stands.
#[derive(Drop)]
pub enum Progress<T, S> {
    /// The answer.
    Ready(T),
    /// Some read goes on.
    Pending(S),
}

//! What happens in the pipe between the walk and the workers.

/// The walk puts the next start at the back of the queue, or a worker takes the one at the front. Events
/// stand in definitions, and no value of this type is made.
pub enum PipeEvent {
    Push,
    Take(u64),
}

//! The outcome of a reply that arrived.

/// What the client did with a reply that arrived.
#[derive(Clone, Copy, PartialEq, Eq)]
pub enum Heard {
    /// The reply answers a pending request, and the client keeps it.
    Answered,
    /// The reply refuses a pending request. The request stays pending, and the client keeps this as its last refusal.
    Refused,
    /// The request already has an answer, which stays.
    Repeated,
    /// The reply is for another client, for a number that was never submitted, in another version than the request, or
    /// of a kind that doesn't answer the request.
    Stranger,
}

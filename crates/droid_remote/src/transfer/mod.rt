//! Requests in flight over a connection that may break.

pub mod connection;
pub mod connection_steps;
pub mod in_flight;
pub mod known_requests;
pub mod new_connection;
pub mod reply_checks;
pub mod streams;
pub mod transfer_fault;

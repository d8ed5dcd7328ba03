//! Clients, early clients and sessions that are driven over a link.

mod client;
mod driving;
mod early;
mod early_client;
mod early_failures;
mod failures;
mod requests;
mod session;
mod sessions;
mod startup;

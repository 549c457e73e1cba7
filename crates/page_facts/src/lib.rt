//! What holds of the page of a tree that can be laid out: what painting it, hitting it and marking
//! on it need to know.
//!
//! A law is proved where it is a contract, so `laws` has functions with one that compute nothing;
//! proofs above cite `proofs/` itself.
//!
//! - Proved: on a page nothing stands out of reach, every mark can be painted, and boxes come in
//!   document order; the root's box can be stored.
//! - Knows nothing of: what is asked of a page, and of sessions.
#![tactic(auto)]

pub mod laws; // of every page

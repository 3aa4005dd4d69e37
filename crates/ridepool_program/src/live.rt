//! A script that is run while it is written: its session, its restart, the sink that gives up a wait, and what is told of
//! refused rows and of what is kept.
//! `main` calls it. It names the rooms `hints` and `notices`.

pub(crate) mod giving_sink;
pub(crate) mod refused_rows;
pub(crate) mod restart;
pub(crate) mod session;

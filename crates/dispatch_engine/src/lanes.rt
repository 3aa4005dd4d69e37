//! The lanes of a round, run at the same time over one book under the lock, and how far they have come in a
//! journal that is read. A run, a live session and an audit call it. It names `solving`, and of `outcome`
//! what a good outcome is.

mod crew;
pub(crate) mod lane;
pub(crate) mod lane_progress;
pub(crate) mod laws;
pub(crate) mod locked;
pub(crate) mod opening;
pub(crate) mod progress;
pub(crate) mod round;
pub(crate) mod shared;

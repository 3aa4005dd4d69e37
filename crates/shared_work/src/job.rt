//! Work in pieces.
ghost use Rattle.std.specs.Prelude.{ℕ, IfOk};

use pool_base::OutOfMemory;
use std::alloc::Global;

/// What is to be done of each piece.
pub trait Job: Sync {
    ghost use Rattle.std.specs.Prelude.{ℕ};

    type Out: Send + Drop;

    /// Whether the job can do a piece.
    ghost can: { Self → ℕ → Type 0 };

    /// Whether an out is right for a piece of this job.
    ghost right: { Self → ℕ → Self.Out → Type 0 };

    /// Does one piece.
    fn run(&self, alloc: Global, piece: u32) -> Result<Self::Out, OutOfMemory>
        requires { can self.now piece }
        ensures { IfOk result (λ out. right self.now piece out) };
}

//! Pieces that workers square.
ghost use Rattle.std.specs.Prelude.{◌≡◌, ◌*◌, ◌≤◌};

use pool_base::OutOfMemory;
use shared_work::{Gate, Job, run_pieces};
use std::alloc::Global;
use std::sync::atomic::{AtomicU64, Ordering};
use std::test::Fail;
use std::thread;

const TURNS: u32 = 1_000_000_000;

// The square of the piece.
#[derive(Drop)]
struct Squares;

impl Job for Squares {
    ghost use Rattle.std.specs.Prelude.{◌≡◌, ◌*◌};

    type Out = u64;

    ghost can = { λ _ _. Unit {0} };

    ghost right = { λ _ piece out. out ≡ piece * piece };

    fn run(&self, _alloc: Global, piece: u32) -> Result<u64, OutOfMemory> {
        Ok(u64::from(piece) * u64::from(piece))
    }
}

// Holds piece 0 until piece 1 was entered, or its turns run out.
#[derive(Drop)]
struct Meeting {
    entered: AtomicU64,
    ran_out: AtomicU64,
}

impl Gate for Meeting {
    fn enter(&self, piece: u32) {
        self.entered.fetch_add(1, Ordering::SeqCst);
        if piece == 0 {
            for _ in 0..TURNS {
                if self.entered.load(Ordering::SeqCst) == 2 {
                    return;
                }
                thread::yield_now();
            }
            self.ran_out.store(1, Ordering::SeqCst);
        }
    }

    fn answered(&self, _lane: u8) {}
}

#[test]
fn two_pieces_meet(rt: HostRuntime) -> Result<(), Fail> {
    let gate = Meeting {
        entered: AtomicU64::new(0),
        ran_out: AtomicU64::new(0),
    };
    let outs = run_pieces(&rt, rt.alloc(), 2, 2, &Squares, &gate)
        .ok()
        .ok_or("memory")?;
    assert_eq!(rt; outs.as_slice(), [0, 1].as_slice());
    assert_eq!(rt; gate.ran_out.load(Ordering::SeqCst), 0);
    Ok(())
}

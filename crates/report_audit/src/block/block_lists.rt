//! What the lines of a block tell.
ghost use Rattle.std.specs.Prelude.{◌≡◌, ◌++◌, ◌∷◌, [], IfOk, fold};
ghost use Rattle.report_audit.specs.block.BlockLists.{nothing_told, told_by, with_line};
ghost use Rattle.report_audit.specs.work.block.BlockLists.{told_in};

use dispatch_report::{BlockLine, LateText, TripRowText, TripText};
use pool_base::{OutOfMemory, RiderId, Sequence, VehicleId};
use request_book::MoveLine;
use std::alloc::Global;

/// The numbers and the lists of a block, these as long as they are printed; a tree by its lines.
#[derive(Drop)]
pub(crate) struct BlockLists {
    pub(crate) batch: u64,
    pub(crate) expired: Vec<RiderId>,
    pub(crate) overflow: bool,
    pub(crate) lapsed: Vec<RiderId>,
    pub(crate) late: Vec<LateText>,
    pub(crate) rv: Vec<(VehicleId, RiderId)>,
    pub(crate) rr: Vec<(RiderId, RiderId)>,
    pub(crate) rows: Vec<TripRowText>,
    pub(crate) chosen: Vec<TripText>,
    pub(crate) left: Vec<RiderId>,
    pub(crate) moves: Vec<MoveLine>,
    pub(crate) cost: u64,
    pub(crate) bound: i128,
    pub(crate) nodes: u64,
    pub(crate) tree: Vec<BlockLine>,
}

impl BlockLists {
    fn nothing(alloc: Global) -> Self
        ensures { told_in result ≡ nothing_told }
    {
        BlockLists {
            batch: 0,
            expired: Vec::new(alloc),
            overflow: false,
            lapsed: Vec::new(alloc),
            late: Vec::new(alloc),
            rv: Vec::new(alloc),
            rr: Vec::new(alloc),
            rows: Vec::new(alloc),
            chosen: Vec::new(alloc),
            left: Vec::new(alloc),
            moves: Vec::new(alloc),
            cost: 0,
            bound: 0,
            nodes: 0,
            tree: Vec::new(alloc),
        }
    }

    /// Takes what one more line tells.
    fn take(&mut self, line: BlockLine) -> Result<(), OutOfMemory>
        ensures { IfOk result (λ _. told_in self.new ≡ with_line (told_in self.old) line) }
    {
        match line {
            BlockLine::Batch(batch) => self.batch = batch,
            BlockLine::Expired(rider) => return put(&mut self.expired, rider),
            BlockLine::Overflow => self.overflow = true,
            BlockLine::Lapsed(rider) => return put(&mut self.lapsed, rider),
            BlockLine::Late(late) => return put(&mut self.late, late),
            BlockLine::Alone(pair) => return put(&mut self.rv, pair),
            BlockLine::Shared(pair) => return put(&mut self.rr, pair),
            BlockLine::TripRow(row) => return put(&mut self.rows, row),
            BlockLine::Trip(trip) => return put(&mut self.chosen, trip),
            BlockLine::Out(rider) => return put(&mut self.left, rider),
            BlockLine::Move(line) => return put(&mut self.moves, line),
            BlockLine::Cost(cost) => self.cost = cost,
            BlockLine::Bound(bound) => self.bound = bound,
            BlockLine::Nodes(nodes) => self.nodes = nodes,
            BlockLine::Branch(branch) => return put(&mut self.tree, BlockLine::Branch(branch)),
            BlockLine::Leaf(leaf) => return put(&mut self.tree, BlockLine::Leaf(leaf)),
            BlockLine::Dead => return put(&mut self.tree, BlockLine::Dead),
            BlockLine::End => {}
        }
        Ok(())
    }
}

/// What these lines tell.
pub(crate) fn told_by(alloc: Global, lines: Sequence<BlockLine>) -> Result<BlockLists, OutOfMemory>
    ensures { IfOk result (λ told. told_in told ≡ told_by lines) }
{
    let mut told = BlockLists::nothing(alloc);
    match take_all(&mut told, lines.into_vec()) {
        Ok(()) => Ok(told),
        Err(fault) => {
            drop(told);
            Err(fault)
        }
    }
}

fn take_all(told: &mut BlockLists, lines: Vec<BlockLine>) -> Result<(), OutOfMemory>
    ensures { IfOk result (λ _. told_in told.new ≡ fold with_line (told_in told.old) lines.items) }
{
    for line in lines {
        told.take(line)?;
    }
    Ok(())
}

fn put<X: Drop>(list: &mut Vec<X>, item: X) -> Result<(), OutOfMemory>
    ensures { IfOk result (λ _. list.new.items ≡ list.old.items ++ item ∷ []) }
{
    list.push(item)?;
    Ok(())
}

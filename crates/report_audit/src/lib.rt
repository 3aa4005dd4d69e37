//! An audit of a printed report: whether it is the report of a run of a script, whoever printed it.
//!
//! The lines are judged from the first on, against a book of the script's own. A yes says that the text is the report of a
//! legal run, of which every batch was closed with a good outcome; a no says where the text stops being the beginning of
//! one, and why. Nothing is searched for.
//!
//! `audit_block` judges the block of one batch: a text begins with the block of at most one good outcome, whoever printed
//! it. It is found where there is one; else it is said what is wrong: where the text is cut or a line out of form, or the
//! first point that fails.
//!
//! `read_outcome` reads the same block, and judges nothing. Of the block of a good outcome it reads this outcome.
//!
//! `judge` judges the outcome of a batch, whoever made it: good, or the first point that fails. The batch is settled and its
//! graphs are grown anew; trips, plan, bound, tree and moves are then judged as they are told, and no plan is searched for.
//! A batch poses one problem, so the verdict is exact both ways. That it does is said by laws, which are calls without
//! code. What a search found is judged by four calls: the bound, the tree that shows it, and the plan. Each decides its
//! question exactly. The search's own tables, guides and drafts are not asked.
//!
//! The lines are read from their beginnings, a word or a number at a time: a line is read exactly where it is the line that
//! the report prints for something. No number is followed by a digit, so the text of each thing ends at one place alone, and
//! what is read is the only thing that the line can say. Of an entry nothing is kept but its lane: its line is only known
//! to be in form. `read_command` reads its command too, unless it is a close.
//!
//! Callers:
//!
//! ```
//! fn judge(text: &[u8], network: &Network) -> ReadHead {
//!     match read_head(text, 3, network, 2) {
//!         Ok((settings, rest)) => ReadHead::Head(settings.dwell, settings.workers, rest.len()),
//!         Err(fault) => ReadHead::Fault(fault),
//!     }
//! }
//! ```
//!
//! ```
//! fn audited<T: Threads + Sync>(
//!     rt: &T,
//!     alloc: Global,
//!     text: &[u8],
//! ) -> Option<Result<Audited, AuditFault>> {
//!     let network = line(alloc)?;
//!     let fleet = fleet_of(alloc, &network)?;
//!     let script = script_of(alloc)?;
//!     Some(audit(rt, alloc, text, &network, &fleet, &script, 1, &FreeGate))
//! }
//! ```
//!
//! Main clauses: `audit`: `accepted`, `refused`, `fault`, `sound`, `only`; the laws `one_fault` and `no_fault`;
//! `audit_block`: `good`, `lines`, `only`, `none`, `fault`; `read_outcome`: `told`, `lines`, `only`, `none`; the law
//! `a_text_is_refused_in_one_way`; of lines `read_head`: `read`, `only`, `none`, `fault`; `read_block`; `read_next`;
//! `read_command`: `no_close`, `exact`; the laws `a_line_says_one_thing`, `a_line_between_blocks_has_no_feed`,
//! `a_block_ends_once`: `one`, `last`; `a_text_begins_with_one_block` and `a_text_has_one_block_fault`; of outcomes
//! `judge`: `points`, `good`; `shows_bound`, `is_close`, `is_fair` and `is_best_near`: of each its one clause;
//! `a_batch_settles_in_one_way`; `a_batch_has_one_graph_of_each_kind`: `vehicles`, `riders`, `trips`;
//! `a_batch_has_rows_or_too_many`; `a_good_outcome_has_one_plan`.
#![tactic(auto)]

// Rooms, each names only those above it: lines, points, block, report.

mod block;
mod lines;
mod points;
mod report;

pub use block::block::{AuditedBlock, audit_block};
pub use block::laws::{
    a_good_block_is_not_refused, a_text_is_refused_in_one_way, long_orders_fail_by_the_late,
    long_rows_fail_by_the_graphs, long_trips_fail_by_the_trips, untold_lines_fail_by_the_bound,
};
pub use block::refusal::BlockRefusal;
pub use block::told::read_outcome;
pub use dispatch_report::{BlockLine, LateText, TripRowText, TripText};
pub use lines::block_line::{
    read_block_line, read_branch, read_move, read_rider, read_rr, read_rv,
};
pub use lines::block_lines::{BlockFault, read_block};
pub use lines::command::read_command;
pub use lines::head::{SettingsText, read_head, read_settings, read_sizes};
pub use lines::head_fault::HeadFault;
pub use lines::line_laws::{
    a_block_ends_once, a_block_has_no_fault, a_line_between_blocks_has_no_feed,
    a_line_is_of_one_kind, a_line_says_one_thing, a_text_begins_with_one_block,
    a_text_has_one_block_fault, an_outcome_prints_a_block,
};
pub use lines::lists::{read_late, read_leaf, read_row, read_trip};
pub use lines::next::{NextLine, read_next};
pub use lines::words::{
    is_words, line_first, number_first, numbered_first, pair_first, read_numbered, read_signed,
    words_first,
};
pub use points::best::is_best_near;
pub use points::bound::shows_bound;
pub use points::judging::judge;
pub use points::nodes::is_fair;
pub use points::plan_laws::a_good_outcome_has_one_plan;
pub use points::problem_laws::{
    a_batch_has_one_graph_of_each_kind, a_batch_has_rows_or_too_many, a_batch_settles_in_one_way,
    a_network_has_one_table, a_snapshot_has_one_list_of_points,
};
pub use points::tight::is_close;
pub use points::verdict::{Verdict, point_place};
pub use report::fault::{AuditFault, Audited};
pub use report::laws::{no_fault, one_fault};
pub use report::line::is_entry_line;
pub use report::report::audit;

//! Each law is a call with no code, whose clause is the law.
ghost use Rattle.std.specs.Prelude.{◌≡◌, ◌≢◌, ℕ, List, ◌++◌, codes, true};
ghost use Rattle.std.specs.List.{All};
ghost use Rattle.dispatch_report.specs.Block.{block_line_text, block_lines, lines_of};
ghost use Rattle.dispatch_report.specs.Lines.{lines_text};
ghost use Rattle.report_audit.specs.lines.BlockLines.{IsBlock, BlockFails};
ghost use Rattle.report_audit.specs.declared.lines.block_lines.BlockFault.{BlockFault};
ghost use Rattle.report_audit.specs.declared.lines.block_lines.BlockFault.TheVariants.{OutOfMemory as NoMemory};
ghost use Rattle.report_audit.specs.lines.BlockLine.{IsBlockLine};
ghost use Rattle.report_audit.specs.lines.Cut.{is_one_line};
ghost use Rattle.report_audit.specs.lines.Next.{IsNextLine};
ghost use Rattle.report_audit.specs.declared.lines.next.NextLine.{NextLine};
ghost use Rattle.request_book.specs.declared.values.outcome.Outcome.{Outcome};
ghost use Rattle.dispatch_report.specs.declared.block_line.BlockLine.{BlockLine};
ghost use Rattle.dispatch_report.specs.declared.block_line.BlockLine.TheVariants.{End};

/// A line of a block says one thing.
#[tactic(auto, using(crate::proofs::lines::OneLine::block_line_of_one))]
pub fn a_line_says_one_thing()
    ensures { (x y : BlockLine) → IsBlockLine x → IsBlockLine y → block_line_text x ≡ block_line_text y → x ≡ y }
{}

/// A text begins with one block at most.
pub fn a_text_begins_with_one_block()
    ensures { (text : List ℕ) (lines others : List BlockLine) (rest behind : List ℕ) → IsBlock text lines rest → IsBlock text others behind
        → (lines ≡ others) × (rest ≡ behind) }
{}

/// The text of an outcome's block begins with the block of its lines.
#[tactic(auto, using(crate::proofs::lemmas::lines::OutcomeLemmas::outcome_block))]
pub fn an_outcome_prints_a_block()
    ensures { (batch : ℕ) (outcome : Outcome) (rest : List ℕ) → All IsBlockLine (lines_of true batch outcome)
        → IsBlock (lines_text (block_lines true batch outcome) ++ rest) (lines_of true batch outcome) rest }
{}

/// A text that begins with a block isn't cut, and none of its lines is out of form.
#[tactic(auto, using(crate::proofs::lemmas::lines::OneBlock::block_no_fault))]
pub fn a_block_has_no_fault()
    ensures { (text : List ℕ) (lines : List BlockLine) (rest : List ℕ) (fault : BlockFault) → IsBlock text lines rest → fault ≢ NoMemory → BlockFails text fault → ⊥ }
{}

/// A text fails as a block in one way.
#[tactic(auto, using(crate::proofs::lemmas::lines::OneBlock::one_fault))]
pub fn a_text_has_one_block_fault()
    ensures { (text : List ℕ) (fault other : BlockFault) → fault ≢ NoMemory → other ≢ NoMemory → BlockFails text fault → BlockFails text other → fault ≡ other }
{}

/// A line between blocks is of one kind, and says one number of it: entries of the same line have the same lane.
#[tactic(auto, using(crate::proofs::lemmas::lines::NextLemmas::one_kind))]
pub fn a_line_is_of_one_kind()
    ensures { (x y : NextLine) (line : List ℕ) → IsNextLine x line → IsNextLine y line → x ≡ y }
{}

/// No line feed stands in a line between blocks.
#[tactic(auto, using(crate::proofs::lemmas::lines::FeedLemmas::next_one_line))]
pub fn a_line_between_blocks_has_no_feed()
    ensures { (x : NextLine) (line : List ℕ) → IsNextLine x line → is_one_line line ≡ true }
{}

/// No line feed stands in a line of a block, and it is `end` at the block's end alone.
#[tactic(auto, using(crate::proofs::lemmas::lines::OneBlock::block_line_one_line, crate::proofs::lines::OneLine::end_alone))]
pub fn a_block_ends_once()
    ensures one { (x : BlockLine) → IsBlockLine x → is_one_line (block_line_text x) ≡ true }
    ensures last { (x : BlockLine) → IsBlockLine x → block_line_text x ≡ codes "end" → x ≡ End }
{}

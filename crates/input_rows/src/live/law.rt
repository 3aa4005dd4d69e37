//! A law of rows that are accepted one by one: a call with no code, whose clause is the law.
ghost use Rattle.std.specs.Prelude.{ℕ, ◌≤◌, List, Contains, length};
ghost use Rattle.input_rows.specs.declared.script.version.ScriptVersion.{ScriptVersion as OneVersion};
ghost use Rattle.input_rows.specs.live.AsScript.{IsScriptOf, accepted_lines, text_with_header};
ghost use Rattle.input_rows.specs.live.Lines.{lines_in};
ghost use Rattle.input_rows.specs.live.Rows.{accepted};

/// A law: of a text without a quote, where no more than 200,000 rows are accepted, these are the rows of the script of the
/// header and of the lines that are accepted.
pub fn accepted_rows_are_a_script()
    ensures { (version : OneVersion) (text : List ℕ) → (Contains text 34 → ⊥) → length (accepted version 0 (lines_in text)) ≤ 200000
        → IsScriptOf version (text_with_header version (accepted_lines version 0 (lines_in text))) (accepted version 0 (lines_in text)) }
{}

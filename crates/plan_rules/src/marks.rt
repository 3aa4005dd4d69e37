//! Marks on riders: one bool each.
ghost use Rattle.std.specs.Prelude.{◌≡◌, ◌==◌, ℕ, ◌<◌, ◌≤◌, ◌||◌, Bool, false, IsTrue, All, length, slice_index_or};
ghost use Rattle.std.specs.List.{list_any};

/// Whether one of these riders is marked.
pub fn is_any_marked(riders: &[usize], marks: &[bool]) -> bool
    requires { All (λ r. r < length marks.now) riders.now }
    ensures { result ≡ list_any (λ r. slice_index_or marks.now r false) riders.now }
{
    for rider in riders {
        if marks[*rider] {
            return true;
        }
    }
    false
}

/// Marks these riders.
pub fn mark_riders(riders: &[usize], marks: &mut [bool])
    requires { All (λ r. r < length marks.old) riders.now }
    ensures len { length marks.new ≡ length marks.old }
    ensures marked { (r : ℕ) → r < length marks.old → slice_index_or marks.new r false ≡ (slice_index_or marks.old r false || list_any (λ x. x == r) riders.now) }
{
    for rider in riders {
        marks[*rider] = true;
    }
}

ghost use Rattle.std.specs.Prelude.{◌≡◌, ℕ, ◌+◌, ◌<◌, ◌≤◌, List, Option, IsOk, OnOk, OnErr};
ghost use Rattle.pool_io.specs.Faults.{Rose};
ghost use Rattle.request_book.specs.notices.Told.{Hears};
ghost use Rattle.request_book.specs.declared.notices.notice.Notice.{Notice};

use crate::notices::notice::Notice;
use pool_io::Failed;

/// Who is told notices.
///
/// `told` is the notices told so far, where the notifier shows them: one over a file shows nothing.
/// `faults` is how many calls have failed; it never falls, and stands still at the greatest `u64`.
/// `steady` is a number of calls that are sure to succeed from now on.
pub trait Notifier: Drop {
    ghost told: { Self → Option (List Notice) };

    ghost faults: { Self → ℕ };

    ghost steady: { Self → ℕ };

    /// Tells a notice. `Failed` comes only where the count of faults rose, and then nothing is told.
    fn tell(&mut self, notice: &Notice) -> Result<(), Failed>
        ensures told { Hears (told self.old) (told self.new) result notice.now }
        ensures faultless { OnOk result (faults self.new ≡ faults self.old) }
        ensures fault { OnErr result (Rose (faults self.old) (faults self.new)) }
        ensures never_falls { faults self.old ≤ faults self.new }
        ensures sure { 0 < steady self.old → IsOk result }
        ensures steady { steady self.old ≤ steady self.new + 1 };
}

impl Notifier for Box<dyn Notifier> {
    ghost told = { λ b. (Notifier-box b).told b.value };

    ghost faults = { λ b. (Notifier-box b).faults b.value };

    ghost steady = { λ b. (Notifier-box b).steady b.value };

    fn tell(&mut self, notice: &Notice) -> Result<(), Failed> {
        (**self).tell(notice)
    }
}

impl Notifier for Box<dyn Notifier + Send> {
    ghost told = { λ b. (Notifier-box b).told b.value };

    ghost faults = { λ b. (Notifier-box b).faults b.value };

    ghost steady = { λ b. (Notifier-box b).steady b.value };

    fn tell(&mut self, notice: &Notice) -> Result<(), Failed> {
        (**self).tell(notice)
    }
}

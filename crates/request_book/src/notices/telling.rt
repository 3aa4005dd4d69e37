ghost use Rattle.std.specs.Prelude.{◌≡◌, ◌+◌, ◌<◌, ◌∷◌, [], MatchResult, OnOk, OnErr, length};
ghost use Rattle.request_book.specs.Consistent.{IsConsistent};
ghost use Rattle.request_book.specs.notices.Notices.{notices};
ghost use Rattle.request_book.specs.notices.Seen.{notifiers_seen};
ghost use Rattle.request_book.specs.notices.Told.{HasHeard, HaveHeard};

use crate::notices::notice::Notice;
use crate::notices::notifier::Notifier;
use crate::notices::noting::notices_of;
use crate::values::journal::Journal;
use pool_base::OutOfMemory;
use pool_io::Failed;
use road_network::Network;
use std::alloc::Global;

/// What came of telling.
#[derive(Clone, Copy)]
pub struct Told {
    /// How many notifiers failed and are gone.
    pub dropped: usize,
}

/// Tells each notifier the notices of a journal over this network, where a rider waits for `wait` seconds at most.
/// Without memory nobody is told anything.
pub fn tell_journal<N: Notifier>(
    alloc: Global,
    notifiers: &mut Vec<N>,
    journal: &Journal,
    network: &Network,
    wait: u32,
) -> Result<(), OutOfMemory>
    requires { IsConsistent journal.now.base }
    ensures { let all = notifiers_seen N.told N.faults N.steady notifiers.old.items in
        let left = notifiers_seen N.told N.faults N.steady notifiers.new.items in
        MatchResult result (λ _. HaveHeard (notices network.now.nodes wait journal.now) all left) (λ _. left ≡ all) }
{
    if notifiers.is_empty() {
        return Ok(());
    }
    let told = notices_of(alloc, journal, network, wait)?;
    tell_all(notifiers, &told);
    Ok(())
}

/// Tells each notifier the notices, in order.
///
/// One that fails is told no more, taken out and dropped; the others keep their order. One that is sure of
/// as many calls as there are notices is kept.
pub fn tell_all<N: Notifier>(notifiers: &mut Vec<N>, notices: &[Notice]) -> Told
    ensures heard { HaveHeard notices.now (notifiers_seen N.told N.faults N.steady notifiers.old.items)
        (notifiers_seen N.told N.faults N.steady notifiers.new.items) }
    ensures dropped { length notifiers.new.items + result.dropped ≡ length notifiers.old.items }
{
    let before = notifiers.len();
    let mut at = 0;
    while at < notifiers.len() {
        match tell_one(&mut notifiers[at], notices) {
            Ok(()) => at += 1,
            Err(Failed) => {
                let _gone = notifiers.remove(at);
            }
        }
    }
    Told {
        dropped: before - notifiers.len(),
    }
}

/// Tells a notifier the notices, in order, up to the first that fails.
fn tell_one<N: Notifier>(notifier: &mut N, notices: &[Notice]) -> Result<(), Failed>
    ensures heard { OnOk result (HasHeard notices.now
        (record { told = N.told notifier.old; faults = N.faults notifier.old; steady = N.steady notifier.old })
        (record { told = N.told notifier.new; faults = N.faults notifier.new; steady = N.steady notifier.new })) }
    ensures unsure { OnErr result (N.steady notifier.old < length notices.now) }
{
    for notice in notices {
        tell_once(notifier, notice)?;
    }
    Ok(())
}

/// Tells a notifier one notice. Only one that is sure of no call fails.
fn tell_once<N: Notifier>(notifier: &mut N, notice: &Notice) -> Result<(), Failed>
    ensures heard { OnOk result (HasHeard (notice.now ∷ [])
        (record { told = N.told notifier.old; faults = N.faults notifier.old; steady = N.steady notifier.old })
        (record { told = N.told notifier.new; faults = N.faults notifier.new; steady = N.steady notifier.new })) }
    ensures unsure { OnErr result (N.steady notifier.old ≡ 0) }
{
    notifier.tell(notice)
}

//! Laws of steps and journals: each is a call with no code, whose clause is the law.

ghost use Rattle.std.specs.Prelude.{◌≡◌, ◌++◌, ◌↔◌, ℕ, List, Some};
ghost use Rattle.std.specs.List.{All};
ghost use Rattle.request_book.specs.values.Kept.{IsFleet};
ghost use Rattle.request_book.specs.values.Vehicle.{HasSeats};
ghost use Rattle.request_book.specs.declared.values.vehicle.Vehicle.{Vehicle};
ghost use Rattle.request_book.specs.Book.{next_position, opening};
ghost use Rattle.request_book.specs.Consistent.{IsConsistent, IsPassenger, status_in};
ghost use Rattle.request_book.specs.values.Keyed.{KeysDiffer};
ghost use Rattle.request_book.specs.Replay.{state_after};
ghost use Rattle.request_book.specs.register.Step.{step};
ghost use Rattle.request_book.specs.declared.values.command.Command.{Command};
ghost use Rattle.request_book.specs.declared.values.journal.Entry.{Entry};
ghost use Rattle.request_book.specs.declared.values.reply.BookRefusal.{BookRefusal};
ghost use Rattle.request_book.specs.declared.values.reply.Reply.TheVariants.{Refused};
ghost use Rattle.request_book.specs.declared.values.rider.Status.TheVariants.{Aboard};
ghost use Rattle.request_book.specs.declared.values.state.State.{State};

/// A refused command changes nothing.
pub fn refused_commands_change_nothing()
    ensures { (nodes : List ℕ) (wait : ℕ) (s : State) (command : Command) (refusal : BookRefusal)
        → (step nodes wait s command).1 ≡ Refused refusal → (step nodes wait s command).0 ≡ s }
{}

/// In every state of a run each rider stands once, so has one status.
pub fn riders_have_one_status()
    ensures { (nodes : List ℕ) (wait : ℕ) (vehicles : List Vehicle) (entries : List Entry) → IsFleet vehicles
        → KeysDiffer (λ r. r.id) (state_after nodes wait (opening vehicles) entries).riders }
{}

/// In every state of a run a rider is in the list of exactly the vehicle that their status names.
pub fn passengers_are_who_is_aboard()
    ensures { (nodes : List ℕ) (wait : ℕ) (vehicles : List Vehicle) (entries : List Entry) (vehicle rider : ℕ) → IsFleet vehicles
        → IsPassenger (state_after nodes wait (opening vehicles) entries) vehicle rider
        ↔ (status_in (state_after nodes wait (opening vehicles) entries) rider ≡ Some (Aboard vehicle)) }
{}

/// In every state of a run no vehicle has more persons aboard than seats.
pub fn seats_always_suffice()
    ensures { (nodes : List ℕ) (wait : ℕ) (vehicles : List Vehicle) (entries : List Entry) → IsFleet vehicles
        → All HasSeats (state_after nodes wait (opening vehicles) entries).vehicles }
{}

/// The state after two rounds is that after the second, run from the state after the first.
pub fn rounds_join()
    ensures { (nodes : List ℕ) (wait : ℕ) (s : State) (round later : List Entry)
        → state_after nodes wait s (round ++ later) ≡ state_after nodes wait (state_after nodes wait s round) later }
{}

/// Positions count the entries over rounds.
pub fn positions_count_entries()
    ensures { (first : ℕ) (round later : List Entry) → next_position (next_position first round) later ≡ next_position first (round ++ later) }
{}

/// Every state of a run is consistent: riders and vehicles stand once, and each rider is in the list of exactly the
/// vehicle that their status names.
pub fn states_are_consistent()
    ensures { (nodes : List ℕ) (wait : ℕ) (vehicles : List Vehicle) (entries : List Entry) → IsFleet vehicles
        → IsConsistent (state_after nodes wait (opening vehicles) entries) }
{}

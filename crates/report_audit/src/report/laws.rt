//! Laws of reports: each is a call with no code, whose clause is the law.
ghost use Rattle.std.specs.Prelude.{◌≡◌, ◌≢◌, ℕ, List};
ghost use Rattle.std.specs.List.{All};
ghost use Rattle.input_rows.specs.script.Round.{IsRound, NumberedLanes};
ghost use Rattle.report_audit.specs.declared.report.fault.AuditFault.{AuditFault as OneFault};
ghost use Rattle.report_audit.specs.declared.report.fault.AuditFault.TheVariants.{OutOfMemory as NoMemory};
ghost use Rattle.report_audit.specs.lines.HeadFault.{sizes_of};
ghost use Rattle.report_audit.specs.lines.HeadLines.{AreSizes};
ghost use Rattle.report_audit.specs.report.Fault.{HasFault};
ghost use Rattle.report_audit.specs.report.Report.{IsReportOfRun};
ghost use Rattle.request_book.specs.declared.values.vehicle.Vehicle.{Vehicle};
ghost use Rattle.request_book.specs.values.Kept.{IsFleet};
ghost use Rattle.road_network.specs.Roads.{Roads};

/// A text has one fault, for roads, vehicles and rounds as a network, a fleet and a script keep them.
pub fn one_fault()
    ensures { (roads : Roads) (vehicles : List Vehicle) (rounds : List NumberedLanes) → AreSizes (sizes_of roads) → IsFleet vehicles → All IsRound rounds
        → (workers : ℕ) (text : List ℕ) (fault other : OneFault) → fault ≢ NoMemory → other ≢ NoMemory
        → HasFault roads vehicles rounds workers text fault → HasFault roads vehicles rounds workers text other → fault ≡ other }
{}

/// The report of a run has none.
pub fn no_fault()
    ensures { (roads : Roads) (vehicles : List Vehicle) (rounds : List NumberedLanes) → AreSizes (sizes_of roads) → IsFleet vehicles → All IsRound rounds
        → (workers : ℕ) (text : List ℕ) (fault : OneFault) → fault ≢ NoMemory
        → IsReportOfRun roads vehicles rounds workers text → HasFault roads vehicles rounds workers text fault → ⊥ }
{}

//! Each law is a call with no code, whose clause is the law.
ghost use Rattle.std.specs.Prelude.{◌≡◌, ℕ, List};
ghost use Rattle.std.specs.List.Sorted.{IsStrictlyIncreasing};
ghost use Rattle.request_book.specs.values.Batch.{Batch};
ghost use Rattle.request_book.specs.Points.{ArePoints};
ghost use Rattle.trip_graph.specs.pairs.RrGraph.{IsRrGraph};
ghost use Rattle.trip_graph.specs.pairs.RvGraph.{IsRvGraph};
ghost use Rattle.trip_graph.specs.declared.pairs.rv_edge.RvEdge.{RvEdge};
ghost use Rattle.plan_rules.specs.Graph.{Graph};
ghost use Rattle.pool_base.specs.Times.{travel_time};
ghost use Rattle.pool_base.specs.declared.times.Times.{Times};
ghost use Rattle.dispatch_engine.specs.limits.Settling.{IsSettled};
ghost use Rattle.rider_limits.specs.declared.settings.Settings.{Settings};
ghost use Rattle.road_network.specs.declared.arc.Arc.{Arc};
ghost use Rattle.stop_orders.specs.declared.task.settled.Settled.{Settled};
ghost use Rattle.travel_times.specs.table.Table.{AreTravelTimes};
ghost use Rattle.trip_graph.specs.batch.Answer.{HasMoreRows, IsTripGraphOf};

/// A snapshot names one list of distinct nodes by rising name.
pub fn a_snapshot_has_one_list_of_points()
    ensures { (b : Batch) (points others : List ℕ) → ArePoints b points → ArePoints b others → points ≡ others }
{}

/// Two tables of a network's travel times between the same places say the same.
pub fn a_network_has_one_table()
    ensures { (arcs : List Arc) (places : List ℕ) (times others : Times) → AreTravelTimes arcs places times → AreTravelTimes arcs places others
        → travel_time times ≡ travel_time others }
{}

/// The limits of a batch, late vehicles and promises kept or lapsed settle in one way.
pub fn a_batch_settles_in_one_way()
    ensures { (settings : Settings) (points : List ℕ) (tau : ℕ → ℕ → ℕ) (batch : Batch) (settled other : Settled) → IsStrictlyIncreasing points
        → IsSettled settings points tau batch settled → IsSettled settings points tau batch other → settled ≡ other }
{}

/// The edges between vehicles and riders, those between riders, and the trip graph are each one list.
pub fn a_batch_has_one_graph_of_each_kind()
    ensures vehicles { (tau : ℕ → ℕ → ℕ) (settled : Settled) (edges others : List RvEdge) → IsRvGraph tau settled edges → IsRvGraph tau settled others → edges ≡ others }
    ensures riders { (tau : ℕ → ℕ → ℕ) (settled : Settled) (pairs others : List (ℕ × ℕ)) → IsRrGraph tau settled pairs → IsRrGraph tau settled others → pairs ≡ others }
    ensures trips { (settings : Settings) (tau : ℕ → ℕ → ℕ) (settled : Settled) (graph other : Graph)
        → IsTripGraphOf settings tau settled graph → IsTripGraphOf settings tau settled other → graph ≡ other }
{}

/// A batch that has a trip graph hasn't more rows than are allowed.
pub fn a_batch_has_rows_or_too_many()
    ensures { (settings : Settings) (tau : ℕ → ℕ → ℕ) (settled : Settled) (graph : Graph)
        → IsTripGraphOf settings tau settled graph → HasMoreRows tau settled settings.trip settings.pairs → ⊥ }
{}

/// What an outcome is judged by, in this order.
#[derive(Clone, Copy)]
pub enum Point {
    /// The riders whose wait ended, and whether there are more rows than allowed.
    Answer,
    /// Lapsed promises, both graphs of edges, and the rows.
    Graphs,
    /// The late vehicles, each with an order of its passengers of least delay.
    Late,
    /// The trips: each has the riders and the cost of a row of its vehicle, and an order of stops that serves it.
    Trips,
    /// The plan is lawful, and its cost and who is left out are right.
    Plan,
    /// The tree is sound, small enough, and has the bound as its value.
    Bound,
    /// How good the bound is, and the shape of the tree.
    Tree,
    /// No better plan lies near: the held one, the greedy one, and those that differ in one row.
    Best,
    /// The moves are a best matching.
    Moves,
}

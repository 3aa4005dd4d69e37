use arrayvec::ArrayVec;
use pool_base::NodeId;
use request_book::PlannedStop;

/// What is on its way for a vehicle: the stops of its chosen trip that aren't entered yet, and the origin of the
/// rider whom it is sent to where it is idle.
#[derive(Drop)]
pub struct Course {
    pub stops: ArrayVec<PlannedStop, 22>,
    pub target: Option<NodeId>,
}

/// A node at which a vehicle came at a second, and the second from which on it can leave.
#[derive(Clone, Copy)]
pub struct Stay {
    pub node: NodeId,
    pub second: u64,
    pub free: u64,
}

/// A node at a second.
#[derive(Clone, Copy)]
pub struct NodeAt {
    pub node: NodeId,
    pub second: u64,
}

/// Where a vehicle stands when its due stops are done, and where it goes from there.
#[derive(Clone, Copy)]
pub struct Heading {
    pub from: Stay,
    pub goal: Option<NodeId>,
}

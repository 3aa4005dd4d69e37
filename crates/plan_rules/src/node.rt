use crate::multipliers::Multipliers;

/// A node of a search tree. Vehicles and rows are numbers from 0.
#[derive(Drop)]
pub enum Node {
    /// In the subtree that follows the vehicle has only this row, in the next one only its others.
    Branch { vehicle: u32, row: u32 },
    /// The multipliers show what every plan of usable rows costs at least.
    Leaf { multipliers: Multipliers },
    /// No lawful plan is made of usable rows.
    Dead,
}

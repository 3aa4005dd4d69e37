use request_book::Command;

/// A row of a script.
#[derive(Drop)]
pub struct ScriptRow {
    pub round: u32,
    pub lane: u8,
    pub command: Command,
}

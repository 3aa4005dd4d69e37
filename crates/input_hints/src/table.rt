/// Which of the three tables a file holds.
#[derive(Clone, Copy, PartialEq)]
pub enum InputTable {
    Network,
    Fleet,
    Script,
}

const NETWORK: [&str; 3] = ["from", "to", "seconds"];

const FLEET: [&str; 4] = ["vehicle", "seats", "node", "second"];

const SCRIPT: [&str; 8] = ["round", "lane", "command", "a", "b", "c", "d", "e"];

impl InputTable {
    /// The header that the file must have.
    pub(crate) fn header(self) -> &'static str {
        match self {
            InputTable::Network => "from,to,seconds",
            InputTable::Fleet => "vehicle,seats,node,second",
            InputTable::Script => "round,lane,command,a,b,c,d",
        }
    }

    /// The name of a column, from 1.
    pub(crate) fn column_name(self, column: u64) -> &'static str {
        let names: &[&'static str] = match self {
            InputTable::Network => &NETWORK,
            InputTable::Fleet => &FLEET,
            InputTable::Script => &SCRIPT,
        };
        for (number, name) in names.iter().enumerate() {
            if number as u64 + 1 == column {
                return name;
            }
        }
        "the field"
    }

    /// The greatest number that a column, from 1, may have.
    pub(crate) fn greatest(self, column: u64) -> u64 {
        if self == InputTable::Network && column == 3 {
            10_000
        } else {
            1_000_000_000
        }
    }
}

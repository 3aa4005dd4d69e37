/// Why a text begins with no head of a report of the run's inputs. Lines count from 1.
#[derive(Clone, Copy)]
pub enum HeadFault {
    /// The text ends before or within this line.
    Cut { line: u64 },
    /// This line isn't the report's name, or no line of settings, of a network or of a fleet.
    Form { line: u64 },
    /// This line tells settings out of their ranges or without search trees, or another network or fleet.
    Head { line: u64 },
}

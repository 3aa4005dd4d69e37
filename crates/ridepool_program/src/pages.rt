//! The pages that the program prints of itself. A page is a list of parts.

const VERSION: [&str; 1] = ["ridepool 1.4.0\n"];

const RUN_USAGE: &str = "ridepool run network=FILE fleet=FILE script=FILE [KEY=VALUE ..]\n";

const LIVE_USAGE: &str = "ridepool live network=FILE fleet=FILE [script=FILE] [KEY=VALUE ..]\n";

const RESUME_USAGE: &str =
    "ridepool resume network=FILE fleet=FILE report=FILE [script=FILE] [KEY=VALUE ..]\n";

const DRIVE_USAGE: &str = "ridepool drive network=FILE fleet=FILE script=FILE [KEY=VALUE ..]\n";

const LOAD_USAGE: &str = "ridepool load [KEY=VALUE ..]\n";

const AUDIT_USAGE: &str =
    "ridepool audit network=FILE fleet=FILE script=FILE report=FILE [workers=N]\n";

const ABOUT_RUN: &str = "\
`run` reads a road network, a fleet and a script of commands as CSV, runs the script, and prints its
report. Where an input is refused, one line on standard error names the file, the row and the column.
";

const ABOUT_LIVE: &str = "\
`live` runs a script while it is written: rows come on standard input, or from `script=FILE`, which may
be a fifo, and each is answered before the next is waited for. A row that is refused is told on standard
error and skipped.
";

const ABOUT_RESUME: &str = "\
`resume` goes on with a day whose `live` broke off. It takes what the report, maybe torn, keeps of the
day, prints that part again, closes a batch that was open, and goes on as `live` with rows of later
rounds. The settings are the report's, which must have proof=1.
";

const ABOUT_DRIVE: &str = "\
`drive` reads a day, a script of requests and seals alone, lets the vehicles follow their plans, and
prints the report with all that is entered of them, and how the riders were served.
";

const ABOUT_LOAD: &str = "\
`load` makes a network, a fleet and a script from a seed, runs them, and prints one line for each batch.
";

const ABOUT_AUDIT: &str = "\
`audit` reads a report that `run` printed with proof=1, by whatever machine, and says whether it is
the report of a run of that script: every reply, both graphs, the plan, the tree that shows the bound.
";

const INPUTS: &str = "  \
  network=FILE   streets: from,to,seconds
  fleet=FILE     vehicles: vehicle,seats,node,second
  script=FILE    commands: round,lane,command,a,b,c,d and, for parties, e (`live`, `resume`: standard input)
";

const NOTICES: &str = "  \
  notices=FILE   where to write what riders are told: a line for each rider of each batch (none)
";

const PROOF: &str = "  \
  proof=0|1      print the tree that shows the bound (0)
";

const REPORT: &str = "  \
  report=FILE    the report to judge or to go on from, with the settings that its second line tells
";

const SHAPE: &str = "  \
  seed=N         what the workload is drawn from, 0 to 1000000000 (1)
  side=N         nodes along one side of the square network, 2 to 100 (20)
  vehicles=N     vehicles of four seats, 1 to 500 (100)
  riders=N       requests of each batch, 1 to 1000 (150)
  rounds=N       batches, 1 to 100 (4)
";

const SETTINGS: &str = "  \
  wait=S         longest wait for the pickup, 0 to 7200 seconds (120)
  delay=S        longest delay of the arrival, 0 to 7200 seconds (180)
  trip=N         most riders of a trip, 1 to 6 (4)
  penalty=S      what a rider left out costs, 0 to 1000000000 (10000)
  budget=N       most nodes of the search tree, 1 to 50000 (200)
  pairs=N        most vehicle-trip pairs of a batch, 1 to 2000000 (200000)
  dwell=S        what each stop takes, 0 to 600 seconds (0)
";

const TIMES: &str = "  \
  times=WAY      travel times by `rows`, made for each batch, or by `labels`, made once (rows)
";

const JUDGE: &str = "  \
  judge=0|1      judge what the blocks of the report tell, as `audit` does (0)
";

const WORKERS: &str = "  \
  workers=N      threads that share the work, 1 to 64 (4)
";

const PAGES: &str = "  \
  --help, -h     this text; behind a command, or as `help COMMAND`, what belongs to that command
  --version, -V  the version
";

const END: &str = "
Exit status: 0 done; 2 words; 3 network; 4 fleet; 5 script; 6 input too long; 7 read failed;
8 write failed; 9 out of memory; 11 the script is no day; 12 the day comes too late; 13 the report
does not match any run of this script.
";

const STATUSES: &str = "
Exit status: 0 done; another one is told by a line on standard error, see `ridepool --help`.
";

const USAGE: &str = "usage: ";

const NEXT: &str = "       ";

const GAP: &str = "\n";

const FOR_INPUTS: &str = "\nFor `run`, `live`, `drive`, `audit` and `resume`:\n";

const FOR_NOTICES: &str = "\nFor `run`, `live`, `drive` and `resume`:\n";

const FOR_PROOF: &str = "\nFor `run`, `live` and `drive`:\n";

const FOR_AUDIT: &str = "\nFor `audit` and `resume`:\n";

const FOR_RESUME: &str = "\nFor `resume`:\n";

const FOR_LOAD: &str = "\nFor `load`:\n";

const FOR_SETTINGS: &str = "\nFor `run`, `live`, `drive` and `load`:\n";

const FOR_TIMES: &str = "\nFor `run`, `live`, `drive`, `load` and `resume`:\n";

const FOR_ALL: &str = "\nFor all:\n";

const FILES: &str = "\nFiles:\n";

const ARGUMENTS: &str = "\nSettings, with what holds without them:\n";

const ALL_PAGE: [&str; 40] = [
    USAGE,
    RUN_USAGE,
    NEXT,
    LIVE_USAGE,
    NEXT,
    RESUME_USAGE,
    NEXT,
    DRIVE_USAGE,
    NEXT,
    LOAD_USAGE,
    NEXT,
    AUDIT_USAGE,
    GAP,
    ABOUT_RUN,
    ABOUT_LIVE,
    ABOUT_RESUME,
    ABOUT_DRIVE,
    ABOUT_LOAD,
    ABOUT_AUDIT,
    FOR_INPUTS,
    INPUTS,
    FOR_NOTICES,
    NOTICES,
    FOR_PROOF,
    PROOF,
    FOR_AUDIT,
    REPORT,
    FOR_RESUME,
    JUDGE,
    FOR_LOAD,
    SHAPE,
    FOR_SETTINGS,
    SETTINGS,
    FOR_TIMES,
    TIMES,
    FOR_ALL,
    WORKERS,
    GAP,
    PAGES,
    END,
];

const RUN_PAGE: [&str; 13] = [
    USAGE, RUN_USAGE, GAP, ABOUT_RUN, FILES, INPUTS, ARGUMENTS, NOTICES, PROOF, SETTINGS, TIMES,
    WORKERS, STATUSES,
];

const LIVE_PAGE: [&str; 13] = [
    USAGE, LIVE_USAGE, GAP, ABOUT_LIVE, FILES, INPUTS, ARGUMENTS, NOTICES, PROOF, SETTINGS, TIMES,
    WORKERS, STATUSES,
];

const DRIVE_PAGE: [&str; 13] = [
    USAGE,
    DRIVE_USAGE,
    GAP,
    ABOUT_DRIVE,
    FILES,
    INPUTS,
    ARGUMENTS,
    NOTICES,
    PROOF,
    SETTINGS,
    TIMES,
    WORKERS,
    STATUSES,
];

const LOAD_PAGE: [&str; 10] = [
    USAGE, LOAD_USAGE, GAP, ABOUT_LOAD, ARGUMENTS, SHAPE, SETTINGS, TIMES, WORKERS, STATUSES,
];

const AUDIT_PAGE: [&str; 10] = [
    USAGE,
    AUDIT_USAGE,
    GAP,
    ABOUT_AUDIT,
    FILES,
    INPUTS,
    REPORT,
    ARGUMENTS,
    WORKERS,
    STATUSES,
];

const RESUME_PAGE: [&str; 13] = [
    USAGE,
    RESUME_USAGE,
    GAP,
    ABOUT_RESUME,
    FILES,
    INPUTS,
    REPORT,
    ARGUMENTS,
    NOTICES,
    TIMES,
    JUDGE,
    WORKERS,
    STATUSES,
];

const SHORT_PAGE: [&str; 14] = [
    USAGE,
    RUN_USAGE,
    NEXT,
    LIVE_USAGE,
    NEXT,
    RESUME_USAGE,
    NEXT,
    DRIVE_USAGE,
    NEXT,
    LOAD_USAGE,
    NEXT,
    AUDIT_USAGE,
    GAP,
    "`ridepool help COMMAND` tells the rest of one command, `ridepool --help` all.\n",
];

const HELP_WORDS: [&str; 2] = ["--help", "-h"];

/// A page, part by part.
pub(crate) type Page = &'static [&'static str];

/// What is printed behind the line of a fault where there is no word at all.
pub(crate) const SHORT: Page = &SHORT_PAGE;

/// The page of one command.
fn command_page(command: &str) -> Option<Page> {
    match command {
        "run" => Some(&RUN_PAGE),
        "live" => Some(&LIVE_PAGE),
        "resume" => Some(&RESUME_PAGE),
        "drive" => Some(&DRIVE_PAGE),
        "load" => Some(&LOAD_PAGE),
        "audit" => Some(&AUDIT_PAGE),
        _ => None,
    }
}

/// The page that the words ask for, if they ask for one.
pub(crate) fn page_of(words: &[String]) -> Option<Page> {
    let first = words.first()?.as_str();
    let second = words.get(1).map(|word| word.as_str());
    match (first, second) {
        ("--version" | "-V" | "version", _) => Some(&VERSION),
        ("--help" | "-h", _) | ("help", None) => Some(&ALL_PAGE),
        ("help", Some(command)) => command_page(command),
        (command, Some(word)) if HELP_WORDS.contains(&word) => command_page(command),
        _ => None,
    }
}

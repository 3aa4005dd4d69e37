ghost use Rattle.std.specs.Prelude.{◌≡◌, min};
ghost use Rattle.report_audit.specs.points.Verdict.{point_place};
ghost use Rattle.report_audit.specs.work.points.Verdict.{verdict_place};

use dispatch_engine::Point;

/// What was found of an outcome.
#[derive(Clone, Copy)]
pub enum Verdict {
    Good,
    /// The first point that fails.
    Fails(Point),
}

/// The place of a point among the others, from 0.
pub fn point_place(point: Point) -> u64
    ensures { result ≡ point_place point }
{
    match point {
        Point::Answer => 0,
        Point::Graphs => 1,
        Point::Late => 2,
        Point::Trips => 3,
        Point::Plan => 4,
        Point::Bound => 5,
        Point::Tree => 6,
        Point::Best => 7,
        Point::Moves => 8,
    }
}

/// Of two verdicts that with the earlier point.
pub(crate) fn earlier(one: Verdict, other: Verdict) -> Verdict
    ensures { verdict_place result ≡ min (verdict_place one) (verdict_place other) }
{
    let first = verdict_place(one);
    let second = verdict_place(other);
    if second < first { other } else { one }
}

fn verdict_place(verdict: Verdict) -> u64
    ensures { result ≡ verdict_place verdict }
{
    match verdict {
        Verdict::Good => 9,
        Verdict::Fails(point) => point_place(point),
    }
}

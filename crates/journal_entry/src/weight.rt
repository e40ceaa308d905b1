// What entries weigh.
ghost use Rattle.std.specs.Prelude.{◌≡◌};
ghost use Rattle.journal_entry.specs.Weight.{point_weight};

use crate::Point;

/// How many names of hooks and containers an entry lists. A journal bounds the sum over its entries.
#[tactic(auto, unfolding(crate::specs::Weight::point_weight))]
pub fn point_weight(point: &Point) -> usize
    ensures { result ≡ point_weight point.now }
{
    match point {
        Point::Choose { hooks, .. } => hooks.as_slice().len(),
        Point::Commit { uses, .. } => uses.as_slice().len(),
        _ => 0,
    }
}

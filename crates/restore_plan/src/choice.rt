//! Which of two files a chain takes.

ghost use Rattle.std.specs.Prelude.{◌≡◌, ◌↔◌, ◌⊎◌, IsTrue, IfSome, Some};
ghost use Rattle.restore_plan.specs.Choice.{IsAsGood};
ghost use Rattle.restore_plan.specs.Run.{IsMatched};

use replica_store::FileName;

/// Whether the chosen file is at least as good as the other: it reaches further, or as far from a higher
/// level, or as far from that level and begins no earlier.
pub fn is_as_good(chosen: &FileName, other: &FileName) -> bool
    ensures { IsTrue result ↔ IsAsGood chosen.now other.now }
{
    if chosen.max != other.max {
        return chosen.max > other.max;
    }
    if chosen.level != other.level {
        return chosen.level > other.level;
    }
    chosen.min >= other.min
}

/// The better of two files, of which either may be absent.
pub fn better(first: Option<FileName>, second: Option<FileName>) -> Option<FileName>
    ensures one { IfSome result (λ name. (first ≡ Some name) ⊎ (second ≡ Some name)) }
    ensures first { IfSome first (λ name. IsMatched result name) }
    ensures second { IfSome second (λ name. IsMatched result name) }
{
    match (first, second) {
        (Some(one), Some(other)) => Some(if is_as_good(&one, &other) { one } else { other }),
        (Some(one), None) => Some(one),
        (None, other) => other,
    }
}

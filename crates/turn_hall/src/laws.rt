//! A law of what passes tell. The function does nothing; its contract is the law.
ghost use Rattle.std.specs.Prelude.{◌≡◌};
ghost use Rattle.turn_hall.specs.Passes.{IsSamePass, PassValue, badge_of};

/// Passes that tell the same numbers as visitors are of the same hall, and tell the same three values. So whoever was
/// lent a `Guest` and left its numbers as they were gives back a pass of the same kind.
pub fn badges_tell_passes()
    ensures { (old new : PassValue) → badge_of new ≡ badge_of old → IsSamePass old new }
{}

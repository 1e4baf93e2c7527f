//! Laws of decisions, for proofs above. Each function does nothing; its contract is the law.
ghost use Rattle.curator_decisions.specs.DecidedLaws.{AcceptedWithVerdict, AcceptedWithoutVerdict, DecisionsAreAMap, OthersStay, OthersStaySet, SameVerdictsSameLayer, VerdictIsSet, VerdictIsTakenBack};

/// A verdict that is set is the verdict on its item, one that is taken back leaves none, and neither changes the
/// verdict on another item.
pub fn verdicts_are_set()
    ensures set { VerdictIsSet }
    ensures others_set { OthersStaySet }
    ensures taken_back { VerdictIsTakenBack }
    ensures others { OthersStay }
{}

/// A list of decisions, whose items ascend, is known by the verdict on each item: there is one list for each map
/// of items to verdicts. The curated layer, too, is known by the verdicts, so it does not tell in what order they
/// came.
pub fn decisions_are_a_map()
    ensures list { DecisionsAreAMap }
    ensures layer { SameVerdictsSameLayer }
{}

/// From accepted decisions, a verdict that is set or taken back without a refusal leads to accepted decisions: each
/// decided item is one, no item that is in names one that is not, and the curated layer breaks no rule. A step asks
/// what is missing only about the item that it changes, and yet nothing is missing in the whole list.
pub fn decisions_stay_accepted()
    ensures decide { AcceptedWithVerdict }
    ensures undecide { AcceptedWithoutVerdict }
{}

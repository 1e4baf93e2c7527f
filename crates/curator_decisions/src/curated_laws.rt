//! Which rules a curated layer can break, for proofs above. A function does nothing but call a law below; its
//! contract is the law.
ghost use Rattle.curator_decisions.specs.Clashes.{ObeysByItems, TakingBackByItem, VerdictsByItem};
ghost use Rattle.curator_decisions.specs.CuratedLaws.{DecidedLayersBreakThree, DecisionsBreakThree, FirstBrokenIsOfThree, TakingBackBreaksThree, ThreeSuffice, VerdictsBreakThree};

use layer_rules::{unflawed_layers, well_formed_layers_cohere};

/// Where the layers of a snapshot obey a configuration and no item that is in names one that is not, the curated
/// layer can break three rules alone: `AttributeThere`, since holders may give one annotation two values,
/// `OverlapRefused`, since spans of two holders may overlap, and `LayerFull`, since holders may together have more
/// than one. So the first broken rule is the first of these three, and a layer that breaks none of them obeys.
pub fn decided_layers_break_three()
    ensures places { DecidedLayersBreakThree }
    ensures first { FirstBrokenIsOfThree }
    ensures suffice { ThreeSuffice }
{
    well_formed_layers_cohere();
}

/// What a refusal tells of decisions on the layers of such a snapshot: a broken rule is one of the three. Of a
/// single step it is said where the decisions before it were accepted.
pub fn refusals_break_three()
    ensures decisions { DecisionsBreakThree }
    ensures decide { VerdictsBreakThree }
    ensures undecide { TakingBackBreaksThree }
{
    well_formed_layers_cohere();
}

/// The three rules by items. Where nothing is lacking, the curated layer obeys exactly where the items that are in
/// can be in together: no two are attributes of one type on one annotation, no two are spans whose overlap is not
/// allowed, and at most 10,000 are of a letter. So a step from accepted decisions that lacks nothing is judged by its
/// item: the layer behind it has no fault exactly where that item is out, or can be beside the others that are in.
/// A broken rule never keeps an item in that is to go out.
pub fn decisions_are_judged_by_items()
    ensures obeys { ObeysByItems }
    ensures decide { VerdictsByItem }
    ensures undecide { TakingBackByItem }
{
    unflawed_layers();
    well_formed_layers_cohere();
}

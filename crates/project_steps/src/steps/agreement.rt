//! What is made of requests for the agreement of annotators.
ghost use Rattle.std.specs.Prelude.{◌≡◌, ◌+◌, ◌-◌, ◌<◌, ◌++◌, IfOk, List, OnOk, filter, length, map, not};
ghost use Rattle.std.specs.List.{flat_map, range_with_len};
ghost use Rattle.kappa_alpha.specs.Figures.{pair_line};
ghost use Rattle.project_machine.specs.ProjectState.{annotators};
ghost use Rattle.project_machine.specs.Requests.{ReadAlpha, ReadPairs};
ghost use Rattle.project_machine.specs.Tables.{standing_of};
ghost use Rattle.project_steps.specs.Steps.Accepting.{Accepts};

use crate::steps::accepted::Accepted;
use entry_bytes::Person;
use kappa_alpha::{PairLine, Tables};
use mark_base::{Memory, Slug, SlugList};
use project_state::{BookState, PairList, Reply};
use std::alloc::Global;

/// The names of the annotators among some people, in their order.
#[tactic(auto, using(project_state::proofs::FrontLemmas::names_behind_annotator, project_state::proofs::FrontLemmas::names_behind_curator))]
fn annotator_names(alloc: Global, people: &[Person]) -> Result<Vec<Slug>, Memory>
    ensures { IfOk result (λ names. names.items ≡ map (λ person. person.name) (filter (λ person. not person.curator) people.now)) }
{
    let mut names = Vec::new(alloc);
    for person in people {
        if !person.curator {
            names.push(person.name.copy()?)?;
        }
    }
    Ok(names)
}

/// Adds the lines of a rater with each later one.
#[tactic(auto, using(crate::proofs::StepsProofs::AgreementLemmas::no_lines, crate::proofs::StepsProofs::AgreementLemmas::one_line, crate::proofs::StepsProofs::AgreementLemmas::all_lines))]
fn push_lines(lines: &mut Vec<PairLine>, tables: &Tables, first: u8) -> Result<(), Memory>
    requires { first < tables.now.raters }
    ensures { OnOk result (lines.new.items ≡ lines.old.items ++ map (pair_line tables.now first) (range_with_len (first + 1) (tables.now.raters - first - 1))) }
{
    let raters = tables.raters();
    for second in first + 1..raters {
        lines.push(tables.pair(first, second))?;
    }
    Ok(())
}

/// The lines of each two raters, in their order.
#[tactic(auto, using(crate::proofs::StepsProofs::AgreementLemmas::one_more))]
fn pair_lines(alloc: Global, tables: &Tables) -> Result<Vec<PairLine>, Memory>
    ensures { IfOk result (λ lines. lines.items ≡ flat_map (λ first. map (pair_line tables.now first) (range_with_len (first + 1) (tables.now.raters - first - 1))) (range_with_len 0 tables.now.raters)) }
{
    let mut lines = Vec::new(alloc);
    for first in 0..tables.raters() {
        push_lines(&mut lines, tables, first)?;
    }
    Ok(lines)
}

/// The agreement of each two annotators is read. Cost: the pairs, and for each the square of the categories.
#[tactic(auto, using(crate::proofs::StepsProofs::AgreementLemmas::lines_of_standing))]
pub(crate) fn accept_pairs(
    alloc: Global,
    state: &BookState,
    tables: &Tables,
    by: &Slug,
) -> Result<Accepted, Memory>
    requires { tables.now ≡ standing_of state.now.state tables.now.spare }
    ensures { IfOk result (Accepts state.now.state by.now ReadPairs) }
{
    let names = annotator_names(alloc, state.roster().people())?;
    let lines = pair_lines(alloc, tables)?;
    Ok(Accepted {
        reply: Reply::Pairs(SlugList::from_vec(names), PairList::from_vec(lines)),
        made: None,
    })
}

/// The agreement of all annotators is read. Cost: the categories.
#[tactic(auto, using(crate::proofs::StepsProofs::AgreementLemmas::line_of_standing))]
pub(crate) fn accept_alpha(state: &BookState, tables: &Tables, by: &Slug) -> Accepted
    requires { tables.now ≡ standing_of state.now.state tables.now.spare }
    ensures { Accepts state.now.state by.now ReadAlpha result }
{
    Accepted {
        reply: Reply::Alpha(tables.alpha()),
        made: None,
    }
}

//! Who is an annotator, and who a curator.
ghost use Rattle.std.specs.Prelude.{◌≡◌, bytes_eq, length, map, not, position};
ghost use Rattle.std.specs.List.{filter, list_any, position_or_len};

use entry_bytes::Person;
use mark_base::Slug;

/// The place of an annotator among the annotators.
fn annotator_place(people: &[Person], who: &Slug) -> Option<usize>
    ensures { result ≡ position (λ person. bytes_eq who.now person.name) (filter (λ person. not person.curator) people.now) }
{
    people
        .iter()
        .filter(|person| !person.curator)
        .position(|person| *who == person.name)
}

/// How many annotators there are.
pub(crate) fn annotator_count(people: &[Person]) -> usize
    ensures { result ≡ length (filter (λ person. not person.curator) people.now) }
{
    people.iter().filter(|person| !person.curator).count()
}

/// The place of a curator among the curators.
fn curator_place(people: &[Person], who: &Slug) -> Option<usize>
    ensures { result ≡ position (λ person. bytes_eq who.now person.name) (filter (λ person. person.curator) people.now) }
{
    people
        .iter()
        .filter(|person| person.curator)
        .position(|person| *who == person.name)
}

/// The place of an annotator among the annotators, from 0; without one, their count.
#[tactic(auto, using(crate::proofs::PeopleLemmas::placed_by_name, crate::proofs::PeopleLemmas::nowhere_by_name))]
pub(crate) fn rater_of(people: &[Person], who: &Slug) -> usize
    ensures { result ≡ position_or_len (bytes_eq who.now) (map (λ person. person.name) (filter (λ person. not person.curator) people.now)) }
{
    match annotator_place(people, who) {
        Some(place) => place,
        None => annotator_count(people),
    }
}

/// Whether somebody is an annotator.
#[tactic(auto, using(crate::proofs::PeopleLemmas::any_there, crate::proofs::PeopleLemmas::any_nowhere))]
pub(crate) fn is_annotator(people: &[Person], who: &Slug) -> bool
    ensures { result ≡ list_any (bytes_eq who.now) (map (λ person. person.name) (filter (λ person. not person.curator) people.now)) }
{
    match annotator_place(people, who) {
        Some(_) => true,
        None => false,
    }
}

/// Whether somebody is a curator.
#[tactic(auto, using(crate::proofs::PeopleLemmas::any_there, crate::proofs::PeopleLemmas::any_nowhere))]
pub(crate) fn is_curator(people: &[Person], who: &Slug) -> bool
    ensures { result ≡ list_any (bytes_eq who.now) (map (λ person. person.name) (filter (λ person. person.curator) people.now)) }
{
    match curator_place(people, who) {
        Some(_) => true,
        None => false,
    }
}

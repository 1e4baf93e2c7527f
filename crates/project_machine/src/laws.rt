//! Laws of histories. Each function but for a call of a law below does nothing; its contract is the law.
ghost use Rattle.std.specs.Prelude.{◌≡◌, ◌≢◌, ◌⊎◌, Bool, ℕ, ◌<◌, ◌≤◌, ◌^◌, List, [], ◌∷◌, ◌++◌, count_by, length, IfSome, Some, false};
ghost use Rattle.std.specs.List.{AllByRecursion};
ghost use Rattle.entry_bytes.specs.declared.person.Person.{Person};
ghost use Rattle.entry_bytes.specs.Fields.{IsSlug};
ghost use Rattle.project_machine.specs.People.{IsOrdered, IsRoster, in_name_order};
ghost use Rattle.project_machine.specs.Machine.{step};
ghost use Rattle.project_machine.specs.Requests.{Asked, Happened, Taken, TakeSnapshot, View};
ghost use Rattle.project_machine.specs.History.{after, begin, effect, encoded, last, upto};
ghost use Rattle.project_machine.specs.RequestValues.{IsAsked};
ghost use Rattle.project_machine.specs.Opening.{IsOpened, freeing_bytes};
ghost use Rattle.project_machine.specs.Own.{IsPrivate};
ghost use Rattle.project_machine.specs.Asking.{IsNext, own_entry};
ghost use Rattle.project_machine.specs.AskedFor.{asked_for, next_by, IsOfTyped};
ghost use Rattle.project_machine.specs.Legal.{AreAccepted, HasRoom, HoldsTheSame, IsKept, IsLegal, IsSound, IsViewKept, LayersObey};
ghost use Rattle.project_machine.specs.ProjectState.{ProjectState, is_curator, is_some_out, row, snapshot};

use layer_rules::unflawed_layers;

/// The people of a roster are those with which a project can be founded: their names strictly ascend, and there are 1
/// to 16 of either sort. Only that each name is spelt as one does a list of people not say by itself. Put in the order of
/// their names people are the same: as many pass each test.
pub fn rosters_can_found()
    ensures founding { (people : List Person) → IsOrdered people → AllByRecursion (λ person. IsSlug person.name) people → IsRoster people }
    ensures roster { (people : List Person) → IsRoster people → IsOrdered people }
    ensures same { (test : Person → Bool) (people : List Person) → count_by test (in_name_order people) ≡ count_by test people }
{}

/// What a step of a typed request makes happen goes on with a history, and a history up to any of its places is
/// one too. The entry that a book hands to its keeper is that of such a change. The state behind a history stands at
/// the place of its last change.
pub fn histories_go_on()
    ensures step { (log : List Happened) (caller : List ℕ) (asked : Asked) (happened : Happened) → IsLegal log → IsAsked asked → (step (after log) caller asked).change ≡ Some happened → IsLegal (log ++ happened ∷ []) }
    ensures handed { (log : List Happened) (caller : List ℕ) (asked : Asked) → IsLegal log → IsAsked asked → IfSome (own_entry log caller asked) (IsNext log) }
    ensures upto { (log : List Happened) (place : ℕ) → IsLegal log → begin log < place → IsLegal (upto place log) }
    ensures place { (log : List Happened) → IsLegal log → (after log).place ≡ last log }
{}

/// A longer history begins where the one does that it goes on from, and is that one up to its last place. Up to one
/// of its places a history ends at that place. A place is a number of 63 bits as long as the history has room.
pub fn places_stand()
    ensures begins { (log more : List Happened) → IsLegal log → begin (log ++ more) ≡ begin log }
    ensures goes_on { (log more : List Happened) → IsLegal log → upto (last log) (log ++ more) ≡ log }
    ensures ends { (log : List Happened) (place : ℕ) → begin log < place → place ≤ last log → last (upto place log) ≡ place }
    ensures below { (log : List Happened) → IsLegal log → HasRoom log → last log < 2 ^ 63 }
{}

/// What one who is no curator makes happen leaves the rows of everyone else as they were, on every document.
pub fn annotators_change_their_own_rows()
    ensures { (s : ProjectState) (caller who : List ℕ) (asked : Asked) (happened : Happened) (place doc : ℕ) → is_curator s caller ≡ false → (step s caller asked).change ≡ Some happened → who ≢ caller → row (effect place happened s) doc who ≡ row s doc who }
{}

/// At every place of a history each layer obeys the configuration: it is well-formed, and each event has as many
/// arguments of each role as the role asks.
pub fn committed_layers_obey()
    ensures { (log : List Happened) (place : ℕ) → IsLegal log → begin log < place → LayersObey (after (upto place log)) }
{
    unflawed_layers();
}

/// The state behind a history keeps the limits and the tests of the machine, and no hold in it is above its place:
/// the hold of the next checkout is a new one. It can be restored wherever its verdicts are accepted and no layer is
/// out, and so begins a history of its own.
pub fn states_can_be_restored()
    ensures kept { (log : List Happened) → IsLegal log → IsKept (after log) }
    ensures restored { (log : List Happened) → IsLegal log → AreAccepted (after log) → is_some_out (after log) ≡ false → (after log).place ≤ 2 ^ 62 → IsSound (after log) }
{
    unflawed_layers();
}

/// A snapshot that was taken up to some place of a history holds the same layers of the same document ever after.
/// Only the verdicts on it change.
pub fn snapshots_stay()
    ensures { (log : List Happened) (place number : ℕ) → IsLegal log → 0 < number → number ≤ length (after (upto place log)).snapshots → HoldsTheSame (snapshot (after (upto place log)) number) (snapshot (after log) number) }
{}

/// A change says who asked for what: of each change that a step makes, it is that caller and that request, so that
/// request makes it again. A change goes on a history where the request that it tells makes it, and a freeing where
/// some layer is out; that the request is one of typed values is tested beside that.
pub fn changes_tell_their_requests()
    ensures request { (s : ProjectState) (caller : List ℕ) (asked : Asked) (happened : Happened) → (step s caller asked).change ≡ Some happened → asked_for s happened ≡ Some (caller, asked) }
    ensures next { (s : ProjectState) (caller : List ℕ) (asked : Asked) (happened : Happened) → (step s caller asked).change ≡ Some happened → next_by s happened ≡ Some happened }
    ensures goes_on { (log : List Happened) (happened : Happened) → IsLegal log → IsOfTyped (after log) happened → next_by (after log) happened ≡ Some happened → IsLegal (log ++ happened ∷ []) }
{}

/// The entries of a history that was opened are those that were there, alone or with a freeing. They are opened as the
/// same history again.
pub fn openings_can_be_repeated()
    ensures left { (entries : List (List ℕ)) (opened : List Happened) → IsOpened entries opened → (encoded opened ≡ entries) ⊎ (encoded opened ≡ entries ++ freeing_bytes ∷ []) }
    ensures again { (entries : List (List ℕ)) (opened : List Happened) → IsOpened entries opened → IsOpened (encoded opened) opened }
{}

/// Every snapshot that is read has 2 to 16 layers of annotators whose names ascend, each well-formed and committable
/// for the configuration and the text that come with them. That its verdicts are accepted is a law of `project_book`.
pub fn views_can_be_curated()
    ensures { (log : List Happened) (caller : List ℕ) (number : ℕ) (view : View) → IsLegal log → (step (after log) caller (TakeSnapshot number)).answer ≡ Taken view → IsViewKept view }
{
    unflawed_layers();
}

/// What is shown to an annotator who is no curator follows from the annotator's own history, whatever all others
/// did: statuses and bodies are those of a project in which no one else works. Only places differ.
pub fn annotators_are_shown_their_own()
    ensures { (log : List Happened) (who : List ℕ) (asked : Asked) → IsLegal log → IsPrivate log who asked }
{}

//! The IDs that a line has: its own, and those that it names.
ghost use Rattle.std.specs.Prelude.{◌≡◌, ◌∷◌, [], map, IfOk, option_map};
ghost use Rattle.std.specs.List.{list_any};
ghost use Rattle.ann_reader.specs.LineIds.{may_stand, of_letters, id_words, own_word, own_id, is_own_misspelt, has_no_letter, is_misspelt};
ghost use Rattle.ann_reader.specs.FormShows.{seen_text, seen_pair, seen_form, seen_id_word};

use crate::id_letters::Letters;
use crate::line_form::{Form, Pair};
use crate::word::first_byte;
use mark_base::{AnnId, Kind, Memory};
use std::alloc::Global;

/// A word in the place of an ID, with the letters that may stand there.
#[derive(Clone, Copy)]
pub(crate) struct IdWord<'a> {
    pub letters: Letters,
    pub word: &'a str,
}

/// Whether a letter may stand in a place.
pub(crate) fn may_stand(letters: Letters, kind: Kind) -> bool
    ensures { result ≡ may_stand letters kind }
{
    match letters {
        Letters::Spans => kind == Kind::Text,
        Letters::SpansOrEvents => matches!(kind, Kind::Text | Kind::Event),
        Letters::Attributed => matches!(kind, Kind::Text | Kind::Event | Kind::Relation),
        Letters::AnyButNotes => kind != Kind::Note,
    }
}

/// One place.
fn one<'a>(alloc: Global, letters: Letters, word: &'a str) -> Result<Vec<IdWord<'a>>, Memory>
    ensures { IfOk result (λ all. map seen_id_word all.items ≡ of_letters letters word.now ∷ []) }
{
    let mut all = Vec::new(alloc);
    all.push(IdWord { letters, word })?;
    Ok(all)
}

/// The places of a trigger and of arguments.
fn of_event<'a>(
    alloc: Global,
    trigger: &'a str,
    pairs: &[Pair<'a>],
) -> Result<Vec<IdWord<'a>>, Memory>
    ensures { IfOk result (λ all. map seen_id_word all.items ≡ of_letters Letters.Spans trigger.now ∷ map (λ pair. of_letters Letters.SpansOrEvents pair.target) (map seen_pair pairs.now)) }
{
    let mut all = one(alloc, Letters::Spans, trigger)?;
    for pair in pairs {
        all.push(IdWord {
            letters: Letters::SpansOrEvents,
            word: pair.target,
        })?;
    }
    Ok(all)
}

/// The places of members.
fn of_members<'a>(alloc: Global, ids: &[&'a str]) -> Result<Vec<IdWord<'a>>, Memory>
    ensures { IfOk result (λ all. map seen_id_word all.items ≡ map (of_letters Letters.Spans) (map seen_text ids.now)) }
{
    let mut all = Vec::new(alloc);
    for word in ids {
        all.push(IdWord {
            letters: Letters::Spans,
            word,
        })?;
    }
    Ok(all)
}

/// The places of the two arguments of a relation.
fn of_relation<'a>(alloc: Global, a: &Pair<'a>, b: &Pair<'a>) -> Result<Vec<IdWord<'a>>, Memory>
    ensures { IfOk result (λ all. map seen_id_word all.items ≡ of_letters Letters.SpansOrEvents a.now.target.now ∷ of_letters Letters.SpansOrEvents b.now.target.now ∷ []) }
{
    let mut all = one(alloc, Letters::SpansOrEvents, a.target)?;
    all.push(IdWord {
        letters: Letters::SpansOrEvents,
        word: b.target,
    })?;
    Ok(all)
}

/// What a line names, in the order on the line. Cost: the number of IDs.
pub(crate) fn id_words<'a>(alloc: Global, form: &Form<'a>) -> Result<Vec<IdWord<'a>>, Memory>
    ensures { IfOk result (λ all. map seen_id_word all.items ≡ id_words (seen_form form.now)) }
{
    match form {
        Form::Bad | Form::Text { .. } => Ok(Vec::new(alloc)),
        Form::Event { trigger, pairs, .. } => of_event(alloc, trigger, pairs),
        Form::Relation { a, b, .. } => of_relation(alloc, a, b),
        Form::Attribute { target, .. } => one(alloc, Letters::Attributed, target),
        Form::Class { ids, .. } => of_members(alloc, ids),
        Form::Normal { target, .. } => one(alloc, Letters::SpansOrEvents, target),
        Form::Note { target, .. } => one(alloc, Letters::AnyButNotes, target),
    }
}

/// The first field of a line that has an ID of its own.
fn own_word<'a>(form: &Form<'a>) -> Option<&'a str>
    ensures { option_map seen_text result ≡ own_word (seen_form form.now) }
{
    match form {
        Form::Bad | Form::Class { .. } => None,
        Form::Text { first, .. } => Some(first),
        Form::Event { first, .. } => Some(first),
        Form::Relation { first, .. } => Some(first),
        Form::Attribute { first, .. } => Some(first),
        Form::Normal { first, .. } => Some(first),
        Form::Note { first, .. } => Some(first),
    }
}

/// The ID of a line.
pub(crate) fn own_id(form: &Form) -> Option<AnnId>
    ensures { result ≡ own_id (seen_form form.now) }
{
    AnnId::read(own_word(form)?.as_bytes())
}

/// Whether a line has an ID of its own that is misspelt, where this is the ID as it was read.
pub(crate) fn is_own_misspelt(form: &Form, own: Option<AnnId>) -> bool
    requires { own ≡ own_id (seen_form form.now) }
    ensures { result ≡ is_own_misspelt (seen_form form.now) }
{
    own.is_none() && own_word(form).is_some()
}

/// Whether a word begins with none of the letters.
fn has_no_letter(id_word: &IdWord) -> bool
    ensures { result ≡ has_no_letter (seen_id_word id_word.now) }
{
    Kind::of_letter(first_byte(id_word.word.as_bytes())).is_none()
}

/// Whether a word spells no ID.
fn is_misspelt(id_word: &IdWord) -> bool
    ensures { result ≡ is_misspelt (seen_id_word id_word.now) }
{
    AnnId::read(id_word.word.as_bytes()).is_none()
}

/// Whether some word begins with none of the letters.
pub(crate) fn some_without_letter(id_words: &[IdWord]) -> bool
    ensures { result ≡ list_any has_no_letter (map seen_id_word id_words.now) }
{
    for id_word in id_words {
        if has_no_letter(id_word) {
            return true;
        }
    }
    false
}

/// Whether some word spells no ID.
pub(crate) fn some_misspelt(id_words: &[IdWord]) -> bool
    ensures { result ≡ list_any is_misspelt (map seen_id_word id_words.now) }
{
    for id_word in id_words {
        if is_misspelt(id_word) {
            return true;
        }
    }
    false
}

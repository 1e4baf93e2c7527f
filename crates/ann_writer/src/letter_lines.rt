//! The lines of all annotations of a letter.
ghost use Rattle.std.specs.Prelude.{◌≡◌, ◌++◌, string_bytes, OnOk};
ghost use Rattle.std.specs.List.{AllByRecursion};
ghost use Rattle.std.specs.Ordering.{nat_cmp};
ghost use Rattle.std.specs.FinMap as finite;
ghost use Rattle.ann_writer.specs.AnnOf.{lines_of};

use crate::lines::{push_attribute, push_event, push_normal, push_note, push_relation, push_span};
use char_documents::Doc;
use conf_model::Conf;
use layer_model::{Attribute, Event, Normal, Note, Relation, Span};
use mark_base::{AnnId, Kind, Memory};
use std::alloc::Global;
use std::collections::BTreeMap;

/// Appends the line of an annotation of a letter.
pub(crate) trait Spell<V> {
    ghost use Rattle.std.specs.Prelude.{ℕ, List, string_bytes, ◌++◌};

    ghost can: { Self → V → Type 0 };

    ghost line: { Self → ℕ → V → List ℕ };

    /// What is known of an annotation whose line was appended.
    ghost told: { Self → V → Type 0 };

    fn push(&self, alloc: Global, out: &mut String, number: u32, found: &V) -> Result<(), Memory>
        requires { can self.now found.now }
        ensures line { OnOk result (string_bytes out.new ≡ string_bytes out.old ++ line self.now number found.now) }
        ensures told { OnOk result (told self.now found.now) };
}

/// A text and the configuration by which it is annotated.
#[derive(Clone, Copy)]
pub(crate) struct Page<'a> {
    pub doc: &'a Doc,
    pub conf: &'a Conf,
}

/// Attributes of the letter `A` or `M`.
#[derive(Clone, Copy)]
pub(crate) struct Attributes<'a> {
    pub conf: &'a Conf,
    pub kind: Kind,
}

impl Spell<Span> for Page<'_> {
    ghost use Rattle.std.specs.Prelude.{⊤};
    ghost use Rattle.ann_writer.specs.AnnOf.{span_line};
    ghost use Rattle.ann_writer.specs.Writable.{LiesIn};

    ghost can = { λ page span. LiesIn page.doc.now span };

    ghost line = { λ page. span_line page.conf.now page.doc.now };

    ghost told = { λ page span. ⊤ };

    fn push(
        &self,
        _alloc: Global,
        out: &mut String,
        number: u32,
        found: &Span,
    ) -> Result<(), Memory> {
        push_span(out, self.doc, self.conf, number, found)
    }
}

impl Spell<Event> for Page<'_> {
    ghost use Rattle.std.specs.Prelude.{⊤};
    ghost use Rattle.ann_writer.specs.AnnOf.{event_line};
    ghost use Rattle.ann_writer.specs.Writable.{HasRoles};

    ghost can = { λ page event. HasRoles page.conf.now event };

    ghost line = { λ page. event_line page.conf.now };

    ghost told = { λ page event. ⊤ };

    fn push(
        &self,
        alloc: Global,
        out: &mut String,
        number: u32,
        found: &Event,
    ) -> Result<(), Memory> {
        push_event(alloc, out, self.conf, number, found)
    }
}

impl Spell<Relation> for Page<'_> {
    ghost use Rattle.std.specs.Prelude.{⊤};
    ghost use Rattle.ann_writer.specs.AnnOf.{relation_line};

    ghost can = { λ page relation. ⊤ };

    ghost line = { λ page. relation_line page.conf.now };

    ghost told = { λ page relation. ⊤ };

    fn push(
        &self,
        alloc: Global,
        out: &mut String,
        number: u32,
        found: &Relation,
    ) -> Result<(), Memory> {
        push_relation(alloc, out, self.conf, number, found)
    }
}

impl Spell<Attribute> for Attributes<'_> {
    ghost use Rattle.std.specs.Prelude.{⊤};
    ghost use Rattle.ann_writer.specs.AnnOf.{attribute_line};

    ghost can = { λ attributes attribute. ⊤ };

    ghost line = { λ attributes. attribute_line attributes.conf.now attributes.kind };

    ghost told = { λ attributes attribute. ⊤ };

    fn push(
        &self,
        alloc: Global,
        out: &mut String,
        number: u32,
        found: &Attribute,
    ) -> Result<(), Memory> {
        push_attribute(alloc, out, self.conf, self.kind, number, found)
    }
}

impl Spell<Normal> for Page<'_> {
    ghost use Rattle.ann_writer.specs.Writable.{NormalTexts};
    ghost use Rattle.std.specs.Prelude.{⊤};
    ghost use Rattle.ann_writer.specs.AnnOf.{normal_line};

    ghost can = { λ page normal. ⊤ };

    ghost line = { λ page. normal_line };

    ghost told = { λ page normal. NormalTexts normal };

    fn push(
        &self,
        alloc: Global,
        out: &mut String,
        number: u32,
        found: &Normal,
    ) -> Result<(), Memory> {
        push_normal(alloc, out, number, found)
    }
}

impl Spell<Note> for Page<'_> {
    ghost use Rattle.ann_writer.specs.Writable.{NoteTexts};
    ghost use Rattle.std.specs.Prelude.{⊤};
    ghost use Rattle.ann_writer.specs.AnnOf.{note_line};

    ghost can = { λ page note. ⊤ };

    ghost line = { λ page. note_line };

    ghost told = { λ page note. NoteTexts note };

    fn push(
        &self,
        alloc: Global,
        out: &mut String,
        number: u32,
        found: &Note,
    ) -> Result<(), Memory> {
        push_note(alloc, out, number, found)
    }
}

/// Appends the lines of all annotations of a letter, by number.
pub(crate) fn push_all<V, S: Spell<V>>(
    alloc: Global,
    out: &mut String,
    spell: &S,
    marks: &BTreeMap<u32, V>,
) -> Result<(), Memory>
    requires { AllByRecursion (λ entry. S.can spell.now entry.1) (finite.entries (finite.from_entries {R = nat_cmp} marks.now.entries)) }
    ensures lines { OnOk result (string_bytes out.new ≡ string_bytes out.old ++ lines_of (S.line spell.now) (finite.from_entries {R = nat_cmp} marks.now.entries)) }
    ensures told { OnOk result (AllByRecursion (λ entry. S.told spell.now entry.1) (finite.entries (finite.from_entries {R = nat_cmp} marks.now.entries))) }
{
    for (number, found) in marks {
        spell.push(alloc, out, *number, found)?;
    }
    Ok(())
}

//! A layer.
ghost use Rattle.std.specs.Prelude.{◌≡◌, ◌≤◌, ◌<◌, ℕ, true, false, length, Some, IfOk, OnOk, OnErr};
ghost use Rattle.std.specs.Option.{option_copied};
ghost use Rattle.std.specs.FinMap as finite;
ghost use Rattle.std.specs.List.{list_any};
ghost use Rattle.layer_model.specs.Annotations.{Annotations, no_marks};
ghost use Rattle.layer_model.specs.Classes.{has_member, joined, parted};
ghost use Rattle.layer_model.specs.Layers.{IsLayer, attribute_at, count, greatest, has, is_of_kind, mark_at, with_classes, with_mark, without};

use crate::attribute::Attribute;
use crate::class::Class;
use crate::class_list::ClassList;
use crate::event::Event;
use crate::mark::Mark;
use crate::normal::Normal;
use crate::note::Note;
use crate::numbered::Numbered;
use crate::relation::Relation;
use crate::span::Span;
use mark_base::{AnnId, IdList, Kind, Memory, RelId};
use std::alloc::Global;
use std::collections::BTreeMap;
use std::marker::Model;

/// What one annotator has marked on one text: annotations by their IDs, and equivalence classes.
#[derive(Debug, Drop)]
pub struct Layer {
    spans: Numbered<Span>,
    events: Numbered<Event>,
    relations: Numbered<Relation>,
    attributes: Numbered<Attribute>,
    legacy: Numbered<Attribute>,
    normals: Numbered<Normal>,
    notes: Numbered<Note>,
    classes: ClassList,
}

impl Model for Layer {
    ghost use Rattle.layer_model.specs.Annotations.{Annotations, annotations_code};

    ghost Value = { Annotations };

    ghost coded = { annotations_code };

    ghost view = { λ layer. record { spans = layer.spans; events = layer.events; relations = layer.relations; attributes = layer.attributes; legacy = layer.legacy; normals = layer.normals; notes = layer.notes; classes = layer.classes } };
}

impl Layer {
    /// A layer with nothing marked.
    pub fn new(alloc: Global) -> Self
        ensures { result ≡ no_marks }
    {
        Layer {
            spans: Numbered::new(alloc),
            events: Numbered::new(alloc),
            relations: Numbered::new(alloc),
            attributes: Numbered::new(alloc),
            legacy: Numbered::new(alloc),
            normals: Numbered::new(alloc),
            notes: Numbered::new(alloc),
            classes: ClassList::new(alloc),
        }
    }

    /// The span of this number. Cost: as the look-up of an ordered map.
    pub fn span(&self, number: u32) -> Option<&Span>
        ensures { option_copied result ≡ finite.get self.now.spans number }
    {
        self.spans.get(number)
    }

    /// The event of this number. Cost: as `span`.
    pub fn event(&self, number: u32) -> Option<&Event>
        ensures { option_copied result ≡ finite.get self.now.events number }
    {
        self.events.get(number)
    }

    /// The relation of this number. Cost: as `span`.
    pub fn relation(&self, number: u32) -> Option<&Relation>
        ensures { option_copied result ≡ finite.get self.now.relations number }
    {
        self.relations.get(number)
    }

    /// The normalization of this number. Cost: as `span`.
    pub fn normal(&self, number: u32) -> Option<&Normal>
        ensures { option_copied result ≡ finite.get self.now.normals number }
    {
        self.normals.get(number)
    }

    /// The note of this number. Cost: as `span`.
    pub fn note(&self, number: u32) -> Option<&Note>
        ensures { option_copied result ≡ finite.get self.now.notes number }
    {
        self.notes.get(number)
    }

    /// The attribute of this ID, under the letter `A` or `M`. Cost: as `span`.
    pub fn attribute(&self, id: AnnId) -> Option<&Attribute>
        ensures { option_copied result ≡ attribute_at self.now id }
    {
        match id.kind {
            Kind::Attribute => self.attributes.get(id.number),
            Kind::Legacy => self.legacy.get(id.number),
            _ => None,
        }
    }

    /// Whether there is an annotation of this ID. Cost: as `span`.
    pub fn has(&self, id: AnnId) -> bool
        ensures { result ≡ has self.now id }
    {
        match id.kind {
            Kind::Text => self.spans.has(id.number),
            Kind::Event => self.events.has(id.number),
            Kind::Relation => self.relations.has(id.number),
            Kind::Attribute => self.attributes.has(id.number),
            Kind::Legacy => self.legacy.has(id.number),
            Kind::Normal => self.normals.has(id.number),
            Kind::Note => self.notes.has(id.number),
        }
    }

    /// How many annotations of this sort there are. Those of the letters `A` and `M` count apart.
    pub fn count(&self, kind: Kind) -> u32
        ensures { result ≡ count self.now kind }
    {
        match kind {
            Kind::Text => self.spans.count(),
            Kind::Event => self.events.count(),
            Kind::Relation => self.relations.count(),
            Kind::Attribute => self.attributes.count(),
            Kind::Legacy => self.legacy.count(),
            Kind::Normal => self.normals.count(),
            Kind::Note => self.notes.count(),
        }
    }

    /// The greatest number of this sort. Cost: as `span`.
    pub fn greatest(&self, kind: Kind) -> Option<u32>
        ensures { result ≡ greatest self.now kind }
    {
        match kind {
            Kind::Text => self.spans.greatest(),
            Kind::Event => self.events.greatest(),
            Kind::Relation => self.relations.greatest(),
            Kind::Attribute => self.attributes.greatest(),
            Kind::Legacy => self.legacy.greatest(),
            Kind::Normal => self.normals.greatest(),
            Kind::Note => self.notes.greatest(),
        }
    }

    /// Takes the annotation of this ID out. The classes stay. Cost: as `span`.
    pub fn take(&mut self, id: AnnId) -> Option<Mark>
        ensures taken { result ≡ mark_at self.old id }
        ensures rest { self.new ≡ without self.old id }
    {
        match id.kind {
            Kind::Text => Some(Mark::Span(self.spans.take(id.number)?)),
            Kind::Event => Some(Mark::Event(self.events.take(id.number)?)),
            Kind::Relation => Some(Mark::Relation(self.relations.take(id.number)?)),
            Kind::Attribute => Some(Mark::Attribute(self.attributes.take(id.number)?)),
            Kind::Legacy => Some(Mark::Attribute(self.legacy.take(id.number)?)),
            Kind::Normal => Some(Mark::Normal(self.normals.take(id.number)?)),
            Kind::Note => Some(Mark::Note(self.notes.take(id.number)?)),
        }
    }

    /// Puts an annotation under an ID that the layer does not have. Want of memory leaves the layer as
    /// it was. Cost: as `span`.
    pub fn put(&mut self, id: AnnId, mark: Mark) -> Result<(), Memory>
        requires fits { is_of_kind id.kind mark ≡ true }
        requires new { has self.old id ≡ false }
        ensures ok { OnOk result (self.new ≡ with_mark self.old id mark) }
        ensures err { OnErr result (self.new ≡ self.old) }
    {
        match mark {
            Mark::Span(span) => self.spans.put(id.number, span),
            Mark::Event(event) => self.events.put(id.number, event),
            Mark::Relation(relation) => self.relations.put(id.number, relation),
            Mark::Attribute(attribute) => match id.kind {
                Kind::Legacy => self.legacy.put(id.number, attribute),
                _ => self.attributes.put(id.number, attribute),
            },
            Mark::Normal(normal) => self.normals.put(id.number, normal),
            Mark::Note(note) => self.notes.put(id.number, note),
        }
    }

    /// Puts another annotation under an ID that the layer has, and answers the one that was there. It takes
    /// no memory. Cost: as `span`.
    pub fn replace(&mut self, id: AnnId, mark: Mark) -> Mark
        requires fits { is_of_kind id.kind mark ≡ true }
        requires there { has self.old id ≡ true }
        ensures replaced { mark_at self.old id ≡ Some result }
        ensures rest { self.new ≡ with_mark self.old id mark }
    {
        match mark {
            Mark::Span(span) => Mark::Span(self.spans.replace(id.number, span)),
            Mark::Event(event) => Mark::Event(self.events.replace(id.number, event)),
            Mark::Relation(relation) => {
                Mark::Relation(self.relations.replace(id.number, relation))
            }
            Mark::Attribute(attribute) => Mark::Attribute(match id.kind {
                Kind::Legacy => self.legacy.replace(id.number, attribute),
                _ => self.attributes.replace(id.number, attribute),
            }),
            Mark::Normal(normal) => Mark::Normal(self.normals.replace(id.number, normal)),
            Mark::Note(note) => Mark::Note(self.notes.replace(id.number, note)),
        }
    }

    /// The spans by their numbers.
    pub fn spans(&self) -> &BTreeMap<u32, Span>
        ensures { finite.from_entries result.now.entries ≡ self.now.spans }
    {
        self.spans.map()
    }

    /// The events by their numbers.
    pub fn events(&self) -> &BTreeMap<u32, Event>
        ensures { finite.from_entries result.now.entries ≡ self.now.events }
    {
        self.events.map()
    }

    /// The relations by their numbers.
    pub fn relations(&self) -> &BTreeMap<u32, Relation>
        ensures { finite.from_entries result.now.entries ≡ self.now.relations }
    {
        self.relations.map()
    }

    /// The attributes of the letter `A` by their numbers.
    pub fn attributes(&self) -> &BTreeMap<u32, Attribute>
        ensures { finite.from_entries result.now.entries ≡ self.now.attributes }
    {
        self.attributes.map()
    }

    /// The attributes of the letter `M` by their numbers.
    pub fn legacy(&self) -> &BTreeMap<u32, Attribute>
        ensures { finite.from_entries result.now.entries ≡ self.now.legacy }
    {
        self.legacy.map()
    }

    /// The normalizations by their numbers.
    pub fn normals(&self) -> &BTreeMap<u32, Normal>
        ensures { finite.from_entries result.now.entries ≡ self.now.normals }
    {
        self.normals.map()
    }

    /// The notes by their numbers.
    pub fn notes(&self) -> &BTreeMap<u32, Note>
        ensures { finite.from_entries result.now.entries ≡ self.now.notes }
    {
        self.notes.map()
    }

    /// The classes, ordered by type and least member, the members of each ascending.
    pub fn classes(&self) -> &[Class]
        ensures { result.now ≡ self.now.classes }
    {
        self.classes.items()
    }

    /// Adds a class of these members, joined with every class of the type that shares one. Want of
    /// memory leaves the layer as it was. Cost: comparisons as the members of the classes of the type and of
    /// the list, times the logarithm of their number; and a member that does not belong behind those before
    /// it moves each behind its place, so that a list that falls moves the square of its number.
    pub fn join(&mut self, kind: RelId, members: IdList) -> Result<(), Memory>
        requires some { 0 < length members }
        requires few { length self.old.classes < 4294967295 }
        ensures ok { OnOk result (self.new ≡ with_classes self.old (joined kind members self.old.classes)) }
        ensures err { OnErr result (self.new ≡ self.old) }
    {
        self.classes.join(kind, members.items())
    }

    /// Takes a member out of the class of the type that has it, and answers whether there was one. A
    /// class that is left with fewer than two members goes. Cost: the members of the classes.
    pub fn part(&mut self, kind: RelId, id: AnnId) -> bool
        ensures rest { self.new ≡ with_classes self.old (parted kind.n id self.old.classes) }
        ensures found { result ≡ list_any (has_member kind.n id) self.old.classes }
    {
        self.classes.part(kind, id)
    }

    /// Tells a proof what every layer keeps. It does nothing.
    pub fn keeps(&self)
        ensures { IsLayer self.now }
    {
        let _spans = self.spans.map();
        let _events = self.events.map();
        let _relations = self.relations.map();
        let _attributes = self.attributes.map();
        let _legacy = self.legacy.map();
        let _normals = self.normals.map();
        let _notes = self.notes.map();
        let _classes = self.classes.items();
    }

    /// A second layer with the same annotations and classes. Cost: their number and length.
    pub fn copy(&self) -> Result<Layer, Memory>
        ensures { IfOk result (λ layer. layer ≡ self.now) }
    {
        let spans = Numbered::of(self.spans.map().clone()?);
        let events = Numbered::of(self.events.map().clone()?);
        let relations = Numbered::of(self.relations.map().clone()?);
        let attributes = Numbered::of(self.attributes.map().clone()?);
        let legacy = Numbered::of(self.legacy.map().clone()?);
        let normals = Numbered::of(self.normals.map().clone()?);
        let notes = Numbered::of(self.notes.map().clone()?);
        let classes = self.classes.copy()?;
        Ok(Layer {
            spans,
            events,
            relations,
            attributes,
            legacy,
            normals,
            notes,
            classes,
        })
    }
}

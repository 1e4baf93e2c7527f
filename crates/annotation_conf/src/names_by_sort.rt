//! The names that a file declares, by sorts.
ghost use Rattle.std.specs.Prelude.{◌≡◌, ℕ, ◌≤◌, ◌++◌, nat_le, length, map, filter, IfOk, count_by};
ghost use Rattle.conf_model.specs.ConfNames.{file_of};
ghost use Rattle.conf_model.specs.ConfFaults.{Declared, stood_before, is_among, names_of, of_types, of_named, bound_names, are_past, firsts};
ghost use Rattle.annotation_conf.specs.NamePlaces.{seen_declared, place_among};
ghost use Rattle.annotation_conf.specs.FileShows.{Shows};
ghost use Rattle.annotation_conf.specs.KnownFiles.{type_declared, named_declared, macro_declared, of_macros, IsKnown};

use crate::file::{File, MacroLine, NamedLine, TypeLine};
use crate::known_names::{DeclaredName, Names};
use mark_base::Memory;
use std::alloc::Global;
use std::marker::Model;
use type_hierarchy::MOST_USABLE;

/// The types, the relation types, the attributes, the roles of a type and the values of an attribute of
/// the fullest tables.
pub const MOST_ROWS: usize = 256;

/// The names that a file declares. Contracts see them as the file.
#[derive(Drop)]
pub struct KnownNames<'a> {
    text: &'a str,
    file: &'a File,
    entities: Names<'a>,
    events: Names<'a>,
    usable_entities: Names<'a>,
    usable_events: Names<'a>,
    relations: Names<'a>,
    relation_types: Names<'a>,
    attributes: Names<'a>,
    macros: Names<'a>,
}

impl<'a> Model for KnownNames<'a> {
    ghost use Rattle.conf_model.specs.ConfNames.{File, file_of};

    ghost Value = { File };

    ghost use Rattle.annotation_conf.specs.KnownFiles.{IsKnown, NamesAre};

    ghost view = { λ known. file_of known.text.now };

    ghost invariant = { λ known. IsKnown known.file.now (file_of known.text.now)
        × NamesAre (file_of known.text.now) known.entities known.events known.usable_entities known.usable_events known.relations known.relation_types known.attributes known.macros };
}

/// The names of type lines.
fn type_names<'a>(alloc: Global, lines: &'a [TypeLine]) -> Result<Vec<DeclaredName<'a>>, Memory>
    ensures { IfOk result (λ names. map seen_declared names.items ≡ map type_declared lines.now) }
{
    let mut names = Vec::new(alloc);
    for line in lines {
        names.push(DeclaredName {
            number: line.number,
            name: line.name.text(),
        })?;
    }
    Ok(names)
}

/// The names of type lines whose types annotations may have.
fn usable_names<'a>(alloc: Global, lines: &'a [TypeLine]) -> Result<Vec<DeclaredName<'a>>, Memory>
    ensures { IfOk result (λ names. map seen_declared names.items ≡ map type_declared (filter (λ line. line.usable) lines.now)) }
{
    let mut names = Vec::new(alloc);
    for line in lines {
        if line.usable {
            names.push(DeclaredName {
                number: line.number,
                name: line.name.text(),
            })?;
        }
    }
    Ok(names)
}

/// The names of other lines.
fn other_names<'a>(alloc: Global, lines: &'a [NamedLine]) -> Result<Vec<DeclaredName<'a>>, Memory>
    ensures { IfOk result (λ names. map seen_declared names.items ≡ map named_declared lines.now) }
{
    let mut names = Vec::new(alloc);
    for line in lines {
        names.push(DeclaredName {
            number: line.number,
            name: line.name.text(),
        })?;
    }
    Ok(names)
}

/// The names of macros.
fn macro_names<'a>(alloc: Global, lines: &'a [MacroLine]) -> Result<Vec<DeclaredName<'a>>, Memory>
    ensures { IfOk result (λ names. map seen_declared names.items ≡ map macro_declared lines.now) }
{
    let mut names = Vec::new(alloc);
    for line in lines {
        names.push(DeclaredName {
            number: line.number,
            name: line.name.text(),
        })?;
    }
    Ok(names)
}

impl<'a> KnownNames<'a> {
    /// The names that the file of a text declares. Cost: their number times its logarithm.
    pub fn of(alloc: Global, text: &'a str, file: &'a File) -> Result<KnownNames<'a>, Memory>
        requires { IsKnown file.now (file_of text.now) }
        ensures { IfOk result (λ known. known ≡ file_of text.now) }
    {
        let entities = Names::of(alloc, type_names(alloc, &file.entities)?)?;
        let events = Names::of(alloc, type_names(alloc, &file.events)?)?;
        let usable_entities = Names::of(alloc, usable_names(alloc, &file.entities)?)?;
        let usable_events = Names::of(alloc, usable_names(alloc, &file.events)?)?;
        let relations = Names::of(alloc, other_names(alloc, &file.relations)?)?;
        let relation_types = relations.firsts(alloc)?;
        let attributes = Names::of(alloc, other_names(alloc, &file.attributes)?)?;
        let macros = Names::of(alloc, macro_names(alloc, &file.macros)?)?;
        Ok(KnownNames {
            text,
            file,
            entities,
            events,
            usable_entities,
            usable_events,
            relations,
            relation_types,
            attributes,
            macros,
        })
    }

    /// What the file is.
    pub fn file(&self) -> &'a File
        ensures { IsKnown result.now self.now }
    {
        self.file
    }

    /// Whether a name is that of an entity or event type.
    pub fn has_type(&self, name: &str) -> bool
        ensures { result ≡ is_among (names_of (bound_names self.now)) name.now }
    {
        self.entities.has(name) || self.events.has(name)
    }

    /// Whether a name is that of an entity, event or relation type.
    pub fn has_any(&self, name: &str) -> bool
        ensures { result ≡ is_among (names_of (bound_names self.now ++ of_named self.now.relations)) name.now }
    {
        self.has_type(name) || self.relations.has(name)
    }

    /// Whether a line before this number declares an entity or event type of this name.
    pub fn type_stood(&self, number: u32, name: &str) -> bool
        ensures { result ≡ stood_before number name.now (bound_names self.now) }
    {
        self.entities.stood_before(number, name) || self.events.stood_before(number, name)
    }

    /// Whether a line before this number is one of a relation type of this name.
    pub fn relation_stood(&self, number: u32, name: &str) -> bool
        ensures { result ≡ stood_before number name.now (of_named self.now.relations) }
    {
        self.relations.stood_before(number, name)
    }

    /// Whether a line before this number declares an attribute of this name.
    pub fn attribute_stood(&self, number: u32, name: &str) -> bool
        ensures { result ≡ stood_before number name.now (of_named self.now.attributes) }
    {
        self.attributes.stood_before(number, name)
    }

    /// Whether more than 256 types stand up to a line.
    pub fn are_types_past(&self, number: u32) -> bool
        ensures { result ≡ are_past 256 number (bound_names self.now) }
    {
        let entities = self.entities.count_up_to(number).min(MOST_ROWS + 1);
        let events = self.events.count_up_to(number).min(MOST_ROWS + 1);
        entities + events > MOST_ROWS
    }
    /// Whether more than 63 types that annotations may have stand up to a line.
    pub fn are_usable_past(&self, number: u32) -> bool
        ensures { result ≡ are_past 63 number (of_types (filter (λ one. one.usable) (self.now.entities ++ self.now.events))) }
    {
        let entities = self
            .usable_entities
            .count_up_to(number)
            .min(MOST_USABLE + 1);
        let events = self.usable_events.count_up_to(number).min(MOST_USABLE + 1);
        entities + events > MOST_USABLE
    }

    /// Whether more than 256 relation types stand up to a line.
    pub fn are_relation_types_past(&self, number: u32) -> bool
        ensures { result ≡ are_past 256 number (of_named (firsts self.now.relations)) }
    {
        self.relation_types.count_up_to(number) > MOST_ROWS
    }

    /// Whether more than 256 attributes stand up to a line.
    pub fn are_attributes_past(&self, number: u32) -> bool
        ensures { result ≡ are_past 256 number (of_named self.now.attributes) }
    {
        self.attributes.count_up_to(number) > MOST_ROWS
    }

    /// The place of the first line of a relation type.
    pub fn first_relation(&self, name: &str) -> Option<usize>
        ensures { result ≡ place_among (of_named self.now.relations) name.now }
    {
        self.relations.place(name)
    }

    /// The place of the first macro of a name.
    pub fn first_macro(&self, name: &str) -> Option<usize>
        ensures { result ≡ place_among (of_macros self.now.macros) name.now }
    {
        self.macros.place(name)
    }
    /// The place of the type of a name.
    pub fn type_place(&self, name: &str) -> Option<usize>
        requires { length (bound_names self.now) ≤ 256 }
        ensures { result ≡ place_among (bound_names self.now) name.now }
    {
        if let Some(place) = self.entities.place(name) {
            return Some(place);
        }
        let place = self.events.place(name)?;
        Some(self.entities.len() + place)
    }

    /// The place of the relation type of a name.
    pub fn relation_place(&self, name: &str) -> Option<usize>
        ensures { result ≡ place_among (of_named (firsts self.now.relations)) name.now }
    {
        self.relation_types.place(name)
    }
}

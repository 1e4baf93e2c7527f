//! A file of annotation.conf by what its lines say.
ghost use Rattle.std.specs.Prelude.{◌≡◌, ◌≤◌, ◌==◌, length, drop, slice_index, encode_utf8_all, option_map, IfOk, OnOk, if◌then◌else◌};
ghost use Rattle.std.specs.Char.{is_whitespace};
ghost use Rattle.conf_model.specs.ConfLines.{Before, Header, Content, kind_of, place_after};
ghost use Rattle.conf_model.specs.ConfPairs.{alternatives_of};
ghost use Rattle.conf_model.specs.ConfNames.{file_of, type_line, named_line};
ghost use Rattle.annotation_conf.specs.FileKept.{SaysNothing, kept_type, kept_named, said_of};
ghost use Rattle.annotation_conf.specs.FileShows.{seen_section, seen_type, seen_named, seen_macro, seen_what, seen_file, Shows};
ghost use Rattle.annotation_conf.specs.FileGrows.{nothing_kept, with_line, with_macro, with_kept_relation, with_declared, seen_place, grown, line_of};

use crate::line::{
    Line, Place, Section, What, begins_with, is_skipped, macro_parts, section_named,
};
use crate::line_parts::{
    characters, enclosed, encoded, name_end, split_lines, tabs_before, trimmed,
};
use crate::pieces::{Alternative, Pieces, read_alternatives, read_pieces};
use mark_base::{Memory, Text};
use std::alloc::Global;

/// The line of a type: how many TABs stand before it, whether it begins with a space, whether other
/// white space stands before its name, whether annotations may have the type, its name, and what follows.
#[derive(Debug, Drop)]
pub struct TypeLine {
    pub number: u32,
    pub depth: usize,
    pub spaced: bool,
    pub gapped: bool,
    pub usable: bool,
    pub name: Text,
    pub pieces: Pieces,
}

/// Any other line that declares something: its name, and what follows.
#[derive(Debug, Drop)]
pub struct NamedLine {
    pub number: u32,
    pub name: Text,
    pub pieces: Pieces,
}

/// The line of a macro: its name and its alternatives.
#[derive(Debug, Drop)]
pub struct MacroLine {
    pub number: u32,
    pub name: Text,
    pub alternatives: Vec<Alternative>,
}

/// A file by what its lines say, each sort in the order of its lines.
#[derive(Debug, Drop)]
pub struct File {
    pub lines: Vec<Line>,
    pub entities: Vec<TypeLine>,
    pub events: Vec<TypeLine>,
    pub relations: Vec<NamedLine>,
    pub overlaps: Vec<NamedLine>,
    pub attributes: Vec<NamedLine>,
    pub macros: Vec<MacroLine>,
}

/// The line of a type by its characters. Cost: the characters.
fn read_type(alloc: Global, number: u32, characters: &[char]) -> Result<TypeLine, Memory>
    ensures { IfOk result (λ line. seen_type line ≡ kept_type (type_line number characters.now)) }
{
    let depth = tabs_before(characters);
    let indented = &characters[depth..];
    let body = trimmed(indented);
    let usable = !begins_with(body, '!');
    let named = after_mark(body);
    let end = name_end(named);
    let name = encoded(alloc, &named[..end])?;
    let pieces = read_pieces(alloc, &named[end..])?;
    Ok(TypeLine {
        number,
        depth,
        spaced: begins_with(characters, ' '),
        gapped: begins_blank(indented),
        usable,
        name,
        pieces,
    })
}

/// Whether characters begin with white space.
fn begins_blank(characters: &[char]) -> bool
    ensures { result ≡ is_whitespace (slice_index characters.now 0) }
{
    match characters.first() {
        Some(first) => first.is_whitespace(),
        None => false,
    }
}

/// What follows a mark `!`, where one stands before a name.
fn after_mark(body: &[char]) -> &[char]
    ensures { result.now ≡ (if slice_index body.now 0 == 33 then drop 1 body.now else body.now) }
{
    match body {
        ['!', named @ ..] => named,
        _ => body,
    }
}

/// Any other line by its characters. Cost: the characters.
fn read_named(alloc: Global, number: u32, characters: &[char]) -> Result<NamedLine, Memory>
    ensures { IfOk result (λ line. seen_named line ≡ kept_named (named_line number characters.now)) }
{
    let end = name_end(characters);
    let name = encoded(alloc, &characters[..end])?;
    let pieces = read_pieces(alloc, &characters[end..])?;
    Ok(NamedLine {
        number,
        name,
        pieces,
    })
}

/// A macro by the characters of its name and of its alternatives. Cost: the characters.
fn read_macro(
    alloc: Global,
    number: u32,
    name: &[char],
    alternatives: &[char],
) -> Result<MacroLine, Memory>
    ensures { IfOk result (λ macro. seen_macro macro ≡ record { number = number; name = encode_utf8_all name.now; alternatives = alternatives_of alternatives.now }) }
{
    let name = encoded(alloc, name)?;
    let alternatives = read_alternatives(alloc, alternatives)?;
    Ok(MacroLine {
        number,
        name,
        alternatives,
    })
}

impl File {
    /// A file without lines.
    fn new(alloc: Global) -> Self
        ensures { seen_file result ≡ nothing_kept }
    {
        File {
            lines: Vec::new(alloc),
            entities: Vec::new(alloc),
            events: Vec::new(alloc),
            relations: Vec::new(alloc),
            overlaps: Vec::new(alloc),
            attributes: Vec::new(alloc),
            macros: Vec::new(alloc),
        }
    }

    /// Adds a line that says this.
    fn add_line(&mut self, number: u32, what: What) -> Result<(), Memory>
        ensures { OnOk result (seen_file self.new ≡ with_line (seen_file self.old) number (seen_what what)) }
    {
        Ok(self.lines.push(Line { number, what })?)
    }

    /// Adds a line of a relation type or of overlaps.
    fn add_relation(&mut self, line: NamedLine) -> Result<(), Memory>
        ensures { OnOk result (seen_file self.new ≡ with_kept_relation (seen_file self.old) (seen_named line)) }
    {
        if line.name.text() == "<OVERLAP>" {
            self.overlaps.push(line)?;
        } else {
            self.relations.push(line)?;
        }
        Ok(())
    }

    /// Adds what a line declares in a section.
    fn add_declared(
        &mut self,
        alloc: Global,
        number: u32,
        section: Section,
        characters: &[char],
    ) -> Result<(), Memory>
        ensures { OnOk result (seen_file self.new ≡ with_declared (seen_file self.old) number (seen_section section) characters.now) }
    {
        match section {
            Section::Entities => self.entities.push(read_type(alloc, number, characters)?)?,
            Section::Events => self.events.push(read_type(alloc, number, characters)?)?,
            Section::Relations => self.add_relation(read_named(
                alloc,
                number,
                trimmed(characters),
            )?)?,
            Section::Attributes => self
                .attributes
                .push(read_named(alloc, number, characters)?)?,
        }
        Ok(())
    }

    /// Adds a section line, and gives the place behind it.
    fn add_header(&mut self, number: u32, section: Option<Section>) -> Result<Place, Memory>
        ensures { IfOk result (λ here. (seen_place here ≡ place_after Before (Header (option_map seen_section section)))
            × (seen_file self.new ≡ with_line (seen_file self.old) number (said_of Before (Header (option_map seen_section section))))) }
    {
        match section {
            Some(section) => {
                self.add_line(number, What::Opens(section))?;
                Ok(Place::Within(section))
            }
            None => {
                self.add_line(number, What::Unknown)?;
                Ok(Place::Nowhere)
            }
        }
    }

    /// Adds a macro.
    fn add_macro(
        &mut self,
        alloc: Global,
        number: u32,
        name: &[char],
        alternatives: &[char],
    ) -> Result<(), Memory>
        ensures { OnOk result (seen_file self.new ≡ with_macro (with_line (seen_file self.old) number SaysNothing) (record { number = number; name = encode_utf8_all name.now; alternatives = alternatives_of alternatives.now })) }
    {
        self.add_line(number, What::Plain)?;
        self.macros
            .push(read_macro(alloc, number, name, alternatives)?)?;
        Ok(())
    }

    /// Adds any other line.
    fn add_content(
        &mut self,
        alloc: Global,
        number: u32,
        place: Place,
        characters: &[char],
    ) -> Result<(), Memory>
        ensures { OnOk result (seen_file self.new ≡ grown (seen_file self.old) (record { number = number; place = seen_place place; kind = Content characters.now })) }
    {
        match place {
            Place::Before => self.add_line(number, What::Outside),
            Place::Nowhere => self.add_line(number, What::Plain),
            Place::Within(section) => {
                self.add_line(number, What::Plain)?;
                self.add_declared(alloc, number, section, characters)
            }
        }
    }

    /// Adds a line behind one of this place, and gives its own place.
    fn add(
        &mut self,
        alloc: Global,
        number: u32,
        place: Place,
        characters: &[char],
    ) -> Result<Place, Memory>
        ensures { IfOk result (λ here. (seen_place here ≡ place_after (seen_place place) (kind_of characters.now))
            × (seen_file self.new ≡ grown (seen_file self.old) (line_of number (seen_place place) characters.now))) }
    {
        if is_skipped(characters) {
            self.add_line(number, What::Plain)?;
            return Ok(place);
        }
        if let Some(word) = enclosed(characters, '[', ']') {
            return self.add_header(number, section_named(word));
        }
        if let Some((name, alternatives)) = macro_parts(characters) {
            self.add_macro(alloc, number, name, alternatives)?;
            return Ok(place);
        }
        self.add_content(alloc, number, place, characters)?;
        Ok(place)
    }
}

/// What the lines of a text say. Cost: its bytes.
pub fn read_file(alloc: Global, text: &str) -> Result<File, Memory>
    requires { length text.now ≤ 4194304 }
    ensures { IfOk result (λ file. Shows file (file_of text.now)) }
{
    let lines = split_lines(alloc, text)?;
    let mut file = File::new(alloc);
    let mut place = Place::Before;
    let mut number = 0;
    for line in &lines {
        number += 1;
        let line = characters(alloc, line)?;
        place = file.add(alloc, number, place, &line)?;
    }
    Ok(file)
}

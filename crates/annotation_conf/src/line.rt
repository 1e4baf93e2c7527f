//! The lines of annotation.conf, each with what it says.
ghost use Rattle.std.specs.Prelude.{◌≡◌, ◌==◌, ◌<◌, false, true, option_map, slice_index, MatchOption, drop};
ghost use Rattle.std.specs.Char.{is_whitespace};
ghost use Rattle.std.specs.List.{list_all, before_first, after_first};
ghost use Rattle.conf_model.specs.ConfLines.{is_hyphens, is_skipped, is_macro, section_named};
ghost use Rattle.annotation_conf.specs.FileShows.{seen_section};

use crate::line_parts::{cut_at, spells, trimmed};

/// The four sections.
#[derive(Clone, Copy, Debug, PartialEq, Eq)]
pub enum Section {
    Entities,
    Relations,
    Events,
    Attributes,
}

/// Where a line stands: before the first section line, behind one that names no section, or in a section.
#[derive(Clone, Copy, Debug, PartialEq, Eq)]
pub enum Place {
    Before,
    Nowhere,
    Within(Section),
}

/// What a line says where that is a matter of sections.
#[derive(Clone, Copy, Debug, PartialEq, Eq)]
pub enum What {
    /// No such matter: it is passed over, or a macro, or stands in a section or behind a line that names none.
    Plain,
    /// It names no section.
    Unknown,
    /// It opens a section.
    Opens(Section),
    /// It stands before the first section, and is no macro.
    Outside,
}

/// A line by its number, from 1, and what it says.
#[derive(Clone, Copy, Debug, PartialEq, Eq)]
pub struct Line {
    pub number: u32,
    pub what: What,
}

/// Whether characters begin with this one.
pub fn begins_with(characters: &[char], first: char) -> bool
    requires { 0 < first }
    ensures { result ≡ (slice_index characters.now 0 == first) }
{
    match characters.first() {
        Some(found) => *found == first,
        None => false,
    }
}

/// Whether each character is a hyphen.
fn all_hyphens(characters: &[char]) -> bool
    ensures { result ≡ list_all (λ c. c == 45) characters.now }
{
    characters.iter().all(|c| *c == '-')
}

/// Whether each character is white space.
fn is_blank(characters: &[char]) -> bool
    ensures { result ≡ list_all is_whitespace characters.now }
{
    characters.iter().all(|c| c.is_whitespace())
}

/// Whether there are hyphens only.
fn is_hyphens(characters: &[char]) -> bool
    ensures { result ≡ is_hyphens characters.now }
{
    if characters.is_empty() {
        return false;
    }
    all_hyphens(characters)
}

/// Whether a line is passed over: blank, a comment, or hyphens only.
pub fn is_skipped(characters: &[char]) -> bool
    ensures { result ≡ is_skipped characters.now }
{
    if is_blank(characters) {
        return true;
    }
    if begins_with(trimmed(characters), '#') {
        return true;
    }
    is_hyphens(characters)
}

/// The section of a bracketed word.
pub fn section_named(word: &[char]) -> Option<Section>
    ensures { option_map seen_section result ≡ section_named word.now }
{
    if spells(word, "entities") {
        Some(Section::Entities)
    } else if spells(word, "relations") {
        Some(Section::Relations)
    } else if spells(word, "events") {
        Some(Section::Events)
    } else if spells(word, "attributes") {
        Some(Section::Attributes)
    } else {
        None
    }
}

/// The characters of a macro's name and of its alternatives, where a line is a macro.
pub fn macro_parts(characters: &[char]) -> Option<(&[char], &[char])>
    ensures { MatchOption result (is_macro characters.now ≡ false) (λ parts. (is_macro characters.now ≡ true)
        × (parts.0.now ≡ drop 1 (before_first (λ c. c == 62) characters.now)) × (parts.1.now ≡ drop 1 (after_first (λ c. c == 62) characters.now))) }
{
    if !begins_with(characters, '<') {
        return None;
    }
    let (before, after) = cut_at(characters, '>');
    match (before, after) {
        ([_, name @ ..], ['=', alternatives @ ..]) => Some((name, alternatives)),
        _ => None,
    }
}

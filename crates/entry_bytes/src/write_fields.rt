//! Fields written behind what is written already.
ghost use Rattle.std.specs.Prelude.{◌≡◌, ◌<◌, ◌^◌, ◌++◌, ◌∷◌, [], length, OnOk};
ghost use Rattle.entry_bytes.specs.Fields.{u32_bytes, u64_bytes, flag, slug_bytes, text_bytes, person_bytes, people_bytes, IsText, IsSlug, ArePeople};

use crate::person::{Person, PersonList};
use mark_base::{Memory, Slug, Text};

/// Writes a number in four bytes.
#[tactic(auto, unfolding(crate::specs::Fields::u32_bytes))]
pub(crate) fn put_u32(out: &mut Vec<u8>, number: u32) -> Result<(), Memory>
    ensures { OnOk result (out.new.items ≡ out.old.items ++ u32_bytes number) }
{
    out.extend_from_slice(&number.to_le_bytes())?;
    Ok(())
}

/// Writes a number in eight bytes.
#[tactic(auto, unfolding(crate::specs::Fields::u64_bytes))]
pub(crate) fn put_u64(out: &mut Vec<u8>, number: u64) -> Result<(), Memory>
    ensures { OnOk result (out.new.items ≡ out.old.items ++ u64_bytes number) }
{
    out.extend_from_slice(&number.to_le_bytes())?;
    Ok(())
}

/// Writes a slug behind the byte of its length.
pub(crate) fn put_slug(out: &mut Vec<u8>, slug: &Slug) -> Result<(), Memory>
    ensures bytes { OnOk result (out.new.items ≡ out.old.items ++ slug_bytes slug.now) }
    ensures is { OnOk result (IsSlug slug.now) }
{
    let text = slug.text();
    out.push(text.len() as u8)?;
    out.extend_from_slice(text.as_bytes())?;
    Ok(())
}

/// Writes a text behind the four bytes of its length.
pub(crate) fn put_text(out: &mut Vec<u8>, text: &Text) -> Result<(), Memory>
    requires { length text.now < 2 ^ 32 }
    ensures bytes { OnOk result (out.new.items ≡ out.old.items ++ text_bytes text.now) }
    ensures is { OnOk result (IsText text.now) }
{
    let bytes = text.text().as_bytes();
    put_u32(out, bytes.len() as u32)?;
    out.extend_from_slice(bytes)?;
    Ok(())
}

/// Writes a person: the role and the name.
pub(crate) fn put_person(out: &mut Vec<u8>, person: &Person) -> Result<(), Memory>
    ensures bytes { OnOk result (out.new.items ≡ out.old.items ++ person_bytes person.now) }
    ensures is { OnOk result (IsSlug person.now.name) }
{
    out.push(person.curator as u8)?;
    put_slug(out, &person.name)
}

/// Writes people behind the byte of their number.
pub(crate) fn put_people(out: &mut Vec<u8>, people: &PersonList) -> Result<(), Memory>
    requires { length people.now < 256 }
    ensures bytes { OnOk result (out.new.items ≡ out.old.items ++ people_bytes people.now) }
    ensures are { OnOk result (ArePeople people.now) }
{
    let persons = people.items();
    out.push(persons.len() as u8)?;
    for person in persons {
        put_person(out, person)?;
    }
    Ok(())
}

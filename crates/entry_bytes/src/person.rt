//! The people of a project.
ghost use Rattle.std.specs.Prelude.{◌≡◌, IfOk};

use mark_base::{Memory, Slug};
use std::alloc::{AllocError, Global};
use std::marker::Model;

/// A person on a project's roster: a curator, or else an annotator.
#[derive(Clone, Debug, Drop, PartialEq, Eq)]
pub struct Person {
    pub name: Slug,
    pub curator: bool,
}

impl Person {
    /// A second person of the same name and role. Cost: the length of the name.
    pub fn copy(&self) -> Result<Person, Memory>
        ensures { IfOk result (λ person. person ≡ self.now) }
    {
        let name = self.name.copy()?;
        Ok(Person {
            name,
            curator: self.curator,
        })
    }
}

/// A list of people.
#[derive(Debug, Drop)]
pub struct PersonList {
    items: Vec<Person>,
}

impl Model for PersonList {
    ghost use Rattle.std.specs.Prelude.{List};
    ghost use Rattle.entry_bytes.specs.declared.person.Person.{Person};

    ghost Value = { List Person };

    ghost view = { λ list. list.items.items };
}

impl PersonList {
    /// A copy of these people. Cost: their number and the bytes of their names.
    pub fn of(alloc: Global, items: &[Person]) -> Result<Self, Memory>
        ensures { IfOk result (λ list. list ≡ items.now) }
    {
        let mut copies = Vec::new(alloc);
        for item in items {
            copies.push(item.copy()?)?;
        }
        Ok(PersonList { items: copies })
    }

    /// The people of a vector, which is not copied.
    pub fn from_vec(items: Vec<Person>) -> Self
        ensures { result ≡ items.items }
    {
        PersonList { items }
    }

    /// The people as a vector, not copied.
    pub fn into_vec(self) -> Vec<Person>
        ensures { result.items ≡ self }
    {
        let PersonList { items } = self;
        items
    }

    /// The people in their order.
    pub fn items(&self) -> &[Person]
        ensures { result.now ≡ self.now }
    {
        self.items.as_slice()
    }

    /// A second list of the same people. Cost: their number and the bytes of their names.
    pub fn copy(&self) -> Result<Self, Memory>
        ensures { IfOk result (λ list. list ≡ self.now) }
    {
        let items = self.items.clone()?;
        Ok(PersonList { items })
    }
}

impl Clone for PersonList {
    ghost is_clone = { λ before after. after ≡ before };

    fn clone(&self) -> Result<Self, AllocError> {
        let items = self.items.clone()?;
        Ok(PersonList { items })
    }
}

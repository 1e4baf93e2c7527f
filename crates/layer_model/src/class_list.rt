//! Equivalence classes in their order.
ghost use Rattle.std.specs.Prelude.{◌≡◌, ◌==◌, not, ◌≤◌, ◌<◌, ◌+◌, ◌++◌, [], length, vec_len, vec_capacity, insert, remove, slice_get, None, IfNone, IfOk, IfSome, OnOk, OnErr};
ghost use Rattle.std.specs.List.{filter, list_any};
ghost use Rattle.layer_model.specs.Classes.{IsClassList, apart, ascending, class_with, comes_before, has_member, has_rank, insert_class, joined, is_among, joined_class, least_of, other_classes, parted, settled, shares, rank, sharing, without_member};

use crate::ascending_ids::ascending_ids;
use crate::class::Class;
use crate::id_set::{IdSet, rank};
use mark_base::{AnnId, IdList, Memory, RelId};
use std::alloc::Global;
use std::marker::Model;

/// The classes of a layer, ordered by type and least member.
#[derive(Debug, Drop)]
pub struct ClassList {
    alloc: Global,
    classes: Vec<Class>,
}

impl Model for ClassList {
    ghost use Rattle.std.specs.Prelude.{List};
    ghost use Rattle.layer_model.specs.declared.class.Class.{Class};
    ghost use Rattle.layer_model.specs.Classes.{IsClassList};

    ghost Value = { List Class };

    ghost view = { λ list. list.classes.items };

    ghost invariant = { λ list. IsClassList list.classes.items };
}

/// The place of the least member among all IDs.
fn least_of(members: &[AnnId]) -> u64
    ensures { result ≡ least_of members.now }
{
    match members {
        [] => 0,
        [first, ..] => rank(*first),
    }
}

/// Whether the first class comes before the second.
fn comes_before(a: &Class, b: &Class) -> bool
    ensures { result ≡ comes_before a.now b.now }
{
    a.kind.n < b.kind.n
        || a.kind.n == b.kind.n && least_of(a.members.items()) < least_of(b.members.items())
}

/// The place of a class among classes in their order.
fn place_of(class: &Class, classes: &[Class]) -> usize
    ensures bound { result ≤ length classes.now }
    ensures place { insert classes.now result class.now ≡ insert_class class.now classes.now }
{
    for (i, other) in classes.iter().enumerate() {
        if comes_before(class, other) {
            return i;
        }
    }
    classes.len()
}

/// Puts a class in its place. There is room for it.
fn put_class(classes: &mut Vec<Class>, class: Class)
    requires { vec_len classes.old < vec_capacity classes.old }
    ensures { classes.new.items ≡ insert_class class classes.old.items }
{
    let place = place_of(&class, classes.as_slice());
    match classes.insert(place, class) {
        Ok(()) => {}
        Err(_) => unreachable!(),
    }
}

/// Whether one of the members is sought.
fn has_sought(members: &[AnnId], sought: &IdSet) -> bool
    ensures { result ≡ list_any (λ id. is_among id sought.now) members.now }
{
    members.iter().any(|id| sought.has(*id))
}

/// Whether a class is of the type and has one of these members.
fn shares(class: &Class, kind: RelId, sought: &IdSet) -> bool
    ensures { result ≡ shares kind.n sought.now class.now }
{
    class.kind.n == kind.n && has_sought(class.members.items(), sought)
}

/// The members of the classes that share one with these, and then these.
fn with_sharing(
    alloc: Global,
    classes: &[Class],
    kind: RelId,
    sought: &IdSet,
    members: &[AnnId],
) -> Result<Vec<AnnId>, Memory>
    ensures { IfOk result (λ all. all.items ≡ sharing kind.n sought.now classes.now ++ members.now) }
{
    let mut all = Vec::new(alloc);
    for class in classes {
        if shares(class, kind, sought) {
            all.extend_from_slice(class.members.items())?;
        }
    }
    all.extend_from_slice(members)?;
    Ok(all)
}

/// Takes the classes out that share a member with these.
fn keep_apart(classes: &mut Vec<Class>, kind: RelId, sought: &IdSet)
    ensures items { classes.new.items ≡ apart kind.n sought.now classes.old.items }
    ensures bound { vec_len classes.new ≤ vec_len classes.old }
    ensures capacity { vec_capacity classes.new ≡ vec_capacity classes.old }
{
    classes.retain(|class| !shares(class, kind, sought));
}

/// Whether the ID of this place is one of the members.
fn has_rank(members: &[AnnId], place: u64) -> bool
    ensures { result ≡ has_rank place members.now }
{
    members.iter().any(|member| rank(*member) == place)
}

/// Whether a class is of the type and has the member.
fn has_member(class: &Class, kind: RelId, id: AnnId) -> bool
    ensures { result ≡ has_member kind.n id class.now }
{
    class.kind.n == kind.n && has_rank(class.members.items(), rank(id))
}

/// The place of the class that has the member.
fn place_with(classes: &[Class], kind: RelId, id: AnnId) -> Option<usize>
    ensures none { IfNone result (class_with kind.n id classes.now ≡ None) }
    ensures class { IfSome result (λ place. class_with kind.n id classes.now ≡ slice_get classes.now place) }
    ensures others { IfSome result (λ place. other_classes kind.n id classes.now ≡ remove classes.now place) }
    ensures bound { IfSome result (λ place. place < length classes.now) }
{
    for (i, class) in classes.iter().enumerate() {
        if has_member(class, kind, id) {
            return Some(i);
        }
    }
    None
}

/// Takes the ID of this place out of the members.
fn drop_member(members: &mut Vec<AnnId>, place: u64)
    ensures { members.new.items ≡ filter (λ member. not (rank member == place)) members.old.items }
{
    members.retain(|member| rank(*member) != place);
}

/// A class less one member.
fn without_member(class: Class, id: AnnId) -> Class
    ensures { result ≡ without_member id class }
{
    let Class { kind, members } = class;
    let mut members = members.into_vec();
    drop_member(&mut members, rank(id));
    Class {
        kind,
        members: IdList::from_vec(members),
    }
}

impl ClassList {
    /// No classes.
    pub fn new(alloc: Global) -> Self
        ensures { result ≡ [] }
    {
        ClassList {
            alloc,
            classes: Vec::new(alloc),
        }
    }

    /// The classes in their order.
    pub fn items(&self) -> &[Class]
        ensures items { result.now ≡ self.now }
        ensures kept { IsClassList self.now }
    {
        self.classes.as_slice()
    }

    /// A second list of the same classes.
    pub fn copy(&self) -> Result<Self, Memory>
        ensures { IfOk result (λ list. list ≡ self.now) }
    {
        let classes = self.classes.clone()?;
        Ok(ClassList {
            alloc: self.alloc,
            classes,
        })
    }

    /// The class that these members make with all that share one.
    fn joined_class(&self, kind: RelId, members: &[AnnId], sought: &IdSet) -> Result<Class, Memory>
        requires { sought.now ≡ ascending members.now }
        ensures { IfOk result (λ class. class ≡ joined_class kind members.now self.now) }
    {
        let all = with_sharing(self.alloc, self.classes.as_slice(), kind, sought, members)?;
        let members = ascending_ids(self.alloc, all.as_slice())?;
        Ok(Class {
            kind,
            members: IdList::from_vec(members),
        })
    }

    /// Adds a class of these members and of all classes of the type that share one.
    pub fn join(&mut self, kind: RelId, members: &[AnnId]) -> Result<(), Memory>
        requires some { 0 < length members.now }
        requires few { length self.old < 4294967295 }
        ensures ok { OnOk result (self.new ≡ joined kind members.now self.old) }
        ensures err { OnErr result (self.new ≡ self.old) }
    {
        let sought = IdSet::of(self.alloc, members)?;
        let class = self.joined_class(kind, members, &sought)?;
        self.classes.reserve(1)?;
        keep_apart(&mut self.classes, kind, &sought);
        put_class(&mut self.classes, class);
        Ok(())
    }

    /// Takes a member out of the class of the type that has it.
    pub fn part(&mut self, kind: RelId, id: AnnId) -> bool
        ensures rest { self.new ≡ parted kind.n id self.old }
        ensures found { result ≡ list_any (has_member kind.n id) self.old }
    {
        let Some(place) = place_with(self.classes.as_slice(), kind, id) else {
            return false;
        };
        let class = without_member(self.classes.remove(place), id);
        if class.members.items().len() >= 2 {
            put_class(&mut self.classes, class);
        }
        true
    }
}

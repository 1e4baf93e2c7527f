//! Commands and scripts, written as bytes.
//!
//! A command is its number as one byte, and its fields in order. A name stands behind one byte of its length,
//! and one of 255 bytes or more behind 255 and four bytes of its length; a text and a list stand behind four
//! bytes of their length, low byte first. An ID is the place of its letter among T, E, R, A, M, N and # as one
//! byte, and its number in four; a fragment is its start and its end in four bytes each; an argument is its role
//! and its target.
//!
//! ```text
//! 1 AddSpan        type, fragments            9 ClearAttribute  ID
//! 2 RetypeSpan     ID, type                  10 Equate          type, IDs
//! 3 MoveSpan       ID, fragments             11 Unequate        type, ID
//! 4 AddEvent       type, trigger, arguments  12 SetNote         target, type, text
//! 5 AddArg         ID, argument              13 SetReference    target, store, entry, text
//! 6 RemoveArg      ID, argument              14 Delete          ID
//! 7 AddRelation    type, first, second       15 Purge           ID
//! 8 SetAttribute   type, target, 0 or        16 Load            .ann lines as a text
//!                  1 and a value
//! ```
ghost use Rattle.std.specs.Prelude.{◌≡◌, ◌++◌, ◌∷◌, ℕ, List, true, length, OnOk, IfOk};
ghost use Rattle.std.specs.List.{AllByRecursion};
ghost use Rattle.entry_bytes.specs.Fields.{text_bytes};
ghost use Rattle.conf_model.specs.Configurations.{Configuration};
ghost use Rattle.layer_core.specs.declared.command.Command.TheVariants as ask;
ghost use Rattle.layer_rules.specs.WellFormed.{IsWellFormed};
ghost use Rattle.ann_writer.specs.AnnOf.{ann_of};
ghost use Rattle.command_bytes.specs.CommandBytes.{name_bytes, id_bytes, list_bytes, frag_bytes, arg_bytes, value_bytes, command_bytes, script_bytes, scripts_bytes};
ghost use Rattle.command_bytes.specs.WritableCommands.{is_plain, CanBeWritten};

use crate::write_fields::{
    put_arg, put_args, put_count, put_counted, put_frags, put_id, put_ids, put_name, put_text,
    put_u8, put_value,
};
use ann_writer::ann_bytes;
use char_documents::Doc;
use conf_model::Conf;
use layer_core::Command;
use layer_model::Layer;
use layer_undo::Script;
use mark_base::{AnnId, Bytes, FragList, IdList, Memory, Name, NamedArg, NamedArgs, Text};
use std::alloc::Global;

/// A name and fragments.
fn put_add_span(out: &mut Vec<u8>, kind: &Name, frags: &FragList) -> Result<(), Memory>
    ensures { OnOk result (out.new.items ≡ out.old.items ++ (1 ∷ name_bytes kind.now ++ list_bytes frag_bytes frags.now)) }
{
    put_u8(out, 1)?;
    put_name(out, kind)?;
    put_frags(out, frags)
}

/// An ID and fragments.
fn put_move_span(out: &mut Vec<u8>, id: AnnId, frags: &FragList) -> Result<(), Memory>
    ensures { OnOk result (out.new.items ≡ out.old.items ++ (3 ∷ id_bytes id ++ list_bytes frag_bytes frags.now)) }
{
    put_u8(out, 3)?;
    put_id(out, id)?;
    put_frags(out, frags)
}

/// A name, a trigger and arguments.
fn put_add_event(
    out: &mut Vec<u8>,
    kind: &Name,
    trigger: AnnId,
    args: &NamedArgs,
) -> Result<(), Memory>
    ensures { OnOk result (out.new.items ≡ out.old.items ++ (4 ∷ name_bytes kind.now ++ id_bytes trigger ++ list_bytes arg_bytes args.now)) }
{
    put_u8(out, 4)?;
    put_name(out, kind)?;
    put_id(out, trigger)?;
    put_args(out, args)
}

/// A tag and an ID.
fn put_on_id(out: &mut Vec<u8>, tag: u8, id: AnnId) -> Result<(), Memory>
    ensures { OnOk result (out.new.items ≡ out.old.items ++ (tag ∷ id_bytes id)) }
{
    put_u8(out, tag)?;
    put_id(out, id)
}

/// A tag, an ID and a name.
fn put_id_name(out: &mut Vec<u8>, tag: u8, id: AnnId, kind: &Name) -> Result<(), Memory>
    ensures { OnOk result (out.new.items ≡ out.old.items ++ (tag ∷ id_bytes id ++ name_bytes kind.now)) }
{
    put_on_id(out, tag, id)?;
    put_name(out, kind)
}

/// A tag, an ID and an argument.
fn put_id_arg(out: &mut Vec<u8>, tag: u8, id: AnnId, arg: &NamedArg) -> Result<(), Memory>
    ensures { OnOk result (out.new.items ≡ out.old.items ++ (tag ∷ id_bytes id ++ arg_bytes arg.now)) }
{
    put_on_id(out, tag, id)?;
    put_arg(out, arg)
}

/// A tag, a name and an ID.
fn put_name_id(out: &mut Vec<u8>, tag: u8, kind: &Name, id: AnnId) -> Result<(), Memory>
    ensures { OnOk result (out.new.items ≡ out.old.items ++ (tag ∷ name_bytes kind.now ++ id_bytes id)) }
{
    put_u8(out, tag)?;
    put_name(out, kind)?;
    put_id(out, id)
}

/// The type of a relation, and its two annotations.
fn put_add_relation(
    out: &mut Vec<u8>,
    kind: &Name,
    first: AnnId,
    second: AnnId,
) -> Result<(), Memory>
    ensures { OnOk result (out.new.items ≡ out.old.items ++ (7 ∷ name_bytes kind.now ++ id_bytes first ++ id_bytes second)) }
{
    put_name_id(out, 7, kind, first)?;
    put_id(out, second)
}

/// The type of an attribute, what has it, and its value.
fn put_set_attribute(
    out: &mut Vec<u8>,
    kind: &Name,
    target: AnnId,
    value: &Option<Name>,
) -> Result<(), Memory>
    ensures { OnOk result (out.new.items ≡ out.old.items ++ (8 ∷ name_bytes kind.now ++ id_bytes target ++ value_bytes value.now)) }
{
    put_name_id(out, 8, kind, target)?;
    put_value(out, value)
}

/// The type of a class, and its members.
fn put_equate(out: &mut Vec<u8>, kind: &Name, members: &IdList) -> Result<(), Memory>
    ensures { OnOk result (out.new.items ≡ out.old.items ++ (10 ∷ name_bytes kind.now ++ list_bytes id_bytes members.now)) }
{
    put_u8(out, 10)?;
    put_name(out, kind)?;
    put_ids(out, members)
}

/// What a note is on, its type and its text.
fn put_set_note(out: &mut Vec<u8>, target: AnnId, kind: &Name, text: &Text) -> Result<(), Memory>
    ensures { OnOk result (out.new.items ≡ out.old.items ++ (12 ∷ id_bytes target ++ name_bytes kind.now ++ text_bytes text.now)) }
{
    put_id_name(out, 12, target, kind)?;
    put_text(out, text)
}

/// What has a reference, its store, its entry and its text.
fn put_set_reference(
    out: &mut Vec<u8>,
    target: AnnId,
    store: &Text,
    entry: &Text,
    text: &Text,
) -> Result<(), Memory>
    ensures { OnOk result (out.new.items ≡ out.old.items ++ (13 ∷ id_bytes target ++ text_bytes store.now ++ text_bytes entry.now ++ text_bytes text.now)) }
{
    put_on_id(out, 13, target)?;
    put_text(out, store)?;
    put_text(out, entry)?;
    put_text(out, text)
}

/// Writes a command that is no load; its bytes are the same for every configuration and text.
fn put_plain(out: &mut Vec<u8>, command: &Command) -> Result<(), Memory>
    requires { is_plain command.now ≡ true }
    ensures { OnOk result ((conf : Configuration) (text : List ℕ) → out.new.items ≡ out.old.items ++ command_bytes conf text command.now) }
{
    match command {
        Command::AddSpan { kind, frags } => put_add_span(out, kind, frags),
        Command::RetypeSpan { id, kind } => put_id_name(out, 2, *id, kind),
        Command::MoveSpan { id, frags } => put_move_span(out, *id, frags),
        Command::AddEvent {
            kind,
            trigger,
            args,
        } => put_add_event(out, kind, *trigger, args),
        Command::AddArg { id, arg } => put_id_arg(out, 5, *id, arg),
        Command::RemoveArg { id, arg } => put_id_arg(out, 6, *id, arg),
        Command::AddRelation {
            kind,
            first,
            second,
        } => put_add_relation(out, kind, *first, *second),
        Command::SetAttribute {
            kind,
            target,
            value,
        } => put_set_attribute(out, kind, *target, value),
        Command::ClearAttribute { id } => put_on_id(out, 9, *id),
        Command::Equate { kind, members } => put_equate(out, kind, members),
        Command::Unequate { kind, id } => put_name_id(out, 11, kind, *id),
        Command::SetNote { target, kind, text } => put_set_note(out, *target, kind, text),
        Command::SetReference {
            target,
            store,
            entry,
            text,
        } => put_set_reference(out, *target, store, entry, text),
        Command::Delete { id } => put_on_id(out, 14, *id),
        Command::Purge { id } => put_on_id(out, 15, *id),
        Command::Load { .. } => unreachable!(),
    }
}

/// Writes the load of a layer, as its .ann lines.
fn put_load(
    alloc: Global,
    out: &mut Vec<u8>,
    layer: &Layer,
    doc: &Doc,
    conf: &Conf,
) -> Result<(), Memory>
    requires { IsWellFormed conf.now (length doc.now) layer.now }
    ensures { OnOk result (out.new.items ≡ out.old.items ++ (16 ∷ text_bytes (ann_of conf.now doc.now layer.now))) }
{
    let lines = ann_bytes(alloc, layer, doc, conf)?;
    put_u8(out, 16)?;
    put_counted(out, lines.items())
}

/// Writes a command: its number, and its fields in order.
fn put_command(
    alloc: Global,
    out: &mut Vec<u8>,
    command: &Command,
    doc: &Doc,
    conf: &Conf,
) -> Result<(), Memory>
    requires { CanBeWritten conf.now doc.now command.now }
    ensures { OnOk result (out.new.items ≡ out.old.items ++ command_bytes conf.now doc.now command.now) }
{
    match command {
        Command::Load { layer } => put_load(alloc, out, layer, doc, conf),
        _ => put_plain(out, command),
    }
}

/// Writes commands behind their number.
#[tactic(auto, unfolding(crate::specs::CommandBytes::script_bytes))]
fn put_script(
    alloc: Global,
    out: &mut Vec<u8>,
    script: &Script,
    doc: &Doc,
    conf: &Conf,
) -> Result<(), Memory>
    requires { AllByRecursion (CanBeWritten conf.now doc.now) script.now }
    ensures { OnOk result (out.new.items ≡ out.old.items ++ script_bytes conf.now doc.now script.now) }
{
    let commands = script.items();
    put_count(out, commands.len())?;
    for command in commands {
        put_command(alloc, out, command, doc, conf)?;
    }
    Ok(())
}

/// The bytes of the commands done and of those undone, as an entry holds them: of each list the number in four
/// bytes, low byte first, and each command: its number from 1 to 16, and its fields in order. A layer that is
/// loaded stands as its .ann lines, so each must be well-formed. Cost: the number of the bytes, and what
/// `ann_bytes` says of a layer.
pub fn write_scripts(
    alloc: Global,
    done: &Script,
    undone: &Script,
    doc: &Doc,
    conf: &Conf,
) -> Result<Bytes, Memory>
    requires done { AllByRecursion (CanBeWritten conf.now doc.now) done.now }
    requires undone { AllByRecursion (CanBeWritten conf.now doc.now) undone.now }
    ensures bytes { IfOk result (λ bytes. bytes ≡ scripts_bytes conf.now doc.now done.now undone.now) }
{
    let mut out = Vec::new(alloc);
    put_script(alloc, &mut out, done, doc, conf)?;
    put_script(alloc, &mut out, undone, doc, conf)?;
    Ok(Bytes::from_vec(out))
}

//! Whether commands and layers hold only what a journal can tell again. Names, texts and layers always do; a list of a
//! command may be too long for one.
ghost use Rattle.std.specs.Prelude.{◌≡◌, false, true, IsUtf8};
ghost use Rattle.std.specs.List.{AllByRecursion};
ghost use Rattle.std.specs.FinMap as finite;
ghost use Rattle.ann_writer.specs.Writable.{HasTexts, NormalTexts, NoteTexts};
ghost use Rattle.command_bytes.specs.CommandValues.{AreArgs, AreCommands, AreFrags, IsCommand, IsFrag, IsName, IsTypedLayer};

use layer_core::Command;
use layer_model::{Layer, Normal, Note};
use layer_undo::Script;
use mark_base::{Frag, FragList, Name, NamedArg, NamedArgs, Text};

/// The items of the longest list that a journal can tell.
const MOST_ITEMS: usize = 4_294_967_295;

/// Tells a proof that a name is spelt as one. It does nothing.
fn name_is(name: &Name)
    ensures { IsName name.now }
{
    let _text = name.text();
}

/// Tells a proof that a text is one. It does nothing.
fn text_is(text: &Text)
    ensures { IsUtf8 text.now }
{
    let _text = text.text();
}

/// Tells a proof that a normalization is written with texts. It does nothing.
fn normal_is(normal: &Normal)
    ensures { NormalTexts normal.now }
{
    text_is(&normal.store);
    text_is(&normal.entry);
    text_is(&normal.text);
}

/// Tells a proof that a note is written with texts. It does nothing.
fn note_is(note: &Note)
    ensures { NoteTexts note.now }
{
    name_is(&note.kind);
    text_is(&note.text);
}

/// Tells a proof that normalizations are written with texts.
fn normals_are(layer: &Layer)
    ensures { AllByRecursion (λ entry. NormalTexts entry.1) (finite.entries layer.now.normals) }
{
    for (number, normal) in layer.normals() {
        let _number = *number;
        normal_is(normal);
    }
}

/// Tells a proof that notes are written with texts.
fn notes_are(layer: &Layer)
    ensures { AllByRecursion (λ entry. NoteTexts entry.1) (finite.entries layer.now.notes) }
{
    for (number, note) in layer.notes() {
        let _number = *number;
        note_is(note);
    }
}

/// Tells a proof that a layer is one of a program. Cost: its notes and normalizations.
#[tactic(auto, using(crate::proofs::TextLemmas::has_texts))]
pub fn layer_is_typed(layer: &Layer)
    ensures { IsTypedLayer layer.now }
{
    layer.keeps();
    normals_are(layer);
    notes_are(layer);
}

/// Tells a proof that a fragment is numbers of 32 bits. It does nothing.
fn frag_is(frag: &Frag)
    ensures { IsFrag frag.now }
{
    let _start = frag.start;
    let _end = frag.end;
}

/// Tells a proof that fragments are numbers of 32 bits. Cost: their number.
fn frags_are(frags: &[Frag])
    ensures { AllByRecursion IsFrag frags.now }
{
    for frag in frags {
        frag_is(frag);
    }
}

/// Tells a proof that the roles of arguments are spelt as names. Cost: their number.
fn args_are(args: &[NamedArg])
    ensures { AllByRecursion (λ arg. IsName arg.role) args.now }
{
    for arg in args {
        name_is(&arg.role);
    }
}

/// Whether there are few enough fragments.
fn are_few_frags(frags: &FragList) -> bool
    ensures typed { result ≡ true → AreFrags frags.now }
    ensures other { result ≡ false → AreFrags frags.now → ⊥ }
{
    frags_are(frags.items());
    frags.items().len() <= MOST_ITEMS
}

/// Whether there are few enough arguments.
fn are_few_args(args: &NamedArgs) -> bool
    ensures typed { result ≡ true → AreArgs args.now }
    ensures other { result ≡ false → AreArgs args.now → ⊥ }
{
    args_are(args.items());
    args.items().len() <= MOST_ITEMS
}

/// Whether a new span or event, or another place of a span, can be told.
fn marks_are(kind: &Name, frags: &FragList) -> bool
    ensures typed { result ≡ true → IsName kind.now × AreFrags frags.now }
    ensures other { result ≡ false → IsName kind.now × AreFrags frags.now → ⊥ }
{
    name_is(kind);
    are_few_frags(frags)
}

/// Whether a new event can be told.
fn event_is(kind: &Name, args: &NamedArgs) -> bool
    ensures typed { result ≡ true → IsName kind.now × AreArgs args.now }
    ensures other { result ≡ false → IsName kind.now × AreArgs args.now → ⊥ }
{
    name_is(kind);
    are_few_args(args)
}

/// Whether a command can be told. Cost: its length.
fn is_typed_command(command: &Command) -> bool
    ensures typed { result ≡ true → IsCommand command.now }
    ensures other { result ≡ false → IsCommand command.now → ⊥ }
{
    match command {
        Command::AddSpan { kind, frags } => marks_are(kind, frags),
        Command::RetypeSpan { kind, .. } => {
            name_is(kind);
            true
        }
        Command::MoveSpan { frags, .. } => are_few_frags(frags),
        Command::AddEvent { kind, args, .. } => event_is(kind, args),
        Command::AddArg { arg, .. } => {
            name_is(&arg.role);
            true
        }
        Command::RemoveArg { arg, .. } => {
            name_is(&arg.role);
            true
        }
        Command::AddRelation { kind, .. } => {
            name_is(kind);
            true
        }
        Command::SetAttribute { kind, value, .. } => {
            name_is(kind);
            if let Some(value) = value {
                name_is(value);
            }
            true
        }
        Command::ClearAttribute { .. } => true,
        Command::Equate { kind, members } => {
            name_is(kind);
            members.items().len() <= MOST_ITEMS
        }
        Command::Unequate { kind, .. } => {
            name_is(kind);
            true
        }
        Command::SetNote { kind, text, .. } => {
            name_is(kind);
            text_is(text);
            true
        }
        Command::SetReference {
            store,
            entry,
            text,
            ..
        } => {
            text_is(store);
            text_is(entry);
            text_is(text);
            true
        }
        Command::Delete { .. } => true,
        Command::Purge { .. } => true,
        Command::Load { layer } => {
            layer_is_typed(layer);
            true
        }
    }
}

/// Whether commands can be told. Cost: their length.
fn are_typed(commands: &[Command]) -> bool
    ensures typed { result ≡ true → AreCommands commands.now }
    ensures other { result ≡ false → AreCommands commands.now → ⊥ }
{
    for command in commands {
        if !is_typed_command(command) {
            return false;
        }
    }
    true
}

/// Whether both scripts can be told.
pub fn scripts_are_typed(done: &Script, undone: &Script) -> bool
    ensures typed { result ≡ true → AreCommands done.now × AreCommands undone.now }
    ensures other { result ≡ false → AreCommands done.now × AreCommands undone.now → ⊥ }
{
    are_typed(done.items()) && are_typed(undone.items())
}

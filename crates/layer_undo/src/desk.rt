//! A desk.
ghost use Rattle.std.specs.Prelude.{◌≡◌, [], ◌∷◌, ◌++◌, ◌<◌, IfErr, IfOk, OnErr, OnOk, Ok, length};
ghost use Rattle.std.specs.Arc.{arc_value};
ghost use Rattle.std.specs.Vec.{vec_len, vec_capacity};
ghost use Rattle.layer_rules.specs.WellFormed.{IsWellFormed};
ghost use Rattle.layer_undo.specs.Desks.{IsDesk, after_redo, after_undo, layer_of, performed, settled};
ghost use Rattle.layer_undo.specs.Replays.{replay};
ghost use Rattle.layer_undo.specs.Starts.{IsDeskStart, IsRefused};

use crate::replay::{carry_on, repeat_last, revert_last};
use crate::script_moves::{make_room, make_way, move_last};
use crate::scripts::{MOST_COMMANDS, try_scripts};
use crate::{DeskStart, Script};
use char_documents::Doc;
use conf_model::Conf;
use layer_core::{Back, Command, Done, Refusal, Work, commands_keep_layers};
use layer_model::{Layer, Rule};
use mark_base::Memory;
use std::alloc::Global;
use std::marker::Model;
use std::sync::Arc;

/// A layer that commands change, with undo and redo. It keeps the layer that it was opened on, the base,
/// and the commands done since and those undone: together at most 4,096. Its layer is what the done
/// commands make of the base, so undo gives back exactly the layer before a command, whatever that was.
#[derive(Drop)]
pub struct Desk {
    alloc: Global,
    base: Arc<Layer>,
    doc: Arc<Doc>,
    conf: Arc<Conf>,
    done: Vec<Command>,
    undone: Vec<Command>,
    backs: Vec<Back>,
    work: Work,
}

impl Model for Desk {
    ghost use Rattle.std.specs.Arc.{arc_value};
    ghost use Rattle.layer_undo.specs.Desks.{DeskState, desk_code};
    ghost use Rattle.layer_undo.specs.Trails.{IsKept};

    ghost Value = { DeskState };

    ghost coded = { desk_code };

    ghost view = { λ desk. record { conf = arc_value desk.conf; text = arc_value desk.doc; base = arc_value desk.base; done = desk.done.items; undone = desk.undone.items } };

    ghost invariant = { λ desk. IsKept (record { conf = arc_value desk.conf; text = arc_value desk.doc; base = arc_value desk.base; done = desk.done.items; undone = desk.undone.items }) desk.work desk.backs.items };
}

impl Desk {
    /// Opens a desk on a base with the commands that were done on it and those that were undone, as a
    /// desk before gave them. The scripts are tried first. Cost: a copy and a check of the base, and then
    /// as much as the commands of both scripts cost.
    pub fn open(
        alloc: Global,
        base: Arc<Layer>,
        doc: Arc<Doc>,
        conf: Arc<Conf>,
        done: Script,
        undone: Script,
    ) -> Result<Desk, DeskStart>
        ensures opened { IfOk result (λ desk. desk ≡ record { conf = arc_value conf; text = arc_value doc; base = arc_value base; done = done; undone = undone }) }
        ensures accepted { IfOk result IsDesk }
        ensures refused { IfErr result (IsDeskStart (arc_value conf) (length (arc_value doc)) (arc_value base) done undone) }
    {
        let tried = try_scripts(alloc, &base, &doc, &conf, done.items(), undone.items())?;
        Ok(Desk {
            alloc,
            base,
            doc,
            conf,
            done: done.into_vec(),
            undone: undone.into_vec(),
            backs: tried.backs,
            work: tried.work,
        })
    }

    /// Tells a proof what every desk keeps. It does nothing.
    pub fn keeps(&self)
        ensures { IsDesk self.now }
    {
        let _work = &self.work;
    }

    /// The layer as it stands.
    pub fn layer(&self) -> &Layer
        ensures value { result.now ≡ layer_of self.now }
        ensures replayed { replay self.now.conf (length self.now.text) self.now.base self.now.done ≡ Ok result.now }
        ensures well_formed { IsWellFormed self.now.conf (length self.now.text) result.now }
    {
        self.work.layer()
    }

    /// How many commands are done.
    pub fn done_count(&self) -> u32
        ensures { result ≡ length self.now.done }
    {
        self.done.len() as u32
    }

    /// How many commands are undone.
    pub fn undone_count(&self) -> u32
        ensures { result ≡ length self.now.undone }
    {
        self.undone.len() as u32
    }

    /// A copy of the done commands, the first one first. Cost: their number and length.
    pub fn done(&self) -> Result<Script, Memory>
        ensures { IfOk result (λ script. script ≡ self.now.done) }
    {
        Script::of(self.alloc, self.done.as_slice())
    }

    /// A copy of the undone commands, the one that was undone last at the end. Cost: their number and
    /// length.
    pub fn undone(&self) -> Result<Script, Memory>
        ensures { IfOk result (λ script. script ≡ self.now.undone) }
    {
        Script::of(self.alloc, self.undone.as_slice())
    }

    /// The done commands and the undone ones, as [`done`](Self::done) and [`undone`](Self::undone) give them; they are
    /// moved and not copied, so this takes no memory.
    pub fn into_scripts(self) -> (Script, Script)
        ensures done { result.0 ≡ self.done }
        ensures undone { result.1 ≡ self.undone }
    {
        let Desk {
            alloc,
            done,
            undone,
            ..
        } = self;
        (
            Script::from_vec(alloc, done),
            Script::from_vec(alloc, undone),
        )
    }

    /// A copy of the layer as it stands, to be shared. Cost: the layer.
    pub fn shared(&self) -> Result<Arc<Layer>, Memory>
        ensures { IfOk result (λ layer. arc_value layer ≡ layer_of self.now) }
    {
        let copy = self.layer().copy()?;
        let shared = Arc::new(self.alloc, copy)?;
        Ok(shared)
    }

    /// Makes the layer as it stands the base, as after it was committed. Both scripts become empty.
    pub fn settle(&mut self, base: Arc<Layer>)
        requires { arc_value base ≡ layer_of self.old }
        ensures { self.new ≡ settled self.old }
    {
        let _layer = self.work.layer();
        self.base = base;
        self.done = Vec::new(self.alloc);
        self.undone = Vec::new(self.alloc);
        self.backs = Vec::new(self.alloc);
    }

    /// Carries a command out. The commands that were undone are gone then. A refusal leaves the desk as
    /// it was: `DeskFull` where 4,096 commands are done, and else the first rule by number that the
    /// command breaks. Cost: what the command itself costs.
    pub fn perform(&mut self, command: Command) -> Result<Done, Refusal>
        ensures done { IfOk result (λ done. performed self.old command ≡ Ok (record { desk = self.new; made = done.made })) }
        ensures refused { IfErr result (IsRefused (performed self.old command)) }
        ensures kept { OnErr result (self.new ≡ self.old) }
    {
        if self.done.len() >= MOST_COMMANDS {
            return Err(Refusal::Rule(Rule::DeskFull));
        }
        make_room(&mut self.done)?;
        let done = carry_on(&mut self.work, &mut self.backs, &command)?;
        self.done.push_reserved(command);
        self.undone.clear();
        Ok(done)
    }

    /// Takes the last command back. A refusal leaves the desk as it was: `NothingToUndo` where no command
    /// is done. Cost: as `Work::revert`.
    pub fn undo(&mut self) -> Result<(), Refusal>
        ensures done { OnOk result (after_undo self.old ≡ Ok self.new) }
        ensures refused { IfErr result (IsRefused (after_undo self.old)) }
        ensures kept { OnErr result (self.new ≡ self.old) }
    {
        commands_keep_layers();
        if self.done.is_empty() {
            return Err(Refusal::Rule(Rule::NothingToUndo));
        }
        make_room(&mut self.undone)?;
        revert_last(&mut self.work, &mut self.backs)?;
        move_last(&mut self.done, &mut self.undone);
        Ok(())
    }

    /// Carries the command that was undone last out again. A refusal leaves the desk as it was:
    /// `NothingToRedo` where no command is undone. Cost: as `perform`.
    pub fn redo(&mut self) -> Result<(), Refusal>
        ensures done { OnOk result (after_redo self.old ≡ Ok self.new) }
        ensures refused { IfErr result (IsRefused (after_redo self.old)) }
        ensures kept { OnErr result (self.new ≡ self.old) }
    {
        if self.undone.is_empty() {
            return Err(Refusal::Rule(Rule::NothingToRedo));
        }
        make_room(&mut self.done)?;
        make_way(&mut self.backs)?;
        let at = self.done.len() as u32;
        let back = repeat_last(&mut self.work, at, &self.undone)?;
        self.backs.push_reserved(back);
        move_last(&mut self.undone, &mut self.done);
        Ok(())
    }
}

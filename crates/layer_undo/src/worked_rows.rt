//! The definitions at work on short scripts. Each function does nothing; its clauses are computed when the
//! crate is checked.
ghost use Rattle.std.specs.Prelude.{◌≡◌, ℕ, [], ◌∷◌, Some, Ok, Err, replicate};
ghost use Rattle.std.specs.Result.{result_err};
ghost use Rattle.conf_model.specs.Configurations.{Configuration};
ghost use Rattle.layer_model.specs.Annotations.{Annotations};
ghost use Rattle.layer_model.specs.declared.rule.Rule.{Rule};
ghost use Rattle.layer_core.specs.declared.command.Command.{Command};
ghost use Rattle.layer_core.specs.Commands.{Applied, apply};
ghost use Rattle.layer_undo.specs.Desks.{DeskState, after_redo, after_undo, performed, with_scripts};
ghost use Rattle.layer_undo.specs.Replays.{first_refusal, replay};

/// The last command is undone first, and what was undone last is redone first.
pub fn examples_of_undo()
    ensures nothing_done { (desk : DeskState) → after_undo (with_scripts desk [] desk.undone) ≡ Err Rule.NothingToUndo }
    ensures last { (desk : DeskState) (a b : Command) → after_undo (with_scripts desk (a ∷ b ∷ []) []) ≡ Ok (with_scripts desk (a ∷ []) (b ∷ [])) }
    ensures first { (desk : DeskState) (a b : Command) → after_undo (with_scripts desk (a ∷ []) (b ∷ [])) ≡ Ok (with_scripts desk [] (b ∷ a ∷ [])) }
    ensures nothing_undone { (desk : DeskState) → after_redo (with_scripts desk desk.done []) ≡ Err Rule.NothingToRedo }
    ensures redone { (desk : DeskState) (a b : Command) → after_redo (with_scripts desk [] (b ∷ a ∷ [])) ≡ Ok (with_scripts desk (a ∷ []) (b ∷ [])) }
{}

/// A desk takes 4,096 commands, and that it is full is told before all else.
pub fn examples_of_full_desks()
    ensures full { (desk : DeskState) (a b : Command) → performed (with_scripts desk (replicate 4096 a) []) b ≡ Err Rule.DeskFull }
    ensures too_many { (conf : Configuration) (characters : ℕ) (base : Annotations) (a : Command) → first_refusal conf characters base (replicate 4096 a) (a ∷ []) ≡ Some (4096, Rule.DeskFull) }
{}

/// Commands are counted from 0, and the first that is refused is told.
pub fn examples_of_replays()
    ensures none { (conf : Configuration) (characters : ℕ) (base : Annotations) → replay conf characters base [] ≡ Ok base }
    ensures both { (conf : Configuration) (characters : ℕ) (base : Annotations) (a b : Command) (first second : Applied) → apply conf characters base a ≡ Ok first → apply conf characters first.layer b ≡ Ok second → replay conf characters base (a ∷ b ∷ []) ≡ Ok second.layer }
    ensures at_first { (conf : Configuration) (characters : ℕ) (base : Annotations) (a b : Command) (rule : Rule) → apply conf characters base a ≡ Err rule → replay conf characters base (a ∷ b ∷ []) ≡ Err (0, rule) }
    ensures at_second { (conf : Configuration) (characters : ℕ) (base : Annotations) (a b : Command) (first : Applied) (rule : Rule) → apply conf characters base a ≡ Ok first → apply conf characters first.layer b ≡ Err rule → replay conf characters base (a ∷ b ∷ []) ≡ Err (1, rule) }
    ensures undone_from_its_end { (conf : Configuration) (characters : ℕ) (base : Annotations) (a b c : Command) → first_refusal conf characters base (a ∷ []) (c ∷ b ∷ []) ≡ result_err (replay conf characters base (a ∷ b ∷ c ∷ [])) }
{}

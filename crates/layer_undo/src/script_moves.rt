//! Commands that move from one script of a desk to the other.
ghost use Rattle.std.specs.Prelude.{◌≡◌, ◌<◌, ◌∷◌, [], ◌++◌, OnOk, Some, option_map, vec_len};
ghost use Rattle.std.specs.Vec.{vec_capacity};
ghost use Rattle.layer_undo.specs.Desks.{but_last, last_of};

use layer_core::{Back, Command};
use mark_base::Memory;

/// Makes room for one more command.
pub(crate) fn make_room(commands: &mut Vec<Command>) -> Result<(), Memory>
    ensures room { OnOk result (vec_len commands.new < vec_capacity commands.new) }
    ensures same { commands.new.items ≡ commands.old.items }
{
    commands.try_reserve(1)?;
    Ok(())
}

/// Makes room for one more way back.
pub(crate) fn make_way(backs: &mut Vec<Back>) -> Result<(), Memory>
    ensures room { OnOk result (vec_len backs.new < vec_capacity backs.new) }
    ensures same { backs.new.items ≡ backs.old.items }
{
    backs.try_reserve(1)?;
    Ok(())
}

/// Moves the last command of one list to the end of another, which has room for it.
pub(crate) fn move_last(from: &mut Vec<Command>, to: &mut Vec<Command>)
    requires some { 0 < vec_len from.old }
    requires room { vec_len to.old < vec_capacity to.old }
    ensures from { from.new.items ≡ but_last from.old.items }
    ensures to { option_map (λ command. to.old.items ++ command ∷ []) (last_of from.old.items) ≡ Some to.new.items }
{
    match from.pop() {
        Some(command) => to.push_reserved(command),
        None => unreachable!(),
    }
}

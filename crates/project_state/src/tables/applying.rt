//! What a change does to the tables, done.
ghost use Rattle.std.specs.Prelude.{◌≡◌, ◌≤◌, ◌+◌};
ghost use Rattle.project_state.specs.Tables.Tabling.{CanTable, most_steps, tabled};

use crate::tables::tabling::TableAct;
use kappa_alpha::Tables;
use mark_base::Steps;
use std::sync::ledger::Ledger;

/// Does to the tables what a change does. It takes no memory. Cost: as of `Tables::post` and `Tables::drop_row`.
pub fn apply<G: Ledger>(tables: &mut Tables, act: TableAct, steps: &mut Steps<G>)
    requires { CanTable act tables.old }
    ensures tabled { tables.new ≡ tabled act tables.old }
    ensures steps { steps.new ≤ steps.old + most_steps act tables.old }
{
    match act {
        TableAct::Admit { tokens } => {
            let _number = tables.admit(tokens);
        }
        TableAct::Post { doc, rater, row } => {
            let _before = tables.post(doc, rater, row, steps);
        }
        TableAct::Drop { doc, rater } => {
            let _before = tables.drop_row(doc, rater, steps);
        }
        TableAct::Nothing => {}
    }
}

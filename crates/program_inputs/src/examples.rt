//! What is said of a run, on a few examples.
ghost use Rattle.std.specs.Prelude.{◌≡◌, true, false, [], codes};
ghost use Rattle.conf_model.specs.declared.conf_fault.ConfWhat.{ConfWhat};
ghost use Rattle.layer_model.specs.declared.rule.Rule.{Rule};
ghost use Rattle.mark_base.specs.declared.ann_id.Kind.{Kind};
ghost use Rattle.mark_base.specs.ReadIds.{id_at};
ghost use Rattle.token_columns.specs.declared.column_fault.ColumnOut.{ColumnOut};
ghost use Rattle.token_columns.specs.declared.column_fault.ColumnWhat.{ColumnWhat};
ghost use Rattle.roster_file.specs.declared.roster_read.RosterRead.{RosterRead};
ghost use Rattle.project_machine.specs.declared.roster_fault.RosterFault.{RosterFault};
ghost use Rattle.project_machine.specs.declared.book_refusal.BookRefusal.{BookRefusal};
ghost use Rattle.project_machine.specs.declared.book_refusal.Policy.{Policy};
ghost use Rattle.program_inputs.specs.declared.trouble.Trouble.{Trouble};
ghost use Rattle.program_inputs.specs.Troubles.{line_of, status_of};

/// What is said of a run that does not do its job, and with which status.
pub fn examples_of_complaints()
    ensures words { line_of Trouble.Usage ≡ codes "usage\n" }
    ensures absent { line_of Trouble.FileAbsent ≡ codes "file: Absent\n" }
    ensures cut { line_of Trouble.Cut ≡ codes "input: Cut\n" }
    ensures orphan { line_of (Trouble.Columns 2 ColumnWhat.Orphan) ≡ codes "columns line 2: Orphan\n" }
    ensures shared { line_of (Trouble.ColumnsOut (ColumnOut.Shared (id_at Kind.Text 2))) ≡ codes "columns: Shared T2\n" }
    ensures role { line_of (Trouble.Roster (RosterRead.BadRole 2)) ≡ codes "roster row 2: BadRole\n" }
    ensures twice { line_of (Trouble.Roster (RosterRead.Roster (RosterFault.NameTwice 2))) ≡ codes "roster: NameTwice 2\n" }
    ensures lacking { line_of (Trouble.Roster (RosterRead.Roster RosterFault.Lacking)) ≡ codes "roster: Lacking\n" }
    ensures door { line_of Trouble.DoorFailed ≡ codes "door: Failed\n" }
    ensures version { line_of (Trouble.NewerVersion 9) ≡ codes "journal: NewerVersion 9\n" }
    ensures refused { line_of (Trouble.Refused BookRefusal.DocumentThere []) ≡ codes "refused: DocumentThere\n" }
    ensures rule { line_of (Trouble.Refused (BookRefusal.Broken Rule.DeskFull) []) ≡ codes "refused: DeskFull\n" }
    ensures named { line_of (Trouble.Refused (BookRefusal.NotAllowed Policy.Own) (codes "Own")) ≡ codes "refused: NotAllowed Own\n" }
    ensures in_use { line_of Trouble.DiskInUse ≡ codes "disk: InUse\n" }
    ensures used { status_of false Trouble.DiskInUse ≡ 4 }
    ensures disk { status_of false Trouble.DiskFailed ≡ 4 }
    ensures shown { status_of false (Trouble.Columns 2 ColumnWhat.Orphan) ≡ 3 }
    ensures tried { status_of false (Trouble.Conf 3 ConfWhat.NameTwice) ≡ 3 }
    ensures verified { status_of true (Trouble.Conf 3 ConfWhat.NameTwice) ≡ 1 }
{}

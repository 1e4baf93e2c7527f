//! Laws of columns. Each function does nothing; its contract is the law.
ghost use Rattle.std.specs.Prelude.{◌≡◌, ℕ, List, length, map, Option, None, Err, IsOk, IsUtf8, false};
ghost use Rattle.std.specs.Str.Lines.{lines};
ghost use Rattle.mark_base.specs.declared.fragments.Frag.{Frag};
ghost use Rattle.char_documents.specs.Tokens.{tokens_of};
ghost use Rattle.conf_model.specs.Configurations.{Configuration};
ghost use Rattle.layer_model.specs.Annotations.{Annotations};
ghost use Rattle.layer_rules.specs.WellFormed.{IsWellFormed};
ghost use Rattle.label_tracks.specs.Labels.{labels_of};
ghost use Rattle.token_columns.specs.declared.column_fault.ColumnFault.TheVariants.{At};
ghost use Rattle.token_columns.specs.declared.column_fault.ColumnWhat.{ColumnWhat};
ghost use Rattle.token_columns.specs.declared.label.Label.{Label};
ghost use Rattle.token_columns.specs.declared.line.Judged.TheVariants.{Fault, Read};
ghost use Rattle.token_columns.specs.declared.run.Run.{Run};
ghost use Rattle.token_columns.specs.Labels.{group_of, label_of, runs_of};
ghost use Rattle.token_columns.specs.ColumnFiles.{IsColumns, IsOfProgram};
ghost use Rattle.token_columns.specs.Columns.{columns};
ghost use Rattle.token_columns.specs.Fits.{Fits};
ghost use Rattle.token_columns.specs.LineFaults.{has_fault, line_at, IsFirstFault, IsLeast};
ghost use Rattle.token_columns.specs.ReadColumns.{judged, read_of};
ghost use Rattle.token_columns.specs.WriteFaults.{out_fault};

/// A layer fits columns of a text exactly where it has no fault.
pub fn layers_that_fit()
    ensures fits { (text : List ℕ) (layer : Annotations) → out_fault text layer ≡ None → Fits text layer }
    ensures faultless { (text : List ℕ) (layer : Annotations) → Fits text layer → out_fault text layer ≡ None }
{}

/// What is written of a well-formed layer that fits are columns of that layer.
pub fn written_columns_are_read_back()
    ensures { (conf : Configuration) (text : List ℕ) (layer : Annotations) → IsOfProgram conf text layer → IsWellFormed conf (length text) layer → Fits text layer → IsColumns conf text (columns conf text layer) layer }
{}

/// A file that shows a layer has no fault, so a file shows a layer exactly where it has none.
pub fn files_of_a_layer()
    ensures { (conf : Configuration) (text bytes : List ℕ) (layer : Annotations) → IsOfProgram conf text layer → IsColumns conf text bytes layer → IsOk (read_of conf text bytes) }
{}

/// A file shows at most one layer. So what was written reads back as the layer.
pub fn at_most_one_layer()
    ensures { (conf : Configuration) (text bytes : List ℕ) (a b : Annotations) → IsOfProgram conf text a → IsOfProgram conf text b → IsColumns conf text bytes a → IsColumns conf text bytes b → a ≡ b }
{}

/// Of a well-formed layer that fits, the label of agreement of each token, with no level, is that of the type on the
/// token's line: the number of its group, and 0 where the line has none.
pub fn types_are_labels_of_agreement()
    ensures { (conf : Configuration) (text : List ℕ) (layer : Annotations) → IsOfProgram conf text layer → IsWellFormed conf (length text) layer → Fits text layer → labels_of conf.types 255 layer text ≡ map (λ token. group_of conf.types (label_of (runs_of layer) token)) (tokens_of text) }
{}

/// The fault that a line is told is the least of those that it has, each tested by itself; and a line that is read has
/// none.
pub fn line_faults_are_the_least()
    ensures least { (conf : Configuration) (text : List ℕ) (last : Option Run) (count : ℕ) (token : Option Frag) (line : List ℕ) (what : ColumnWhat) → judged conf text last count token line ≡ Fault what → IsLeast conf text (line_at last count token line) what }
    ensures none { (conf : Configuration) (text : List ℕ) (last : Option Run) (count : ℕ) (token : Option Frag) (line : List ℕ) (label : Label) (other : ColumnWhat) → judged conf text last count token line ≡ Read label → has_fault conf text (line_at last count token line) other ≡ false }
{}

/// The fault that a text is told is that of the first line that has one, and of the faults of this line the least.
pub fn told_faults_are_the_first()
    ensures { (conf : Configuration) (text bytes : List ℕ) (number : ℕ) (what : ColumnWhat) → IsUtf8 bytes → read_of conf text bytes ≡ Err (At number what) → IsFirstFault conf text (lines bytes) number what }
{}

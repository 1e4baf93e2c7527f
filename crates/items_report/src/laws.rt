//! A law of the items of a snapshot. The function does nothing; its contract is the law.
ghost use Rattle.std.specs.Prelude.{ℕ, ◌<◌, List, All, length};
ghost use Rattle.conf_model.specs.Configurations.{Configuration};
ghost use Rattle.layer_model.specs.Annotations.{Annotations};
ghost use Rattle.ann_writer.specs.Writable.{IsOfProgram};
ghost use Rattle.unanimous_merge.specs.Items.{items};
ghost use Rattle.items_report.specs.ItemsTable.{CanBeListed, line_of_item};

/// Each item has its line: what stands behind its ID in the file of its holder is never empty.
pub fn items_have_lines()
    ensures { (conf : Configuration) (text : List ℕ) (holders : List (List ℕ × Annotations)) → CanBeListed conf text holders → All (λ held. IsOfProgram conf text held.1) holders → All (λ item. 0 < length (line_of_item conf text holders item.id)) (items holders) }
{}

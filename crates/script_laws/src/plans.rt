//! Laws of the plan of a script that is read.

ghost use Rattle.std.specs.Prelude.{◌≡◌, ℕ, ◌≤◌, List, Ok, length, true};
ghost use Rattle.std.specs.List.{AllByRecursion};
ghost use Rattle.tick_model.specs.Plans.{is_lawful};
ghost use Rattle.script_reader.specs.Binding.{bound};
ghost use Rattle.script_reader.specs.Scripts.{script_of};
ghost use Rattle.script_reader.specs.declared.script.Script.{Script};

/// There are at most 256 nodes.
pub fn read_nodes_are_few()
    ensures { (bytes : List ℕ) (script : Script) → script_of bytes ≡ Ok script → length script.plan.nodes ≤ 256 }
{}

/// No node has more than 32 columns.
pub fn read_nodes_have_few_columns()
    ensures { (bytes : List ℕ) (script : Script) → script_of bytes ≡ Ok script
        → AllByRecursion (λ node. length node.columns ≤ 32) script.plan.nodes }
{}

/// The plan keeps the rules of plans, with ranks in the place of its literals, among whatever texts.
pub fn read_plans_are_lawful()
    ensures { (bytes : List ℕ) (script : Script) (texts : List (List ℕ)) → script_of bytes ≡ Ok script
        → is_lawful (bound script texts) ≡ true }
{}

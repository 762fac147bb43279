//! Laws of the operators of lawful plans: each can be made, begins with no rows, and has keys enough. Each function does
//! nothing: its contract is the law.

ghost use Rattle.std.specs.Prelude.{◌≡◌, ℕ, ◌<◌, List, false, length, map, slice_index, slice_index_or, true};
ghost use Rattle.operators.specs.Operating.{CanBeMade};
ghost use Rattle.operators.specs.Planned.{input_widths, op_at};
ghost use Rattle.table_operator.specs.Made.{HasKeys};
ghost use Rattle.tick_laws.specs.Bounded.{IsNodeTable};
ghost use Rattle.tick_laws.specs.Operated.{EachInput};
ghost use Rattle.tick_model.specs.Evaluation.{is_source};
ghost use Rattle.tick_model.specs.Operators.{inputs_of, result as result_of, result_width};
ghost use Rattle.tick_model.specs.Plans.{columns_at, is_lawful, key_bounds};
ghost use Rattle.tick_model.specs.States.{empty_at};
ghost use Rattle.tick_model.specs.declared.plan.Node.{Node};
ghost use Rattle.tick_model.specs.declared.plan.Op.{Op};
ghost use Rattle.tick_model.specs.declared.plan.Plan.{Plan};
ghost use Rattle.tick_model.specs.declared.table.PlainTable.{PlainTable};
ghost use Rattle.tick_table.specs.Ticking.{no_rows};

/// Of inputs without rows an operator makes a table without rows.
pub fn empty_inputs_make_empty_tables()
    ensures { (op : Op) (table : ℕ → PlainTable) (widths : List ℕ)
        → map table (inputs_of op) ≡ map no_rows widths → result_of op table ≡ no_rows (result_width op widths) }
{}

/// In a lawful plan each operator can be made for the widths of its inputs, and its table has its node's columns.
pub fn lawful_operators_can_be_made()
    ensures made { (plan : Plan) → is_lawful plan ≡ true → (node : ℕ) (default : Node) → node < length plan.nodes
        → is_source (slice_index_or plan.nodes node default) ≡ false
        → CanBeMade (op_at plan node default) (input_widths plan (op_at plan node default)) }
    ensures width { (plan : Plan) → is_lawful plan ≡ true → (node : ℕ) (default : Node) → node < length plan.nodes
        → is_source (slice_index_or plan.nodes node default) ≡ false
        → result_width (op_at plan node default) (input_widths plan (op_at plan node default)) ≡ length (columns_at plan.nodes node) }
{}

/// Before the first step all nodes of a lawful plan are empty, as its operators make them.
pub fn lawful_operators_begin_empty()
    ensures inputs { (plan : Plan) → is_lawful plan ≡ true → (node : ℕ) (default : Node) → node < length plan.nodes
        → map (empty_at plan) (inputs_of (op_at plan node default)) ≡ map no_rows (input_widths plan (op_at plan node default)) }
    ensures result { (plan : Plan) → is_lawful plan ≡ true → (node : ℕ) (default : Node) → node < length plan.nodes
        → is_source (slice_index_or plan.nodes node default) ≡ false
        → result_of (op_at plan node default) (empty_at plan) ≡ empty_at plan node }
{}

/// In a lawful plan a merge of tables within the bounds of their nodes has keys enough.
pub fn lawful_operators_have_keys()
    ensures { (plan : Plan) → is_lawful plan ≡ true → (node : ℕ) (default : Node) → node < length plan.nodes
        → (table : ℕ → PlainTable)
        → EachInput (op_at plan node default) (λ input. IsNodeTable (length (columns_at plan.nodes input)) (slice_index (key_bounds plan.nodes) input) (table input))
        → HasKeys (op_at plan node default) (map table (inputs_of (op_at plan node default))) }
{}

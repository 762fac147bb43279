//! Laws of lines: what a line says keeps the rules that need no other line.

ghost use Rattle.std.specs.Prelude.{◌≡◌, ℕ, List, Ok};
ghost use Rattle.script_lines.specs.Grammar.{KeepsRules};
ghost use Rattle.script_lines.specs.Lines.{line_of};
ghost use Rattle.script_lines.specs.declared.line.Line.{Line};

/// Each line that is read keeps its rules: names that it gives are names, its numbers are of 64 bits, the texts of its formulas are not
/// empty, and its lists have as many members as they have to have.
pub fn read_lines_keep_rules()
    ensures { (bytes : List ℕ) (line : Line) → line_of bytes ≡ Ok line → KeepsRules line }
{}

// What the grammar's table says of its symbols, and of the parsers.
ghost use Rattle.std.specs.Prelude.{◌≡◌, ◌↔◌, Ok, Err};
ghost use Rattle.hack_tree.specs.declared.expression.Expr.{Expr};
ghost use Rattle.hack_tree.specs.declared.written_type.WrittenType.{WrittenType};
ghost use Rattle.hack_parse_expr.specs.declared.stop.ParseStop.{ParseStop};
ghost use Rattle.hack_parse_expr.specs.Expressions.{expression_at};
ghost use Rattle.hack_parse_expr.specs.Input.{Input};
ghost use Rattle.hack_parse_expr.specs.Run.{Fails, Stands, deepest};
ghost use Rattle.hack_parse_expr.specs.Symbols.{Expression, Of, Symbol, Type_, rule};
ghost use Rattle.hack_parse_expr.specs.Types as types;

/// A symbol of the grammar, read from somewhere, stands for one thing or fails for one fault, and never both.
pub fn one_reading()
    ensures stands { (x : Symbol) (i : Input) (v w : Of x) (left rest : Input) → Stands x i v left → Stands x i w rest → (v ≡ w) × (left ≡ rest) }
    ensures fails { (x : Symbol) (i : Input) (stop other : ParseStop) → Fails x i stop → Fails x i other → stop ≡ other }
    ensures stands_or_fails { (x : Symbol) (i : Input) (v : Of x) (rest : Input) (stop : ParseStop) → Stands x i v rest → Fails x i stop → ⊥ }
{}

/// Types and expressions are read exactly as runs of the grammar's table have them, the faults too.
pub fn as_the_table()
    ensures type_stands { (i : Input) (v : WrittenType) (rest : Input) → Stands (rule Type_) i v rest ↔ (types.written_type deepest i ≡ Ok (v, rest)) }
    ensures type_fails { (i : Input) (stop : ParseStop) → Fails (rule Type_) i stop ↔ (types.written_type deepest i ≡ Err stop) }
    ensures expression_stands { (i : Input) (v : Expr) (rest : Input) → Stands (rule Expression) i v rest ↔ (expression_at deepest i ≡ Ok (v, rest)) }
    ensures expression_fails { (i : Input) (stop : ParseStop) → Fails (rule Expression) i stop ↔ (expression_at deepest i ≡ Err stop) }
{}

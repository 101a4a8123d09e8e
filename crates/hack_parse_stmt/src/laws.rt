// What the grammar's table says of the parser of statements.
ghost use Rattle.std.specs.Prelude.{◌≡◌, ◌↔◌, Ok, Err};
ghost use Rattle.hack_tree.specs.declared.statement.Stmt.{Stmt};
ghost use Rattle.hack_parse_expr.specs.declared.stop.ParseStop.{ParseStop};
ghost use Rattle.hack_parse_expr.specs.Input.{Input};
ghost use Rattle.hack_parse_expr.specs.Run.{Fails, Stands, deepest};
ghost use Rattle.hack_parse_expr.specs.Symbols.{Statement, rule};
ghost use Rattle.hack_parse_stmt.specs.Statements as statements;

/// Statements are read exactly as runs of the grammar's table have them, the faults too.
pub fn as_the_table()
    ensures stands { (i : Input) (v : Stmt) (rest : Input) → Stands (rule Statement) i v rest ↔ (statements.statement deepest i ≡ Ok (v, rest)) }
    ensures fails { (i : Input) (stop : ParseStop) → Fails (rule Statement) i stop ↔ (statements.statement deepest i ≡ Err stop) }
{}

// What holds of judgements, whatever they are of.
ghost use Rattle.std.specs.Prelude.{◌≡◌, ℕ, IfSome, List, Option};
ghost use Rattle.hack_tree.specs.declared.expression.Expr.{Expr};
ghost use Rattle.hack_tree.specs.declared.statement.Stmt.{Stmt};
ghost use Rattle.hack_tree.specs.declared.written_type.ClassType.{ClassType};
ghost use Rattle.hack_tree.specs.declared.written_type.WrittenType.{WrittenType};
ghost use Rattle.hack_types.specs.declared.diag.Diag.{Diag};
ghost use Rattle.hack_types.specs.declared.hack_type.HackType.{HackType};
ghost use Rattle.hack_types.specs.declared.place.Place.{Place};
ghost use Rattle.hack_decls.specs.DeclState.{Map};
ghost use Rattle.hack_rules.specs.Behind.{Adds, AtEnds, Behind, Rises, Stays, StillRises, state_of};
ghost use Rattle.hack_rules.specs.Bodies.{body_row, value_row};
ghost use Rattle.hack_rules.specs.Ends.{Doing, Inside};
ghost use Rattle.hack_rules.specs.Expressions.{judged};
ghost use Rattle.hack_rules.specs.Idle.{BodyKeeps, GoesRound, IsNew, IsPassedOnce, IsSettled, LeavesEntry, MayLeaveEntry, StepsKeep, TestKeeps, begun};
ghost use Rattle.hack_rules.specs.Loops.{Turn, deeper, do_ends, for_test, for_turn, foreach_turn, three_passes, while_ends};
ghost use Rattle.hack_rules.specs.Meanings.{Meaning};
ghost use Rattle.hack_rules.specs.Statements.{statement};
ghost use Rattle.hack_rules.specs.Variables.{Variables, joined};
ghost use Rattle.hack_rules.specs.Walks.{Setting, State, Walk};
ghost use Rattle.hack_rules.specs.WrittenTypes.{used_trait, written, written_class};

/// The diagnostics of a judgement go behind those that stood, and depend on none of them; nor do its answer and the variables
/// behind it (docs/language.md, Typing expressions and Typing statements).
pub fn diagnostics_are_added()
    ensures expression { (e : Expr) → Adds (judged e) }
    ensures statement { (s : Stmt) (inside : Inside) → Adds (statement s inside) }
    ensures written_type { (ty : WrittenType) → Adds (written ty) }
    ensures class_type { (class : ClassType) → Adds (written_class class) }
    ensures used_type { (class : ClassType) → Adds (used_trait class) }
    ensures body { (name_at : Place) (parameters : Variables) (statements : List Stmt)
        → Adds (body_row name_at parameters statements) }
    ensures value { (ty : HackType) (value : Expr) → Adds (value_row ty value) }
{}

/// Where each variable stands once, in the order of their ids, each stands once behind an expression, behind a statement and at
/// each of its ends (docs/language.md, Typing expressions and Typing statements).
pub fn variables_stand_once()
    ensures expression { (e : Expr) → Behind StillRises (judged e) }
    ensures statement { (s : Stmt) (inside : Inside) → Behind StillRises (statement s inside) }
    ensures ends { (s : Stmt) (inside : Inside) → AtEnds StillRises (statement s inside) }
{}

/// Each variable that stands before an expression or a statement stands behind it, and at each of a statement's ends
/// (docs/language.md, Typing expressions and Typing statements).
pub fn no_variable_leaves()
    ensures expression { (e : Expr) → Behind Stays (judged e) }
    ensures statement { (s : Stmt) (inside : Inside) → Behind Stays (statement s inside) }
    ensures ends { (s : Stmt) (inside : Inside) → AtEnds Stays (statement s inside) }
{}

/// A loop whose turns leave what they began with is passed as if once. Where each type is its own union, a loop whose test, body
/// and steps neither assign nor refine leaves the environment of its entry. That of a `for` and of a `foreach` is the one behind
/// what they type first, and the variables of a `foreach` must be new in it (docs/language.md, Typing statements, Loops).
pub fn idle_loops()
    ensures passes { (setting : Setting) (map : Map) (entry : Variables) (turn : Walk Turn)
        → Rises entry → GoesRound setting map entry turn → IsPassedOnce setting map entry turn }
    ensures joins { (entry : Variables) → IsSettled entry → joined entry entry ≡ entry }
    ensures while_loop { (setting : Setting) (map : Map) (entry : Variables) → IsSettled entry
        → (body : Doing) (inside : Inside) → BodyKeeps setting map entry (body.ends (deeper inside))
        → (condition : Meaning) → TestKeeps setting map entry condition.branches
        → (at : Place) → LeavesEntry setting map entry (while_ends at condition body inside) }
    ensures do_loop { (setting : Setting) (map : Map) (entry : Variables) → IsSettled entry
        → (body : Doing) (inside : Inside) → BodyKeeps setting map entry (body.ends (deeper inside))
        → (condition : Meaning) → TestKeeps setting map entry condition.branches
        → (at : Place) → MayLeaveEntry setting map entry (do_ends at body condition inside) }
    ensures for_loop { (setting : Setting) (map : Map) (entry : Variables) → IsSettled entry
        → (body : Doing) (inside : Inside) → BodyKeeps setting map entry (body.ends (deeper inside))
        → (condition : Option Meaning) → TestKeeps setting map entry (for_test condition)
        → (steps : List Meaning) → StepsKeep setting map entry steps
        → MayLeaveEntry setting map entry (three_passes (for_turn condition steps body inside)) }
    ensures foreach_loop { (setting : Setting) (map : Map) (entry : Variables) → IsSettled entry
        → (types : HackType × HackType) (key : Option ℕ) (value : ℕ)
        → IfSome key (IsNew entry) → IsNew entry value → (body : Doing) (inside : Inside)
        → BodyKeeps setting map (begun entry key value types) (body.ends (deeper inside))
        → LeavesEntry setting map entry (three_passes (foreach_turn types key value body inside)) }
{}

// What holds of operators, whatever the code does.
ghost use Rattle.std.specs.Prelude.{◌≡◌};
ghost use Rattle.hack_types.specs.declared.hack_type.HackType.{HackType};
ghost use Rattle.hack_types.specs.declared.hack_type.HackType.TheVariants as type;
ghost use Rattle.hack_types.specs.declared.place.Place.{Place};
ghost use Rattle.hack_decls.specs.DeclState.{Map};
ghost use Rattle.hack_rules.specs.Operators as rules;
ghost use Rattle.hack_rules.specs.Operators.{class_of, operate, result_of};
ghost use Rattle.hack_rules.specs.Walks.{Setting, State};

/// An operator gives the same whichever of two classes stands left (docs/language.md, Typing expressions, Operators).
pub fn either_order()
    ensures { (operation : rules.Operation) (left right : rules.OperandClass)
        → result_of operation left right ≡ result_of operation right left }
{}

/// Where one operand is in error the whole is `_`, without a diagnostic (docs/language.md, Typing expressions, Operators).
pub fn error_is_silent()
    ensures left { (at : Place) (operation : rules.Operation) (left right : HackType)
        (setting : Setting) (map : Map) (state : State)
        → class_of map setting.scope left ≡ rules.error
        → operate at operation left right setting map state ≡ (type.Any, state) }
    ensures right { (at : Place) (operation : rules.Operation) (left right : HackType)
        (setting : Setting) (map : Map) (state : State)
        → class_of map setting.scope right ≡ rules.error
        → operate at operation left right setting map state ≡ (type.Any, state) }
{}

// What holds of subtyping, whatever the code does.
ghost use Rattle.std.specs.Prelude.{◌↔◌, ℕ, suc, IsTrue};
ghost use Rattle.hack_types.specs.declared.hack_type.HackType.{HackType};
ghost use Rattle.hack_types.specs.declared.hack_type.HackType.TheVariants as type;
ghost use Rattle.hack_decls.specs.DeclState.{Map};
ghost use Rattle.hack_sub.specs.Derives.{Derives};
ghost use Rattle.hack_sub.specs.IsBelow.{is_below};
ghost use Rattle.hack_sub.specs.Sub.{IsSmall, Sub};
ghost use Rattle.hack_sub.specs.declared.scope.Scope.{Scope};

/// The relation by height, the tree and the function say the same (docs/definitions.md, Subtyping).
pub fn one_relation()
    ensures tree { (map : Map) (scope : Scope) (height : ℕ) (S T : HackType)
        → Sub map scope height S T ↔ Derives map scope height S T }
    ensures test { (map : Map) (scope : Scope) (height : ℕ) (S T : HackType)
        → IsTrue (is_below map scope height S T) ↔ Derives map scope height S T }
{}

/// A type that isn't too large is below itself, and `nothing` is below it; and what is below at a height is so at the next.
pub fn order()
    ensures itself { (map : Map) (scope : Scope) (height : ℕ) (S : HackType)
        → IsSmall S → Derives map scope (suc height) S S }
    ensures nothing { (map : Map) (scope : Scope) (height : ℕ) (S : HackType)
        → IsSmall S → Derives map scope (suc height) type.Nothing S }
    ensures higher { (map : Map) (scope : Scope) (height : ℕ) (S T : HackType)
        → Derives map scope height S T → Derives map scope (suc height) S T }
{}

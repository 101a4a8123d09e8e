// What holds of inference, whatever the code does.
ghost use Rattle.std.specs.Prelude.{◌≡◌, ℕ, List, length};
ghost use Rattle.hack_types.specs.declared.hack_type.HackType.{HackType};
ghost use Rattle.hack_types.specs.declared.hack_type.HackType.TheVariants as type;
ghost use Rattle.hack_decls.specs.DeclState.{Map};
ghost use Rattle.hack_infer.specs.Matching.{match_params};
ghost use Rattle.hack_infer.specs.Solving.{solve};
ghost use Rattle.hack_infer.specs.WithoutNull.{without_null};

/// As many lists are taken as there are parameters, and as many types come out.
pub fn counts()
    ensures taken { (map : Map) (wanted given : List HackType) (count : ℕ)
        → length (match_params map wanted given count) ≡ count }
    ensures solved { (found : List (List HackType)) → length (solve found) ≡ length found }
{}

/// What is ruled out with null.
pub fn null_is_ruled_out()
    ensures option { (map : Map) (U : HackType) → without_null map (type.Option U) ≡ U }
    ensures mixed { (map : Map) → without_null map type.Mixed ≡ type.Nonnull }
    ensures null { (map : Map) → without_null map type.Null ≡ type.Nothing }
{}

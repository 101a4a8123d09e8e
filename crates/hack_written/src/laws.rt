// What holds of written types, whatever the code does.
ghost use Rattle.std.specs.Prelude.{◌≡◌, ◌≤◌};
ghost use Rattle.hack_tree.specs.declared.written_type.ClassType.{ClassType};
ghost use Rattle.hack_tree.specs.declared.written_type.Primitive.{Primitive};
ghost use Rattle.hack_tree.specs.declared.written_type.WrittenType.{WrittenType};
ghost use Rattle.hack_tree.specs.declared.written_type.WrittenType.TheVariants as form;
ghost use Rattle.hack_types.specs.Substituted.{most_nodes};
ghost use Rattle.hack_types.specs.TypeNodes.{nodes};
ghost use Rattle.hack_types.specs.declared.place.Place.{Place};
ghost use Rattle.hack_decls.specs.DeclState.{Map};
ghost use Rattle.hack_shallow.specs.Resolved.{primitive_type};
ghost use Rattle.hack_rules.specs.Walks.{Setting, State};
ghost use Rattle.hack_rules.specs.WrittenTypes.{used_trait, written, written_class};

/// A type that one keyword spells is the type of that keyword, and says nothing.
pub fn keywords_are_types()
    ensures { (at : Place) (keyword : Primitive) (setting : Setting) (map : Map) (state : State)
        → written (form.Primitive at keyword) setting map state ≡ (primitive_type keyword, state) }
{}

/// The type that a written type is has at most 256 nodes.
pub fn types_are_small()
    ensures written { (ty : WrittenType) (setting : Setting) (map : Map) (state : State)
        → nodes (written ty setting map state).0 ≤ most_nodes }
    ensures class { (ty : ClassType) (setting : Setting) (map : Map) (state : State)
        → nodes (written_class ty setting map state).0 ≤ most_nodes }
    ensures used { (ty : ClassType) (setting : Setting) (map : Map) (state : State)
        → nodes (used_trait ty setting map state).0 ≤ most_nodes }
{}

// What follows from the definition of a shallow declaration.
ghost use Rattle.std.specs.Prelude.{◌≡◌, List};
ghost use Rattle.std.specs.List.{flat_map};
ghost use Rattle.hack_tree.specs.declared.declaration.Member.{Member as MemberTree};
ghost use Rattle.hack_tree.specs.declared.declaration.UnitTree.{UnitTree};
ghost use Rattle.hack_types.specs.declared.shallow.Member.{Member};
ghost use Rattle.hack_types.specs.declared.shallow.Shallow.{Shallow};
ghost use Rattle.hack_shallow.specs.Chosen.{chosen};
ghost use Rattle.hack_shallow.specs.Members.{Owner, declared, own_members, same_among};
ghost use Rattle.hack_shallow.specs.Shallow.{IsShallow};

/// A declaration has one signature.
pub fn one_shallow()
    ensures { (tree : UnitTree) (a b : Shallow) → IsShallow tree a → IsShallow tree b → a ≡ b }
{}

/// Of several members of one kind and name the first by place that isn't abstract counts, else the first.
pub fn one_member()
    ensures { (owner : Owner) (trees : List MemberTree) (q : Member) → same_among (own_members owner trees) q ≡ chosen (flat_map (declared owner) trees) q }
{}

// What the builtin text declares, and what the callers of an edit need to know.
ghost use Rattle.std.specs.Prelude.{◌≡◌, ◌≤◌, ◌+◌, ◌*◌, ℕ, List, length};
ghost use Rattle.std.specs.List.{AllByRecursion};
ghost use Rattle.hack_base.specs.Files as model;
ghost use Rattle.hack_types.specs.declared.place.Place.{Place};
ghost use Rattle.hack_types.specs.declared.ids.Kind.TheVariants.{Class};
ghost use Rattle.hack_tree.specs.declared.declaration.FileTree.{FileTree};
ghost use Rattle.hack_tree.specs.declared.declaration.Unit.{Unit};
ghost use Rattle.hack_builtin.specs.Builtin.{builtin_text};
ghost use Rattle.hack_parse_file.specs.Files.{IsTree, IsFileTree, IsFileFault};
ghost use Rattle.hack_parse_file.specs.Room.{most_names};
ghost use Rattle.check_state.specs.declared.state.State.{State};
ghost use Rattle.check_state.specs.Edits.{twice_names};
ghost use Rattle.check_state.specs.Stands.{name_count, HasRoomFor};

/// The builtin text has a tree, whatever names are there before, and no fault, and each of its six units is looked up as a
/// class (docs/language.md, The builtin text).
pub fn builtin_text_has_a_tree()
    ensures no_fault { (place : Place) (code : ℕ) → IsFileFault builtin_text place code → ⊥ }
    ensures tree { (before : List (List ℕ))
        → (names : List (List ℕ)) × (tree : FileTree) × IsFileTree before names builtin_text tree }
    ensures classes { (names : List (List ℕ)) (tree : FileTree) → IsTree names builtin_text tree
        → AllByRecursion (λ (u : Unit). u.symbol.kind ≡ Class) tree.units }
    ensures six { (names : List (List ℕ)) (tree : FileTree) → IsTree names builtin_text tree
        → length tree.units ≡ 6 }
{}

/// There is room for the names of an edit by the length of its text: a text of b bytes adds at most (b + 3) / 2 names,
/// rounded down.
pub fn room_by_length()
    ensures { (state : State) (edit : model.Edit)
        → 2 * name_count state + twice_names edit ≤ 2 * most_names + 1 → HasRoomFor state edit }
{}

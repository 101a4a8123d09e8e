// First units by their tokens and by their trees, and what each says of its declaration.
ghost use Rattle.std.specs.Prelude.{◌≡◌, ◌≢◌, ◌↔◌, ◌<◌, ◌≤◌, ◌^◌, ℕ, List, Some, length, map, slice_get};
ghost use Rattle.std.specs.declared.cmp.Ordering.TheVariants.{Greater};
ghost use Rattle.hack_types.specs.declared.place.Place.{Place};
ghost use Rattle.hack_types.specs.declared.ids.Kind.TheVariants.{Func};
ghost use Rattle.hack_types.specs.Report.{place_order};
ghost use Rattle.hack_tree.specs.declared.declaration.FileTree.{FileTree};
ghost use Rattle.hack_tree.specs.declared.declaration.Unit.{Unit as UnitOf};
ghost use Rattle.hack_parse_file.specs.Files.{IsFileFault, IsTree};
ghost use Rattle.hack_parse_file.specs.Lexemes.{IsIdOf};
ghost use Rattle.hack_first.specs.declared.unit.FirstUnit.{FirstUnit};
ghost use Rattle.hack_first.specs.declared.unit.Returned.TheVariants.{Call};
ghost use Rattle.hack_first.specs.FirstTrees.{first_in, first_units};
ghost use Rattle.hack_first.specs.FirstUnits.{IsFirstBody};
ghost use Rattle.hack_first.specs.Functions.{Function, named, function_of};

/// A text is a list of first units exactly where it has a tree whose declarations all are, and of the same functions; one
/// with a fault is none, and a text is one list at most (docs/language.md, First units).
pub fn as_trees()
    ensures tree { (names : List (List ℕ)) (bytes : List ℕ) (tree : FileTree) (functions : List Function) → length bytes ≤ 2 ^ 20 → IsTree names bytes tree → IsFirstBody bytes functions ↔ ((firsts : List FirstUnit) × (first_units tree.units ≡ Some firsts) × (functions ≡ map (function_of names) firsts)) }
    ensures fault { (bytes : List ℕ) (place : Place) (code : ℕ) (functions : List Function) → length bytes ≤ 2 ^ 20 → IsFileFault bytes place code → IsFirstBody bytes functions → ⊥ }
    ensures one { (bytes : List ℕ) (functions others : List Function) → IsFirstBody bytes functions → IsFirstBody bytes others → functions ≡ others }
{}

/// A declaration that is a first unit declares a function of its name, at the place of its name; the id of the name, and
/// of one that it calls, is that of its text, so ids are equal exactly where texts are. The declarations of a text, first
/// units or not, start one after another (docs/language.md, First units and Names).
pub fn first_units_are_units()
    ensures symbol { (names : List (List ℕ)) (bytes : List ℕ) (tree : FileTree) (i : ℕ) (u : UnitOf) (x : FirstUnit) → IsTree names bytes tree → slice_get tree.units i ≡ Some u → first_in u.start u.tree ≡ Some x → (u.symbol ≡ record { kind = Func; name = x.name }) × (x.name_at ≡ u.name_at) }
    ensures name { (names : List (List ℕ)) (bytes : List ℕ) (tree : FileTree) (i : ℕ) (u : UnitOf) (x : FirstUnit) → IsTree names bytes tree → slice_get tree.units i ≡ Some u → first_in u.start u.tree ≡ Some x → IsIdOf names (named names x.name) x.name }
    ensures call { (names : List (List ℕ)) (bytes : List ℕ) (tree : FileTree) (i : ℕ) (u : UnitOf) (x : FirstUnit) (id : ℕ) → IsTree names bytes tree → slice_get tree.units i ≡ Some u → first_in u.start u.tree ≡ Some x → x.returned ≡ Call id → IsIdOf names (named names id) id }
    ensures order { (names : List (List ℕ)) (bytes : List ℕ) (tree : FileTree) (i j : ℕ) (u v : UnitOf) → IsTree names bytes tree → i < j → slice_get tree.units i ≡ Some u → slice_get tree.units j ≡ Some v → place_order u.start v.start ≢ Greater }
{}

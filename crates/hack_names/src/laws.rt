// What the order of declarations and the choice among them come to.
ghost use Rattle.std.specs.Prelude.{◌≡◌, ◌++◌, List};
ghost use Rattle.std.specs.List.{filter};
ghost use Rattle.hack_types.specs.declared.ids.SymbolId.{SymbolId};
ghost use Rattle.hack_types.specs.declared.place.Place.{Place};
ghost use Rattle.hack_names.specs.declared.unit.UnitHead.{UnitHead};
ghost use Rattle.hack_names.specs.Declarations.{Table, by_place, declarations, declares, losers, winner};
ghost use Rattle.hack_names.specs.Laws.{AreInOrder, listed, starts_at};

/// The declarations are in the order of their files' names and places, and a file's heads that start at one place are
/// in the order that its list has them (docs/language.md, Which declaration counts).
pub fn in_order()
    ensures files_and_places { (table : Table) → AreInOrder (declarations table) }
    ensures ties { (place : Place) (heads : List UnitHead) → filter (starts_at place) (by_place heads) ≡ filter (starts_at place) heads }
{}

/// A symbol's declarations are its winner, where it has one, and behind it its losers
/// (docs/language.md, Which declaration counts).
pub fn winner_and_losers()
    ensures { (table : Table) (symbol : SymbolId) → filter (declares symbol) (declarations table)
        ≡ listed (winner table symbol) ++ filter (declares symbol) (losers table) }
{}

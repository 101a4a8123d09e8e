// Files (docs/language.md, Declarations).
ghost use Rattle.std.specs.Prelude.{◌≡◌, ◌≤◌, ◌<◌, ◌+◌, ◌-◌, ◌*◌, ℕ, List, length, IfOk, IfErr};
ghost use Rattle.hack_types.specs.declared.place.Place.{Place};
ghost use Rattle.hack_tree.specs.declared.declaration.FileTree.{FileTree};
ghost use Rattle.hack_parse_file.specs.Files as files;
ghost use Rattle.hack_parse_file.specs.Files.{IsTree, IsFileTree, IsFileFault, IsFileRefused, IsFileStop};
ghost use Rattle.hack_parse_file.specs.Room.{most_bytes, most_names, HasRoom};
ghost use Rattle.hack_parse_file.specs.Lexemes as lexed;
ghost use Rattle.hack_parse_expr.specs.Rows.{begins_declaration};
ghost use Rattle.hack_parse_expr.specs.Parsers.{Reads};

use crate::lexemes::lexemes;
use hack_base::Bytes;
use hack_lexer::{LexStop, tokens};
use hack_parse_decl::{attributes_if_any, begins_attributes, declared};
use hack_parse_expr::{Cursor, ParseStop, declaration_row};
use hack_tree::{DeclaredName, FileTree, Unit, UnitTree};
use hack_types::{Kind, Names, NoMemory, Place, SymbolId};
use sqlite_items::Items;
use std::alloc::Global;

/// The tree of a file, whose names are among `names` from now on (docs/language.md, Grammar). A fault is that of the file's
/// tokens, which adds no name, or else that of its grammar, which adds the names of all tokens. After want of memory
/// `names` may hold more names. A text of b bytes adds at most (b + 3) / 2 names, rounded down.
pub fn parse_file(alloc: Global, names: &mut Names, bytes: &[u8]) -> Result<FileTree, ParseStop>
    requires short { length bytes.now ≤ most_bytes }
    requires room { HasRoom names.old bytes.now }
    ensures tree { IfOk result (λ tree. IsFileTree names.old names.new bytes.now tree) }
    ensures fault { IfErr result (IsFileStop names.old names.new bytes.now) }
    ensures kept { lexed.Extends names.old names.new }
    ensures few { 2 * length names.new ≤ 2 * length names.old + length bytes.now + 3 }
{
    let tokens = match tokens(alloc, bytes) {
        Ok(tokens) => tokens,
        Err(LexStop::Fault { place, code }) => return Err(ParseStop::Fault { place, code }),
        Err(LexStop::NoMemory) => return Err(ParseStop::NoMemory),
    };
    let lexemes = lexemes(alloc, names, bytes, &tokens)?;
    let mut cursor = Cursor::new(&lexemes, Place::START.behind(bytes));
    let units = units(alloc, &mut cursor, bytes)?;
    if cursor.left() > 0 {
        return Err(cursor.refuse());
    }
    Ok(FileTree { units })
}

/// A file has one tree at most, no tree where it has a fault, and one fault at most. Over the same names before, the names
/// behind its tree are settled, and so are those behind its fault.
pub fn one_tree()
    ensures tree { (before names others : List (List ℕ)) (bytes : List ℕ) (tree other : FileTree)
        → IsFileTree before names bytes tree → IsFileTree before others bytes other
        → (names ≡ others) × (tree ≡ other) }
    ensures tree_or_fault { (before names : List (List ℕ)) (bytes : List ℕ) (tree : FileTree)
        (place : Place) (code : ℕ)
        → IsFileTree before names bytes tree → IsFileFault bytes place code → ⊥ }
    ensures fault { (bytes : List ℕ) (place other : Place) (code second : ℕ)
        → IsFileFault bytes place code → IsFileFault bytes other second
        → (place ≡ other) × (code ≡ second) }
    ensures refused { (before names others : List (List ℕ)) (bytes : List ℕ)
        (place other : Place) (code second : ℕ)
        → IsFileRefused before names bytes place code
        → IsFileRefused before others bytes other second
        → (names ≡ others) × (place ≡ other) × (code ≡ second) }
{}

/// A file's tree is a tree whatever names were there before it, and so is its fault. A tree stays one where names are added,
/// is the only one over these names, and is none where the file has a fault.
pub fn trees_stay()
    ensures is { (before names : List (List ℕ)) (bytes : List ℕ) (tree : FileTree)
        → IsFileTree before names bytes tree → IsTree names bytes tree }
    ensures is_fault { (before names : List (List ℕ)) (bytes : List ℕ) (place : Place) (code : ℕ)
        → IsFileRefused before names bytes place code → IsFileFault bytes place code }
    ensures stays { (names more : List (List ℕ)) (bytes : List ℕ) (tree : FileTree)
        → lexed.Extends names more → IsTree names bytes tree → IsTree more bytes tree }
    ensures one { (names : List (List ℕ)) (bytes : List ℕ) (tree other : FileTree)
        → IsTree names bytes tree → IsTree names bytes other → tree ≡ other }
    ensures fault { (names : List (List ℕ)) (bytes : List ℕ) (tree : FileTree)
        (place : Place) (code : ℕ)
        → IsTree names bytes tree → IsFileFault bytes place code → ⊥ }
{}

/// There is room for the names of a text by its length: a text of b bytes adds at most (b + 3) / 2 names, rounded down.
pub fn room_by_length()
    ensures { (names : List (List ℕ)) (bytes : List ℕ)
        → 2 * length names + length bytes + 3 ≤ 2 * most_names + 1 → HasRoom names bytes }
{}

#[tactic(auto, unfolding(crate::specs::Files::units, hack_parse_expr::specs::Parsers::many_of, hack_parse_expr::specs::Parsers::many_from))]
fn units(alloc: Global, cursor: &mut Cursor<'_>, bytes: &[u8]) -> Result<Items<Unit>, ParseStop>
    ensures { Reads (files.units bytes.now cursor.old) result cursor.new }
{
    let mut found = Items::new(alloc);
    for _turn in 0..cursor.left() {
        if !begins_declaration(cursor) {
            return Ok(found);
        }
        found.push(unit(alloc, cursor, bytes)?)?;
    }
    Ok(found)
}

#[tactic(auto, unfolding(crate::specs::Files::unit_read, hack_parse_decl::specs::Declarations::declaration))]
fn unit(alloc: Global, cursor: &mut Cursor<'_>, bytes: &[u8]) -> Result<Unit, ParseStop>
    ensures { Reads (files.unit_read bytes.now cursor.old) result cursor.new }
{
    let first = cursor.start()?;
    let attributes = attributes_if_any(alloc, cursor)?;
    let tree = declared(alloc, cursor, attributes)?;
    let text = between(bytes, first.first, cursor.behind());
    let (tree, text) = with_copy(alloc, tree, text)?;
    Ok(unit_of(first.at, text, tree))
}

fn begins_declaration(cursor: &Cursor<'_>) -> bool
    ensures { result ≡ begins_declaration cursor.now.left }
{
    begins_attributes(cursor) || declaration_row(cursor.kind()).is_some()
}

// The bytes from one index up to another.
fn between(bytes: &[u8], from: u32, to: u32) -> &[u8]
    ensures { result.now ≡ lexed.between bytes.now from to }
{
    let from = bytes.len().min(from as usize);
    let to = bytes.len().min(to as usize);
    if from < to { &bytes[from..to] } else { &[] }
}

// What was read, with a copy of the bytes that it was read from.
fn with_copy<T: Drop>(alloc: Global, read: T, bytes: &[u8]) -> Result<(T, Bytes), NoMemory>
    ensures { IfOk result (λ pair. (pair.0 ≡ read) × (pair.1 ≡ bytes.now)) }
{
    let copy = Bytes::copy_of(alloc, bytes)?;
    Ok((read, copy))
}

fn unit_of(start: Place, text: Bytes, tree: UnitTree) -> Unit
    ensures { result ≡ files.unit_at start text tree }
{
    let name = name_of(&tree);
    Unit {
        symbol: SymbolId {
            kind: kind_of(&tree),
            name: name.name,
        },
        start,
        name_at: absolute(start, name.at),
        text,
        tree,
    }
}

// The name that a declaration declares.
fn name_of(tree: &UnitTree) -> DeclaredName
    ensures { result ≡ files.name_of tree.now }
{
    match tree {
        UnitTree::Function { callable, .. } => callable.name,
        UnitTree::Class { name, .. }
        | UnitTree::Interface { name, .. }
        | UnitTree::Trait { name, .. }
        | UnitTree::Enum { name, .. }
        | UnitTree::Alias { name, .. }
        | UnitTree::Constant { name, .. } => *name,
    }
}

// What it is declared as.
fn kind_of(tree: &UnitTree) -> Kind
    ensures { result ≡ files.kind_of tree.now }
{
    match tree {
        UnitTree::Function { .. } => Kind::Func,
        UnitTree::Constant { .. } => Kind::Const,
        _ => Kind::Class,
    }
}

/// Where a place of a declaration stands in the file, in which the declaration starts at `start` (docs/language.md, Grammar).
pub fn absolute(start: Place, at: Place) -> Place
    ensures { result ≡ files.absolute start at }
{
    if at.line == 0 {
        Place {
            line: start.line,
            column: start.column.saturating_add(at.column),
        }
    } else {
        Place {
            line: start.line.saturating_add(at.line),
            column: at.column,
        }
    }
}

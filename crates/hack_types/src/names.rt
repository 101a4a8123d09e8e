// The names of all texts, each under one id.
ghost use Rattle.std.specs.Prelude.{◌≡◌, ◌⊎◌, ◌<◌, ◌-◌, ◌^◌, ℕ, List, length, slice_get, Contains, IfOk, OnOk, OnErr, IfSome, IfNone, [], ◌∷◌, ◌++◌, false};
ghost use Rattle.std.specs.List.{list_any};
ghost use Rattle.std.specs.Str.{bytes_eq};
ghost use Rattle.hack_types.specs.Names.{fixed_names, with_name, EachOnce};
ghost use Rattle.hack_types.specs.NamesInside.{texts, IsNames};

use crate::{NameId, NoMemory};
use indexmap::IndexSet;
use std::alloc::Global;
use std::marker::Model;

// The names that are there from the start, under the ids from 0 on.
const FIXED: [&[u8]; 7] = [
    b"Traversable",
    b"KeyedTraversable",
    b"Container",
    b"KeyedContainer",
    b"Throwable",
    b"Exception",
    b"__construct",
];

/// Names by their ids: contracts see the list of the texts, each once, and an id is a position in it. Seven names are
/// there from the start, and an id never changes (docs/language.md, Names).
#[derive(Drop)]
pub struct Names {
    // the names after the fixed ones, in the order of their ids
    added: IndexSet<Vec<u8>>,
}

impl Model for Names {
    ghost use Rattle.std.specs.Prelude.{ℕ, List};
    ghost use Rattle.hack_types.specs.NamesInside.{texts, IsNames};

    ghost Value = { List (List ℕ) };

    ghost view = { λ names. texts names.added.keys };

    ghost invariant = { λ names. IsNames names.added.keys };
}

impl Names {
    /// The seven fixed names alone. It takes no memory.
    pub fn new(alloc: Global) -> Self
        ensures { result ≡ fixed_names }
    {
        Names {
            added: IndexSet::new(alloc),
        }
    }

    /// The id of this text, which is a name from now on; an error says that memory ran out.
    pub fn intern(&mut self, alloc: Global, text: &[u8]) -> Result<NameId, NoMemory>
        requires { (length self.old < 2 ^ 30 - 1) ⊎ Contains self.old text.now }
        ensures id { IfOk result (λ id. slice_get self.new id ≡ Some text.now) }
        ensures names { OnOk result (self.new ≡ with_name self.old text.now) }
        ensures err { OnErr result (self.new ≡ self.old) }
        ensures each_once { EachOnce self.new }
    {
        match find(&self.added, text) {
            Some(id) => Ok(id),
            None => add(&mut self.added, alloc, text),
        }
    }

    /// The text of this id.
    pub fn text_of(&self, id: NameId) -> &[u8]
        requires { id < length self.now }
        ensures { slice_get self.now id ≡ Some result.now }
    {
        let index = id.number() as usize;
        if index < FIXED.len() {
            fixed_text(index)
        } else {
            self.added.as_slice()[index - FIXED.len()].as_slice()
        }
    }

    /// How many names there are.
    pub fn count(&self) -> u32
        ensures { result ≡ length self.now }
    {
        FIXED.len() as u32 + self.added.len() as u32
    }
}

// The id of this text, where it is a name.
fn find(added: &IndexSet<Vec<u8>>, text: &[u8]) -> Option<NameId>
    requires { IsNames added.now.keys }
    ensures found { IfSome result (λ id. slice_get (texts added.now.keys) id ≡ Some text.now) }
    ensures none { IfNone result (list_any (bytes_eq text.now) (texts added.now.keys) ≡ false) }
{
    match fixed_index(text) {
        Some(index) => Some(NameId::new(index as u32)),
        None => match added.get_index_of(text) {
            Some(index) => Some(NameId::new(FIXED.len() as u32 + index as u32)),
            None => None,
        },
    }
}

// Adds this text, which is no name yet, as the last name.
fn add(added: &mut IndexSet<Vec<u8>>, alloc: Global, text: &[u8]) -> Result<NameId, NoMemory>
    requires names { IsNames added.old.keys }
    requires room { length (texts added.old.keys) < 2 ^ 30 - 1 }
    requires absent { list_any (bytes_eq text.now) (texts added.old.keys) ≡ false }
    ensures id { IfOk result (λ id. slice_get (texts added.new.keys) id ≡ Some text.now) }
    ensures last { OnOk result (texts added.new.keys ≡ texts added.old.keys ++ text.now ∷ []) }
    ensures err { OnErr result (texts added.new.keys ≡ texts added.old.keys) }
    ensures names { IsNames added.new.keys }
{
    let owned = Vec::from_slice(alloc, text)?;
    let (index, _) = added.insert_full(owned)?;
    Ok(NameId::new(FIXED.len() as u32 + index as u32))
}

// The id of this text among the fixed names.
fn fixed_index(text: &[u8]) -> Option<usize>
    ensures found { IfSome result (λ index. (index < 7) × (slice_get fixed_names index ≡ Some text.now)) }
    ensures none { IfNone result (list_any (bytes_eq text.now) fixed_names ≡ false) }
{
    for index in 0..FIXED.len() {
        if text == fixed_text(index) {
            return Some(index);
        }
    }
    None
}

// The text of a fixed name.
#[tactic(auto, unfolding(crate::specs::Names::fixed_names))]
fn fixed_text(index: usize) -> &'static [u8]
    requires { index < 7 }
    ensures { slice_get fixed_names index ≡ Some result.now }
{
    FIXED[index]
}

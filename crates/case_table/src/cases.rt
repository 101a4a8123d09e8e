// A table of words, each with a value.
ghost use Rattle.std.specs.Prelude.{◌≡◌, ◌<◌, ◌≤◌, ◌+◌, ℕ, length, drop, IfSome, IfNone, slice_index_or, [], AllPairs};
ghost use Rattle.std.specs.Bool.{OnTrue, OnFalse};
ghost use Rattle.std.specs.List.{zip, prefix_len};
ghost use Rattle.case_table.specs.Cases.{words, AreKeys, IsBelow, value_of};
ghost use Rattle.case_table.specs.Places.{IsTable, IsPlaced, HasWords, is_not_space};

use std::cmp::Ordering;

/// A table of keys, each with a value. Contracts see the list of its `entries`, in the order of the keys.
#[derive(Debug, Drop)]
pub struct Cases<'a, const N: usize> {
    keys: &'a str,
    // the index behind the last byte of each key
    ends: [usize; N],
    values: [u16; N],
    ghost placed: { IsTable keys.now ends values },
}

impl<'a, const N: usize> Cases<'a, N> {
    ghost use Rattle.case_table.specs.Entries.{entries};

    /// The table of these keys, one space apart, and of these values in the same order; nothing where the text isn't a
    /// list of N words, none empty, that rise strictly by bytes.
    pub fn new(keys: &'a str, values: [u16; N]) -> Option<Cases<'a, N>>
        ensures entries { IfSome result (λ table. entries table ≡ zip (words keys.now) values.entry) }
        ensures some { IfSome result (λ _. AreKeys keys.now N) }
        ensures none { IfNone result (AreKeys keys.now N → ⊥) }
    {
        let bytes = keys.as_bytes();
        let mut ends = [0; N];
        if !find_ends(bytes, &mut ends) {
            return None;
        }
        if !rises(bytes, &ends) {
            return None;
        }
        Some(Cases { keys, ends, values })
    }

    /// The value of this key; nothing where no key of the table is equal to it.
    pub fn get(&self, key: &[u8]) -> Option<u16>
        ensures { result ≡ value_of (entries self.now) key.now }
    {
        let bytes = self.keys.as_bytes();
        match find(bytes, &self.ends, key) {
            Some(index) => Some(self.values[index]),
            None => None,
        }
    }
}

// Writes where each word ends; false where the text isn't a list of as many words, none empty.
fn find_ends(bytes: &[u8], ends: &mut [usize]) -> bool
    ensures placed { OnTrue result (IsPlaced bytes.now ends.new) }
    ensures other { OnFalse result (HasWords bytes.now (length ends.old) → ⊥) }
{
    if bytes.is_empty() {
        return ends.is_empty();
    }
    let mut from = 0;
    for i in 0..ends.len() {
        if from > bytes.len() {
            return false;
        }
        let end = end_of_word(bytes, from);
        if end == from {
            return false;
        }
        ends[i] = end;
        from = end + 1;
    }
    from > bytes.len()
}

// The index of the first space from this index on, or the length.
fn end_of_word(bytes: &[u8], from: usize) -> usize
    requires { from ≤ length bytes.now }
    ensures end { result ≡ from + prefix_len is_not_space (drop from bytes.now) }
    ensures inside { result ≤ length bytes.now }
{
    let mut at = from;
    while at < bytes.len() && bytes[at] != b' ' {
        at += 1;
    }
    at
}

// Whether each word is below the next.
fn rises(bytes: &[u8], ends: &[usize]) -> bool
    requires { IsPlaced bytes.now ends.now }
    ensures yes { OnTrue result (AllPairs IsBelow (words bytes.now)) }
    ensures no { OnFalse result (AllPairs IsBelow (words bytes.now) → ⊥) }
{
    for i in 1..ends.len() {
        match word(bytes, ends, i - 1).cmp(word(bytes, ends, i)) {
            Ordering::Less => {}
            _ => return false,
        }
    }
    true
}

// The word of this index.
fn word<'t>(bytes: &'t [u8], ends: &[usize], index: usize) -> &'t [u8]
    requires placed { IsPlaced bytes.now ends.now }
    requires inside { index < length ends.now }
    ensures { result.now ≡ slice_index_or (words bytes.entry.now) index [] }
{
    let start = if index == 0 { 0 } else { ends[index - 1] + 1 };
    &bytes[start..ends[index]]
}

// The index of the word that is equal to this key.
fn find(bytes: &[u8], ends: &[usize], key: &[u8]) -> Option<usize>
    requires placed { IsPlaced bytes.now ends.now }
    requires rising { AllPairs IsBelow (words bytes.now) }
    ensures found { IfSome result (λ index. (index < length ends.now) × (slice_index_or (words bytes.now) index [] ≡ key.now)) }
    ensures none { IfNone result ((k : ℕ) → k < length ends.now → slice_index_or (words bytes.now) k [] ≡ key.now → ⊥) }
{
    let mut low = 0;
    let mut high = ends.len();
    while low < high {
        let middle = low + (high - low) / 2;
        match word(bytes, ends, middle).cmp(key) {
            Ordering::Less => low = middle + 1,
            Ordering::Equal => return Some(middle),
            Ordering::Greater => high = middle,
        }
    }
    None
}

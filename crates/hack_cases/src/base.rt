// Bytes and names, tables of cases, and the builtin text.

use crate::plain::{behind, split};
use crate::types::symbol;
use case_table::{Cases, cases};
use hack_base::{Bytes, Name};
use hack_builtin::builtin_text;
use hack_show::Out;
use hack_types::NoMemory;
use std::alloc::Global;
use std::cmp::Ordering;

/// The bytes as a copy has them, the vector of that, and what is made of the vector.
pub(crate) fn given_back(alloc: Global, out: &mut Out<'_>, bytes: &[u8]) -> Result<(), NoMemory> {
    let copy = Bytes::copy_of(alloc, bytes)?;
    out.push(copy.as_slice());
    let vector = copy.into_vec();
    out.push(b"|");
    out.push(vector.as_slice());
    let again = Bytes::from_vec(vector);
    out.push(b"|");
    out.push(again.as_slice());
    drop(again);
    Ok(())
}

/// How many pairs of names, or of symbols, stand as their places in the list do, and the others.
pub(crate) fn in_order(out: &mut Out<'_>, text: &[u8], symbols: bool) -> Result<(), NoMemory> {
    let count = commas(text).wrapping_add(1);
    let mut right: u64 = 0;
    for i in 0..count {
        for j in 0..count {
            let (a, _) = split(behind(text, b',', i), b',');
            let (b, _) = split(behind(text, b',', j), b',');
            if stand_so(a, b, i.cmp(&j), symbols) {
                right = right.wrapping_add(1);
            } else {
                out.number(i as u64);
                out.number(j as u64);
            }
        }
    }
    out.number(right);
    Ok(())
}

fn commas(text: &[u8]) -> u32 {
    let mut count: u32 = 0;
    for byte in text {
        if *byte == b',' {
            count = count.wrapping_add(1);
        }
    }
    count
}

// Whether two names, or two symbols, stand so to each other, and are equal exactly where that says it.
fn stand_so(a: &[u8], b: &[u8], order: Ordering, symbols: bool) -> bool {
    let (found, equal) = if symbols {
        let (a, b) = (symbol(a), symbol(b));
        (a.cmp(&b), a == b)
    } else {
        let (a, b) = (Name::new(a), Name::new(b));
        (a.cmp(&b), a == b)
    };
    found == order && equal == (order == Ordering::Equal)
}

/// The value of a word in the table of `a`, `ab` and `b`.
pub(crate) fn value(out: &mut Out<'_>, word: &[u8]) -> Result<(), NoMemory> {
    match cases!("a" => 7, "ab" => 5, "b" => 9) {
        Some(table) => match table.get(word) {
            Some(value) => out.number(value as u64),
            None => out.word("-"),
        },
        None => out.word("no table"),
    }
    Ok(())
}

/// Whether the text is a list of two words for a table.
pub(crate) fn listed(out: &mut Out<'_>, text: &[u8]) -> Result<(), NoMemory> {
    match str::from_utf8(text) {
        Ok(text) if Cases::new(text, [1, 2]).is_some() => out.word("a table"),
        _ => out.word("none"),
    }
    Ok(())
}

/// Whether the text is a list of no words, and whether no cases make a table.
pub(crate) fn listed_none(out: &mut Out<'_>, text: &[u8]) -> Result<(), NoMemory> {
    match str::from_utf8(text) {
        Ok(text) if Cases::new(text, []).is_some() => out.word("a table"),
        _ => out.word("none"),
    }
    if cases!().is_some() {
        out.word("a table");
    }
    Ok(())
}

/// The length of the builtin text and its first line.
pub(crate) fn builtin(out: &mut Out<'_>) -> Result<(), NoMemory> {
    let text = builtin_text();
    let (line, _) = split(text.as_bytes(), b'\n');
    out.number(text.len() as u64);
    out.push(b" ");
    out.push(line);
    Ok(())
}

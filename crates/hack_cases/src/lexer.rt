// Tokens.

use crate::plain::{push_fault, push_number};
use hack_lexer::{LexStop, Token, tokens};
use hack_show::Out;
use hack_types::NoMemory;
use std::alloc::Global;

/// `SORT:AT:LEN` of each token and `-` for none, or `fault CODE LINE:COLUMN`.
pub(crate) fn cut(alloc: Global, out: &mut Out<'_>, text: &[u8]) -> Result<(), NoMemory> {
    if text.len() > 1_048_576 {
        return Ok(());
    }
    match tokens(alloc, text) {
        Ok(list) => {
            show(alloc, out, list.as_slice());
            drop(list);
        }
        Err(LexStop::Fault { place, code }) => {
            out.word("fault");
            push_fault(alloc, out, code, place);
        }
        Err(LexStop::NoMemory) => out.word("no memory"),
    }
    Ok(())
}

fn show(alloc: Global, out: &mut Out<'_>, list: &[Token]) {
    if list.is_empty() {
        out.word("-");
    }
    for token in list {
        out.number(token.sort as u64);
        out.push(b":");
        push_number(alloc, out, token.at as u64);
        out.push(b":");
        push_number(alloc, out, token.len as u64);
    }
}

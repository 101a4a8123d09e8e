// Diagnostics whose text is put together of pieces.
ghost use Rattle.std.specs.Prelude.{◌≡◌, ◌++◌, IfOk, OnOk};
ghost use Rattle.std.specs.Fmt.{decimal};
ghost use Rattle.hack_diag.specs.Messages.{diag};

use hack_base::Bytes;
use hack_codes::Code;
use hack_types::{Diag, NoMemory, Place};
use std::alloc::Global;
use std::io::Write;

/// The diagnostic with this text.
pub(crate) fn diag(at: Place, code: Code, text: Vec<u8>) -> Diag
    ensures { result ≡ diag at code text.items }
{
    Diag {
        at,
        code: code.number(),
        text: Bytes::from_vec(text),
    }
}

/// The diagnostic whose text is always the same.
pub(crate) fn fixed(alloc: Global, at: Place, code: Code, text: &[u8]) -> Result<Diag, NoMemory>
    ensures { IfOk result (λ made. made ≡ diag at code text.now) }
{
    let text = Vec::from_slice(alloc, text)?;
    Ok(diag(at, code, text))
}

/// Two pieces.
pub(crate) fn pair(
    alloc: Global,
    at: Place,
    code: Code,
    first: &[u8],
    second: &[u8],
) -> Result<Diag, NoMemory>
    ensures { IfOk result (λ made. made ≡ diag at code (first.now ++ second.now)) }
{
    let mut text = Vec::from_slice(alloc, first)?;
    text.extend_from_slice(second)?;
    Ok(diag(at, code, text))
}

/// A piece between two others.
pub(crate) fn around(
    alloc: Global,
    at: Place,
    code: Code,
    before: &[u8],
    piece: &[u8],
    behind: &[u8],
) -> Result<Diag, NoMemory>
    ensures { IfOk result (λ made. made
        ≡ diag at code (before.now ++ piece.now ++ behind.now)) }
{
    let mut text = Vec::from_slice(alloc, before)?;
    text.extend_from_slice(piece)?;
    text.extend_from_slice(behind)?;
    Ok(diag(at, code, text))
}

/// Four pieces.
pub(crate) fn four(
    alloc: Global,
    at: Place,
    code: Code,
    first: &[u8],
    second: &[u8],
    third: &[u8],
    fourth: &[u8],
) -> Result<Diag, NoMemory>
    ensures { IfOk result (λ made. made
        ≡ diag at code (first.now ++ second.now ++ third.now ++ fourth.now)) }
{
    let mut text = Vec::from_slice(alloc, first)?;
    text.extend_from_slice(second)?;
    text.extend_from_slice(third)?;
    text.extend_from_slice(fourth)?;
    Ok(diag(at, code, text))
}

/// Adds a number in decimals.
pub(crate) fn push_number(text: &mut Vec<u8>, number: u32) -> Result<(), NoMemory>
    ensures { OnOk result (text.new.items ≡ text.old.items ++ decimal number) }
{
    write!(text, "{number}").map_err(|_| NoMemory)
}

// The faults of files, and names that are declared twice.
ghost use Rattle.std.specs.Prelude.{◌≡◌, [], IfOk};
ghost use Rattle.hack_diag.specs.Messages as message;
ghost use Rattle.hack_diag.specs.Messages.{diag_of};

use crate::pieces::{around, fixed};
use hack_codes::Code;
use hack_types::{Diag, NameId, Names, NoMemory, Place, name_text};
use std::alloc::Global;

/// 1001: no token starts here, or a comment or a string is not closed.
pub fn no_token(alloc: Global, at: Place) -> Result<Diag, NoMemory>
    ensures { IfOk result (λ diag. diag ≡ diag_of [] at message.no_token) }
{
    fixed(alloc, at, Code::NoToken, b"no token starts here")
}

/// 1002: no row of the grammar goes on with this token.
pub fn unexpected_token(alloc: Global, at: Place) -> Result<Diag, NoMemory>
    ensures { IfOk result (λ diag. diag ≡ diag_of [] at message.unexpected_token) }
{
    fixed(alloc, at, Code::UnexpectedToken, b"unexpected token")
}

/// 1003: an integer literal above 2^63 - 1.
pub fn int_too_large(alloc: Global, at: Place) -> Result<Diag, NoMemory>
    ensures { IfOk result (λ diag. diag ≡ diag_of [] at message.int_too_large) }
{
    fixed(
        alloc,
        at,
        Code::IntTooLarge,
        b"integer literal above 9223372036854775807",
    )
}

/// 1004: rows that count as nesting stand in more than 128 of them.
pub fn too_deep(alloc: Global, at: Place) -> Result<Diag, NoMemory>
    ensures { IfOk result (λ diag. diag ≡ diag_of [] at message.too_deep) }
{
    fixed(alloc, at, Code::TooDeep, b"nesting above 128")
}

/// 1005: the file ends where a token is needed.
pub fn unexpected_end(alloc: Global, at: Place) -> Result<Diag, NoMemory>
    ensures { IfOk result (λ diag. diag ≡ diag_of [] at message.unexpected_end) }
{
    fixed(alloc, at, Code::UnexpectedEnd, b"unexpected end of file")
}

/// 2001: another declaration of this name counts.
pub fn name_taken(alloc: Global, names: &Names, at: Place, name: NameId) -> Result<Diag, NoMemory>
    ensures { IfOk result (λ diag. diag ≡ diag_of names.now at (message.name_taken name)) }
{
    around(
        alloc,
        at,
        Code::NameTaken,
        b"name ",
        name_text(names, name),
        b" is already declared",
    )
}

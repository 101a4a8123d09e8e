// What was read already, and what stands behind it. These know nothing of what they hold, and a parser that hands it to them
// holds no tree itself where it may stop.
ghost use Rattle.std.specs.Prelude.{◌≡◌, Ok, Err};
ghost use Rattle.std.specs.Result.{MatchResult};
ghost use Rattle.hack_parse_expr.specs.Behind as spec;
ghost use Rattle.hack_parse_expr.specs.Parsers.{Reads};
ghost use Rattle.hack_parse_expr.specs.Symbols.{Mark_};

use crate::{Cursor, ParseStop};
use hack_lexer::Mark;

/// What was read, with this mark behind it.
pub fn closed<T: Drop>(cursor: &mut Cursor<'_>, mark: Mark, read: T) -> Result<T, ParseStop>
    ensures { Reads (spec.closed (Mark_ mark) read cursor.old) result cursor.new }
{
    cursor.expect(mark)?;
    Ok(read)
}

/// What was read, beside what was read behind it; an error says why there is nothing behind it.
pub fn beside<T: Drop, U>(read: T, behind: Result<U, ParseStop>) -> Result<(T, U), ParseStop>
    ensures { MatchResult result (λ both. (both.0 ≡ read) × (behind ≡ Ok both.1))
        (λ stop. behind ≡ Err stop) }
{
    match behind {
        Ok(behind) => Ok((read, behind)),
        Err(stop) => Err(stop),
    }
}

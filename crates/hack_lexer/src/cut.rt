// The cut of a file's bytes into tokens.
ghost use Rattle.std.specs.Prelude.{◌≡◌, ◌<◌, ◌≤◌, ◌^◌, ℕ, List, length, IfOk, IfErr};
ghost use Rattle.std.specs.List.{AllByRecursion};
ghost use Rattle.hack_types.specs.declared.place.Place.{Place};
ghost use Rattle.hack_lexer.specs.declared.token.Token.{Token};
ghost use Rattle.hack_lexer.specs.Tokens.{AreTokens, IsFault, IsStop};

use crate::place::place_of;
use crate::step::{Step, step_at};
use crate::{LexStop, Token, tables};
use std::alloc::Global;

/// The tokens of the bytes, in order, every token the longest at its place; a fault where the bytes have one, the first
/// (docs/language.md, Tokens).
pub fn tokens(alloc: Global, bytes: &[u8]) -> Result<Vec<Token>, LexStop>
    requires { length bytes.now ≤ 2 ^ 20 }
    ensures tokens { IfOk result (λ tokens. AreTokens bytes.now tokens.items) }
    ensures kinds { IfOk result (λ tokens. AllByRecursion (λ t. t.sort < 121) tokens.items) }
    ensures fault { IfErr result (IsStop bytes.now) }
{
    let keywords = tables::keywords();
    let marks = tables::marks();
    let mut tokens = Vec::new(alloc);
    let mut at = 0;
    while at < bytes.len() {
        match step_at(&keywords, &marks, bytes, at) {
            Step::Blank(len) => at += len,
            Step::Taken(token) => {
                if tokens.push(token).is_err() {
                    return Err(LexStop::NoMemory);
                }
                at += token.len as usize;
            }
            Step::Fault(code) => {
                return Err(LexStop::Fault {
                    place: place_of(bytes, at),
                    code: code.number(),
                });
            }
        }
    }
    Ok(tokens)
}

/// Bytes have one cut into tokens at most, and no cut where they have a fault, and one first fault at most.
pub fn one_answer()
    ensures tokens { (bytes : List ℕ) (one other : List Token) → AreTokens bytes one → AreTokens bytes other → one ≡ other }
    ensures tokens_or_fault { (bytes : List ℕ) (tokens : List Token) (place : Place) (code : ℕ) → AreTokens bytes tokens → IsFault bytes place code → ⊥ }
    ensures fault { (bytes : List ℕ) (one other : Place) (code second : ℕ) → IsFault bytes one code → IsFault bytes other second → (one ≡ other) × (code ≡ second) }
{}

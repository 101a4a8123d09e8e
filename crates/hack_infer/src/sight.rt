// What is seen of a named type.

use hack_types::HackType;

/// What a type is to those who look through aliases (docs/language.md, Typing expressions, Heads).
#[derive(Drop)]
pub enum Sight {
    /// An alias, and what it stands for with its arguments put in.
    Alias(HackType),
    /// It is bad: there is no such class, interface, enum or alias, or not with so many arguments.
    Bad,
    /// Neither.
    Other,
}

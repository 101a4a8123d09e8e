// What can be told of two types by themselves, or by what is declared under their names.
ghost use Rattle.std.specs.Prelude.{◌≡◌};
ghost use Rattle.hack_sub.specs.IsBelow.{is_looked, is_plain};
ghost use Rattle.hack_sub.specs.Knowing.{is_alias, is_bad, is_class_like, is_enum, is_partial};
ghost use Rattle.hack_sub.specs.Tops.{is_any, is_made, is_mixed, is_nonnull, is_nothing, is_null, is_option, is_this, is_void, to_arraykey, to_nonnull, to_num, widens};

use crate::known::Known;
use crate::top::Top;

/// Whether the first is below the second by a rule that needs no lookup and no other type.
pub(crate) fn is_plain(lower: Top, upper: Top) -> bool
    ensures { result ≡ is_plain lower upper }
{
    is_any(lower)
        || is_any(upper)
        || is_nothing(lower)
        || (is_mixed(upper) && !is_void(lower))
        || widens(lower, upper)
        || (is_nonnull(upper) && is_made(lower))
        || (is_null(lower) && is_option(upper))
}

fn is_any(top: Top) -> bool
    ensures { result ≡ is_any top }
{
    matches!(top, Top::Any)
}

fn is_nothing(top: Top) -> bool
    ensures { result ≡ is_nothing top }
{
    matches!(top, Top::Nothing)
}

fn is_mixed(top: Top) -> bool
    ensures { result ≡ is_mixed top }
{
    matches!(top, Top::Mixed)
}

fn is_void(top: Top) -> bool
    ensures { result ≡ is_void top }
{
    matches!(top, Top::Void)
}

fn is_nonnull(top: Top) -> bool
    ensures { result ≡ is_nonnull top }
{
    matches!(top, Top::Nonnull)
}

fn is_null(top: Top) -> bool
    ensures { result ≡ is_null top }
{
    matches!(top, Top::Null)
}

fn is_option(top: Top) -> bool
    ensures { result ≡ is_option top }
{
    matches!(top, Top::Option)
}

/// Whether it is `this`.
pub(crate) fn is_this(top: Top) -> bool
    ensures { result ≡ is_this top }
{
    matches!(top, Top::This)
}

// Whether the first is a primitive below the second.
fn widens(lower: Top, upper: Top) -> bool
    ensures { result ≡ widens lower upper }
{
    match upper {
        Top::Num => is_number(lower),
        Top::Arraykey => is_key(lower),
        Top::Nonnull => is_value(lower),
        _ => false,
    }
}

// Whether it is a primitive below `num`.
fn is_number(top: Top) -> bool
    ensures { result ≡ to_num top }
{
    matches!(top, Top::Int | Top::Float)
}

// Whether it is a primitive below `arraykey`.
fn is_key(top: Top) -> bool
    ensures { result ≡ to_arraykey top }
{
    matches!(top, Top::Int | Top::Str)
}

// Whether it is a primitive below `nonnull`.
fn is_value(top: Top) -> bool
    ensures { result ≡ to_nonnull top }
{
    matches!(
        top,
        Top::Int | Top::Float | Top::Str | Top::Bool | Top::Num | Top::Arraykey
    )
}

// Whether it is a container, a shape or `this`.
fn is_made(top: Top) -> bool
    ensures { result ≡ is_made top }
{
    matches!(top, Top::Container | Top::Shape | Top::This)
}

/// Whether the first is below the second by what is declared under their names, where the second is this.
pub(crate) fn is_looked(lower: Known, upper: Known, top: Top) -> bool
    ensures { result ≡ is_looked lower upper top }
{
    is_bad(lower)
        || is_bad(upper)
        || (is_partial(lower) && is_class_like(upper))
        || (is_nonnull(top) && (is_class_like(lower) || is_enum(lower)))
}

fn is_bad(known: Known) -> bool
    ensures { result ≡ is_bad known }
{
    matches!(known, Known::Bad)
}

fn is_class_like(known: Known) -> bool
    ensures { result ≡ is_class_like known }
{
    matches!(known, Known::ClassLike { .. })
}

fn is_partial(known: Known) -> bool
    ensures { result ≡ is_partial known }
{
    matches!(known, Known::ClassLike { partial: true })
}

/// Whether it is an alias.
pub(crate) fn is_alias(known: Known) -> bool
    ensures { result ≡ is_alias known }
{
    matches!(known, Known::Alias)
}

/// Whether it is an enum.
pub(crate) fn is_enum(known: Known) -> bool
    ensures { result ≡ is_enum known }
{
    matches!(known, Known::Enum)
}

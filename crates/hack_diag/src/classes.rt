// What is wrong with classes and enums.
ghost use Rattle.std.specs.Prelude.{◌≡◌, ◌++◌, [], IfOk, codes};
ghost use Rattle.hack_types.specs.TypeText.{name_text};
ghost use Rattle.hack_diag.specs.Messages as message;
ghost use Rattle.hack_diag.specs.Messages.{diag, diag_of};

use crate::pieces::{around, diag, fixed, four, pair};
use hack_codes::Code;
use hack_types::{Diag, NameId, Names, NoMemory, Place, name_text};
use std::alloc::Global;

/// 3201: what stands above a class comes back to it, or has more than 256 names.
pub fn bad_hierarchy(
    alloc: Global,
    names: &Names,
    at: Place,
    class: NameId,
) -> Result<Diag, NoMemory>
    ensures { IfOk result (λ diag. diag ≡ diag_of names.now at (message.bad_hierarchy class)) }
{
    around(
        alloc,
        at,
        Code::BadHierarchy,
        b"hierarchy of ",
        name_text(names, class),
        b" is cyclic or above 256 names",
    )
}

/// 3202: what is declared cannot be a parent of this sort.
pub fn bad_parent(
    alloc: Global,
    names: &Names,
    at: Place,
    class: NameId,
    parent: NameId,
) -> Result<Diag, NoMemory>
    ensures { IfOk result (λ diag. diag ≡ diag_of names.now at (message.bad_parent class parent)) }
{
    four(
        alloc,
        at,
        Code::BadParent,
        name_text(names, class),
        b" cannot have ",
        name_text(names, parent),
        b" as a parent here",
    )
}

/// 3203: a final class is extended.
pub fn final_parent(
    alloc: Global,
    names: &Names,
    at: Place,
    parent: NameId,
) -> Result<Diag, NoMemory>
    ensures { IfOk result (λ diag. diag ≡ diag_of names.now at (message.final_parent parent)) }
{
    around(
        alloc,
        at,
        Code::FinalParent,
        b"final class ",
        name_text(names, parent),
        b" cannot be extended",
    )
}

/// 3204: another member of its kind before it has this name.
pub fn member_taken(
    alloc: Global,
    names: &Names,
    at: Place,
    member: NameId,
) -> Result<Diag, NoMemory>
    ensures { IfOk result (λ diag. diag ≡ diag_of names.now at (message.member_taken member)) }
{
    around(
        alloc,
        at,
        Code::MemberTaken,
        b"member ",
        name_text(names, member),
        b" is declared twice",
    )
}

/// 3205: an abstract member stays abstract in a class that is not.
pub fn no_implementation(
    alloc: Global,
    names: &Names,
    at: Place,
    class: NameId,
    member: NameId,
) -> Result<Diag, NoMemory>
    ensures { IfOk result (λ diag. diag
        ≡ diag_of names.now at (message.no_implementation class member)) }
{
    four(
        alloc,
        at,
        Code::NoImplementation,
        b"class ",
        name_text(names, class),
        b" must define ",
        name_text(names, member),
    )
}

/// 3206: a method that says it overrides one overrides none.
pub fn overrides_nothing(
    alloc: Global,
    names: &Names,
    at: Place,
    member: NameId,
) -> Result<Diag, NoMemory>
    ensures { IfOk result (λ diag. diag ≡ diag_of names.now at (message.overrides_nothing member)) }
{
    pair(
        alloc,
        at,
        Code::OverridesNothing,
        name_text(names, member),
        b" overrides nothing",
    )
}

/// 3207: a final method of a parent is overridden.
pub fn final_method(
    alloc: Global,
    names: &Names,
    at: Place,
    parent: NameId,
    member: NameId,
) -> Result<Diag, NoMemory>
    ensures { IfOk result (λ diag. diag
        ≡ diag_of names.now at (message.final_method parent member)) }
{
    let mut text = Vec::from_slice(alloc, b"final method ")?;
    text.extend_from_slice(name_text(names, parent))?;
    text.extend_from_slice(b"::")?;
    text.extend_from_slice(name_text(names, member))?;
    text.extend_from_slice(b" cannot be overridden")?;
    Ok(diag(at, Code::FinalMethod, text))
}

/// 3208: a method cannot stand for the one of the parent.
pub fn method_misfit(
    alloc: Global,
    names: &Names,
    at: Place,
    member: NameId,
    parent: NameId,
) -> Result<Diag, NoMemory>
    ensures { IfOk result (λ diag. diag
        ≡ diag_of names.now at (message.method_misfit member parent)) }
{
    against_parent(
        alloc,
        names,
        at,
        Code::MethodMisfit,
        b"method ",
        member,
        b" does not fit ",
        parent,
    )
}

/// 3209: a property has another type than that of the parent.
pub fn property_misfit(
    alloc: Global,
    names: &Names,
    at: Place,
    member: NameId,
    parent: NameId,
) -> Result<Diag, NoMemory>
    ensures { IfOk result (λ diag. diag
        ≡ diag_of names.now at (message.property_misfit member parent)) }
{
    against_parent(
        alloc,
        names,
        at,
        Code::PropertyMisfit,
        b"property ",
        member,
        b" does not keep the type of ",
        parent,
    )
}

/// 3210: a member is less visible than that of the parent.
pub fn less_visible(
    alloc: Global,
    names: &Names,
    at: Place,
    member: NameId,
    parent: NameId,
) -> Result<Diag, NoMemory>
    ensures { IfOk result (λ diag. diag
        ≡ diag_of names.now at (message.less_visible member parent)) }
{
    against_parent(
        alloc,
        names,
        at,
        Code::LessVisible,
        b"",
        member,
        b" is less visible than ",
        parent,
    )
}

/// 3211: a type parameter stands where its variance does not allow it.
pub fn wrong_variance(
    alloc: Global,
    names: &Names,
    at: Place,
    name: NameId,
) -> Result<Diag, NoMemory>
    ensures { IfOk result (λ diag. diag ≡ diag_of names.now at (message.wrong_variance name)) }
{
    around(
        alloc,
        at,
        Code::WrongVariance,
        b"type parameter ",
        name_text(names, name),
        b" stands in a place of the wrong variance",
    )
}

/// 3213: a property or a method does not say how visible it is.
pub fn no_visibility(
    alloc: Global,
    names: &Names,
    at: Place,
    member: NameId,
) -> Result<Diag, NoMemory>
    ensures { IfOk result (λ diag. diag ≡ diag_of names.now at (message.no_visibility member)) }
{
    around(
        alloc,
        at,
        Code::NoVisibility,
        b"member ",
        name_text(names, member),
        b" states no visibility",
    )
}

/// 3215: a method that is not abstract has no body.
pub fn body_missing(
    alloc: Global,
    names: &Names,
    at: Place,
    member: NameId,
) -> Result<Diag, NoMemory>
    ensures { IfOk result (λ diag. diag ≡ diag_of names.now at (message.body_missing member)) }
{
    around(
        alloc,
        at,
        Code::BodyMissing,
        b"method ",
        name_text(names, member),
        b" must have a body",
    )
}

/// 3216: an abstract method, or one of an interface, has a body.
pub fn body_unwanted(
    alloc: Global,
    names: &Names,
    at: Place,
    member: NameId,
) -> Result<Diag, NoMemory>
    ensures { IfOk result (λ diag. diag ≡ diag_of names.now at (message.body_unwanted member)) }
{
    around(
        alloc,
        at,
        Code::BodyUnwanted,
        b"method ",
        name_text(names, member),
        b" must not have a body",
    )
}

/// 3217: a function or a method does not say what it returns.
pub fn no_return_type(
    alloc: Global,
    names: &Names,
    at: Place,
    member: NameId,
) -> Result<Diag, NoMemory>
    ensures { IfOk result (λ diag. diag ≡ diag_of names.now at (message.no_return_type member)) }
{
    pair(
        alloc,
        at,
        Code::NoReturnType,
        name_text(names, member),
        b" states no return type",
    )
}

/// 3218: the type of a constant is not below that of the parent.
pub fn constant_misfit(
    alloc: Global,
    names: &Names,
    at: Place,
    member: NameId,
    parent: NameId,
) -> Result<Diag, NoMemory>
    ensures { IfOk result (λ diag. diag
        ≡ diag_of names.now at (message.constant_misfit member parent)) }
{
    against_parent(
        alloc,
        names,
        at,
        Code::ConstantMisfit,
        b"constant ",
        member,
        b" does not fit ",
        parent,
    )
}

/// 3219: the base of an enum is another type.
pub fn enum_base(alloc: Global, at: Place) -> Result<Diag, NoMemory>
    ensures { IfOk result (λ diag. diag ≡ diag_of [] at message.enum_base) }
{
    fixed(
        alloc,
        at,
        Code::EnumBase,
        b"enum base must be int or string",
    )
}

/// 3220: the bound of an enum is another type than its base.
pub fn enum_bound(alloc: Global, at: Place) -> Result<Diag, NoMemory>
    ensures { IfOk result (λ diag. diag ≡ diag_of [] at message.enum_bound) }
{
    fixed(alloc, at, Code::EnumBound, b"enum bound must be its base")
}

/// 3221: modifiers that cannot stand together, or not there.
pub fn modifiers_misfit(
    alloc: Global,
    names: &Names,
    at: Place,
    member: NameId,
) -> Result<Diag, NoMemory>
    ensures { IfOk result (λ diag. diag ≡ diag_of names.now at (message.modifiers_misfit member)) }
{
    around(
        alloc,
        at,
        Code::ModifiersMisfit,
        b"modifiers of ",
        name_text(names, member),
        b" do not fit",
    )
}

// What is wrong with a member beside the member of its name in a parent.
fn against_parent(
    alloc: Global,
    names: &Names,
    at: Place,
    code: Code,
    before: &[u8],
    member: NameId,
    between: &[u8],
    parent: NameId,
) -> Result<Diag, NoMemory>
    ensures { IfOk result (λ made. made ≡ diag at code (before.now ++ name_text names.now member
        ++ between.now ++ name_text names.now parent ++ codes "::" ++ name_text names.now member)) }
{
    let member = name_text(names, member);
    let mut text = Vec::from_slice(alloc, before)?;
    text.extend_from_slice(member)?;
    text.extend_from_slice(between)?;
    text.extend_from_slice(name_text(names, parent))?;
    text.extend_from_slice(b"::")?;
    text.extend_from_slice(member)?;
    Ok(diag(at, code, text))
}

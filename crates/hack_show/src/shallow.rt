// Signatures.

use crate::{Out, words};
use hack_types::{
    AliasSig, ClassSig, EnumSig, Fields, HackType, Member, MemberKind, Shallow, Signature,
    TypeParam,
};

/// Adds the signature of a declaration.
pub fn show_shallow(out: &mut Out<'_>, shallow: &Shallow) {
    match shallow {
        Shallow::ClassLike(class) => class_like(out, class),
        Shallow::Enum(sig) => enumeration(out, sig),
        Shallow::Alias(sig) => alias(out, sig),
        Shallow::Function(sig) => {
            out.open("function");
            signature(out, sig);
        }
        Shallow::Constant(ty) => {
            out.open("constant");
            show_type(out, ty);
        }
    }
    out.close();
}

// Begins an enum.
pub(crate) fn enumeration(out: &mut Out<'_>, sig: &EnumSig) {
    out.open("enum");
    show_type(out, &sig.base);
    if sig.bounded {
        out.word("bounded");
    }
    for case in sig.cases.as_slice() {
        out.name(*case);
    }
}

// Begins an alias.
pub(crate) fn alias(out: &mut Out<'_>, sig: &AliasSig) {
    out.open("alias");
    type_params(out, sig.type_params.as_slice());
    show_type(out, &sig.body);
}

// Begins a class, an interface or a trait.
fn class_like(out: &mut Out<'_>, class: &ClassSig) {
    out.open(words::sort(class.sort));
    if class.is_abstract {
        out.word("abstract");
    }
    if class.is_final {
        out.word("final");
    }
    type_params(out, class.type_params.as_slice());
    types_behind(out, "use", class.uses.as_slice());
    types_behind(out, "extends", class.extends.as_slice());
    types_behind(out, "implements", class.implements.as_slice());
    for one in class.members.as_slice() {
        member(out, one);
    }
}

fn types_behind(out: &mut Out<'_>, word: &str, types: &[HackType]) {
    out.open(word);
    show_types(out, types);
    out.close();
}

pub(crate) fn type_params(out: &mut Out<'_>, all: &[TypeParam]) {
    for one in all {
        out.open("type");
        out.word(words::varying(one.variance));
        out.name(one.name);
        types_behind(out, "as", one.upper.as_slice());
        types_behind(out, "super", one.lower.as_slice());
        out.close();
    }
}

// A signature without the node around it.
pub(crate) fn signature(out: &mut Out<'_>, sig: &Signature) {
    type_params(out, sig.type_params.as_slice());
    for one in sig.params.as_slice() {
        out.open(if one.optional { "optional" } else { "param" });
        show_type(out, &one.ty);
        out.close();
    }
    show_type(out, &sig.result);
}

pub(crate) fn member(out: &mut Out<'_>, shown: &Member) {
    let word = match &shown.kind {
        MemberKind::Constant(_) => "constant",
        MemberKind::Property(_) => "property",
        MemberKind::Method(_) => "method",
    };
    out.open(word);
    out.name(shown.name);
    out.name(shown.origin);
    out.word(words::seen(shown.visibility));
    if shown.is_static {
        out.word("static");
    }
    if shown.is_abstract {
        out.word("abstract");
    }
    if shown.is_final {
        out.word("final");
    }
    match &shown.kind {
        MemberKind::Constant(ty) | MemberKind::Property(ty) => show_type(out, ty),
        MemberKind::Method(sig) => signature(out, sig),
    }
    out.close();
}

/// Adds a type. What is a name is told apart: `(class C ..)`, and of a type parameter its position behind `(class-param` or
/// `(fun-param`.
#[cycle(types)]
pub fn show_type(out: &mut Out<'_>, ty: &HackType) {
    match ty {
        HackType::Option(_)
        | HackType::Vector(_)
        | HackType::Dict(_, _)
        | HackType::Keyset(_)
        | HackType::Shape { .. }
        | HackType::Class(_, _)
        | HackType::ClassParam(_, _)
        | HackType::FunParam(_, _)
        | HackType::Union(_) => {
            node(out, ty);
            out.close();
        }
        _ => out.word(keyword(ty)),
    }
}

// Begins a type that has parts.
#[cycle(types)]
fn node(out: &mut Out<'_>, ty: &HackType) {
    match ty {
        HackType::Option(inside) => {
            out.open("?");
            show_type(out, inside.get());
        }
        HackType::Vector(item) => {
            out.open("vec");
            show_type(out, item.get());
        }
        HackType::Keyset(item) => {
            out.open("keyset");
            show_type(out, item.get());
        }
        HackType::Dict(key, value) => {
            out.open("dict");
            show_type(out, key.get());
            show_type(out, value.get());
        }
        HackType::Shape { fields, rest } => {
            out.open("shape");
            show_fields(out, fields);
            if *rest {
                out.word("...");
            }
        }
        HackType::Class(name, types) => {
            out.open("class");
            out.name(*name);
            show_types(out, types.as_slice());
        }
        HackType::ClassParam(position, name) => {
            out.open("class-param");
            out.number(*position as u64);
            out.name(*name);
        }
        HackType::FunParam(position, name) => {
            out.open("fun-param");
            out.number(*position as u64);
            out.name(*name);
        }
        HackType::Union(types) => {
            out.open("union");
            show_types(out, types.as_slice());
        }
        _ => out.open("?"),
    }
}

#[cycle(types)]
pub(crate) fn show_types(out: &mut Out<'_>, types: &[HackType]) {
    for ty in types {
        show_type(out, ty);
    }
}

#[cycle(types)]
fn show_fields(out: &mut Out<'_>, fields: &Fields<HackType>) {
    for field in fields.as_slice() {
        out.open(if field.optional { "optional" } else { "field" });
        out.name(field.key);
        show_type(out, &field.ty);
        out.close();
    }
}

// The word of a type that is one.
fn keyword(ty: &HackType) -> &'static str {
    match ty {
        HackType::Any => "_",
        HackType::Mixed => "mixed",
        HackType::Nonnull => "nonnull",
        HackType::Nothing => "nothing",
        HackType::Null => "null",
        HackType::Void => "void",
        HackType::Noreturn => "noreturn",
        HackType::Bool => "bool",
        HackType::Int => "int",
        HackType::Float => "float",
        HackType::Num => "num",
        HackType::Str => "string",
        HackType::Arraykey => "arraykey",
        HackType::This => "this",
        _ => "?",
    }
}

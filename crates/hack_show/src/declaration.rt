// Declarations and files.

use crate::expression::{expression, expression_if_any, expressions};
use crate::statement::{declared, part};
use crate::written::{class_type, class_types, written, written_if_any};
use crate::{Out, words};
use hack_tree::{
    Attribute, Bound, Callable, DeclaredName, EnumCase, FileTree, Member, Modifier, Parameter,
    TypeParameter, Unit, UnitTree,
};
use hack_types::Kind;

/// Adds each declaration of a file, with the place where it begins.
pub fn show_tree(out: &mut Out<'_>, tree: &FileTree) {
    for unit in tree.units.as_slice() {
        show_unit(out, unit);
    }
}

/// Adds a declaration where it stands in its file: what it declares, the places of its first token and of its name, the
/// bytes of its text, and what it says.
pub fn show_unit(out: &mut Out<'_>, unit: &Unit) {
    let kind = match unit.symbol.kind {
        Kind::Class => "class",
        Kind::Func => "func",
        Kind::Const => "const",
    };
    out.open_at(kind, unit.start);
    out.name(unit.symbol.name);
    out.place(unit.name_at);
    out.number(unit.text.as_slice().len() as u64);
    declaration(out, &unit.tree);
    out.close();
}

fn declaration(out: &mut Out<'_>, tree: &UnitTree) {
    match tree {
        UnitTree::Class { .. } | UnitTree::Interface { .. } | UnitTree::Trait { .. } => {
            class_like(out, tree);
        }
        UnitTree::Function {
            attributes,
            callable,
            body,
        } => {
            out.open("function");
            all_attributes(out, attributes.as_slice());
            signature(out, callable);
            part(out, "body", body);
        }
        UnitTree::Enum {
            attributes,
            name,
            base,
            bound,
            cases,
        } => {
            begin(out, "enum", attributes.as_slice(), *name);
            written(out, base);
            written_if_any(out, bound);
            all_cases(out, cases.as_slice());
        }
        UnitTree::Alias {
            attributes,
            name,
            type_parameters,
            aliased,
        } => {
            begin(out, "alias", attributes.as_slice(), *name);
            all_type_parameters(out, type_parameters.as_slice());
            written(out, aliased);
        }
        UnitTree::Constant {
            attributes,
            written: ty,
            name,
            value,
        } => {
            begin(out, "constant", attributes.as_slice(), *name);
            written(out, ty);
            expression(out, value);
        }
    }
    out.close();
}

// Begins a class, an interface or a trait.
fn class_like(out: &mut Out<'_>, tree: &UnitTree) {
    match tree {
        UnitTree::Class {
            attributes,
            modifiers,
            name,
            type_parameters,
            extends,
            implements,
            members,
        } => {
            begin(out, "class", attributes.as_slice(), *name);
            for one in modifiers.as_slice() {
                out.word(words::class_modifier(*one));
            }
            all_type_parameters(out, type_parameters.as_slice());
            out.open("extends");
            if let Some(class) = extends {
                class_type(out, class);
            }
            out.close();
            class_types(out, "implements", implements.as_slice());
            all_members(out, members.as_slice());
        }
        UnitTree::Interface {
            attributes,
            name,
            type_parameters,
            extends,
            members,
        } => {
            begin(out, "interface", attributes.as_slice(), *name);
            all_type_parameters(out, type_parameters.as_slice());
            class_types(out, "extends", extends.as_slice());
            all_members(out, members.as_slice());
        }
        UnitTree::Trait {
            attributes,
            name,
            type_parameters,
            implements,
            members,
        } => {
            begin(out, "trait", attributes.as_slice(), *name);
            all_type_parameters(out, type_parameters.as_slice());
            class_types(out, "implements", implements.as_slice());
            all_members(out, members.as_slice());
        }
        _ => out.open("?"),
    }
}

fn begin(out: &mut Out<'_>, word: &str, attributes: &[Attribute], name: DeclaredName) {
    out.open(word);
    all_attributes(out, attributes);
    declared(out, name);
}

fn all_attributes(out: &mut Out<'_>, all: &[Attribute]) {
    for one in all {
        out.open("attribute");
        declared(out, one.name);
        expressions(out, one.arguments.as_slice());
        out.close();
    }
}

fn signature(out: &mut Out<'_>, callable: &Callable) {
    declared(out, callable.name);
    all_type_parameters(out, callable.type_parameters.as_slice());
    for one in callable.parameters.as_slice() {
        parameter(out, one);
    }
    written_if_any(out, &callable.result);
}

fn all_type_parameters(out: &mut Out<'_>, all: &[TypeParameter]) {
    for one in all {
        out.open("type");
        out.word(words::sign(one.variance));
        declared(out, one.name);
        all_bounds(out, one.bounds.as_slice());
        out.close();
    }
}

fn all_bounds(out: &mut Out<'_>, all: &[Bound]) {
    for one in all {
        out.word(words::bound(one.kind));
        written(out, &one.written);
    }
}

fn parameter(out: &mut Out<'_>, shown: &Parameter) {
    out.open("parameter");
    all_attributes(out, shown.attributes.as_slice());
    if let Some(visibility) = shown.visibility {
        out.word(words::visibility(visibility));
    }
    written(out, &shown.written);
    declared(out, shown.name);
    expression_if_any(out, &shown.default);
    out.close();
}

fn all_cases(out: &mut Out<'_>, all: &[EnumCase]) {
    for one in all {
        out.open("case");
        declared(out, one.name);
        expression(out, &one.value);
        out.close();
    }
}

fn all_members(out: &mut Out<'_>, all: &[Member]) {
    for one in all {
        member(out, one);
        out.close();
    }
}

fn member(out: &mut Out<'_>, shown: &Member) {
    match shown {
        Member::Use { at, traits } => {
            out.open_at("use", *at);
            for one in traits.as_slice() {
                class_type(out, one);
            }
        }
        Member::Constant {
            at,
            attributes,
            modifiers,
            written: ty,
            name,
            value,
        } => {
            out.open_at("constant", *at);
            ahead(out, attributes.as_slice(), modifiers.as_slice());
            written(out, ty);
            declared(out, *name);
            expression_if_any(out, value);
        }
        Member::Method {
            at,
            attributes,
            modifiers,
            callable,
            body,
        } => {
            out.open_at("method", *at);
            ahead(out, attributes.as_slice(), modifiers.as_slice());
            signature(out, callable);
            match body {
                Some(body) => part(out, "body", body),
                None => out.word("-"),
            }
        }
        Member::Property {
            at,
            attributes,
            modifiers,
            written: ty,
            name,
            value,
        } => {
            out.open_at("property", *at);
            ahead(out, attributes.as_slice(), modifiers.as_slice());
            written(out, ty);
            declared(out, *name);
            expression_if_any(out, value);
        }
    }
}

// What stands ahead of a member.
fn ahead(out: &mut Out<'_>, attributes: &[Attribute], modifiers: &[Modifier]) {
    all_attributes(out, attributes);
    for one in modifiers {
        out.word(words::modifier(*one));
    }
}

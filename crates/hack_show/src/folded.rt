// Folded declarations.

use crate::shallow::{alias, enumeration, member, show_types, signature, type_params};
use crate::{Out, show_type, words};
use hack_decls::{ClassFolded, Folded};

/// Adds a declaration with all that it inherits.
pub fn show_folded(out: &mut Out<'_>, folded: &Folded) {
    match folded {
        Folded::ClassLike(class) => class_like(out, class),
        Folded::Enum(sig) => enumeration(out, sig),
        Folded::Alias(sig) => alias(out, sig),
        Folded::Function(sig) => {
            out.open("function");
            signature(out, sig);
        }
        Folded::Constant(ty) => {
            out.open("constant");
            show_type(out, ty);
        }
    }
    out.close();
}

// Begins a class, an interface or a trait.
fn class_like(out: &mut Out<'_>, class: &ClassFolded) {
    out.open(words::sort(class.sort));
    let flags = [
        (class.is_abstract, "abstract"),
        (class.is_final, "final"),
        (class.cyclic, "cyclic"),
        (class.partial, "partial"),
    ];
    for (holds, word) in flags {
        if holds {
            out.word(word);
        }
    }
    type_params(out, class.type_params.as_slice());
    ancestors(out, class);
    for one in class.members.as_slice() {
        member(out, one);
    }
}

fn ancestors(out: &mut Out<'_>, class: &ClassFolded) {
    out.open("ancestors");
    for ancestor in class.ancestors.as_slice() {
        out.open("class");
        out.name(ancestor.name);
        show_types(out, ancestor.arguments.as_slice());
        out.close();
    }
    out.close();
}

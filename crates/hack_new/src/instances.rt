// Classes that there are objects of.
ghost use Rattle.std.specs.Prelude.{◌≡◌, IsTrue};
ghost use Rattle.hack_decls.specs.Asks.{Asks, Nothing};
ghost use Rattle.hack_decls.specs.Names.{class_symbol};
ghost use Rattle.hack_diag.specs.Messages.{not_instantiable};
ghost use Rattle.hack_rules.specs.Classes.{class_by, is_class_sort};
ghost use Rattle.hack_rules.specs.News.{expect_instance, instance_by};
ghost use Rattle.hack_rules.specs.Walks.{unless};
ghost use Rattle.hack_walk.specs.Checks.{Steps, Walks, setting_of};
ghost use Rattle.hack_new.specs.inside.Rows as row;

use hack_decls::{ClassHeading, DeclStop, Decls, HeadingAnswer};
use hack_diag::not_instantiable;
use hack_types::{Kind, NameId, NoMemory, Place, Sort, SymbolId};
use hack_walk::{Setting, State};
use std::alloc::Global;

/// 4011 unless the name itself is a class that isn't abstract (docs/language.md, Typing expressions, New). `EdgesFull` says that a
/// lookup's note was refused, and `NoMemory` that memory ran out; what was noted before stays noted.
pub(crate) fn expect_instance<D: Decls>(
    alloc: Global,
    setting: &Setting<'_>,
    decls: &mut D,
    state: &mut State,
    at: Place,
    name: NameId,
) -> Result<(), DeclStop>
    ensures { Walks (expect_instance at name) (setting_of setting.now)
        (D.state decls.old) state.old result (D.state decls.new) state.new
        (λ symbols. IsTrue (symbols (class_symbol name))) Nothing }
{
    let fits = has_instances(alloc, decls, name)?;
    report_unless(alloc, setting, state, at, name, fits)?;
    Ok(())
}

fn has_instances<D: Decls>(alloc: Global, decls: &mut D, name: NameId) -> Result<bool, DeclStop>
    ensures { Asks (D.state decls.old) result (D.state decls.new)
        (λ map answer. answer ≡ instance_by (class_by (map (class_symbol name))))
        (λ symbols. IsTrue (symbols (class_symbol name))) Nothing }
{
    let symbol = SymbolId {
        kind: Kind::Class,
        name,
    };
    let heading = decls.heading(alloc, symbol)?;
    let is = is_instance(&heading);
    drop(heading);
    Ok(is)
}

fn is_instance(heading: &HeadingAnswer) -> bool
    ensures { result ≡ row.is_instance heading.now }
{
    match heading {
        HeadingAnswer::ClassLike(class) => is_whole(class),
        _ => false,
    }
}

fn is_whole(class: &ClassHeading) -> bool
    ensures { result ≡ row.is_whole class.now }
{
    is_class_sort(class.sort) && !class.is_abstract
}

fn is_class_sort(sort: Sort) -> bool
    ensures { result ≡ is_class_sort sort }
{
    matches!(sort, Sort::Class)
}

fn report_unless(
    alloc: Global,
    setting: &Setting<'_>,
    state: &mut State,
    at: Place,
    name: NameId,
    fits: bool,
) -> Result<(), NoMemory>
    ensures { Steps (unless fits at (not_instantiable name)) (setting_of setting.now)
        state.old result state.new (λ symbols. Unit {0}) Nothing }
{
    if fits {
        return Ok(());
    }
    let diag = not_instantiable(alloc, setting.names, at, name)?;
    state.report(diag)?;
    Ok(())
}

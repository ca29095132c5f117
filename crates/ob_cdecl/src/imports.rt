//! Imports, and the names of modules.

#![tactic(auto, using(ob_rules::proofs::BookLaws::after_none, ob_rules::proofs::BookLaws::after_joined))]

ghost use Rattle.std.specs.Prelude.{◌≡◌, [], Some, IfOk, OnOk};
ghost use Rattle.ob_cdecl_scopes.specs.Scopes.{around_of};
ghost use Rattle.ob_rules.specs.Books.{book_after};
ghost use Rattle.ob_rules.specs.Declarations as spec;
ghost use Rattle.ob_cdecl.specs.Order.{one_import, import_added};

use crate::decls::declare_new;
use ob_cdecl_scopes::{Imports, Scope, Stack};
use ob_cexpr_name::is_out;
use ob_rules::{Entity, Notebook, Rule};
use ob_tree::{Ident, Import, List, Name};
use std::alloc::{AllocError, Global};

fn is_system(name: &Name) -> bool
    ensures { result ≡ spec.is_system name.now }
{
    name.as_bytes() == b"SYSTEM".as_slice()
}

fn target_of(item: &Import) -> Ident
    ensures { result ≡ spec.target_of item.now }
{
    match item.target {
        None => item.ident,
        Some(target) => target,
    }
}

fn import_entity(system: bool, target: &Ident) -> Entity
    ensures { result ≡ spec.import_entity system target.now }
{
    if system {
        return Entity::Unsound;
    }
    Entity::Module(target.name)
}

// Rules 1 and 5.
fn import_declared<E: Imports>(
    alloc: Global,
    scope: &mut Scope<'_, E>,
    book: &mut Notebook,
    item: &Import,
) -> Result<(), AllocError>
    ensures around { OnOk result (around_of E.types scope.new ≡ (one_import item.now (around_of E.types scope.old)).around) }
    ensures noted { OnOk result (book.new ≡ book_after book.old (one_import item.now (around_of E.types scope.old)).part.notes) }
{
    let target = target_of(item);
    let system = is_system(&target.name);
    book.breaks_if(system, Rule::ReservedModule, target.pos);
    declare_new(
        alloc,
        scope,
        book,
        &item.ident,
        import_entity(system, &target),
    )
}

/// The imports of a module, in turn: from here on the names of the modules are known.
pub fn imports_declared<E: Imports>(
    alloc: Global,
    scope: &mut Scope<'_, E>,
    book: &mut Notebook,
    imports: &[Import],
) -> Result<(), AllocError>
    ensures around { OnOk result (around_of E.types scope.new ≡ (spec.imports_declared imports.now (around_of E.types scope.old)).around) }
    ensures noted { OnOk result (book.new ≡ book_after book.old (spec.imports_declared imports.now (around_of E.types scope.old)).part.notes) }
{
    'imports: for item in imports {
        import_declared(alloc, scope, book, item)?;
    }
    Ok(())
}

fn add_import(found: &mut List<Name>, before: &Stack, name: Name) -> Result<(), AllocError>
    ensures { OnOk result (found.new ≡ import_added found.old before.now name) }
{
    if is_out(&name) || before.has(name.as_bytes()) {
        return Ok(());
    }
    found.push(name)
}

/// The imported modules, each once, without Out.
pub fn imported(alloc: Global, imports: &[Import]) -> Result<List<Name>, AllocError>
    ensures { IfOk result (λ r. r ≡ spec.imported [] imports.now) }
{
    let mut found = List::new(alloc);
    let mut before = Stack::new(alloc);
    'imports: for item in imports {
        let name = target_of(item).name;
        add_import(&mut found, &before, name)?;
        before.push(alloc, name.as_bytes())?;
    }
    Ok(found)
}

/// Rule 4: the name after END is not the procedure's or module's.
pub fn closing_judged(book: &mut Notebook, name: &Name, closing: &Ident)
    ensures { book.new ≡ book_after book.old (spec.closing_judged name.now (Some closing.now)) }
{
    book.breaks_if(
        !(closing.name.as_bytes() == name.as_bytes()),
        Rule::WrongClosingName,
        closing.pos,
    )
}

/// Rules 4 and 5 of the name of a module.
pub fn name_judged(book: &mut Notebook, name: &Ident, closing: &Ident)
    ensures { book.new ≡ book_after book.old (spec.name_judged name.now closing.now) }
{
    book.breaks_if(
        is_out(&name.name) || is_system(&name.name),
        Rule::ReservedModule,
        name.pos,
    );
    closing_judged(book, &name.name, closing)
}

//! Modules, judged by all rules.

#![tactic(auto, using(ob_rules::proofs::BookLaws::after_none, ob_rules::proofs::BookLaws::after_joined))]

ghost use Rattle.std.specs.Prelude.{◌≡◌, [], true, IfOk, OnOk, map};
ghost use Rattle.std.specs.Option.{option_map};
ghost use Rattle.ob_cdecl_scopes.specs.Scopes.{around_of};
ghost use Rattle.ob_rules.specs.Books.{book_after};
ghost use Rattle.ob_rules.specs.Types.{is_module_level};
ghost use Rattle.ob_rules.specs.Judged.{least};
ghost use Rattle.ob_rules.specs.Depth as depth;
ghost use Rattle.ob_rules.specs.Declarations as spec;
ghost use Rattle.ob_rules.specs.Declarations.{first_break, checked, deep_of, declaration, module_part};
ghost use Rattle.ob_cdecl.specs.Seen.{contents_of};
ghost use Rattle.ob_cdecl_block.specs.Blocks.{unbound};
ghost use Rattle.ob_cmodule.specs.Wholes.{module_within, module_parts, around_start, checked_as, described_types};

use crate::tree::tree_of;
use ob_cdecl::{Contents, all_described, coming_within, imports_declared, name_judged};
use ob_cdecl_block::block;
use ob_cdecl_bound::is_deep;
use ob_cdecl_scopes::{Imports, Scope};
use ob_cexpr::ExprChecker;
use ob_rules::{Broken, Notebook};
use ob_tree::{Decl, Ident, Import, Module, Stmt};
use ob_types_trees::ModuleTree;
use std::alloc::{AllocError, Global};

/// What a module comes to: the checked module, there exactly where no rule is broken; else the broken
/// rule of least position, and there of least number; and whether the types of the module exceed
/// the limit `depth`.
#[derive(Drop)]
pub struct Checked {
    pub tree: Option<ModuleTree>,
    pub broken: Option<Broken>,
    pub deep: bool,
}

// What stands around a module.
#[tactic(auto, using(crate::proofs::ModuleLaws::starts))]
fn module_scope<'a, E: Imports>(
    alloc: Global,
    unit: &Module,
    imported: &'a E,
) -> Result<Scope<'a, E>, AllocError>
    ensures { IfOk result (λ s. around_of E.types s ≡ around_start (E.types imported.now) unit.now) }
{
    let coming = coming_within(alloc, unit.decls.as_slice())?;
    let mut scope = Scope::of_module(alloc, unit.name.name, imported)?;
    scope.set_coming(coming);
    Ok(scope)
}

// All that is said of the parts of a module, and all that they have.
fn judge_parts<E: Imports>(
    alloc: Global,
    scope: &mut Scope<'_, E>,
    book: &mut Notebook,
    contents: &mut Contents,
    name: &Ident,
    closing: &Ident,
    imports: &[Import],
    decls: &[Decl],
    body: &[Stmt],
) -> Result<(), AllocError>
    requires { is_module_level (around_of E.types scope.old) ≡ true }
    ensures noted { OnOk result (book.new ≡ book_after book.old (module_parts name.now closing.now imports.now decls.now body.now (around_of E.types scope.old)).notes) }
    ensures added { OnOk result (contents_of contents.new ≡ spec.together (contents_of contents.old) (unbound (module_parts name.now closing.now imports.now decls.now body.now (around_of E.types scope.old)).contents)) }
    ensures own { OnOk result ((around_of E.types scope.new).own ≡ (module_parts name.now closing.now imports.now decls.now body.now (around_of E.types scope.old)).contents.bound) }
{
    name_judged(book, name, closing);
    imports_declared(alloc, scope, book, imports)?;
    block(alloc, &ExprChecker, scope, book, contents, decls, body)?;
    Ok(())
}

// All that is said of a module, and all that it has.
fn judge_module<E: Imports>(
    alloc: Global,
    scope: &mut Scope<'_, E>,
    book: &mut Notebook,
    contents: &mut Contents,
    unit: &Module,
) -> Result<(), AllocError>
    requires { is_module_level (around_of E.types scope.old) ≡ true }
    ensures noted { OnOk result (book.new ≡ book_after book.old (module_within unit.now (around_of E.types scope.old)).notes) }
    ensures added { OnOk result (contents_of contents.new ≡ spec.together (contents_of contents.old) (unbound (module_within unit.now (around_of E.types scope.old)).contents)) }
    ensures own { OnOk result ((around_of E.types scope.new).own ≡ (module_within unit.now (around_of E.types scope.old)).contents.bound) }
{
    judge_parts(
        alloc,
        scope,
        book,
        contents,
        &unit.name,
        &unit.closing,
        unit.imports.as_slice(),
        unit.decls.as_slice(),
        unit.body.as_slice(),
    )
}

// What a module comes to, where it is known what stands around it.
fn check_within<E: Imports>(
    alloc: Global,
    scope: &mut Scope<'_, E>,
    unit: &Module,
    imported: &E,
) -> Result<Checked, AllocError>
    requires level { is_module_level (around_of E.types scope.old) ≡ true }
    requires unit { (around_of E.types scope.old).unit ≡ unit.now.name.name }
    requires shown { (around_of E.types scope.old).shown ≡ E.types imported.now }
    ensures tree { IfOk result (λ r. option_map (λ t. t.inner) r.tree ≡ checked_as unit.now (module_within unit.now (around_of E.types scope.old))) }
    ensures broken { IfOk result (λ r. r.broken ≡ least (module_within unit.now (around_of E.types scope.old)).notes.broken) }
    ensures deep { IfOk result (λ r. r.deep ≡ depth.is_deep (record (around_of E.types scope.old) { own = described_types (module_within unit.now (around_of E.types scope.old)) })) }
{
    let mut book = Notebook::new(alloc);
    let mut contents = Contents::new(alloc);
    judge_module(alloc, scope, &mut book, &mut contents, unit)?;
    let types = all_described(alloc, &*scope, contents.types.as_slice())?;
    let deep = is_deep(alloc, unit.name.name, imported, types.as_slice())?;
    let broken = book.broken;
    let tree = tree_of(alloc, unit, types, contents, book)?;
    Ok(Checked { tree, broken, deep })
}

/// A module, judged by all rules, where its imports show what `imported` has.
#[tactic(auto, using(crate::proofs::ModuleLaws::tree_at, crate::proofs::ModuleLaws::broken_at, crate::proofs::ModuleLaws::deep_at, crate::proofs::ModuleLaws::level_at, crate::proofs::ModuleLaws::unit_at, crate::proofs::ModuleLaws::shown_at))]
pub fn check_module<E: Imports>(
    alloc: Global,
    module: &Module,
    imported: &E,
) -> Result<Checked, AllocError>
    ensures tree { IfOk result (λ r. option_map (λ t. t.inner) r.tree ≡ checked (E.types imported.now) «module».now) }
    ensures broken { IfOk result (λ r. r.broken ≡ first_break (E.types imported.now) «module».now) }
    ensures deep { IfOk result (λ r. r.deep ≡ deep_of (E.types imported.now) «module».now.name (map declaration «module».now.decls) (module_part (E.types imported.now) «module».now)) }
{
    let mut scope = module_scope(alloc, module, imported)?;
    let checked = check_within(alloc, &mut scope, module, imported)?;
    Ok(checked)
}

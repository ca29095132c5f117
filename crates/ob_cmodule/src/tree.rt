//! The checked module.

ghost use Rattle.std.specs.Prelude.{◌≡◌, IfOk, List as Listed};
ghost use Rattle.std.specs.Option.{option_map};
ghost use Rattle.ob_rules.specs.declared.broken.Broken.{Broken as Mistake};
ghost use Rattle.ob_rules.specs.Books.{book_after, empty_book};
ghost use Rattle.ob_rules.specs.Judged.{least};
ghost use Rattle.ob_rules.specs.Declarations as spec;
ghost use Rattle.ob_cdecl.specs.Seen.{contents_of};
ghost use Rattle.ob_cdecl_block.specs.Blocks.{unbound};
ghost use Rattle.ob_cmodule.specs.Wholes.{checked_as, described_types, tree_from};

use ob_cdecl::{Contents, imported};
use ob_rules::{Broken, Notebook};
use ob_tree::{List, Module, Name};
use ob_types::TypedType;
use ob_types_trees::ModuleTree;
use std::alloc::{AllocError, Global};

// The tree of a module of that name, with these imports, these types and what else it has; what it
// mentions is in the book.
fn module_tree(
    name: Name,
    imports: List<Name>,
    types: List<TypedType>,
    contents: Contents,
    book: Notebook,
) -> ModuleTree
    ensures { result.inner ≡ tree_from name imports types (contents_of contents) book }
{
    let Contents {
        constants,
        types: _,
        variables,
        procedures,
        body,
    } = contents;
    let Notebook {
        broken: _,
        objects,
        types: named,
        lengths,
        later: _,
    } = book;
    ModuleTree::new(
        name, imports, constants, types, variables, procedures, body, objects, named, lengths,
    )
}

// The tree, where no rule is broken.
#[tactic(auto, using(crate::proofs::ModuleLaws::unbroken, crate::proofs::ModuleLaws::broken_is))]
fn if_unbroken(broken: Option<Broken>, tree: ModuleTree) -> Option<ModuleTree>
    ensures { (all : Listed Mistake) → broken ≡ least all → option_map (λ t. t.inner) result ≡ spec.if_unbroken all tree.inner }
{
    match broken {
        None => Some(tree),
        Some(_) => None,
    }
}

/// The checked module, where no rule is broken: with these types, in place of those that were
/// declared.
pub(crate) fn tree_of(
    alloc: Global,
    unit: &Module,
    types: List<TypedType>,
    contents: Contents,
    book: Notebook,
) -> Result<Option<ModuleTree>, AllocError>
    ensures { (p : spec.Part) → types ≡ described_types p → contents_of contents ≡ unbound p.contents → book ≡ book_after empty_book p.notes → IfOk result (λ r. option_map (λ t. t.inner) r ≡ checked_as unit.now p) }
{
    let imports = imported(alloc, unit.imports.as_slice())?;
    let broken = book.broken;
    let tree = module_tree(unit.name.name, imports, types, contents, book);
    Ok(if_unbroken(broken, tree))
}

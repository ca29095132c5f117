//! The rules of the language, and the layout of a module that keeps them.

ghost use Rattle.std.specs.Prelude.{◌≡◌, Ok, IfOk, IsSome};
ghost use Rattle.std.specs.Option.{option_map};
ghost use Rattle.ob_types.specs.TypedView.{module_view};
ghost use Rattle.ob_rules.specs.Declarations.{checked, first_break};
ghost use Rattle.ob_layout.specs.LaidOut.{laid_out};
ghost use Rattle.ob_env.specs.Faces.{faces_of, described};
ghost use Rattle.ob_env.specs.Shown.{shown};
ghost use Rattle.ob_compile_model.specs.Compiling.{of_faces, unless_deep, is_deep, and_limits, of_break, of_checked, made as made_by, prints};
ghost use Rattle.ob_compile.specs.Steps.{Makes};
ghost use Rattle.ob_compile.specs.Ruled.{IsChecked};

use crate::answers::over_limit;
use crate::limits::measured;
use ob_cmodule::{Checked, check_module};
use ob_compile_model::{CompileFault, CompileRefusal};
use ob_compile_trait::Built;
use ob_env::Env;
use ob_env_shown::{BlankRecords, Shown};
use ob_layout_module::lay_out;
use ob_rules::Broken;
use ob_tree::{Module, Which};
use ob_types_trees::ModuleTree;
use std::alloc::{AllocError, Global};

// A module, judged by the rules over its environment.
fn checked(
    alloc: Global,
    tree: &Module,
    env: &Env,
    records: &BlankRecords,
) -> Result<Checked, AllocError>
    requires { records.now ≡ env.now }
    ensures tree { IfOk result (λ r. option_map (λ t. t.inner) r.tree ≡ checked (shown (faces_of env.now)) tree.now) }
    ensures broken { IfOk result (λ r. r.broken ≡ first_break (shown (faces_of env.now)) tree.now) }
    ensures deep { IfOk result (λ r. r.deep ≡ is_deep (faces_of env.now) tree.now) }
{
    let imported = Shown::new(env, records);
    let checked = check_module(alloc, tree, &imported)?;
    Ok(checked)
}

fn laid(alloc: Global, env: &Env, tree: ModuleTree) -> Result<ModuleTree, AllocError>
    ensures { IfOk result (λ t. module_view t.inner ≡ laid_out (described (faces_of env.now)) (module_view tree.inner)) }
{
    let mut laid = tree;
    lay_out(alloc, env, &mut laid.inner)?;
    Ok(laid)
}

// Lays a checked module out and makes its files.
fn made(alloc: Global, env: &Env, tree: ModuleTree) -> Result<Built, CompileFault>
    ensures { Makes (and_limits prints (Ok (made_by prints (faces_of env.now) (laid_out (described (faces_of env.now)) (module_view tree.inner))))) result }
{
    let Ok(laid) = laid(alloc, env, tree) else {
        return Err(CompileFault::Memory);
    };
    measured(alloc, env, &laid.inner)
}

// Makes the files of a module that breaks no rule.
fn unbroken(alloc: Global, env: &Env, tree: Option<ModuleTree>) -> Result<Built, CompileFault>
    requires { IsSome tree }
    ensures { Makes (and_limits prints (of_checked prints (faces_of env.now) (option_map (λ t. t.inner) tree))) result }
{
    match tree {
        Some(tree) => made(alloc, env, tree),
        None => unreachable!(),
    }
}

fn ruled(
    alloc: Global,
    env: &Env,
    tree: Option<ModuleTree>,
    broken: Option<Broken>,
) -> Result<Built, CompileFault>
    requires { IsChecked broken tree }
    ensures { Makes (and_limits prints (of_break prints (faces_of env.now) (option_map (λ t. t.inner) tree) broken)) result }
{
    match broken {
        Some(broken) => Err(CompileFault::Refused(CompileRefusal::Broken(broken))),
        None => unbroken(alloc, env, tree),
    }
}

// Answers what a module comes to by the rules: the limit `depth`, then the least broken rule.
fn by_rules(alloc: Global, env: &Env, checked: Checked) -> Result<Built, CompileFault>
    requires { IsChecked checked.broken checked.tree }
    ensures { Makes (unless_deep checked.deep (and_limits prints (of_break prints (faces_of env.now) (option_map (λ t. t.inner) checked.tree) checked.broken))) result }
{
    let Checked { tree, broken, deep } = checked;
    if deep {
        return Err(over_limit(Which::Depth));
    }
    ruled(alloc, env, tree, broken)
}

/// Judges a module over its environment, which has these records, and makes its files.
pub fn judged(
    alloc: Global,
    tree: &Module,
    env: &Env,
    records: &BlankRecords,
) -> Result<Built, CompileFault>
    requires { records.now ≡ env.now }
    ensures { Makes (of_faces prints (faces_of env.now) tree.now) result }
{
    let Ok(checked) = checked(alloc, tree, env, records) else {
        return Err(CompileFault::Memory);
    };
    by_rules(alloc, env, checked)
}

//! From the bytes of a source to its tree, and on to the interfaces that it stands on.

ghost use Rattle.std.specs.Prelude.{◌≡◌, ◌≤◌, true, length, map as each, IfOk};
ghost use Rattle.ob_io.specs.Io.{SameFiles};
ghost use Rattle.ob_sym.specs.Grammar.{face as face_form};
ghost use Rattle.ob_parse_grammar.specs.TextReading.{reading};
ghost use Rattle.ob_env.specs.Building.{Builds, stands_as};
ghost use Rattle.ob_env.specs.Found.{CarryPrints};
ghost use Rattle.ob_env_walk.specs.Walk.{symbol_entry, walk as walking};
ghost use Rattle.ob_env_walk.specs.Answer.{after_walk};
ghost use Rattle.ob_env.specs.Faces.{faces_of};
ghost use Rattle.ob_compile_model.specs.Compiling.{of_reading, of_tree, of_reached, of_standing, of_faces, prints, imported};
ghost use Rattle.ob_compile_trait.specs.Contract.{AreFile, Compiles, CompileHasCause};
ghost use Rattle.ob_compile.specs.Steps.{stood, Makes};

use crate::answers::{fault_of_env, fault_of_text, fault_of_walk, over_limit};
use crate::compiler::Compiler;
use crate::held::SourceTree;
use crate::rules::judged;
use ob_compile_model::CompileFault;
use ob_compile_trait::Built;
use ob_env::{Env, EnvFault};
use ob_env_coherent::CoherentEnv;
use ob_env_files::SymbolFile;
use ob_env_shown::BlankRecords;
use ob_env_walk::walk;
use ob_io::Shelf;
use ob_parse_text::read_module;
use ob_tree::{Import, List, Module, Name, Which};
use std::alloc::{AllocError, Global};

/// The most imports of a module.
const MOST_IMPORTS: usize = 64;

// The module that an import names.
fn imported(import: &Import) -> Name
    ensures { result ≡ imported import.now }
{
    match import.target {
        None => import.ident.name,
        Some(target) => target.name,
    }
}

fn all_imported(alloc: Global, imports: &[Import]) -> Result<List<Name>, AllocError>
    ensures { IfOk result (λ l. l ≡ each imported imports.now) }
{
    let mut all = List::new(alloc);
    'imports: for import in imports {
        all.push(imported(import))?;
    }
    Ok(all)
}

// The environment of these interfaces, made from the one of the compile before.
fn environment(
    alloc: Global,
    last: Option<CoherentEnv>,
    faces: List<SymbolFile>,
) -> Result<CoherentEnv, EnvFault>
    requires { CarryPrints faces }
    ensures { Builds faces result }
{
    match last {
        Some(env) => env.renewed(alloc, faces),
        None => CoherentEnv::build(alloc, faces),
    }
}

// Keeps what was made.
fn kept(
    alloc: Global,
    compiler: &mut Compiler,
    made: Result<Built, CompileFault>,
) -> Result<Built, CompileFault>
    ensures { result ≡ made }
{
    if let Ok(built) = &made {
        compiler.keep(alloc, &built.face);
    }
    made
}

// The records of an environment, made from those of the compile before.
fn records(alloc: Global, last: Option<BlankRecords>, env: &Env) -> Result<BlankRecords, AllocError>
    ensures { IfOk result (λ r. r ≡ env.now) }
{
    match last {
        Some(records) => records.renewed(alloc, env.faces()),
        None => BlankRecords::new(alloc).renewed(alloc, env.faces()),
    }
}

// Compiles a module over an environment, and keeps its records.
fn compile_in(
    alloc: Global,
    compiler: &mut Compiler,
    tree: &Module,
    env: &Env,
) -> Result<Built, CompileFault>
    ensures { Makes (of_faces prints (faces_of env.now) tree.now) result }
{
    let Ok(records) = records(alloc, compiler.records.take(), env) else {
        return Err(CompileFault::Memory);
    };
    let made = judged(alloc, tree, env, &records);
    compiler.records = Some(records);
    made
}

// Compiles a module over the interfaces of the modules below it, and keeps their environment and
// what was made.
fn compile_over(
    alloc: Global,
    compiler: &mut Compiler,
    tree: &Module,
    faces: List<SymbolFile>,
) -> Result<Built, CompileFault>
    requires { CarryPrints faces }
    ensures { Makes (of_standing prints tree.now (stands_as faces)) result }
{
    match environment(alloc, compiler.last.take(), faces) {
        Ok(env) => {
            let made = compile_in(alloc, compiler, tree, env.env());
            compiler.last = Some(env);
            kept(alloc, compiler, made)
        }
        Err(fault) => Err(fault_of_env(fault)),
    }
}

// Compiles a module with these imports.
fn compile_with<F: Shelf>(
    alloc: Global,
    folder: &mut F,
    compiler: &mut Compiler,
    tree: &Module,
    imports: &[Name],
) -> Result<Built, CompileFault>
    ensures told { F.tells folder.new ≡ F.tells folder.old }
    ensures files { F.tells folder.old ≡ true → SameFiles (F.files folder.new) (F.files folder.old) }
    ensures compiles { F.tells folder.old ≡ true → Compiles (of_reached prints tree.now (after_walk stood (walking (symbol_entry (F.files folder.old)) tree.now.name.name imports.now))) result }
    ensures fits { IfOk result (λ b. face_form.fits b.face) }
    ensures file { IfOk result (λ b. AreFile b.obj) }
    ensures cause { CompileHasCause (F.faults folder.old) (F.faults folder.new) result }
{
    match walk(
        alloc,
        folder,
        &mut compiler.symbols,
        &tree.name.name,
        imports,
    ) {
        Ok(faces) => compile_over(alloc, compiler, tree, faces),
        Err(stop) => Err(fault_of_walk(stop)),
    }
}

// Compiles a module.
fn compile_tree<F: Shelf>(
    alloc: Global,
    folder: &mut F,
    compiler: &mut Compiler,
    tree: &Module,
) -> Result<Built, CompileFault>
    ensures told { F.tells folder.new ≡ F.tells folder.old }
    ensures files { F.tells folder.old ≡ true → SameFiles (F.files folder.new) (F.files folder.old) }
    ensures compiles { F.tells folder.old ≡ true → Compiles (of_tree prints (symbol_entry (F.files folder.old)) tree.now) result }
    ensures fits { IfOk result (λ b. face_form.fits b.face) }
    ensures file { IfOk result (λ b. AreFile b.obj) }
    ensures cause { CompileHasCause (F.faults folder.old) (F.faults folder.new) result }
{
    if tree.imports.len() > MOST_IMPORTS {
        return Err(over_limit(Which::Imports));
    }
    let listed = tree.imports.as_slice();
    let Ok(imports) = all_imported(alloc, listed) else {
        return Err(CompileFault::Memory);
    };
    compile_with(alloc, folder, compiler, tree, imports.as_slice())
}

/// Compiles the text of a source.
pub fn compile_text<F: Shelf>(
    alloc: Global,
    folder: &mut F,
    compiler: &mut Compiler,
    text: &[u8],
) -> Result<Built, CompileFault>
    requires { length text.now ≤ 1048576 }
    ensures told { F.tells folder.new ≡ F.tells folder.old }
    ensures files { F.tells folder.old ≡ true → SameFiles (F.files folder.new) (F.files folder.old) }
    ensures compiles { F.tells folder.old ≡ true → Compiles (of_reading prints (symbol_entry (F.files folder.old)) (reading text.now)) result }
    ensures fits { IfOk result (λ b. face_form.fits b.face) }
    ensures file { IfOk result (λ b. AreFile b.obj) }
    ensures cause { CompileHasCause (F.faults folder.old) (F.faults folder.new) result }
{
    match read_module(alloc, text) {
        Ok(tree) => {
            let source = SourceTree { tree };
            compile_tree(alloc, folder, compiler, &source.tree)
        }
        Err(fault) => Err(fault_of_text(fault)),
    }
}

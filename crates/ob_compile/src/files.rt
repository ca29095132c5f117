//! The bytes of the two files.

ghost use Rattle.std.specs.Prelude.{◌≡◌, nat_le, length, IfOk, OnOk};
ghost use Rattle.ob_tree.specs.declared.print.Print.{Print as PrintValue};
ghost use Rattle.ob_sym.specs.Grammar.{face as face_form};
ghost use Rattle.ob_obj.specs.Grammar.{file as file_form};
ghost use Rattle.ob_obj_spelling.specs.Prints.{AllHavePrints};
ghost use Rattle.ob_env_walk.specs.Walk.{file_limit};
ghost use Rattle.ob_compile_model.specs.Compiling.{Compiled, within, limit_of_files, object_by, object_bytes, symbol_bytes, interface_by, prints};
ghost use Rattle.ob_compile_trait.specs.Contract.{AreFile};
ghost use Rattle.ob_compile.specs.Steps.{Makes};

use crate::answers::over_limit;
use crate::held::ShownFace;
use ob_compile_model::CompileFault;
use ob_compile_trait::Built;
use ob_env_files::SymbolFile;
use ob_obj::{ObjFile, write_obj};
use ob_obj_spelling::{has_object_file, has_symbol_file};
use ob_sym::write_sym;
use ob_tree::{Text, Which};
use ob_types::Interface;
use std::alloc::{AllocError, Global};

/// The most bytes of a file.
const MOST_BYTES: usize = 16_777_216;

// The bytes of an object file. Whether it has a spelling is asked, and where it had none this would
// answer want of memory. That does not come: what a compile makes has a spelling, by a law of builds
// (`written` of law_headline), on which this code does not stand.
fn object_bytes(alloc: Global, file: &ObjFile) -> Result<Text, AllocError>
    ensures text { IfOk result (λ text. text ≡ file_form.spell file.now) }
    ensures fits { OnOk result (file_form.fits file.now) }
{
    let spelled = has_object_file(alloc, file)?;
    if !spelled {
        return Err(AllocError);
    }
    write_obj(alloc, file)
}

// The bytes of a symbol file. Whether it has a spelling is asked, and where it had none this would
// answer want of memory. That does not come either, by the same law.
fn symbol_bytes(alloc: Global, face: &Interface) -> Result<Text, AllocError>
    requires { AllHavePrints face.now }
    ensures text { IfOk result (λ text. text ≡ face_form.spell face.now) }
    ensures fits { OnOk result (face_form.fits face.now) }
{
    let spelled = has_symbol_file(alloc, face)?;
    if !spelled {
        return Err(AllocError);
    }
    write_sym(alloc, face)
}

fn is_short(bytes: &Text) -> bool
    ensures { result ≡ nat_le (length bytes.now) file_limit }
{
    bytes.len() <= MOST_BYTES
}

// The limit of files, where one of the two exceeds it.
fn limit_of_files(obj: &Text, sym: &Text) -> Option<Which>
    ensures { result ≡ limit_of_files obj.now sym.now }
{
    if !is_short(obj) {
        return Some(Which::File);
    }
    if !is_short(sym) {
        return Some(Which::File);
    }
    None
}

// What is compiled, with the bytes of its two files.
fn built(alloc: Global, shown: ShownFace, obj: Text, sym: Text) -> Result<Built, CompileFault>
    requires face { face_form.fits shown.face }
    requires spelled { sym ≡ face_form.spell shown.face }
    requires file { AreFile obj }
    ensures { (c : Compiled PrintValue) → shown.face ≡ interface_by prints c → obj ≡ object_bytes prints c → sym ≡ symbol_bytes prints c → Makes (within c (limit_of_files (object_bytes prints c) (symbol_bytes prints c))) result }
{
    match limit_of_files(&obj, &sym) {
        Some(which) => Err(over_limit(which)),
        None => {
            let Ok(face) = SymbolFile::of(alloc, sym.as_slice(), shown.into_inner()) else {
                return Err(CompileFault::Memory);
            };
            Ok(Built { face, sym, obj })
        }
    }
}

/// Writes the two files of what is compiled.
pub fn written(alloc: Global, shown: ShownFace, file: &ObjFile) -> Result<Built, CompileFault>
    requires { AllHavePrints shown.face }
    ensures { (c : Compiled PrintValue) → shown.face ≡ interface_by prints c → file.now ≡ object_by prints c → Makes (within c (limit_of_files (object_bytes prints c) (symbol_bytes prints c))) result }
{
    let Ok(obj) = object_bytes(alloc, file) else {
        return Err(CompileFault::Memory);
    };
    let Ok(sym) = symbol_bytes(alloc, &shown.face) else {
        return Err(CompileFault::Memory);
    };
    built(alloc, shown, obj, sym)
}

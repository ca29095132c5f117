//! The names that are known before a module begins.

ghost use Rattle.std.specs.Prelude.{◌≡◌, ◌∷◌, ◌++◌, ◌≤◌, length, OnOk, IfOk};
ghost use Rattle.ob_rules.specs.Names as spec;
ghost use Rattle.ob_cdecl_scopes.specs.Predeclaring as names;

use crate::table::Table;
use ob_rules::{Entity, Known, Predeclared};
use ob_tree::Name;
use ob_types::{Basic, TypeRef, Value};
use std::alloc::{AllocError, Global};

fn add(alloc: Global, known: &mut Table<Known>, name: &[u8], what: Entity) -> Result<(), AllocError>
    requires { length name.now ≤ 64 }
    ensures { OnOk result (known.new ≡ spec.a name.now what ∷ known.old) }
{
    known.push(
        alloc,
        Known {
            name: Name::new(name),
            scope: 0,
            what,
        },
    )
}

fn add_type(
    alloc: Global,
    known: &mut Table<Known>,
    name: &[u8],
    basic: Basic,
) -> Result<(), AllocError>
    requires { length name.now ≤ 64 }
    ensures { OnOk result (known.new ≡ names.a_type name.now basic ∷ known.old) }
{
    add(alloc, known, name, Entity::TypeName(TypeRef::Basic(basic)))
}

fn add_procedure(
    alloc: Global,
    known: &mut Table<Known>,
    name: &[u8],
    procedure: Predeclared,
) -> Result<(), AllocError>
    requires { length name.now ≤ 64 }
    ensures { OnOk result (known.new ≡ names.a_procedure name.now procedure ∷ known.old) }
{
    add(alloc, known, name, Entity::Predeclared(procedure))
}

#[tactic(auto, unfolding(crate::specs::Predeclaring::left_out))]
fn add_left_out(alloc: Global, known: &mut Table<Known>) -> Result<(), AllocError>
    ensures { OnOk result (known.new ≡ names.left_out ++ known.old) }
{
    add(alloc, known, b"SIZE".as_slice(), Entity::LeftOut)?;
    add(alloc, known, b"ENTIER".as_slice(), Entity::LeftOut)?;
    add(alloc, known, b"LONGREAL".as_slice(), Entity::LeftOut)?;
    add(alloc, known, b"REAL".as_slice(), Entity::LeftOut)
}

#[tactic(auto, unfolding(crate::specs::Predeclaring::proper))]
fn add_proper(alloc: Global, known: &mut Table<Known>) -> Result<(), AllocError>
    ensures { OnOk result (known.new ≡ names.proper ++ known.old) }
{
    add_procedure(alloc, known, b"NEW".as_slice(), Predeclared::New)?;
    add_procedure(alloc, known, b"INCL".as_slice(), Predeclared::Incl)?;
    add_procedure(alloc, known, b"INC".as_slice(), Predeclared::Inc)?;
    add_procedure(alloc, known, b"HALT".as_slice(), Predeclared::Halt)?;
    add_procedure(alloc, known, b"EXCL".as_slice(), Predeclared::Excl)?;
    add_procedure(alloc, known, b"DEC".as_slice(), Predeclared::Dec)?;
    add_procedure(alloc, known, b"COPY".as_slice(), Predeclared::Copy)?;
    add_procedure(alloc, known, b"ASSERT".as_slice(), Predeclared::Assert)
}

#[tactic(auto, unfolding(crate::specs::Predeclaring::late_functions))]
fn add_late_functions(alloc: Global, known: &mut Table<Known>) -> Result<(), AllocError>
    ensures { OnOk result (known.new ≡ names.late_functions ++ known.old) }
{
    add_procedure(alloc, known, b"SHORT".as_slice(), Predeclared::Short)?;
    add_procedure(alloc, known, b"ORD".as_slice(), Predeclared::Ord)?;
    add_procedure(alloc, known, b"ODD".as_slice(), Predeclared::Odd)?;
    add_procedure(alloc, known, b"MIN".as_slice(), Predeclared::Min)?;
    add_procedure(alloc, known, b"MAX".as_slice(), Predeclared::Max)
}

#[tactic(auto, unfolding(crate::specs::Predeclaring::early_functions))]
fn add_early_functions(alloc: Global, known: &mut Table<Known>) -> Result<(), AllocError>
    ensures { OnOk result (known.new ≡ names.early_functions ++ known.old) }
{
    add_procedure(alloc, known, b"LONG".as_slice(), Predeclared::Long)?;
    add_procedure(alloc, known, b"LEN".as_slice(), Predeclared::Len)?;
    add_procedure(alloc, known, b"CHR".as_slice(), Predeclared::Chr)?;
    add_procedure(alloc, known, b"CAP".as_slice(), Predeclared::Cap)?;
    add_procedure(alloc, known, b"ASH".as_slice(), Predeclared::Ash)?;
    add_procedure(alloc, known, b"ABS".as_slice(), Predeclared::Abs)
}

#[tactic(auto, unfolding(crate::specs::Predeclaring::constants))]
fn add_constants(alloc: Global, known: &mut Table<Known>) -> Result<(), AllocError>
    ensures { OnOk result (known.new ≡ names.constants ++ known.old) }
{
    add(
        alloc,
        known,
        b"FALSE".as_slice(),
        Entity::Constant(Value::Bool(false)),
    )?;
    add(
        alloc,
        known,
        b"TRUE".as_slice(),
        Entity::Constant(Value::Bool(true)),
    )
}

#[tactic(auto, unfolding(crate::specs::Predeclaring::types))]
fn add_types(alloc: Global, known: &mut Table<Known>) -> Result<(), AllocError>
    ensures { OnOk result (known.new ≡ names.types ++ known.old) }
{
    add_type(alloc, known, b"SET".as_slice(), Basic::Set)?;
    add_type(alloc, known, b"LONGINT".as_slice(), Basic::LongInt)?;
    add_type(alloc, known, b"INTEGER".as_slice(), Basic::Integer)?;
    add_type(alloc, known, b"SHORTINT".as_slice(), Basic::ShortInt)?;
    add_type(alloc, known, b"CHAR".as_slice(), Basic::Char)?;
    add_type(alloc, known, b"BOOLEAN".as_slice(), Basic::Boolean)
}

/// The predeclared names.
#[tactic(auto, using(crate::proofs::Predeclaring::all_of_them))]
pub(crate) fn predeclared(alloc: Global) -> Result<Table<Known>, AllocError>
    ensures { IfOk result (λ t. t ≡ names.predeclared_names) }
{
    let mut known = Table::new(alloc);
    add_left_out(alloc, &mut known)?;
    add_proper(alloc, &mut known)?;
    add_late_functions(alloc, &mut known)?;
    add_early_functions(alloc, &mut known)?;
    add_constants(alloc, &mut known)?;
    add_types(alloc, &mut known)?;
    Ok(known)
}

//! What was left for later of fields.

#![tactic(auto, using(ob_rules::proofs::BookLaws::after_none, ob_rules::proofs::BookLaws::after_joined))]

ghost use Rattle.std.specs.Prelude.{◌≡◌, IfOk, OnOk};
ghost use Rattle.std.specs.Option.{option_copied, option_map};
ghost use Rattle.ob_cexpr_name.specs.Members.{member_seen};
ghost use Rattle.ob_rules.specs.Books.{book_after};
ghost use Rattle.ob_rules.specs.Declarations as spec;
ghost use Rattle.ob_rules.specs.Headings.{is_method as names_method, member_of};
ghost use Rattle.ob_rules.specs.Shapes.{record_of as record_at};

use ob_cexpr_name::{Member, find_member, record_of};
use ob_rules::{Later, Notebook, Rule};
use ob_tree::{Ident, Name, QName};
use ob_types::{TypeRef, Types};
use std::alloc::{AllocError, Global};

fn is_method(member: &Option<Member>) -> bool
    ensures { result ≡ names_method (option_map member_seen member.now) }
{
    match member {
        None => false,
        Some(Member::Field(_, _)) => false,
        Some(Member::Method(_, _)) => true,
    }
}

fn member_in<T: Types>(
    alloc: Global,
    types: &T,
    owner: Option<&QName>,
    name: &Name,
) -> Result<Option<Member>, AllocError>
    ensures { IfOk result (λ r. option_map member_seen r ≡ member_of (T.types types.now) (option_copied owner.entry) name.now) }
{
    match owner {
        None => Ok(None),
        Some(owner) => find_member(alloc, types, owner, name),
    }
}

fn inherits_method<T: Types>(
    alloc: Global,
    types: &T,
    field: &Ident,
    base: &TypeRef,
) -> Result<bool, AllocError>
    ensures { IfOk result (λ r. r ≡ names_method (member_of (T.types types.now) (record_at (T.types types.now) base.now) field.now.name)) }
{
    let member = member_in(alloc, types, record_of(types, base), &field.name)?;
    Ok(is_method(&member))
}

fn field_judged<T: Types>(
    alloc: Global,
    types: &T,
    book: &mut Notebook,
    left: &Later,
) -> Result<(), AllocError>
    ensures { OnOk result (book.new ≡ book_after book.old (spec.field_judged (T.types types.now) left.now)) }
{
    match left {
        Later::PointsTo {
            pointer: _,
            at: _,
            base: _,
            inline: _,
        } => Ok(()),
        Later::Inherits { field, base } => {
            let broken = inherits_method(alloc, types, field, base)?;
            book.breaks_if(broken, Rule::DeclaredTwice, field.pos);
            Ok(())
        }
    }
}

/// Rule 1 of the fields that were left for later, where the types have the bound procedures that they
/// introduce.
pub fn fields_judged<T: Types>(
    alloc: Global,
    types: &T,
    book: &mut Notebook,
    left: &[Later],
) -> Result<(), AllocError>
    ensures { OnOk result (book.new ≡ book_after book.old (spec.all_judged (spec.field_judged (T.types types.now)) left.now)) }
{
    'left: for one in left {
        field_judged(alloc, types, book, one)?;
    }
    Ok(())
}

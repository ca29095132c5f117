//! One test for all types that an object names.

ghost use Rattle.std.specs.Prelude.{◌≡◌, map as each, Bool};
ghost use Rattle.std.specs.List.{list_all, flat_map};
ghost use Rattle.ob_types.specs.declared.types.TypeRef.{TypeRef};
ghost use Rattle.ob_types.specs.Maps.{listed, signature_types, stands_on, named_by};

use ob_types::{Desc, Field, Method, Mode, RecordDesc, Signature, TypeRef};

/// A test of types.
pub trait Test {
    ghost passes: { Self → TypeRef → Bool };

    /// Whether the type passes.
    fn test(&self, t: &TypeRef) -> bool
        ensures { result ≡ passes self.now t.now };
}

fn all_of_params<P: Test>(p: &P, params: &[(Mode, TypeRef)]) -> bool
    ensures { result ≡ list_all (P.passes p.now) (each (λ x. x.1) params.now) }
{
    let mut rest = params;
    while let [first, more @ ..] = rest {
        if !p.test(&first.1) {
            return false;
        }
        rest = more;
    }
    true
}

#[tactic(auto, using(crate::proofs::Alls::all_append, crate::proofs::Alls::all_one))]
fn all_of_listed<P: Test>(p: &P, t: &Option<TypeRef>) -> bool
    ensures { result ≡ list_all (P.passes p.now) (listed t.now) }
{
    match t {
        None => true,
        Some(of) => p.test(of),
    }
}

#[tactic(auto, using(crate::proofs::Alls::all_append))]
fn all_of_signature<P: Test>(p: &P, s: &Signature) -> bool
    ensures { result ≡ list_all (P.passes p.now) (signature_types s.now) }
{
    all_of_params(p, s.params.as_slice()) && all_of_listed(p, &s.result)
}

fn all_of_fields<P: Test>(p: &P, fields: &[Field]) -> bool
    ensures { result ≡ list_all (P.passes p.now) (each (λ f. f.of) fields.now) }
{
    let mut rest = fields;
    while let [first, more @ ..] = rest {
        if !p.test(&first.of) {
            return false;
        }
        rest = more;
    }
    true
}

#[tactic(auto, using(crate::proofs::Alls::all_append, crate::proofs::Alls::all_one))]
fn all_of_methods<P: Test>(p: &P, methods: &[Method]) -> bool
    ensures { result ≡ list_all (P.passes p.now) (flat_map (λ m. signature_types m.signature) methods.now) }
{
    let mut rest = methods;
    while let [first, more @ ..] = rest {
        if !all_of_signature(p, &first.signature) {
            return false;
        }
        rest = more;
    }
    true
}

// The base and the fields.
#[tactic(auto, using(crate::proofs::Alls::all_append, crate::proofs::Alls::all_one))]
fn all_of_record<P: Test>(p: &P, r: &RecordDesc) -> bool
    ensures { result ≡ list_all (P.passes p.now) (stands_on (Desc.Record r.now)) }
{
    all_of_listed(p, &r.base) && all_of_fields(p, r.fields.as_slice())
}

#[tactic(auto, using(crate::proofs::Alls::all_append, crate::proofs::Alls::all_one))]
/// Whether all types pass on which a type stands.
pub fn all_stood_on<P: Test>(p: &P, desc: &Desc) -> bool
    ensures { result ≡ list_all (P.passes p.now) (stands_on desc.now) }
{
    match desc {
        Desc::Const(_) => true,
        Desc::Var(_, _) => true,
        Desc::Proc(_) => true,
        Desc::Alias(_, of) => p.test(of),
        Desc::Array(_, _, of) => p.test(of),
        Desc::OpenArray(_, of) => p.test(of),
        Desc::Pointer(_, _) => true,
        Desc::ProcType(_, signature) => all_of_signature(p, signature),
        Desc::Record(record) => all_of_record(p, record),
    }
}

#[tactic(auto, using(crate::proofs::Alls::all_append, crate::proofs::Alls::all_one))]
/// Whether all types pass that a description names.
pub fn all_named<P: Test>(p: &P, desc: &Desc) -> bool
    ensures { result ≡ list_all (P.passes p.now) (named_by desc.now) }
{
    match desc {
        Desc::Const(_) => true,
        Desc::Var(_, of) => p.test(of),
        Desc::Proc(signature) => all_of_signature(p, signature),
        Desc::Alias(_, of) => p.test(of),
        Desc::Array(_, _, of) => p.test(of),
        Desc::OpenArray(_, of) => p.test(of),
        Desc::Pointer(_, of) => p.test(of),
        Desc::ProcType(_, signature) => all_of_signature(p, signature),
        Desc::Record(record) => {
            all_of_record(p, record) && all_of_methods(p, record.methods.as_slice())
        }
    }
}

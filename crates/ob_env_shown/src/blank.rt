//! Records of interfaces without their places.

ghost use Rattle.std.specs.Prelude.{◌≡◌, ◌++◌, [], IfOk, OnOk, map};
ghost use Rattle.ob_env.specs.Shown.{blank, unplaced, unnumbered};
ghost use Rattle.ob_env_shown.specs.Faces.{blank_of, blanks_from, rows_of};

use ob_env_coherent::faces_behind;
use ob_env_files::SymbolFile;
use ob_tree::List;
use ob_types::{Desc, Field, Method, Object, RecordDesc, TypeRef};
use ob_types_trees::{copy_method, copy_type};
use std::alloc::{AllocError, Global};
use std::marker::Model;

fn unplaced(field: &Field) -> Result<Field, AllocError>
    ensures { IfOk result (λ f. f ≡ unplaced field.now) }
{
    let of = copy_type(&field.of)?;
    Ok(Field {
        name: field.name,
        mark: field.mark,
        place: 0,
        of,
    })
}

fn unnumbered(alloc: Global, method: &Method) -> Result<Method, AllocError>
    ensures { IfOk result (λ m. m ≡ unnumbered method.now) }
{
    let mut copy = copy_method(alloc, method)?;
    copy.number = 0;
    Ok(copy)
}

fn all_unplaced(alloc: Global, fields: &[Field]) -> Result<List<Field>, AllocError>
    ensures { IfOk result (λ l. l ≡ map unplaced fields.now) }
{
    let mut all = List::new(alloc);
    'fields: for field in fields {
        let one = unplaced(field)?;
        all.push(one)?;
    }
    Ok(all)
}

fn all_unnumbered(alloc: Global, methods: &[Method]) -> Result<List<Method>, AllocError>
    ensures { IfOk result (λ l. l ≡ map unnumbered methods.now) }
{
    let mut all = List::new(alloc);
    'methods: for method in methods {
        let one = unnumbered(alloc, method)?;
        all.push(one)?;
    }
    Ok(all)
}

fn copy_base(base: &Option<TypeRef>) -> Result<Option<TypeRef>, AllocError>
    ensures { IfOk result (λ b. b ≡ base.now) }
{
    match base {
        None => Ok(None),
        Some(t) => {
            let t = copy_type(t)?;
            Ok(Some(t))
        }
    }
}

fn blank_record(alloc: Global, described: &RecordDesc) -> Result<Desc, AllocError>
    ensures { IfOk result (λ d. d ≡ blank (Desc.Record described.now)) }
{
    let base = copy_base(&described.base)?;
    let fields = all_unplaced(alloc, described.fields.as_slice())?;
    let methods = all_unnumbered(alloc, described.methods.as_slice())?;
    Ok(Desc::Record(RecordDesc {
        mark: described.mark,
        base,
        fields,
        methods,
        words: 0,
        procedures: 0,
    }))
}

/// A record without places, numbers and words, and the position of its object in its interface.
#[derive(Drop)]
pub struct BlankRecord {
    pub at: usize,
    pub desc: Desc,
}

// Puts the record of the object at a position behind others; nothing of what is no record.
fn put_blank(
    alloc: Global,
    blanks: &mut List<BlankRecord>,
    at: usize,
    desc: &Desc,
) -> Result<(), AllocError>
    ensures { OnOk result (blanks.new ≡ blanks.old ++ blank_of at desc.now) }
{
    match desc {
        Desc::Record(described) => {
            let desc = blank_record(alloc, described)?;
            blanks.push(BlankRecord { at, desc })
        }
        Desc::Const(_)
        | Desc::Var(..)
        | Desc::Proc(_)
        | Desc::Alias(..)
        | Desc::Array(..)
        | Desc::OpenArray(..)
        | Desc::Pointer(..)
        | Desc::ProcType(..) => Ok(()),
    }
}

// The records among objects.
#[tactic(auto, using(crate::proofs::Rows::blanks_more))]
fn blank_row(alloc: Global, objects: &[Object]) -> Result<List<BlankRecord>, AllocError>
    ensures { IfOk result (λ l. l ≡ blanks_from 0 objects.now) }
{
    let mut blanks = List::new(alloc);
    let mut at = 0;
    let mut rest = objects;
    while let [first, more @ ..] = rest {
        put_blank(alloc, &mut blanks, at, &first.desc)?;
        at += 1;
        rest = more;
    }
    Ok(blanks)
}

// The records of interfaces, each interface by itself.
fn blank_rows(alloc: Global, faces: &[SymbolFile]) -> Result<List<List<BlankRecord>>, AllocError>
    ensures { IfOk result (λ l. l ≡ rows_of faces.now) }
{
    let mut all = List::new(alloc);
    'faces: for face in faces {
        let one = blank_row(alloc, face.objects())?;
        all.push(one)?;
    }
    Ok(all)
}

// Interfaces once more.
fn copy_faces(alloc: Global, faces: &[SymbolFile]) -> Result<List<SymbolFile>, AllocError>
    ensures { IfOk result (λ l. l ≡ faces.now) }
{
    let mut all = List::new(alloc);
    'faces: for face in faces {
        let one = face.clone()?;
        all.push(one)?;
    }
    Ok(all)
}

/// The records of interfaces, without places, numbers and words. Contracts see it as the list of
/// the interfaces.
pub struct BlankRecords {
    faces: List<SymbolFile>,
    rows: List<List<BlankRecord>>,
}

impl Model for BlankRecords {
    ghost use Rattle.std.specs.Prelude.{◌≡◌, List as Listed};
    ghost use Rattle.ob_types.specs.declared.face.Interface.{Interface as Face};
    ghost use Rattle.ob_env_shown.specs.Faces.{rows_of};

    ghost Value = { Listed Face };

    ghost view = { λ b. b.faces };

    ghost invariant = { λ b. b.rows ≡ rows_of b.faces };
}

impl Drop for BlankRecords {
    fn drop(self) {
        let BlankRecords { faces: _, rows: _ } = self;
    }
}

impl BlankRecords {
    /// Those of no interfaces. Takes no memory.
    pub fn new(alloc: Global) -> BlankRecords
        ensures { result ≡ [] }
    {
        BlankRecords {
            faces: List::new(alloc),
            rows: List::new(alloc),
        }
    }

    // With those of more interfaces.
    #[tactic(auto, using(crate::proofs::Rows::rows_behind))]
    fn grown(self, alloc: Global, more: &[SymbolFile]) -> Result<BlankRecords, AllocError>
        ensures { IfOk result (λ b. b ≡ self ++ more.now) }
    {
        let BlankRecords { faces, rows } = self;
        let mut faces = faces;
        let mut rows = rows;
        let copies = copy_faces(alloc, more)?;
        let blanks = blank_rows(alloc, more)?;
        faces.append(copies)?;
        rows.append(blanks)?;
        Ok(BlankRecords { faces, rows })
    }

    /// Those of these interfaces, in the place of others, whichever they are. Where those come
    /// first, only what is behind them is gone through.
    pub fn renewed(self, alloc: Global, faces: &[SymbolFile]) -> Result<BlankRecords, AllocError>
        ensures { IfOk result (λ b. b ≡ faces.now) }
    {
        match faces_behind(faces, self.faces.as_slice()) {
            Some(more) => self.grown(alloc, more),
            None => BlankRecords::new(alloc).grown(alloc, faces),
        }
    }

    /// The records, each interface by itself.
    pub(crate) fn rows(&self) -> &[List<BlankRecord>]
        ensures { result.now ≡ rows_of self.now }
    {
        self.rows.as_slice()
    }
}

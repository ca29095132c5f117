//! Why a compile ends without files.

use ob_rules::Broken;
use ob_tree::{Name, Pos, Print, QName, Which};
use ob_types::Aspect;

/// Why a compile is refused.
#[derive(Drop)]
pub enum CompileRefusal {
    /// The folder has no such file.
    NoSource,
    /// The file has more than 1,048,576 bytes.
    Long,
    /// No symbol of the vocabulary begins here.
    Symbol(Pos),
    /// A real number begins here.
    Real(Pos),
    /// An identifier of more than 64 characters begins here.
    LongName(Pos),
    /// No module goes on with the token that stands here.
    Syntax(Pos),
    /// The token that stands here is inside more than 200 nested phrases.
    TooDeep(Pos),
    /// The least broken rule: first by position, then by number.
    Broken(Broken),
    /// The module has no symbol file.
    NoInterface(Name),
    /// The module's symbol file is too long, none, or that of another module.
    Damaged(Name),
    /// The module imports one that imports it, through others or itself.
    Cycle(Name),
    /// A client was compiled against an object that is no longer there.
    Absent {
        client: Name,
        object: QName,
    },
    /// A client was compiled against another print of the object.
    Changed {
        client: Name,
        object: QName,
        aspect: Aspect,
        wanted: Print,
        found: Print,
    },
    /// The object does not fit together with the others.
    Unfit(QName),
    Limit(Which),
}

/// Why nothing was compiled.
#[derive(Drop)]
pub enum CompileFault {
    Refused(CompileRefusal),
    /// The folder failed, and its count of faults rose.
    Folder,
    /// Memory was wanting. It says nothing of the source.
    Memory,
}

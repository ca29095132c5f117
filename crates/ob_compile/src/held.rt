//! What a compile holds for a while, each behind a struct that lets it go.

ghost use Rattle.std.specs.Prelude.{◌≡◌};

use ob_obj::ObjFile;
use ob_tree::Module;
use ob_types::Interface;

/// The tree of a source.
pub struct SourceTree {
    pub tree: Module,
}

impl Drop for SourceTree {
    fn drop(self) {
        let SourceTree { tree: _ } = self;
    }
}

/// The object file of a module.
pub struct ObjectFile {
    pub file: ObjFile,
}

impl Drop for ObjectFile {
    fn drop(self) {
        let ObjectFile { file: _ } = self;
    }
}

/// The interface of a module.
pub struct ShownFace {
    pub face: Interface,
}

impl Drop for ShownFace {
    fn drop(self) {
        let ShownFace { face: _ } = self;
    }
}

impl ShownFace {
    pub fn into_inner(self) -> Interface
        ensures { result ≡ self.face }
    {
        let ShownFace { face } = self;
        face
    }
}

//! Why interfaces do not stand together.

use ob_tree::{Name, Print, QName};
use ob_types::Aspect;
use thiserror::Error;

/// Why interfaces do not stand together: the first use that is not met, by the walk's order and
/// then by the client's, or else the first object that does not fit, by the walk's order and then
/// by name.
#[derive(Debug, Drop, Error)]
pub enum EnvFault {
    /// No module of the walk has the object with the aspect that the client uses.
    #[error("absent")]
    Absent {
        client: Name,
        object: QName,
    },
    /// The client was compiled against another print of the object.
    #[error("changed")]
    Changed {
        client: Name,
        object: QName,
        aspect: Aspect,
        wanted: Print,
        found: Print,
    },
    /// The object does not fit together with the others.
    #[error("unfit")]
    Unfit {
        object: QName,
    },
    /// Memory was wanting. It says nothing of the interfaces.
    #[error("no memory")]
    Memory,
}

//! What is read, and written again.

use ob_desc::{read_desc, write_desc};
use ob_obj::{ObjFault, read_obj, write_obj};
use ob_sym::{SymFault, read_sym, write_sym};
use ob_types::{Aspect, Desc};
use std::alloc::Global;

/// What reading and writing again come to.
#[derive(Clone, Copy, PartialEq, Eq)]
pub enum Answer {
    /// It is none.
    Refused,
    /// It is read, and written to the same bytes; of a file, none of its proper fronts is one.
    Same,
    /// It is read, and other bytes are written.
    Other,
    /// It is a file, and one of its proper fronts is read too.
    Front,
}

impl Answer {
    /// The answer in words.
    pub fn said(self) -> &'static str {
        match self {
            Answer::Refused => "refused",
            Answer::Same => "the same again",
            Answer::Other => "other bytes",
            Answer::Front => "a front of it is read",
        }
    }
}

/// Of the text of a description, and of a layout.
pub fn description(alloc: Global, shape: &str, layout: Option<&str>) -> anyhow::Result<Answer> {
    let wanted = match layout {
        None => None,
        Some(text) => Some(text.as_bytes()),
    };
    let Some((name, desc)) = read_desc(alloc, shape.as_bytes(), wanted)? else {
        return Ok(Answer::Refused);
    };
    let module = name.module.name();
    let again = write_desc(alloc, &module, &name.object, &desc, Aspect::Shape)?;
    if again.as_slice() != shape.as_bytes() {
        return Ok(Answer::Other);
    }
    let is_same = match (desc, wanted) {
        (Desc::Record(record), Some(text)) => {
            let desc = Desc::Record(record);
            let again = write_desc(alloc, &module, &name.object, &desc, Aspect::Layout)?;
            again.as_slice() == text
        }
        (Desc::Record(_), None) => false,
        (_, text) => text.is_none(),
    };
    if is_same {
        Ok(Answer::Same)
    } else {
        Ok(Answer::Other)
    }
}

/// Of a symbol file.
pub fn symbols(alloc: Global, bytes: &[u8]) -> anyhow::Result<Answer> {
    let face = match read_sym(alloc, bytes) {
        Ok(face) => face,
        Err(SymFault::Damaged) => return Ok(Answer::Refused),
        Err(fault) => return Err(fault.into()),
    };
    let again = write_sym(alloc, &face)?;
    if again.as_slice() != bytes {
        return Ok(Answer::Other);
    }
    for count in 0..bytes.len() {
        let Err(SymFault::Damaged) = read_sym(alloc, &bytes[..count]) else {
            return Ok(Answer::Front);
        };
    }
    Ok(Answer::Same)
}

/// Of an object file.
pub fn object(alloc: Global, bytes: &[u8]) -> anyhow::Result<Answer> {
    let file = match read_obj(alloc, bytes) {
        Ok(file) => file,
        Err(ObjFault::Damaged) => return Ok(Answer::Refused),
        Err(fault) => return Err(fault.into()),
    };
    let again = write_obj(alloc, &file)?;
    if again.as_slice() != bytes {
        return Ok(Answer::Other);
    }
    for count in 0..bytes.len() {
        let Err(ObjFault::Damaged) = read_obj(alloc, &bytes[..count]) else {
            return Ok(Answer::Front);
        };
    }
    Ok(Answer::Same)
}

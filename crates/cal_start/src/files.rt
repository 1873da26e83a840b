//! The files that were read.
ghost use Rattle.std.specs.Prelude.{◌≡◌, ◌∷◌, [], ◌++◌, ◌<◌, OnOk, vec_len, vec_capacity};

use cal_outside::Word;
use cal_value::{List, NoMemory};

/// A file that was read to its end.
#[derive(Debug, Drop)]
pub struct FileRead {
    pub name: Word,
    pub bytes: List<u8>,
}

/// Makes room for one file more.
pub(crate) fn make_room(files: &mut Vec<FileRead>) -> Result<(), NoMemory>
    ensures same { files.new.items ≡ files.old.items }
    ensures room { OnOk result (vec_len files.new < vec_capacity files.new) }
{
    files.reserve(1)?;
    Ok(())
}

/// Puts a file behind the others, where there is room. Takes no memory.
pub(crate) fn keep(files: &mut Vec<FileRead>, file: FileRead)
    requires { vec_len files.old < vec_capacity files.old }
    ensures { files.new.items ≡ files.old.items ++ file ∷ [] }
{
    let _ = files.push(file);
}

ghost use Rattle.cal_outside.specs.Store.{IsLater};
ghost use Rattle.cal_outside.specs.Whole.{ReadAllSays};

use crate::{Got, Store};
use cal_value::List;
use std::alloc::Global;
use thiserror::Error;

/// Why a file wasn't read whole.
#[derive(Clone, Copy, Debug, PartialEq, Eq, Error)]
pub enum ReadAllFault {
    #[error("a read failed")]
    ReadFault,
    #[error("the file has more than {limit} bytes")]
    TooBig { limit: u64 },
    #[error("out of memory")]
    NoMemory,
}

/// The whole file, if it has at most `limit` bytes. It reads at most `limit + 65,536` bytes.
pub fn read_all<S: Store>(
    alloc: Global,
    store: &mut S,
    name: &str,
    limit: u64,
) -> Result<List<u8>, ReadAllFault>
    ensures later { IsLater (S.state store.old) (S.state store.new) }
    ensures says { ReadAllSays (S.state store.old) (S.state store.new) name.now limit result }
{
    let mut bytes = Vec::new(alloc);
    let mut buffer = [0u8; 65536];
    'turns: loop {
        match store.read(name, bytes.len() as u64, &mut buffer) {
            Got::Bytes(count) => {
                if count > limit - bytes.len() as u64 {
                    return Err(ReadAllFault::TooBig { limit });
                }
                if bytes.extend_from_slice(&buffer[..count as usize]).is_err() {
                    return Err(ReadAllFault::NoMemory);
                }
            }
            Got::End => return Ok(List::from_vec(bytes)),
            Got::Failed => return Err(ReadAllFault::ReadFault),
        }
    }
}

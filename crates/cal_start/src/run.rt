ghost use Rattle.std.specs.Prelude.{◌≡◌, ◌≤◌, [], IfOk, Some, Ok};
ghost use Rattle.cal_schema.specs.Fits.{Fits};
ghost use Rattle.cal_schema.specs.Valid.{IsValidSchema};
ghost use Rattle.model_json.specs.ModelOf.{IsWalked};
ghost use Rattle.serde_json.specs.View.{view};
ghost use Rattle.cal_outside.specs.Store.{IsLater};
ghost use Rattle.cal_start.specs.Ends.{AreRead, EndCause, KeepsEach};
ghost use Rattle.cal_start.specs.Next.{initial_of, next_of};
ghost use Rattle.cal_start.specs.Parts.{ModelSays, TablesSay, Ended};

use crate::fault::{StartFault, model_fault};
use crate::files::{FileRead, keep, make_room};
use crate::header::read_headers;
use crate::rows::all_rows;
use cal_outside::{ReadAllFault, Store, Word, read_all};
use cal_schema::{Db, Schema};
use cal_value::{Duplicate, List, MODEL_LIMIT};
use model_json::{Model, ModelDoc, read_model, resolve};
use std::alloc::Global;

/// The tables of a run, and their rows.
#[derive(Debug, Drop)]
pub struct Started {
    pub schema: Schema,
    pub db: Db,
}

/// The files that were read to their ends, in order, and what they give.
#[derive(Debug, Drop)]
pub struct StartRecord {
    pub files: List<FileRead>,
    pub outcome: Result<Started, StartFault>,
}

// Reads the model.
fn start_model<S: Store>(
    alloc: Global,
    model: &Word,
    store: &mut S,
    files: &mut Vec<FileRead>,
) -> Result<ModelDoc, StartFault>
    requires { files.old.items ≡ [] }
    ensures later { IsLater (S.state store.old) (S.state store.new) }
    ensures each { KeepsEach (S.state store.old) (S.state store.new) files.old.items files.new.items }
    ensures says { ModelSays (S.state store.old) (S.state store.new)
        model.now files.new.items result }
{
    let name = model.copy(alloc)?;
    make_room(files)?;
    match read_all(alloc, store, model.as_str(), MODEL_LIMIT) {
        Ok(bytes) => {
            let read = read_model(alloc, bytes.as_slice());
            keep(files, FileRead { name, bytes });
            Ok(read?)
        }
        Err(ReadAllFault::TooBig { limit }) => Err(StartFault::TooBig { limit }),
        Err(ReadAllFault::ReadFault) => Err(StartFault::ReadFault),
        Err(ReadAllFault::NoMemory) => Err(StartFault::NoMemory),
    }
}

// Reads the files of the tables, and gives the tables with their rows.
fn start_tables<S: Store>(
    alloc: Global,
    doc: ModelDoc,
    store: &mut S,
    files: &mut Vec<FileRead>,
) -> Result<Started, StartFault>
    requires { IsWalked doc }
    ensures later { IsLater (S.state store.old) (S.state store.new) }
    ensures each { KeepsEach (S.state store.old) (S.state store.new) files.old.items files.new.items }
    ensures valid { IfOk result (λ started. IsValidSchema started.schema) }
    ensures fits { IfOk result (λ started. Fits started.db started.schema) }
    ensures says { TablesSay (S.state store.old) (S.state store.new)
        (view doc.json) files.old.items files.new.items result }
{
    let first = files.len();
    let headers = match read_headers(alloc, &doc, store, files) {
        Ok(headers) => headers,
        Err(fault) => return Err(fault),
    };
    let Model { schema, inline } = match resolve(alloc, doc, &headers) {
        Ok(model) => model,
        Err(fault) => return Err(model_fault(fault)),
    };
    match all_rows(
        alloc,
        schema.tables.as_slice(),
        inline,
        &files.as_slice()[first..],
    ) {
        Ok(tables) => Ok(Started {
            schema,
            db: Db { tables },
        }),
        Err(fault) => Err(fault),
    }
}

fn start_into<S: Store>(
    alloc: Global,
    model: &Word,
    store: &mut S,
    files: &mut Vec<FileRead>,
) -> Result<Started, StartFault>
    requires { files.old.items ≡ [] }
    ensures later { IsLater (S.state store.old) (S.state store.new) }
    ensures each { KeepsEach (S.state store.old) (S.state store.new) files.old.items files.new.items }
    ensures valid { IfOk result (λ started. IsValidSchema started.schema) }
    ensures fits { IfOk result (λ started. Fits started.db started.schema) }
    ensures ended { Ended (S.state store.old) (S.state store.new)
        model.now files.new.items result }
{
    let doc = start_model(alloc, model, store, files)?;
    start_tables(alloc, doc, store, files)
}

/// Reads the model, and the file of each table that has one, and gives the tables with their rows. The first fault stops it,
/// in this order: the model; each table's file, in the order of the tables, with its header; names and keys; the rows of
/// each table.
pub fn start<S: Store>(alloc: Global, model: &Word, store: &mut S) -> StartRecord
    ensures later { IsLater (S.state store.old) (S.state store.new) }
    ensures each { KeepsEach (S.state store.old) (S.state store.new) [] result.files }
    ensures read { AreRead (S.state store.old) (next_of model.now) result.files }
    ensures cause { EndCause (S.state store.old) (S.state store.new)
        (next_of model.now result.files) result.outcome }
    ensures initial { IfOk result.outcome (λ started. initial_of model.now result.files ≡ Some (Ok started)) }
    ensures valid { IfOk result.outcome (λ started. IsValidSchema started.schema) }
    ensures fits { IfOk result.outcome (λ started. Fits started.db started.schema) }
{
    let mut files = Vec::new(alloc);
    let outcome = start_into(alloc, model, store, &mut files);
    StartRecord {
        files: List::from_vec(files),
        outcome,
    }
}

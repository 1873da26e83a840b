//! The tables of a model, with the files that they are read from.
ghost use Rattle.std.specs.Prelude.{◌≡◌, IfOk, map};
ghost use Rattle.serde_json.specs.View.{view};
ghost use Rattle.model_json.specs.ModelOf.{IsWalked};
ghost use Rattle.model_json.specs.Sources.{source_of, sources_of};

use crate::draft::Draft;
use crate::model::ModelDoc;
use cal_value::{Duplicate, List, NoMemory, SqlText};
use std::alloc::Global;

/// A table of a model by its names. `file` is the name of the file that it is read from, and None where its rows stand in
/// the model.
#[derive(Debug, Drop)]
pub struct TableSource {
    pub schema: SqlText,
    pub name: SqlText,
    pub file: Option<SqlText>,
}

fn source(alloc: Global, draft: &Draft) -> Result<TableSource, NoMemory>
    ensures { IfOk result (λ source. source ≡ source_of draft.now) }
{
    let schema = draft.table.schema.copy(alloc)?;
    let name = draft.table.name.copy(alloc)?;
    match &draft.rows {
        Some(_) => Ok(TableSource {
            schema,
            name,
            file: None,
        }),
        None => {
            let file = draft.table.file.copy(alloc)?;
            Ok(TableSource {
                schema,
                name,
                file: Some(file),
            })
        }
    }
}

fn each_source(alloc: Global, drafts: &List<Draft>) -> Result<List<TableSource>, NoMemory>
    ensures { IfOk result (λ all. all ≡ map source_of drafts.now) }
{
    let mut all = List::new(alloc);
    for draft in drafts.as_slice() {
        all.push(source(alloc, draft)?)?;
    }
    Ok(all)
}

/// The tables in order.
pub fn sources(alloc: Global, doc: &ModelDoc) -> Result<List<TableSource>, NoMemory>
    requires { IsWalked doc.now }
    ensures { IfOk result (λ all. all ≡ sources_of (view doc.now.json)) }
{
    each_source(alloc, &doc.drafts.tables)
}

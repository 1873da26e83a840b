//! Laws of spaces, each as the contract of a function that does nothing.
ghost use Rattle.std.specs.Prelude.{◌≡◌, []};
ghost use Rattle.cal_schema.specs.declared.schema.Schema.{Schema};
ghost use Rattle.cal_schema.specs.Fits.{Fits};
ghost use Rattle.cal_snapshot.specs.Parts.{Parts};
ghost use Rattle.cal_rel.specs.Info.{Info, info_of};
ghost use Rattle.memo_model.specs.Sets.{Sets};
ghost use Rattle.plan_meaning.specs.Memos.{IsSpaceOf};
ghost use Rattle.plan_meaning.specs.WellFormed.{ArePartsOf};
ghost use Rattle.plan_spaces.specs.Made.{made};

/// The space of a memo has its members and types.
pub fn space_law()
    ensures { (base : Info) (sets : Sets) (parts : Parts)
        → IsSpaceOf (made base sets parts) base sets }
{}

/// Over a snapshot without tiles, whose tables fit the schema, it has the lengths of these tables.
pub fn parts_law()
    ensures { (schema : Schema) (sets : Sets) (parts : Parts)
        → Fits (record { tables = parts.tables }) schema → parts.tiles ≡ []
        → ArePartsOf (made (info_of schema parts.tiles []) sets parts)
        (record { tables = parts.tables }) }
{}

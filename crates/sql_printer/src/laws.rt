//! Laws of the definitions.
ghost use Rattle.std.specs.Prelude.{◌≡◌};
ghost use Rattle.sql_tree.specs.declared.statement.Statement.{Statement};
ghost use Rattle.sql_tree.specs.Same.{IsSame};
ghost use Rattle.sql_printer.specs.Printing.{printed};

/// Statements that are the same but for places are printed alike.
pub fn same_statements_print_alike()
    ensures { (a b : Statement) → IsSame a b → printed a ≡ printed b }
{}

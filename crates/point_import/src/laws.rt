//! Laws over imports. Each function does nothing; its clauses are the laws.
ghost use Rattle.point_import.specs.LoneImports.{ImportNumbers};

/// Where nobody else steps and the store began empty, the lines that an import accepts are those before the first refused one, and each
/// name of their points has the id that its place tells, by first coming.
pub fn import_numbers()
    ensures { ImportNumbers }
{}

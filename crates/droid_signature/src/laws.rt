//! Laws of the rows. Each is the contract of a function that does nothing.

ghost use Rattle.std.specs.Prelude.{ℕ, ◌≤◌, List, length, Ok};
ghost use Rattle.std.specs.List.{flat_map};
ghost use Rattle.csv.specs.declared.parser.State.TheVariants as st;
ghost use Rattle.droid_signature.specs.Csv.{line};
ghost use Rattle.droid_pronom.specs.RegistryFile.{File, Outcome};
ghost use Rattle.droid_pronom.specs.RegistryRecords.{Draft};
ghost use Rattle.droid_signature.specs.RegistryTables.{AreTables, Tables, file_of, registry_of};
ghost use Rattle.droid_signature.specs.RowSteps.{Steps};

/// States that rows, of which each adds to the registry of those before it, are read as the registry that they make.
pub fn rows_are_read_back()
    ensures { (draft final : Draft) (rows : List (List (List ℕ))) → Steps draft rows final
        → Outcome draft st.StartRecord (flat_map line rows) (Ok final.registry) }
{}

/// States that tables within a registry's limits, written as a registry file, are read as a registry that has them.
pub fn tables_are_read_back()
    ensures { (tables : Tables) → AreTables tables → length (file_of tables) ≤ 16777216
        → File (file_of tables) (Ok (registry_of tables)) }
{}

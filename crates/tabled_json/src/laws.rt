//! Laws of JSON records. Each is the contract of a function that does nothing.

ghost use Rattle.std.specs.List.{AllByRecursion};
ghost use Rattle.std.specs.Prelude.{ℕ, List, IsUtf8};
ghost use Rattle.tabled_json.specs.Faults.{IsFault, IsTableFault};
ghost use Rattle.tabled_json.specs.Laws.{AreReadBack, EndsOnce, FaultyMeansNone, HasOneFault, IsReadBack, IsTable, MeansOneList, MeansOneTable, RowsAreReadBack};
ghost use Rattle.tabled_json.specs.Writing.{AreRecords};

/// Bytes mean one list of records at most.
pub fn bytes_mean_one_list_of_records()
    ensures { (bytes : List ℕ) → MeansOneList bytes }
{}

/// Bytes mean one table at most, whether they are records or rows.
pub fn bytes_mean_one_table()
    ensures { (bytes : List ℕ) → MeansOneTable bytes }
{}

/// Bytes have one fault at most, as records and as a table, in one place.
pub fn bytes_have_one_fault()
    ensures records { (bytes : List ℕ) → HasOneFault (IsFault bytes) }
    ensures table { (bytes : List ℕ) → HasOneFault (IsTableFault bytes) }
{}

/// Bytes that have a fault mean no records, and those that have one as a table no table.
pub fn faulty_bytes_mean_nothing()
    ensures { (bytes : List ℕ) → FaultyMeansNone bytes }
{}

/// One thing at most is behind a value.
pub fn a_value_ends_once()
    ensures { (bytes : List ℕ) → EndsOnce bytes }
{}

/// What is written of a text is read as this text, and as no other.
pub fn a_written_text_is_read_back()
    ensures { (text after : List ℕ) → IsReadBack text after }
{}

/// What is written of records means these records, and no others.
pub fn written_records_are_read_back()
    ensures { (objects : List (List (List ℕ × List ℕ))) → AreRecords objects → AreReadBack objects }
{}

/// What is written of rows whose keys differ, and of which each has a text for each key, means records whose table is
/// these rows.
pub fn written_rows_are_read_back()
    ensures { (rows : List (List (List ℕ))) → IsTable rows → AllByRecursion (AllByRecursion IsUtf8) rows → RowsAreReadBack rows }
{}

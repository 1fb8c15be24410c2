// What holds of the packs of rows, whatever is called.
ghost use Rattle.std.specs.Prelude.{◌≡◌, ◌+◌, ◌/◌, ℕ, List, length, sum_by};
ghost use Rattle.packed_rows.specs.declared.column.Column.{Column};
ghost use Rattle.packed_rows.specs.Columns.{RowList};
ghost use Rattle.packed_rows.specs.Packs.{ArePacksOf, StandFor, packs_size, stored_size, types_of};

/// Packs stand for one list of rows, from which they are made: what is read back was pushed.
pub fn packs_are_read_back()
    ensures one { (cs : List Column) (text : List ℕ) (n : ℕ) (rows others : RowList)
        → StandFor cs text n rows → StandFor cs text n others → rows ≡ others }
    ensures made { (cs : List Column) (text : List ℕ) (n : ℕ) (rows : RowList)
        → StandFor cs text n rows → ArePacksOf cs text rows }
{}

/// Equal rows of equal types have equal packs, byte by byte and bit by bit, NULLs included.
pub fn equal_rows_equal_packs()
    ensures { (cs ds : List Column) (text more : List ℕ) (n m : ℕ) (rows : RowList)
        → StandFor cs text n rows → StandFor ds more m rows → types_of cs ≡ types_of ds
        → (cs ≡ ds) × (text ≡ more) }
{}

/// The bytes of packs are those that rows of their types take.
pub fn packs_take_stored()
    ensures { (cs : List Column) (text : List ℕ) (n : ℕ) (rows : RowList)
        → StandFor cs text n rows → packs_size cs text ≡ stored_size (types_of cs) rows }
{}

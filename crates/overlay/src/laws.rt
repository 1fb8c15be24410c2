// What holds of every overlay.
ghost use Rattle.std.specs.Prelude.{◌≡◌, ◌≢◌, ℕ, List, take};
ghost use Rattle.std.specs.List.{AllPairs};
ghost use Rattle.dict_value.specs.declared.value.AttrType.{AttrType};
ghost use Rattle.dict_value.specs.declared.value.Value.{Value};
ghost use Rattle.packed_rows.specs.Columns.{RowList};
ghost use Rattle.overlay.specs.Overlays.{HaveTypes, Overlay};

/// New rows over former ones have one overlay. Its rows have the types of both, and no two of them have
/// one key.
pub fn one_overlay()
    ensures one { (keys : ℕ) (former new standing other : RowList) → Overlay keys former new standing
        → Overlay keys former new other → standing ≡ other }
    ensures types { (types : List AttrType) (keys : ℕ) (former new standing : RowList) → HaveTypes types former
        → HaveTypes types new → Overlay keys former new standing → HaveTypes types standing }
    ensures apart { (keys : ℕ) (former new standing : RowList) → Overlay keys former new standing
        → AllPairs (λ row later. take keys row ≢ take keys later) standing }
{}

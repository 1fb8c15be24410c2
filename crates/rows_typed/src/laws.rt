// What holds of every text, whatever is called.
ghost use Rattle.std.specs.Prelude.{ℕ, List, Ok};
ghost use Rattle.std.specs.List.{AllByRecursion};
ghost use Rattle.dict_schema.specs.declared.definition.ShapeColumn.{ShapeColumn};
ghost use Rattle.dict_value.specs.declared.value.Format.{Format};
ghost use Rattle.dict_value.specs.declared.value.Value.{Value};
ghost use Rattle.rows_typed.specs.Fits.{FitsShape, HasFittingDefaults};
ghost use Rattle.rows_typed.specs.Shapes.{Decode};

/// The rows of a text fit its shape, where the shape's defaults do.
pub fn decoded_rows_fit()
    ensures { (shape : List ShapeColumn) (format : Format) (text : List ℕ) (rows : List (List Value))
        → HasFittingDefaults shape → Decode shape format text (Ok rows) → AllByRecursion (FitsShape shape) rows }
{}

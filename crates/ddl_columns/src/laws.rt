// What the definitions of defaults imply.
ghost use Rattle.std.specs.Prelude.{◌↔◌, IsOk, Some};
ghost use Rattle.dict_value.specs.Values.{FitsColumn, reading};
ghost use Rattle.dict_value.specs.declared.value.AttrType.{AttrType};
ghost use Rattle.dict_value.specs.declared.value.Field.{Field};
ghost use Rattle.ddl_columns.specs.Defaults.{default_given};

/// The default that a DEFAULT gives fits its column exactly where the literal has a reading at the
/// column's type. So a judgement that looks at the default alone judges the literal.
pub fn a_bad_default_fits_no_type()
    ensures { (t : AttrType) (literal : Field)
        → FitsColumn t (default_given t (Some literal)) ↔ IsOk (reading t literal) }
{}

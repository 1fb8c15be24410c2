// What holds of every text, whatever is called.
ghost use Rattle.std.specs.Prelude.{◌≡◌, ◌≢◌, ◌↔◌, ◌++◌, [], ℕ, List, Result, map};
ghost use Rattle.std.specs.List.{AllByRecursion, flat_map};
ghost use Rattle.dict_value.specs.declared.value.Field.{Field};
ghost use Rattle.dict_value.specs.declared.value.Format.{Format};
ghost use Rattle.dict_value.specs.declared.fault.LineFault.{LineFault};
ghost use Rattle.dict_value.specs.declared.value.Value.{Value};
ghost use Rattle.row_text.specs.Cutting.{Cuts, ended};
ghost use Rattle.row_text.specs.CsvRow.{BeginsWithMark, csv_fields, csv_text};
ghost use Rattle.row_text.specs.Decoding.{Decoded, Decodes, LineGives, Reader, rule_of};
ghost use Rattle.row_text.specs.Growing.{DecodesBehind, DecodesOn};
ghost use Rattle.row_text.specs.TabRow.{row_line};
ghost use Rattle.row_text.specs.Tables.{AreLines, IsCsvTable, IsTabTable};
ghost use Rattle.row_text.specs.declared.cutter.CutRule.{CutRule};

/// A line has one answer: its fields, or its first fault.
pub fn one_reading()
    ensures some { (format : Format) (line : List ℕ) → (answer : Result (List Field) LineFault)
        × LineGives format line answer }
    ensures one { (format : Format) (line : List ℕ) (answer other : Result (List Field) LineFault)
        → LineGives format line answer → LineGives format line other → answer ≡ other }
{}

/// A text has one list of lines.
pub fn one_list_of_lines()
    ensures some { (rule : CutRule) (text : List ℕ) → (lines : List (List ℕ)) × AreLines rule text lines }
    ensures one { (rule : CutRule) (text : List ℕ) (lines others : List (List ℕ)) → AreLines rule text lines
        → AreLines rule text others → lines ≡ others }
{}

/// A text is a table of no other rows.
pub fn one_table()
    ensures tab { (text : List ℕ) (table other : List (List Field)) → IsTabTable text table → IsTabTable text other
        → table ≡ other }
    ensures csv { (text : List ℕ) (table other : List (List Field)) → IsCsvTable text table → IsCsvTable text other
        → table ≡ other }
{}

/// Rows written one after another are a table of these rows.
pub fn written_tables()
    ensures tab { (rows : List (List Field)) → AllByRecursion (λ row. row ≢ []) rows
        → IsTabTable (flat_map (λ row. ended (row_line row)) rows) rows }
    // In CSV a NULL comes back as the text \N; and nothing is said of rows one of which begins with the bytes of a
    // byte order mark, which do not come back.
    ensures csv { (rows : List (List Field)) → AllByRecursion (λ row. (row ≢ []) × (¬ BeginsWithMark row)) rows
        → IsCsvTable (flat_map csv_text rows) (map csv_fields rows) }
{}

/// A text decodes to one answer.
pub fn one_decoding()
    ensures some { (format : Format) (columns : List Reader) (text : List ℕ) → (answer : Decoded)
        × Decodes format columns text answer }
    ensures one { (format : Format) (columns : List Reader) (text : List ℕ) (answer other : Decoded)
        → Decodes format columns text answer → Decodes format columns text other → answer ≡ other }
{}

/// A text that is cut behind a row's end decodes as its first part, and then the rest behind it. Behind no
/// lines and no rows it decodes as it does alone.
pub fn decoding_goes_on()
    ensures alone { (format : Format) (columns : List Reader) (text : List ℕ) (answer : Decoded)
        → Decodes format columns text answer ↔ DecodesBehind format columns 0 [] text answer }
    ensures cut { (format : Format) (columns : List Reader) (number : ℕ) (old : List (List Value)) (front rest : List ℕ)
        (lines : List (List ℕ)) (first answer : Decoded) → Cuts (rule_of format) front lines []
        → DecodesBehind format columns number old front first
        → DecodesOn format columns number old lines rest first answer
        → DecodesBehind format columns number old (front ++ rest) answer }
{}

#[cfg(test)]
mod tests;

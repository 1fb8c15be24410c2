// Who says whether the output of a load has rows.
ghost use Rattle.load_core.specs.WorldSteps.{Verdicts};

/// Says of a definition's number, the definitions and bytes of the entries so far, and a text, whether
/// the text is accepted, or with which cause it isn't. Only contracts ask a judge.
pub trait Judge {
    /// Holds where the text may be accepted (no cause), or refused with the cause.
    ghost judges: { Verdicts };
}

/// The rows of one key of type UInt64 and one String, for a definition of any number.
#[derive(Clone, Copy, Debug)]
pub struct RowJudge;

impl Judge for RowJudge {
    ghost use Rattle.load_core.specs.WorldRows.{row_verdicts};

    ghost judges = { row_verdicts };
}

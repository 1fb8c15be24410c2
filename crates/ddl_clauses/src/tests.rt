// Texts of clauses, and what they say.
mod layouts;
mod orders;
mod pools;
mod settings;
mod shown;
mod sources;

use dict_value::{Bytes, NoMemory};
use shown::show;
use std::alloc::Global;

/// Where the text of a case stands.
#[derive(Clone, Copy, Debug, PartialEq, Eq)]
enum Among {
    /// It is the clauses of a dictionary.
    All,
    /// It follows a source and LAYOUT(HASHED).
    Clauses,
    /// It stands within LAYOUT, behind a source.
    Layout,
    /// It follows the command and the format.
    Executable,
    Pool,
    /// The same for a function.
    Function,
    FunctionPool,
    /// It is the source and the settings of a function.
    AllOfFunction,
}

/// What stands before and behind the text of a case.
fn around(among: Among) -> (&'static [u8], &'static [u8]) {
    match among {
        Among::All | Among::AllOfFunction => (b"", b""),
        Among::Clauses => (
            b"SOURCE(EXECUTABLE(command 'c' format TSV)) LAYOUT(HASHED) ",
            b"",
        ),
        Among::Layout => (b"SOURCE(EXECUTABLE(command 'c' format TSV)) LAYOUT(", b")"),
        Among::Executable => (
            b"LAYOUT(HASHED) SOURCE(EXECUTABLE(command 'c' format TSV ",
            b"))",
        ),
        Among::Pool => (
            b"LAYOUT(HASHED) SOURCE(EXECUTABLE_POOL(command 'c' format TSV ",
            b"))",
        ),
        Among::Function => (b"SOURCE(EXECUTABLE(command 'c' format TSV ", b"))"),
        Among::FunctionPool => (b"SOURCE(EXECUTABLE_POOL(command 'c' format TSV ", b"))"),
    }
}

fn show_among(alloc: Global, among: Among, text: &[u8]) -> Result<Bytes, NoMemory> {
    let (front, back) = around(among);
    let mut whole = Bytes::copy_of(alloc, front)?;
    whole.extend(text)?;
    whole.extend(back)?;
    let function = matches!(
        among,
        Among::Function | Among::FunctionPool | Among::AllOfFunction
    );
    let mut out = Bytes::new(alloc);
    show(alloc, function, front.len(), whole.as_slice(), &mut out)?;
    Ok(out)
}

/// The text of the first case that says something else.
fn first_wrong<'a>(
    alloc: Global,
    cases: &[(Among, &'a [u8], &'a [u8])],
) -> Result<Option<&'a [u8]>, NoMemory> {
    for (among, text, wanted) in cases {
        let out = show_among(alloc, *among, text)?;
        if out.as_slice() != *wanted {
            return Ok(Some(*text));
        }
    }
    Ok(None)
}

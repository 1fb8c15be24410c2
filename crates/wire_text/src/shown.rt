// Requests as tests print them.
use crate::{Asked, Request, RequestFault, Verb};
use dict_value::{Bytes, Field, NoMemory, push_number};

/// What lines ask for, or why they are no request.
pub fn show(answer: Result<Request, RequestFault>, out: &mut Bytes) -> Result<(), NoMemory> {
    match answer {
        Ok(Request::Asked(asked)) => show_asked(&asked, out),
        Ok(Request::Reload(name)) => show_named(b"reload ", name.as_slice(), out),
        Ok(Request::Status(name)) => show_named(b"status ", name.as_slice(), out),
        Ok(Request::Show(name)) => show_named(b"show ", name.as_slice(), out),
        Ok(Request::After(name, number)) => {
            show_named(b"after ", name.as_slice(), out)?;
            out.push(b' ')?;
            push_number(out, number)
        }
        Ok(Request::Config) => out.extend(b"config"),
        Ok(Request::Quit) => out.extend(b"quit"),
        Err(RequestFault::Bad) => out.extend(b"bad"),
        Err(RequestFault::NoMemory) => out.extend(b"memory"),
    }
}

fn show_named(word: &[u8], name: &[u8], out: &mut Bytes) -> Result<(), NoMemory> {
    out.extend(word)?;
    out.extend(name)
}

fn verb_name(verb: Verb) -> &'static [u8] {
    match verb {
        Verb::Get => b"get ",
        Verb::GetOrDefault => b"default ",
        Verb::GetOrNull => b"null ",
        Verb::Has => b"has ",
        Verb::Hierarchy => b"hierarchy ",
        Verb::IsIn => b"in ",
        Verb::Children => b"children ",
        Verb::Descendants => b"descendants ",
        Verb::Call => b"call ",
    }
}

/// The verb, the name and the attribute with a point between them, the default, the level, and the lines.
fn show_asked(asked: &Asked, out: &mut Bytes) -> Result<(), NoMemory> {
    show_named(verb_name(asked.verb), asked.name.as_slice(), out)?;
    show_named(b".", asked.attribute.as_slice(), out)?;
    show_field(&asked.fallback, out)?;
    out.push(b' ')?;
    push_number(out, asked.level)?;
    if asked.block {
        out.extend(b" block")?;
    }
    for line in asked.lines.as_slice() {
        out.push(b';')?;
        show_fields(line.as_slice(), out)?;
    }
    Ok(())
}

/// A bar before each field.
fn show_fields(fields: &[Field], out: &mut Bytes) -> Result<(), NoMemory> {
    for field in fields {
        show_field(field, out)?;
    }
    Ok(())
}

/// A bar and a text, or a question mark for NULL.
fn show_field(field: &Field, out: &mut Bytes) -> Result<(), NoMemory> {
    match field {
        Field::Null => out.extend(b"|?"),
        Field::Text(text) => show_named(b"|", text.as_slice(), out),
    }
}

// Copies of definitions.
ghost use Rattle.std.specs.Prelude.{◌≡◌, IfOk};

use dict_schema::{Column, Definition, SourceOf, Update};
use dict_value::{Bytes, ListOf, NoMemory, copy_value};
use std::alloc::Global;

fn copy_column(alloc: Global, column: &Column) -> Result<Column, NoMemory>
    ensures { IfOk result (λ copy. copy ≡ column.now) }
{
    let name = Bytes::copy_of(alloc, column.name.as_slice())?;
    let default = copy_value(alloc, &column.default)?;
    Ok(Column {
        name,
        ty: column.ty,
        default,
        hierarchical: column.hierarchical,
        object_id: column.object_id,
        injective: column.injective,
    })
}

fn copy_columns(alloc: Global, columns: &[Column]) -> Result<ListOf<Column>, NoMemory>
    ensures { IfOk result (λ copies. copies ≡ columns.now) }
{
    let mut copies = ListOf::with_room(alloc, columns.len())?;
    for column in columns {
        copies.push(copy_column(alloc, column)?)?;
    }
    Ok(copies)
}

fn copy_places(alloc: Global, places: &[u8]) -> Result<ListOf<u8>, NoMemory>
    ensures { IfOk result (λ copies. copies ≡ places.now) }
{
    let mut copies = ListOf::with_room(alloc, places.len())?;
    for place in places {
        copies.push(*place)?;
    }
    Ok(copies)
}

fn copy_update(alloc: Global, update: &Update) -> Result<Update, NoMemory>
    ensures { IfOk result (λ copy. copy ≡ update.now) }
{
    match update {
        Update::None => Ok(Update::None),
        Update::Field { name, lag } => Ok(Update::Field {
            name: Bytes::copy_of(alloc, name.as_slice())?,
            lag: *lag,
        }),
    }
}

fn copy_source(alloc: Global, s: &SourceOf) -> Result<SourceOf, NoMemory>
    ensures { IfOk result (λ copy. copy ≡ s.now) }
{
    let command = Bytes::copy_of(alloc, s.command.as_slice())?;
    let update = copy_update(alloc, &s.update)?;
    Ok(SourceOf {
        kind: s.kind,
        command,
        format: s.format,
        direct: s.direct,
        implicit: s.implicit,
        header: s.header,
        read_ms: s.read_ms,
        write_ms: s.write_ms,
        end_s: s.end_s,
        pool_size: s.pool_size,
        execution_s: s.execution_s,
        update,
    })
}

/// The same definition once more.
pub fn copy_definition(alloc: Global, d: &Definition) -> Result<Definition, NoMemory>
    ensures { IfOk result (λ copy. copy ≡ d.now) }
{
    let name = Bytes::copy_of(alloc, d.name.as_slice())?;
    let columns = copy_columns(alloc, d.columns.as_slice())?;
    let keys = copy_places(alloc, d.keys.as_slice())?;
    let source = copy_source(alloc, &d.source)?;
    let comment = Bytes::copy_of(alloc, d.comment.as_slice())?;
    Ok(Definition {
        name,
        columns,
        keys,
        source,
        layout: d.layout,
        lifetime: d.lifetime,
        range: d.range,
        max_output: d.max_output,
        comment,
    })
}

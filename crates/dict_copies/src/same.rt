// Whether two definitions are the same.
ghost use Rattle.std.specs.Prelude.{◌≡◌, ◌↔◌, IsTrue};

use dict_schema::{Column, Definition, SourceOf, Update};
use dict_value::same_value;

/// Whether the marks of two columns are the same.
fn same_marks(a: &Column, b: &Column) -> bool
    ensures { IsTrue result ↔ (a.now.hierarchical ≡ b.now.hierarchical) × (a.now.object_id ≡ b.now.object_id)
        × (a.now.injective ≡ b.now.injective) }
{
    a.hierarchical == b.hierarchical && a.object_id == b.object_id && a.injective == b.injective
}

fn same_column(a: &Column, b: &Column) -> bool
    ensures { IsTrue result ↔ (a.now ≡ b.now) }
{
    a.name.is_same(&b.name)
        && a.ty == b.ty
        && same_value(&a.default, &b.default)
        && same_marks(a, b)
}

fn same_columns(a: &[Column], b: &[Column]) -> bool
    ensures { IsTrue result ↔ (a.now ≡ b.now) }
{
    if a.len() != b.len() {
        return false;
    }
    for place in 0..a.len() {
        if !same_column(&a[place], &b[place]) {
            return false;
        }
    }
    true
}

fn same_update(a: &Update, b: &Update) -> bool
    ensures { IsTrue result ↔ (a.now ≡ b.now) }
{
    match (a, b) {
        (Update::None, Update::None) => true,
        (
            Update::Field { name, lag },
            Update::Field {
                name: other,
                lag: late,
            },
        ) => { name.is_same(other) && lag == late }
        _ => false,
    }
}

/// Whether the times of two sources are the same.
fn same_times(a: &SourceOf, b: &SourceOf) -> bool
    ensures { IsTrue result ↔ (a.now.read_ms ≡ b.now.read_ms) × (a.now.write_ms ≡ b.now.write_ms)
        × (a.now.end_s ≡ b.now.end_s) × (a.now.execution_s ≡ b.now.execution_s) }
{
    a.read_ms == b.read_ms
        && a.write_ms == b.write_ms
        && a.end_s == b.end_s
        && a.execution_s == b.execution_s
}

/// Whether what two sources run and read is the same.
fn same_runs(a: &SourceOf, b: &SourceOf) -> bool
    ensures { IsTrue result ↔ (a.now.kind ≡ b.now.kind) × (a.now.command ≡ b.now.command)
        × (a.now.format ≡ b.now.format) × (a.now.direct ≡ b.now.direct) × (a.now.implicit ≡ b.now.implicit)
        × (a.now.header ≡ b.now.header) × (a.now.pool_size ≡ b.now.pool_size) × (a.now.update ≡ b.now.update) }
{
    a.kind == b.kind
        && a.command.is_same(&b.command)
        && a.format == b.format
        && a.direct == b.direct
        && a.implicit == b.implicit
        && a.header == b.header
        && a.pool_size == b.pool_size
        && same_update(&a.update, &b.update)
}

fn same_source(a: &SourceOf, b: &SourceOf) -> bool
    ensures { IsTrue result ↔ (a.now ≡ b.now) }
{
    same_times(a, b) && same_runs(a, b)
}

/// Whether two definitions are the same in each part. It takes no memory.
pub fn same_definition(a: &Definition, b: &Definition) -> bool
    ensures { IsTrue result ↔ (a.now ≡ b.now) }
{
    a.name.is_same(&b.name)
        && same_columns(a.columns.as_slice(), b.columns.as_slice())
        && a.keys.as_slice() == b.keys.as_slice()
        && same_source(&a.source, &b.source)
        && a.layout == b.layout
        && a.lifetime == b.lifetime
        && a.range == b.range
        && a.max_output == b.max_output
        && a.comment.is_same(&b.comment)
}

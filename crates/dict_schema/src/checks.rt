// Whether a definition can be: the judgements in the order of their tables.
ghost use Rattle.std.specs.Prelude.{◌≡◌, ◌≤◌, length};
ghost use Rattle.dict_schema.specs.Judging.{IsJudged, IsTold};
ghost use Rattle.dict_schema.specs.Table.{LayoutWithin, counts, settings, table};
ghost use Rattle.dict_schema.specs.Table.{arguments, function_counts, function_settings, function_source};
ghost use Rattle.dict_schema.specs.Table.{function_table};

use crate::attributes::judge_attributes;
use crate::definition::{Definition, FunctionDef, Layout};
use crate::fault::{DefFault, Which};
use crate::judging::{judge_each, within};
use crate::keys::{judge_arguments, judge_keys};
use crate::names::{judge_argument_names, judge_column_names};
use crate::ranges::judge_ranges;
use crate::sources::{judge_function_source, judge_source};

#[cfg(test)]
mod tests;

/// Answers Ok where no fault stands in a definition, else the first in the order of `DefFault`. It takes no memory.
pub fn check(d: &Definition) -> Result<(), DefFault>
    ensures { IsJudged (table d.now) result }
{
    judge_counts(d)?;
    judge_column_names(d)?;
    judge_settings(d)?;
    judge_keys(d)?;
    judge_ranges(d)?;
    judge_attributes(d)?;
    judge_source(d)
}

/// Judges how many columns and keys there are, and the definition's own name.
fn judge_counts(d: &Definition) -> Result<(), DefFault>
    ensures { IsJudged (counts d.now) result }
{
    within(Which::Columns, 0, 64, d.columns.len() as u64)?;
    within(Which::Keys, 0, 16, d.keys.len() as u64)?;
    within(Which::Name, 1, 255, d.name.len() as u64)
}

/// Judges the settings of a definition.
fn judge_settings(d: &Definition) -> Result<(), DefFault>
    ensures { IsJudged (settings d.now) result }
{
    within(Which::Command, 1, 4096, d.source.command.len() as u64)?;
    within(Which::Output, 1, 134_217_728, d.max_output.into())?;
    judge_layout(&d.layout)?;
    within(Which::PoolSize, 0, 1024, d.source.pool_size.into())?;
    if d.lifetime.max < d.lifetime.min {
        return Err(DefFault::Limit(Which::LifetimeOrder, d.lifetime.min.into()));
    }
    Ok(())
}

/// Judges the settings of a layout.
fn judge_layout(layout: &Layout) -> Result<(), DefFault>
    ensures { IsTold (LayoutWithin layout.now) result }
{
    match layout {
        Layout::Flat { max, .. } => within(Which::ArraySize, 1, 16_777_216, u64::from(*max)),
        Layout::Cache(set) | Layout::ComplexCache(set) if set.cells == 0 => {
            Err(DefFault::Limit(Which::Cells, 0))
        }
        _ => Ok(()),
    }
}

/// The same of a function.
pub fn check_function(f: &FunctionDef) -> Result<(), DefFault>
    ensures { IsJudged (function_table f.now) result }
{
    judge_function_counts(f)?;
    judge_argument_names(f)?;
    judge_function_settings(f)?;
    judge_arguments(f)?;
    judge_function_source(f)
}

fn judge_function_counts(f: &FunctionDef) -> Result<(), DefFault>
    ensures { IsJudged (function_counts f.now) result }
{
    within(Which::Args, 0, 16, f.args.len() as u64)?;
    within(Which::Name, 1, 255, f.name.len() as u64)
}

fn judge_function_settings(f: &FunctionDef) -> Result<(), DefFault>
    ensures { IsJudged (function_settings f.now) result }
{
    within(Which::Command, 1, 4096, f.source.command.len() as u64)?;
    within(Which::Output, 1, 134_217_728, f.max_output.into())?;
    within(Which::PoolSize, 0, 1024, f.source.pool_size.into())
}

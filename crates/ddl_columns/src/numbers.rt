// Whole numbers.
ghost use Rattle.std.specs.Prelude.{◌≡◌, ◌≢◌, ◌<◌, length, Err, OnOk};
ghost use Rattle.ddl_tokens.specs.Reading.{Gives};
ghost use Rattle.ddl_tokens.specs.declared.fault.ReadFault.TheVariants as fault;
ghost use Rattle.ddl_columns.specs.Reading.{whole_at};

use ddl_tokens::{ReadFault, Reader};
use dict_value::{ColType, Value, read_text};
use std::alloc::Global;

/// A whole number of up to 64 bits.
#[tactic(auto, unfolding(crate::specs::Reading::whole_at, ddl_tokens::specs::Reading::bytes_at, dict_value::specs::Values::text_reading))]
pub(crate) fn whole(alloc: Global, r: &mut Reader<'_>) -> Result<u64, ReadFault>
    ensures value { Gives (λ n. n) result r.new (whole_at r.old) }
    ensures takes_none { result ≢ Err fault.NoMemory }
    ensures shorter { OnOk result (length r.new < length r.old) }
{
    let unexpected = r.unexpected();
    let text = r.number()?;
    match read_text(alloc, ColType::UInt64, text) {
        Ok(Value::U(number)) => Ok(number),
        _ => Err(unexpected),
    }
}

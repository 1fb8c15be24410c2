// Identifiers, which `uuid` reads and writes.
ghost use Rattle.std.specs.Prelude.{◌≡◌, ◌++◌, OnOk, OnErr, IfOk};
ghost use Rattle.dict_value.specs.Identifiers.{id_of, id_text};
ghost use Rattle.dict_value.specs.Values.{as_value, HasType};
ghost use Rattle.dict_value.specs.declared.value.ColType.{ColType};
ghost use Rattle.dict_value.specs.declared.value.Value.TheVariants.{Id};

use crate::bytes::Bytes;
use crate::fault::NoMemory;
use crate::value::{BadValue, Value};
use uuid::Uuid;

/// An identifier.
pub(crate) fn read_id(text: &[u8]) -> Result<Value, BadValue>
    ensures exact { result ≡ as_value Id (id_of text.now) }
    ensures fits { IfOk result (HasType ColType.Uuid) }
{
    match Uuid::try_parse_ascii(text) {
        Ok(id) => Ok(Value::Id(id.as_u128())),
        Err(_) => Err(BadValue::BadUuid),
    }
}

/// Appends the text of an identifier.
pub(crate) fn push_id(out: &mut Bytes, id: u128) -> Result<(), NoMemory>
    ensures ok { OnOk result (out.new ≡ out.old ++ id_text id) }
    ensures err { OnErr result (out.new ≡ out.old) }
{
    let mut buffer = Uuid::encode_buffer();
    let text = Uuid::from_u128(id).hyphenated().encode_lower(&mut buffer);
    out.extend(text.as_bytes())
}

// What the definitions of values imply.
ghost use Rattle.std.specs.Prelude.{◌≡◌, ◌≢◌, ◌↔◌, ℕ, List, Option, Result, Ok, Err, Some};
ghost use Rattle.dict_value.specs.Addresses.{IsAddress, IsV4, IsV6, address_in, v4_in, v6_in};
ghost use Rattle.dict_value.specs.FindByKey.{FindsByKey};
ghost use Rattle.dict_value.specs.Values.{HasType, reading, text_reading, value_text};
ghost use Rattle.dict_value.specs.declared.value.Address.{Address};
ghost use Rattle.dict_value.specs.declared.value.AttrType.{AttrType};
ghost use Rattle.dict_value.specs.declared.value.BadValue.{BadValue};
ghost use Rattle.dict_value.specs.declared.value.BadValue.TheVariants as fault;
ghost use Rattle.dict_value.specs.declared.value.ColType.{ColType};
ghost use Rattle.dict_value.specs.declared.value.Field.{Field};
ghost use Rattle.dict_value.specs.declared.value.Value.{Value};

/// Each field has a reading at each type of a column, a value or a fault, and never want of memory. So
/// a call that answers the reading unless memory ran out has one other answer to each field.
pub fn each_field_is_read()
    ensures { (t : AttrType) (field : Field) → reading t field ≢ Err fault.NoMemory }
{}

/// What is written of a value is read as that value, for every value of every type.
pub fn written_is_read()
    ensures { (t : ColType) (v : Value) → HasType t v → text_reading t (value_text t v) ≡ Ok v }
{}

/// What a text is read as is a value of the type, for every text and type.
pub fn read_is_typed()
    ensures { (t : ColType) (text : List ℕ) (v : Value) → text_reading t text ≡ Ok v → HasType t v }
{}

/// What is found by a key is one place, or none.
pub fn one_place_is_found<K>()
    ensures { (keys : List K) (key : K) (a b : Option ℕ)
        → FindsByKey keys key a → FindsByKey keys key b → a ≡ b }
{}

/// A text is read as an address exactly where it writes it, in four octets or in eight groups. The
/// types IPv4 and IPv6, addresses and prefixes all read by these three.
pub fn addresses_by_grammar()
    ensures v4 { (text : List ℕ) (n : ℕ) → (v4_in text ≡ Some n) ↔ IsV4 text n }
    ensures v6 { (text : List ℕ) (n : ℕ) → (v6_in text ≡ Some n) ↔ IsV6 text n }
    ensures either { (text : List ℕ) (a : Address) → (address_in text ≡ Some a) ↔ IsAddress text a }
{}

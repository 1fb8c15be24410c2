// What a slot says of its entries.
ghost use Rattle.std.specs.Prelude.{List};

/// The fact of a slot, named by a type of which no value is made.
pub trait Fact<V> {
    /// After the entries of this list this entry may stand.
    ghost allows: { List V → V → Type 0 };
}

//! An example of a reader over `ddl_tokens` whose exactness is proved by naming the laws alone.
//!
//! An order is `ORDER name ( item { , item } )` and then, in any order and each at most once, `PRICE
//! number`, which is wanted, `NOTE string` and `DUE number`. An item is a name and optionally
//! `TIMES number`. It promises that what is read is an order by the grammar, that an order is read
//! and as nothing else, and that a fault has the least place.
#![tactic(auto)]

ghost use Rattle.std.specs.Prelude.{◌≡◌, ◌++◌, ◌<◌, length, List, Ok, Err, IfOk};
ghost use Rattle.dict_value.specs.Memory.{UnlessNoMemory};
ghost use Rattle.ddl_tokens.specs.Tokens.{Token, AreTokens};
ghost use Rattle.ddl_tokens.specs.Laws.{first, Starts, IfSyntax, IsLeast};
ghost use Rattle.ddl_tokens.specs.declared.fault.ReadFault.TheVariants as fault;
ghost use Rattle.ddl_tokens_example.specs.declared.order.Order.{Order};
ghost use Rattle.ddl_tokens_example.specs.Grammar.{IsOrder, OrderStops};

mod order;
mod reading;

use ddl_tokens::{ReadFault, Reader};
pub use order::{Clause, Item, Order};
use std::alloc::Global;

/// The order that a text begins with.
pub fn first_order(alloc: Global, text: &[u8]) -> Result<Order, ReadFault>
    requires { length text.now < 4294967295 }
    // What is read is in the grammar.
    ensures found { (tokens : List Token) → AreTokens text.now tokens
        → IfOk result (λ order. Starts IsOrder OrderStops tokens order) }
    // What is in the grammar is read, and as nothing else.
    ensures only { (tokens own rest : List Token) (order : Order) → AreTokens text.now tokens
        → tokens ≡ own ++ rest → IsOrder order own → OrderStops order (first rest)
        → UnlessNoMemory (Err fault.NoMemory) result (result ≡ Ok order) }
    // A fault is the one with the least place.
    ensures least { (tokens : List Token) → AreTokens text.now tokens
        → IfSyntax result (λ e. IsLeast IsOrder OrderStops tokens e) }
{
    let mut reader = Reader::new(text);
    reading::order(alloc, &mut reader)
}

#[cfg(test)]
mod tests;

// Types of columns and arguments.
ghost use Rattle.std.specs.Prelude.{◌≡◌, ◌≢◌, ◌++◌, ◌<◌, ◌≤◌, length, List, Err, IfOk, OnOk};
ghost use Rattle.dict_value.specs.declared.value.AttrType.{AttrType};
ghost use Rattle.dict_schema.specs.Sound.{IsSoundType};
ghost use Rattle.ddl_tokens.specs.Verdicts.{Verdict, IsLeastOrFalls, VerdictStops, answer, stands};
ghost use Rattle.ddl_tokens.specs.Laws.{Begins, IfSyntax, first};
ghost use Rattle.ddl_tokens.specs.Reading.{Gives, bytes_ahead};
ghost use Rattle.ddl_tokens.specs.Tokens.{Token};
ghost use Rattle.ddl_tokens.specs.declared.fault.ReadFault.TheVariants as fault;
ghost use Rattle.ddl_columns.specs.Grammar.{IsType, TypeStops};
ghost use Rattle.ddl_columns.specs.Types.{number_named, text_named, decimal_named, plain_named, type_named, decimal};
ghost use Rattle.ddl_columns.specs.Reading.{base_at, base_behind, base_named_at, date_time_at, decimal_at, digits_at};
ghost use Rattle.ddl_columns.specs.Reading.{ended_at, named_at, nullable_at, scale_at, type_at, type_behind, zone_at};
ghost use Rattle.ddl_columns.specs.Reading.{zone_in_brackets_at};

use crate::numbers::whole;
use ddl_tokens::{LetterCase, ReadFault, Reader, SyntaxFault};
use dict_value::{AttrType, ColType};
use std::alloc::Global;

/// What the name of a type says, NULL aside.
#[derive(Clone, Copy)]
pub enum BaseName {
    /// The type itself.
    Plain(ColType),
    DateTime,
    Decimal,
    /// A Decimal of so many digits.
    Digits(u8),
}

/// What the name of a type says.
#[derive(Clone, Copy)]
pub enum TypeName {
    Nullable,
    Base(BaseName),
}

#[tactic(auto, unfolding(crate::specs::Types::number_named))]
fn number_named(r: &Reader<'_>) -> Option<TypeName>
    ensures { result ≡ number_named (bytes_ahead r.now) }
{
    if r.means(LetterCase::AsWritten, b"UInt8") {
        plain(ColType::UInt8)
    } else if r.means(LetterCase::AsWritten, b"UInt16") {
        plain(ColType::UInt16)
    } else if r.means(LetterCase::AsWritten, b"UInt32") {
        plain(ColType::UInt32)
    } else if r.means(LetterCase::AsWritten, b"UInt64") {
        plain(ColType::UInt64)
    } else if r.means(LetterCase::AsWritten, b"Int8") {
        plain(ColType::Int8)
    } else if r.means(LetterCase::AsWritten, b"Int16") {
        plain(ColType::Int16)
    } else if r.means(LetterCase::AsWritten, b"Int32") {
        plain(ColType::Int32)
    } else if r.means(LetterCase::AsWritten, b"Int64") {
        plain(ColType::Int64)
    } else {
        None
    }
}

#[tactic(auto, unfolding(crate::specs::Types::text_named))]
fn text_named(r: &Reader<'_>) -> Option<TypeName>
    ensures { result ≡ text_named (bytes_ahead r.now) }
{
    if r.means(LetterCase::AsWritten, b"String") {
        plain(ColType::Str)
    } else if r.means(LetterCase::AsWritten, b"Date") {
        plain(ColType::Date)
    } else if r.means(LetterCase::AsWritten, b"DateTime") {
        Some(TypeName::Base(BaseName::DateTime))
    } else if r.means(LetterCase::AsWritten, b"UUID") {
        plain(ColType::Uuid)
    } else if r.means(LetterCase::AsWritten, b"IPv4") {
        plain(ColType::Ipv4)
    } else if r.means(LetterCase::AsWritten, b"IPv6") {
        plain(ColType::Ipv6)
    } else {
        None
    }
}

#[tactic(auto, unfolding(crate::specs::Types::decimal_named))]
fn decimal_named(r: &Reader<'_>) -> Option<TypeName>
    ensures { result ≡ decimal_named (bytes_ahead r.now) }
{
    if r.means(LetterCase::AsWritten, b"Decimal") {
        Some(TypeName::Base(BaseName::Decimal))
    } else if r.means(LetterCase::AsWritten, b"Decimal32") {
        Some(TypeName::Base(BaseName::Digits(9)))
    } else if r.means(LetterCase::AsWritten, b"Decimal64") {
        Some(TypeName::Base(BaseName::Digits(18)))
    } else if r.means(LetterCase::AsWritten, b"Decimal128") {
        Some(TypeName::Base(BaseName::Digits(38)))
    } else if r.means(LetterCase::AsWritten, b"Nullable") {
        Some(TypeName::Nullable)
    } else {
        None
    }
}

fn plain(base: ColType) -> Option<TypeName>
    ensures { result ≡ plain_named base }
{
    Some(TypeName::Base(BaseName::Plain(base)))
}

#[tactic(auto, unfolding(crate::specs::Types::type_named))]
fn type_named(r: &Reader<'_>) -> Option<TypeName>
    ensures { result ≡ type_named (bytes_ahead r.now) }
{
    number_named(r).or(text_named(r)).or(decimal_named(r))
}

/// The name of a type, and its place.
#[tactic(auto, using(ddl_tokens::proofs::Going::name_goes_on), unfolding(crate::specs::Reading::named_at))]
fn named(r: &mut Reader<'_>) -> Result<(TypeName, u32), ReadFault>
    ensures value { Gives (λ named. named) result r.new (named_at r.old) }
    ensures takes_none { result ≢ Err fault.NoMemory }
    ensures shorter { OnOk result (length r.new < length r.old) }
{
    if !r.sees_name() {
        return Err(r.unexpected());
    }
    let place = r.place();
    let Some(name) = type_named(r) else {
        return Err(ReadFault::Syntax(SyntaxFault::Unsupported(place)));
    };
    r.skip();
    Ok((name, place))
}

/// The name of a type that isn't Nullable, and its place.
#[tactic(auto, unfolding(crate::specs::Reading::base_named_at))]
fn base_named(r: &mut Reader<'_>) -> Result<(BaseName, u32), ReadFault>
    ensures value { Gives (λ named. named) result r.new (base_named_at r.old) }
    ensures takes_none { result ≢ Err fault.NoMemory }
    ensures shorter { OnOk result (length r.new < length r.old) }
{
    let (name, place) = named(r)?;
    match name {
        TypeName::Base(base) => Ok((base, place)),
        TypeName::Nullable => Err(ReadFault::Syntax(SyntaxFault::Unsupported(place))),
    }
}

/// No type is followed by a bracket that isn't its own.
#[tactic(auto, unfolding(crate::specs::Reading::ended_at))]
fn ended(r: &Reader<'_>) -> Result<(), ReadFault>
    ensures value { Gives (λ _. tt) result r.now (ended_at r.now) }
    ensures takes_none { result ≢ Err fault.NoMemory }
{
    if r.sees_sign(b'(') {
        return Err(r.unexpected());
    }
    Ok(())
}

/// The one time zone that there is.
#[tactic(auto, using(ddl_tokens::proofs::Going::string_goes_on), unfolding(crate::specs::Reading::zone_at))]
fn zone(r: &mut Reader<'_>) -> Result<(), ReadFault>
    ensures value { Gives (λ _. tt) result r.new (zone_at r.old) }
    ensures takes_none { result ≢ Err fault.NoMemory }
    ensures shorter { OnOk result (length r.new < length r.old) }
{
    let unsupported = ReadFault::Syntax(SyntaxFault::Unsupported(r.place()));
    if r.sees_string() {
        if !r.means(LetterCase::AsWritten, b"UTC") {
            return Err(unsupported);
        }
        r.skip();
        return Ok(());
    }
    if r.sees_name() || r.sees_number() {
        return Err(unsupported);
    }
    Err(r.unexpected())
}

#[tactic(auto, unfolding(crate::specs::Reading::zone_in_brackets_at))]
fn zone_in_brackets(r: &mut Reader<'_>) -> Result<Option<()>, ReadFault>
    ensures value { Gives (λ zone. zone) result r.new (zone_in_brackets_at r.old) }
    ensures takes_none { result ≢ Err fault.NoMemory }
    ensures shorter { OnOk result (length r.new ≤ length r.old) }
{
    if !r.sees_sign(b'(') {
        return Ok(None);
    }
    r.sign(b'(')?;
    zone(r)?;
    r.sign(b')')?;
    Ok(Some(()))
}

/// What stands behind the word `DateTime`.
#[tactic(auto, unfolding(crate::specs::Reading::date_time_at))]
fn date_time(r: &mut Reader<'_>) -> Result<ColType, ReadFault>
    ensures value { Gives (λ base. base) result r.new (date_time_at r.old) }
    ensures takes_none { result ≢ Err fault.NoMemory }
    ensures shorter { OnOk result (length r.new ≤ length r.old) }
{
    zone_in_brackets(r)?;
    ended(r)?;
    Ok(ColType::DateTime)
}

/// A Decimal whose word stands at a place; out of range it is refused there.
fn decimal(place: u32, digits: u64, scale: u64) -> Result<ColType, ReadFault>
    ensures value { result ≡ answer (decimal place digits scale) }
    ensures takes_none { result ≢ Err fault.NoMemory }
{
    if digits >= 1 && digits <= 38 && scale <= digits {
        Ok(ColType::Decimal(digits as u8, scale as u8))
    } else {
        Err(ReadFault::Syntax(SyntaxFault::Unsupported(place)))
    }
}

/// The digits behind the point, where they are told.
#[tactic(auto, unfolding(crate::specs::Reading::scale_at))]
fn scale(alloc: Global, r: &mut Reader<'_>) -> Result<Option<u64>, ReadFault>
    ensures value { Gives (λ scale. scale) result r.new (scale_at r.old) }
    ensures takes_none { result ≢ Err fault.NoMemory }
    ensures shorter { OnOk result (length r.new ≤ length r.old) }
{
    if !r.sees_sign(b',') {
        return Ok(None);
    }
    r.sign(b',')?;
    Ok(Some(whole(alloc, r)?))
}

/// What stands behind the word `Decimal`.
#[tactic(auto, unfolding(crate::specs::Reading::decimal_at))]
fn decimal_behind(alloc: Global, place: u32, r: &mut Reader<'_>) -> Result<ColType, ReadFault>
    ensures value { Gives (λ base. base) result r.new (decimal_at place r.old) }
    ensures takes_none { result ≢ Err fault.NoMemory }
    ensures shorter { OnOk result (length r.new ≤ length r.old) }
{
    r.sign(b'(')?;
    let digits = whole(alloc, r)?;
    let scale = scale(alloc, r)?;
    r.sign(b')')?;
    decimal(place, digits, scale.unwrap_or(0))
}

/// What stands behind the name of a Decimal that tells its digits.
#[tactic(auto, unfolding(crate::specs::Reading::digits_at))]
fn digits_behind(
    alloc: Global,
    place: u32,
    digits: u8,
    r: &mut Reader<'_>,
) -> Result<ColType, ReadFault>
    ensures value { Gives (λ base. base) result r.new (digits_at place digits r.old) }
    ensures takes_none { result ≢ Err fault.NoMemory }
    ensures shorter { OnOk result (length r.new ≤ length r.old) }
{
    r.sign(b'(')?;
    let scale = whole(alloc, r)?;
    r.sign(b')')?;
    decimal(place, u64::from(digits), scale)
}

/// What stands behind the name of a type.
#[tactic(auto, unfolding(crate::specs::Reading::base_behind))]
fn base_behind(
    alloc: Global,
    name: BaseName,
    place: u32,
    r: &mut Reader<'_>,
) -> Result<ColType, ReadFault>
    ensures value { Gives (λ base. base) result r.new (base_behind name place r.old) }
    ensures takes_none { result ≢ Err fault.NoMemory }
    ensures shorter { OnOk result (length r.new ≤ length r.old) }
{
    let base = match name {
        BaseName::Plain(base) => base,
        BaseName::DateTime => return date_time(r),
        BaseName::Decimal => decimal_behind(alloc, place, r)?,
        BaseName::Digits(digits) => digits_behind(alloc, place, digits, r)?,
    };
    ended(r)?;
    Ok(base)
}

/// A type that isn't Nullable.
#[tactic(auto, unfolding(crate::specs::Reading::base_at))]
fn base(alloc: Global, r: &mut Reader<'_>) -> Result<ColType, ReadFault>
    ensures value { Gives (λ base. base) result r.new (base_at r.old) }
    ensures takes_none { result ≢ Err fault.NoMemory }
    ensures shorter { OnOk result (length r.new < length r.old) }
{
    let (name, place) = base_named(r)?;
    base_behind(alloc, name, place, r)
}

/// What stands behind the word `Nullable`.
#[tactic(auto, unfolding(crate::specs::Reading::nullable_at))]
fn nullable(alloc: Global, r: &mut Reader<'_>) -> Result<AttrType, ReadFault>
    ensures value { Gives (λ ty. ty) result r.new (nullable_at r.old) }
    ensures takes_none { result ≢ Err fault.NoMemory }
    ensures shorter { OnOk result (length r.new ≤ length r.old) }
{
    r.sign(b'(')?;
    let base = base(alloc, r)?;
    r.sign(b')')?;
    ended(r)?;
    Ok(AttrType {
        base,
        nullable: true,
    })
}

/// What stands behind the name of a type, Nullable or not.
#[tactic(auto, unfolding(crate::specs::Reading::type_behind))]
fn type_behind(
    alloc: Global,
    name: TypeName,
    place: u32,
    r: &mut Reader<'_>,
) -> Result<AttrType, ReadFault>
    ensures value { Gives (λ ty. ty) result r.new (type_behind name place r.old) }
    ensures takes_none { result ≢ Err fault.NoMemory }
    ensures shorter { OnOk result (length r.new ≤ length r.old) }
{
    match name {
        TypeName::Nullable => nullable(alloc, r),
        TypeName::Base(name) => {
            let base = base_behind(alloc, name, place, r)?;
            Ok(AttrType {
                base,
                nullable: false,
            })
        }
    }
}

/// A type of a column, an argument or a result.
#[tactic(auto, unfolding(crate::specs::Reading::type_at))]
pub(crate) fn type_of(alloc: Global, r: &mut Reader<'_>) -> Result<AttrType, ReadFault>
    ensures value { Gives (λ ty. ty) result r.new (type_at r.old) }
    ensures takes_none { result ≢ Err fault.NoMemory }
    ensures shorter { OnOk result (length r.new < length r.old) }
{
    let (name, place) = named(r)?;
    type_behind(alloc, name, place, r)
}

/// A type of a column, an argument or a result. Takes no memory.
pub fn read_type(alloc: Global, r: &mut Reader<'_>) -> Result<AttrType, ReadFault>
    // The kind of a fault is that of the reading.
    ensures exact { Gives (λ ty. ty) result r.new (type_at r.old) }
    // What is read is in the grammar.
    ensures found { IfOk result (λ ty. Begins IsType (VerdictStops TypeStops) r.old (stands ty) r.new) }
    // What is in the grammar is read, and as nothing else.
    ensures only { (own rest : List Token) (ty : Verdict AttrType) → r.old ≡ own ++ rest → IsType ty own
        → VerdictStops TypeStops ty (first rest)
        → result ≡ answer ty }
    // The type can be.
    ensures sound { IfOk result IsSoundType }
    // A fault is the first.
    ensures first { IfSyntax result (λ e. IsLeastOrFalls IsType TypeStops r.old e) }
    ensures takes_none { result ≢ Err fault.NoMemory }
    ensures shorter { OnOk result (length r.new < length r.old) }
{
    type_of(alloc, r)
}

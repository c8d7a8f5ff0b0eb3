//! Whether a table of a database equals another one, except for its b-tree and how its keys are written.
ghost use Rattle.std.specs.Prelude.{◌≡◌, ◌↔◌, IsTrue, map};
ghost use Rattle.std.specs.List.{AllByRecursion};
ghost use Rattle.sqlite_rules.specs.Lists.{Has};
ghost use Rattle.sqlite_value.specs.Keys.{plain};
ghost use Rattle.sqlite_value.specs.declared.value.Value.TheVariants.{Null};
ghost use Rattle.agv_store_create.specs.StandingTables.{SameKind, HasKeysOf, HasNoRules, HaveNoDefaults, IsAlike, IsPlain};
ghost use Rattle.agv_store_schema.specs.DeskRows.{HasKey, SameColumns, SameKeys};

use sqlite_items::Items;
use sqlite_schema::schema::{Column, Table};
use sqlite_value::keys::Order;
use sqlite_value::value::Value;

/// Returns whether the first table equals the second, except for its tree and how its keys are written. The second has
/// no constraints but its keys and the types of its columns, and no defaults.
pub(crate) fn same_table(found: &Table, wanted: &Table) -> bool
    ensures { IsPlain wanted.now → (IsTrue result ↔ IsAlike found.now wanted.now) }
{
    has_no_rules(found)
        && has_keys_of(found, wanted)
        && found.name.as_slice() == wanted.name.as_slice()
        && same_columns(found.columns.as_slice(), wanted.columns.as_slice())
}

/// Returns whether the table has no CHECK constraints, foreign keys, computed defaults or AUTOINCREMENT.
fn has_no_rules(table: &Table) -> bool
    ensures { IsTrue result ↔ HasNoRules table.now }
{
    let stamps = &table.stamps;
    let has_stamps = !stamps.places.is_empty()
        || !stamps.terms.roots.is_empty()
        || !stamps.formats.is_empty();
    table.checks.roots.is_empty()
        && table.references.is_empty()
        && table.computed.is_empty()
        && !has_stamps
        && !table.is_counted
}

/// Returns whether the first table has the keys of the second, in any order, and each index of it is in the plain order
/// of its columns.
fn has_keys_of(found: &Table, wanted: &Table) -> bool
    ensures { IsTrue result ↔ HasKeysOf found.now wanted.now }
{
    found.key == wanted.key
        && same_keys(found.uniques.as_slice(), wanted.uniques.as_slice())
        && are_plain(found.orders.as_slice(), found.uniques.as_slice())
}

/// Returns whether both have the same keys, in any order.
fn same_keys(found: &[Items<usize>], wanted: &[Items<usize>]) -> bool
    ensures { IsTrue result ↔ SameKeys found.now wanted.now }
{
    are_keys(found, wanted) && are_keys(wanted, found)
}

/// Returns whether each of the keys is among the others.
fn are_keys(keys: &[Items<usize>], all: &[Items<usize>]) -> bool
    ensures { IsTrue result ↔ AllByRecursion (HasKey all.now) keys.now }
{
    match keys {
        [] => true,
        [first, others @ ..] => is_key(first.as_slice(), all) && are_keys(others, all),
    }
}

/// Returns whether one of the keys has these columns, in any order.
fn is_key(key: &[usize], all: &[Items<usize>]) -> bool
    ensures { IsTrue result ↔ HasKey all.now key.now }
{
    match all {
        [] => false,
        [first, others @ ..] => same_places(key, first.as_slice()) || is_key(key, others),
    }
}

/// Returns whether both have the same columns, in any order.
fn same_places(one: &[usize], other: &[usize]) -> bool
    ensures { IsTrue result ↔ SameColumns one.now other.now }
{
    are_among(one, other) && are_among(other, one)
}

/// Returns whether each of the columns is among the others.
fn are_among(places: &[usize], all: &[usize]) -> bool
    ensures { IsTrue result ↔ AllByRecursion (Has all.now) places.now }
{
    match places {
        [] => true,
        [first, others @ ..] => is_among(*first, all) && are_among(others, all),
    }
}

/// Returns whether the column is among the others.
fn is_among(place: usize, all: &[usize]) -> bool
    ensures { IsTrue result ↔ Has all.now place }
{
    match all {
        [] => false,
        [first, others @ ..] => place == *first || is_among(place, others),
    }
}

/// Returns whether there is one plain order for each key.
fn are_plain(orders: &[Order], keys: &[Items<usize>]) -> bool
    ensures { IsTrue result ↔ (orders.now ≡ map (λ _. plain) keys.now) }
{
    match (orders, keys) {
        ([], []) => true,
        ([first, others @ ..], [_, more @ ..]) => is_plain(first) && are_plain(others, more),
        _ => false,
    }
}

/// Returns whether all columns of the order are ascending and compared by their bytes.
fn is_plain(order: &Order) -> bool
    ensures { IsTrue result ↔ (order.now ≡ plain) }
{
    order.digits == 0
}

/// Returns whether the columns are the same. The second ones have no defaults.
fn same_columns(found: &[Column], wanted: &[Column]) -> bool
    ensures { HaveNoDefaults wanted.now → (IsTrue result ↔ (found.now ≡ wanted.now)) }
{
    match (found, wanted) {
        ([], []) => true,
        ([first, others @ ..], [second, more @ ..]) => {
            same_column(first, second) && same_columns(others, more)
        }
        _ => false,
    }
}

/// Returns whether the columns are the same. The second has no default.
fn same_column(found: &Column, wanted: &Column) -> bool
    ensures { wanted.now.default ≡ Null → (IsTrue result ↔ (found.now ≡ wanted.now)) }
{
    let has_default = match &found.default {
        Value::Null => false,
        _ => true,
    };
    !has_default && found.name.as_slice() == wanted.name.as_slice() && same_kind(found, wanted)
}

/// Returns whether the columns accept the same values and compare them in the same way.
fn same_kind(found: &Column, wanted: &Column) -> bool
    ensures { IsTrue result ↔ SameKind found.now wanted.now }
{
    found.kind == wanted.kind
        && found.is_strict == wanted.is_strict
        && found.not_null == wanted.not_null
        && found.collation == wanted.collation
}

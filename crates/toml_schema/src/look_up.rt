ghost use Rattle.std.specs.Prelude.{◌≡◌, option_map, option_copied};
ghost use Rattle.toml.specs.Data.{get_member};
ghost use Rattle.toml.specs.View.{view, items_view, table_view};
ghost use Rattle.toml_schema.specs.Reading.{text_at, boolean_at, flag_at, integer_at, array_at, items_at, table_at};

use toml::{Table, Value};

#[tactic(auto, using(toml::proofs::Views::table_get))]
#[inline(always)]
fn get<'a>(table: &'a Table, key: &str) -> Option<&'a Value>
    ensures { option_map (λ value. view value.now) result
        ≡ get_member key.now (table_view table.now) }
{
    table.get(key)
}

/// Returns the string at the key, if there is one.
#[inline(always)]
pub fn text<'a>(table: &'a Table, key: &str) -> Option<&'a str>
    ensures { option_copied result ≡ text_at key.now (table_view table.now) }
{
    get(table, key)?.as_str()
}

/// Returns the boolean at the key, if there is one.
#[inline(always)]
pub fn boolean(table: &Table, key: &str) -> Option<bool>
    ensures { result ≡ boolean_at key.now (table_view table.now) }
{
    get(table, key)?.as_bool()
}

/// Returns the boolean at the key, else `false`.
#[inline(always)]
pub fn flag(table: &Table, key: &str) -> bool
    ensures { result ≡ flag_at key.now (table_view table.now) }
{
    boolean(table, key).unwrap_or(false)
}

/// Returns the integer at the key, if there is one.
#[inline(always)]
pub fn integer(table: &Table, key: &str) -> Option<i64>
    ensures { result ≡ integer_at key.now (table_view table.now) }
{
    get(table, key)?.as_integer()
}

/// Returns the elements of the array at the key, if there is one.
#[inline(always)]
pub fn array<'a>(table: &'a Table, key: &str) -> Option<&'a [Value]>
    ensures { option_map (λ items. items_view items.now) result
        ≡ array_at key.now (table_view table.now) }
{
    Some(get(table, key)?.as_array()?.as_slice())
}

/// Returns the elements of the array at the key, else none.
#[inline(always)]
pub fn items<'a>(table: &'a Table, key: &str) -> &'a [Value]
    ensures { items_view result.now ≡ items_at key.now (table_view table.now) }
{
    array(table, key).unwrap_or(&[])
}

/// Returns the table at the key, if there is one.
#[inline(always)]
pub fn table<'a>(table: &'a Table, key: &str) -> Option<&'a Table>
    ensures { option_map (λ t. table_view t.now) result
        ≡ table_at key.now (table_view table.now) }
{
    get(table, key)?.as_table()
}

ghost use Rattle.std.specs.Prelude.{◌≡◌};
ghost use Rattle.std.specs.List.{list_all};
ghost use Rattle.toml.specs.View.{view, table_view};
ghost use Rattle.toml_schema.specs.Shape.{keys_view, is_text, is_integer, is_table, has_shape, is_listed_by, is_shaped};

use toml::{Table, Value};

/// TOML type of a value.
#[derive(Clone, Copy, PartialEq, Eq)]
pub enum Shape {
    Text,
    Boolean,
    Integer,
    Table,
    /// Array of strings.
    Texts,
    /// Array of integers.
    Integers,
    /// Array of tables.
    Tables,
}

/// A key that a table may have, and the type of its value.
#[derive(Clone, Copy, PartialEq, Eq)]
pub struct Key {
    pub name: &'static str,
    pub shape: Shape,
}

/// Returns true if the table has only these keys, with values of their types. If `keys` repeats a
/// key, its first entry counts.
pub fn is_shaped(table: &Table, keys: &[Key]) -> bool
    ensures { result ≡ is_shaped (keys_view keys.now) (table_view table.now) }
{
    'members: for (name, value) in table.iter() {
        if !is_listed(keys, name.as_str(), value) {
            return false;
        }
    }
    true
}

#[tactic(auto, using(std::proofs::lemmas::Grind::common_steps, crate::proofs::Views::same_keys))]
fn is_listed(keys: &[Key], name: &str, value: &Value) -> bool
    ensures { result ≡ is_listed_by (keys_view keys.now) name.now (view value.now) }
{
    'keys: for key in keys {
        if key.name == name {
            return has_shape(value, key.shape);
        }
    }
    false
}

#[tactic(auto, using(crate::proofs::Views::all_items_view))]
fn has_shape(value: &Value, shape: Shape) -> bool
    ensures { result ≡ has_shape shape (view value.now) }
{
    match shape {
        Shape::Text => value.is_str(),
        Shape::Boolean => value.is_bool(),
        Shape::Integer => value.is_integer(),
        Shape::Table => value.is_table(),
        Shape::Texts => value.as_array().is_some_and(|items| are_texts(items)),
        Shape::Integers => value.as_array().is_some_and(|items| are_integers(items)),
        Shape::Tables => value.as_array().is_some_and(|items| are_tables(items)),
    }
}

fn are_texts(items: &[Value]) -> bool
    ensures { result ≡ list_all (λ item. is_text (view item)) items.now }
{
    items.iter().all(|item| item.is_str())
}

fn are_integers(items: &[Value]) -> bool
    ensures { result ≡ list_all (λ item. is_integer (view item)) items.now }
{
    items.iter().all(|item| item.is_integer())
}

fn are_tables(items: &[Value]) -> bool
    ensures { result ≡ list_all (λ item. is_table (view item)) items.now }
{
    items.iter().all(|item| item.is_table())
}

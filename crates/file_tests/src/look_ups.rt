//! Typed look-ups in TOML tables, and the shapes of tables.

use super::cases::assert_case;
use std::alloc::Global;
use std::process::Abort;
use toml::Table;
use toml_schema::{Key, Shape};

const DOCUMENT: &str =
    "name = \"ada\"\nold = true\nage = 36\nsizes = [1, 2]\n[home]\nstreet = \"a\"\n";

#[test]
fn each_type_once(rt: HostRuntime) {
    match toml::table_from_str(rt.alloc(), DOCUMENT) {
        Ok(document) => check_look_ups(&rt, &document),
        Err(_) => assert!(&rt; false, "the document"),
    }
}

fn check_look_ups(rt: &impl Abort, document: &Table) {
    assert!(rt; has_values(document));
    assert!(rt; has_lists(document));
    assert!(rt; lacks_others(document));
}

fn has_values(document: &Table) -> bool {
    toml_schema::text(document, "name") == Some("ada")
        && toml_schema::boolean(document, "old") == Some(true)
        && toml_schema::integer(document, "age") == Some(36)
        && toml_schema::flag(document, "old")
}

fn has_lists(document: &Table) -> bool {
    toml_schema::items(document, "sizes").len() == 2
        && has_two_sizes(document)
        && street_of(document) == Some("a")
}

fn has_two_sizes(document: &Table) -> bool {
    match toml_schema::array(document, "sizes") {
        Some(sizes) => sizes.len() == 2,
        None => false,
    }
}

fn lacks_others(document: &Table) -> bool {
    toml_schema::text(document, "age").is_none()
        && toml_schema::boolean(document, "young").is_none()
        && !toml_schema::flag(document, "young")
        && toml_schema::items(document, "name").is_empty()
        && toml_schema::table(document, "sizes").is_none()
}

fn street_of(document: &Table) -> Option<&str> {
    toml_schema::text(toml_schema::table(document, "home")?, "street")
}

const KEYS: &[Key] = &[
    Key {
        name: "text",
        shape: Shape::Text,
    },
    Key {
        name: "boolean",
        shape: Shape::Boolean,
    },
    Key {
        name: "integer",
        shape: Shape::Integer,
    },
    Key {
        name: "table",
        shape: Shape::Table,
    },
    Key {
        name: "texts",
        shape: Shape::Texts,
    },
    Key {
        name: "integers",
        shape: Shape::Integers,
    },
    Key {
        name: "tables",
        shape: Shape::Tables,
    },
];

/// Documents, and true if they have only those keys with those types.
const SHAPES: &[(&str, bool)] = &[
    ("", true),
    (
        "text = \"a\"\nboolean = true\ninteger = 1\ntable = { other = 1 }",
        true,
    ),
    (
        "texts = [\"a\", \"b\"]\nintegers = []\ntables = [{}, {}]",
        true,
    ),
    ("other = 1", false),
    ("text = 1", false),
    ("texts = \"a\"", false),
    ("texts = [\"a\", 1]", false),
    ("integers = [1, 1.0]", false),
    ("tables = [{}, []]", false),
    ("integer = 1\ntext = \"a\"\nother = false", false),
];

#[test]
fn keys_and_types(rt: HostRuntime) {
    for &(document, shaped) in SHAPES {
        assert_case(
            &rt,
            is_shaped(rt.alloc(), document) == Some(shaped),
            document,
        );
    }
}

fn is_shaped(alloc: Global, document: &str) -> Option<bool> {
    let table = toml::table_from_str(alloc, document).ok()?;
    Some(toml_schema::is_shaped(&table, KEYS))
}

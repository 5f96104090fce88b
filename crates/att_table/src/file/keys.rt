//! The allowed keys of a table file and their TOML types.

use toml_schema::{Key, Shape};

pub const ROOT: [Key; 1] = [Key {
    name: "service",
    shape: Shape::Tables,
}];

pub const SERVICE: [Key; 4] = [
    Key {
        name: "uuid",
        shape: Shape::Text,
    },
    Key {
        name: "secondary",
        shape: Shape::Boolean,
    },
    Key {
        name: "include",
        shape: Shape::Integers,
    },
    Key {
        name: "characteristic",
        shape: Shape::Tables,
    },
];

pub const CHARACTERISTIC: [Key; 9] = [
    Key {
        name: "config",
        shape: Shape::Table,
    },
    Key {
        name: "descriptor",
        shape: Shape::Tables,
    },
    Key {
        name: "uuid",
        shape: Shape::Text,
    },
    Key {
        name: "properties",
        shape: Shape::Texts,
    },
    Key {
        name: "value",
        shape: Shape::Text,
    },
    Key {
        name: "max",
        shape: Shape::Integer,
    },
    Key {
        name: "fixed",
        shape: Shape::Boolean,
    },
    Key {
        name: "read",
        shape: Shape::Table,
    },
    Key {
        name: "write",
        shape: Shape::Table,
    },
];

pub const DESCRIPTOR: [Key; 7] = [
    Key {
        name: "uuid",
        shape: Shape::Text,
    },
    Key {
        name: "properties",
        shape: Shape::Texts,
    },
    Key {
        name: "value",
        shape: Shape::Text,
    },
    Key {
        name: "max",
        shape: Shape::Integer,
    },
    Key {
        name: "fixed",
        shape: Shape::Boolean,
    },
    Key {
        name: "read",
        shape: Shape::Table,
    },
    Key {
        name: "write",
        shape: Shape::Table,
    },
];

/// The keys of a requirements table.
pub const NEED: [Key; 5] = [
    Key {
        name: "encrypted",
        shape: Shape::Boolean,
    },
    Key {
        name: "authenticated",
        shape: Shape::Boolean,
    },
    Key {
        name: "authorized",
        shape: Shape::Boolean,
    },
    Key {
        name: "secure",
        shape: Shape::Boolean,
    },
    Key {
        name: "key_size",
        shape: Shape::Integer,
    },
];

//! What is read of a table: its elements.

use std::marker::Model;

/// An attribute of a tag: the bytes of its name and of its value.
///
/// Of this project.
#[derive(Drop)]
pub struct Attribute {
    pub name: Vec<u8>,
    pub value: Vec<u8>,
}

impl Model for Attribute {
    ghost use Rattle.tabled_html_reading.specs.Elements.{Attribute};

    ghost Value = { Attribute };

    ghost view = { λ a. record { name = a.name.items; value = a.value.items } };
}

/// A tag, a start or an end tag.
#[derive(Drop)]
pub(crate) struct Tag {
    pub(crate) is_end: bool,
    pub(crate) name: Vec<u8>,
    pub(crate) attributes: Vec<Attribute>,
}

impl Model for Tag {
    ghost use Rattle.tabled_html_reading.specs.Tokenizing.{Tag};

    ghost Value = { Tag };

    ghost view = { λ t. record { is_end = t.is_end; name = t.name.items; attributes = t.attributes.items } };
}

/// The element of a cell: whether it is a header cell, its attributes, and the bytes of its text.
///
/// Of this project.
#[derive(Drop)]
pub struct Element {
    pub is_header: bool,
    pub attributes: Vec<Attribute>,
    pub text: Vec<u8>,
}

impl Model for Element {
    ghost use Rattle.tabled_html_reading.specs.Elements.{Element};

    ghost Value = { Element };

    ghost view = { λ e. record { is_header = e.is_header; attributes = e.attributes.items; text = e.text.items } };
}

/// The element of a row: those of its cells.
///
/// Of this project.
#[derive(Drop)]
pub struct Row {
    pub cells: Vec<Element>,
}

impl Model for Row {
    ghost use Rattle.std.specs.Prelude.{List};
    ghost use Rattle.tabled_html_reading.specs.Elements.{Element};

    ghost Value = { List Element };

    ghost view = { λ r. r.cells.items };
}

/// The element of a row group: whether it is the head, and those of its rows.
///
/// Of this project.
#[derive(Drop)]
pub struct Group {
    pub is_head: bool,
    pub rows: Vec<Row>,
}

impl Model for Group {
    ghost use Rattle.tabled_html_reading.specs.Elements.{Group};

    ghost Value = { Group };

    ghost view = { λ g. record { is_head = g.is_head; rows = g.rows.items } };
}

/// The element of a table: its attributes, the bytes of its caption, and the elements of its row groups.
///
/// Of this project.
#[derive(Drop)]
pub struct Table {
    pub attributes: Vec<Attribute>,
    pub caption: Option<Vec<u8>>,
    pub groups: Vec<Group>,
}

impl Model for Table {
    ghost use Rattle.std.specs.Option.{option_map};
    ghost use Rattle.std.specs.Prelude.{ℕ, vec_items};
    ghost use Rattle.tabled_html_reading.specs.Elements.{Table};

    ghost Value = { Table };

    ghost view = { λ t. record { attributes = t.attributes.items; caption = option_map vec_items t.caption; groups = t.groups.items } };
}

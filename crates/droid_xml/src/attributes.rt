//! Reads the attributes of a start tag one by one, and checks that no two have one name.

ghost use Rattle.std.specs.Prelude.{◌≡◌, map};
ghost use Rattle.std.specs.List.{list_any};
ghost use Rattle.std.specs.Str.{bytes_eq};
ghost use Rattle.droid_xml.specs.Attributes.{attribute_at, next_attribute, are_distinct};
ghost use Rattle.droid_xml.specs.Outcomes.{Gives, required};
ghost use Rattle.droid_xml.specs.Views.{setting};

use crate::bytes::{after, past_some_space, past_spaces};
use crate::names::name_at;
use crate::problem::{Problem, Stop};
use crate::values::value_at;
use std::alloc::Global;

/// An attribute of an element.
#[derive(Drop)]
pub struct Attribute<'a> {
    /// The name.
    pub name: &'a str,
    /// The value, with its references replaced and its white space made spaces.
    pub value: String,
}

/// Reads an attribute: a name, `=` and a value in quotes. Returns it and what follows it. Anything else is not
/// well-formed.
#[tactic(auto, unfolding(crate::specs::Attributes::attribute_at))]
fn attribute_at(alloc: Global, text: &[u8]) -> Result<(Attribute<'_>, &[u8]), Stop>
    ensures { Gives (λ x. (setting x.0, x.1.now)) result (required (attribute_at text.now)) }
{
    let (name, rest) = name_at(text).ok_or(Problem::NotWellFormed)?;
    let rest = after(past_spaces(rest), b"=").ok_or(Problem::NotWellFormed)?;
    let (value, rest) = value_at(alloc, past_spaces(rest))?;
    Ok((Attribute { name, value }, rest))
}

/// Reads an attribute after the white space that has to stand before it. Returns it and what follows it.
#[tactic(auto, unfolding(crate::specs::Attributes::next_attribute))]
pub fn next_attribute(alloc: Global, text: &[u8]) -> Result<(Attribute<'_>, &[u8]), Stop>
    ensures { Gives (λ x. (setting x.0, x.1.now)) result (required (next_attribute text.now)) }
{
    let rest = past_some_space(text).ok_or(Problem::NotWellFormed)?;
    attribute_at(alloc, rest)
}

/// Returns whether one of the attributes has this name, byte by byte.
fn has_name(attributes: &[Attribute<'_>], name: &str) -> bool
    ensures { result ≡ list_any (λ other. bytes_eq name.now other.name) (map setting attributes.now) }
{
    for attribute in attributes {
        if name == attribute.name {
            return true;
        }
    }
    false
}

/// Returns whether no name stands twice among the attributes of an element.
pub fn are_distinct(attributes: &[Attribute<'_>]) -> bool
    ensures { result ≡ are_distinct (map setting attributes.now) }
{
    for (place, attribute) in attributes.iter().enumerate() {
        if has_name(&attributes[place + 1..], attribute.name) {
            return false;
        }
    }
    true
}

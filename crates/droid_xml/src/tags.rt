//! Reads start tags, each with all its attributes.

ghost use Rattle.std.specs.Prelude.{◌≡◌, ◌≤◌, map};
ghost use Rattle.std.specs.Option.{option_map};
ghost use Rattle.droid_xml.specs.Outcomes.{Gives, Stops};
ghost use Rattle.droid_xml.specs.Tags.{tag_end, one_too_many, attributes_at, start_tag_at};
ghost use Rattle.droid_xml.specs.Views.{setting, tag};

use crate::attributes::{Attribute, are_distinct, next_attribute};
use crate::bytes::{after, past_spaces};
use crate::names::name_at;
use crate::problem::{Problem, Stop};
use std::alloc::Global;

/// An element that begins.
#[derive(Drop)]
pub struct Element<'a> {
    /// The name.
    pub name: &'a str,
    /// The attributes, at most 64, in their order.
    pub attributes: Vec<Attribute<'a>>,
    /// Whether the element ends here too, as `<a/>` does.
    pub is_empty: bool,
}

/// Reads the end of a start tag. Returns whether it ends its element too, and what follows it.
#[tactic(auto, unfolding(crate::specs::Tags::tag_end))]
fn tag_end(text: &[u8]) -> Option<(bool, &[u8])>
    ensures { option_map (λ x. (x.0, x.1.now)) result ≡ tag_end text.now }
{
    let text = past_spaces(text);
    match after(text, b"/>") {
        Some(rest) => Some((true, rest)),
        None => match after(text, b">") {
            Some(rest) => Some((false, rest)),
            None => None,
        },
    }
}

/// The attributes of a tag, and what its end is.
type Attributes<'a> = (Vec<Attribute<'a>>, (bool, &'a [u8]));

/// Reads the attributes of a start tag, at most 64, and its end. This number stands in the clause,
/// [`Problem::TooManyAttributes`] and [`Element`] too.
fn attributes_at(alloc: Global, text: &[u8]) -> Result<Attributes<'_>, Stop>
    ensures { Gives (λ x. (map setting x.0.items, (x.1.0, x.1.1.now))) result (attributes_at 64 text.now) }
{
    let mut attributes = Vec::new(alloc);
    let mut rest = text;
    for _ in 0..64_usize {
        match tag_end(rest) {
            Some(end) => return Ok((attributes, end)),
            None => {}
        }
        let (attribute, behind) = match next_attribute(alloc, rest) {
            Ok(found) => found,
            Err(stop) => return Err(stop),
        };
        attributes.push(attribute)?;
        rest = behind;
    }
    match tag_end(rest) {
        Some(end) => Ok((attributes, end)),
        None => Err(one_more(alloc, rest)),
    }
}

/// Returns what is wrong with a tag that does not end after 64 attributes: another attribute follows, or something that
/// is none.
fn one_more(alloc: Global, text: &[u8]) -> Stop
    ensures { Stops result (one_too_many text.now) }
{
    let Err(stop) = next_attribute(alloc, text) else {
        return Stop::Problem(Problem::TooManyAttributes);
    };
    stop
}

/// Reads a start tag behind its `<`. Returns the element and what follows the tag. Two attributes of one name are not
/// well-formed.
#[tactic(auto, unfolding(crate::specs::Tags::start_tag_at))]
pub fn start_tag_at(alloc: Global, text: &[u8]) -> Result<(Element<'_>, &[u8]), Stop>
    ensures { Gives (λ x. (tag x.0, x.1.now)) result (start_tag_at text.now) }
{
    let (name, rest) = name_at(text).ok_or(Problem::NotWellFormed)?;
    let (attributes, (is_empty, rest)) = attributes_at(alloc, rest)?;
    if !are_distinct(attributes.as_slice()) {
        return Err(Stop::Problem(Problem::NotWellFormed));
    }
    Ok((
        Element {
            name,
            attributes,
            is_empty,
        },
        rest,
    ))
}

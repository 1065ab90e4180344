//! Which elements are open, and whether the next piece may stand there.

ghost use Rattle.std.specs.Prelude.{◌≡◌, [], false};
ghost use Rattle.std.specs.List.{list_all};
ghost use Rattle.droid_xml.specs.Bytes.{is_space};
ghost use Rattle.droid_xml.specs.Nestings.{is_outside, is_complete, is_innermost, begun, closed, allowed, nested};
ghost use Rattle.droid_xml.specs.Outcomes.{Changes};
ghost use Rattle.droid_xml.specs.Views.{nesting, part, tag};

use crate::bytes::is_space;
use crate::pieces::Piece;
use crate::problem::{Problem, Stop};
use crate::tags::Element;
use std::alloc::Global;

/// The elements that are open, the innermost last, and whether the root has begun.
#[derive(Drop)]
pub struct Open<'a> {
    names: Vec<&'a str>,
    has_root: bool,
}

impl<'a> Open<'a> {
    /// Begins a document: nothing is open, and no root has begun.
    pub fn new(alloc: Global) -> Self
        ensures { nesting result ≡ record { names = []; has_root = false } }
    {
        Open {
            names: Vec::new(alloc),
            has_root: false,
        }
    }

    /// Returns whether no element is open.
    pub fn is_outside(&self) -> bool
        ensures { result ≡ is_outside (nesting self.now) }
    {
        self.names.is_empty()
    }

    /// Returns whether the root has begun and ended.
    pub fn is_complete(&self) -> bool
        ensures { result ≡ is_complete (nesting self.now) }
    {
        self.is_outside() & self.has_root
    }

    /// Notes that an element begins. It may not begin behind the root, and no element inside 16 open ones: that number
    /// stands in `begun` and at [`Problem::TooDeep`] too. An empty element is not left open.
    fn begin(&mut self, element: &Element<'a>) -> Result<(), Stop>
        ensures { Changes result (begun (nesting self.old) (tag element.now)) (nesting self.old) (nesting self.new) }
    {
        if self.is_complete() {
            return Err(Stop::Problem(Problem::NotWellFormed));
        }
        if self.names.len() >= 16 {
            return Err(Stop::Problem(Problem::TooDeep));
        }
        if !element.is_empty {
            self.names.push(element.name)?;
        }
        self.has_root = true;
        Ok(())
    }

    /// Returns whether the innermost element has this name.
    fn is_innermost(&self, name: &str) -> bool
        ensures { result ≡ is_innermost (nesting self.now) name.now }
    {
        match self.names.last() {
            Some(open) => *open == name,
            None => false,
        }
    }

    /// Ends the innermost element, which has to have this name: otherwise the document is not well-formed.
    fn close(&mut self, name: &str) -> Result<(), Stop>
        ensures { Changes result (closed (nesting self.old) name.now) (nesting self.old) (nesting self.new) }
    {
        if !self.is_innermost(name) {
            return Err(Stop::Problem(Problem::NotWellFormed));
        }
        let _ = self.names.pop();
        Ok(())
    }

    /// Accepts a piece that opens and closes nothing, if it may stand here: otherwise the document is not well-formed.
    fn allow(&self, is_allowed: bool) -> Result<(), Stop>
        ensures { Changes result (allowed is_allowed (nesting self.now)) (nesting self.now) (nesting self.now) }
    {
        if is_allowed {
            Ok(())
        } else {
            Err(Stop::Problem(Problem::NotWellFormed))
        }
    }

    /// Takes the next piece, if it may stand here. If not, nothing changes.
    #[tactic(auto, unfolding(crate::specs::Nestings::nested))]
    pub fn take(&mut self, piece: &Piece<'a>) -> Result<(), Stop>
        ensures { Changes result (nested (nesting self.old) (part piece.now)) (nesting self.old) (nesting self.new) }
    {
        let is_inside = !self.is_outside();
        match piece {
            Piece::Start(element) => self.begin(element),
            Piece::End(name) => self.close(name),
            Piece::Text(text) => self.allow(is_inside || is_white(text)),
            Piece::Data(_) | Piece::Reference(_) => self.allow(is_inside),
            Piece::Comment(_) | Piece::Instruction(_, _) => Ok(()),
        }
    }
}

/// Returns whether the text is white space and nothing else.
fn is_white(text: &str) -> bool
    ensures { result ≡ list_all is_space text.now }
{
    text.as_bytes().iter().all(|byte| is_space(*byte))
}

//! A registry, with the name by which it is reported: where it comes from, and the MD5 of its bytes.

ghost use Rattle.std.specs.Prelude.{◌≡◌, IfOk, Some, option_map};
ghost use Rattle.droid_cmd_profile.specs.NamedRegistries.{IsReadFrom, NamesRegistry, registry_line, registry_text};
ghost use Rattle.droid_cmd_profile.specs.NamedRegistries.{source_text};

use droid_export::HashText;
use droid_frame::HashValue;
use droid_pronom::{Registry, RegistryFault};
use droid_terminal::Shown;
use md5::{Digest, Md5};
use std::alloc::Global;
use std::fmt;
use std::fmt::{Display, Formatter, Write};

/// Which registry it is. Prints as its path, or words for the built-in one, and `, MD5 ` with 32 digits.
#[derive(Clone, Copy)]
pub struct RegistryName<'a> {
    /// The path of its file, or `None` for the built-in registry of everyday formats.
    pub path: Option<&'a str>,
    /// The MD5 of its bytes (RFC 1321).
    pub md5: [u8; 16],
}

/// A registry, and which it is.
#[derive(Drop)]
pub struct NamedRegistry<'a> {
    /// The registry.
    pub registry: Registry,
    /// Which it is.
    pub name: RegistryName<'a>,
}

impl<'a> NamedRegistry<'a> {
    /// Reads a registry from the bytes of the file at this path, or from those of the built-in one. Fails as
    /// `Registry::parse` does. The path is only kept: the caller has read the bytes.
    pub fn parse(
        alloc: Global,
        path: Option<&'a str>,
        bytes: &[u8],
    ) -> Result<NamedRegistry<'a>, RegistryFault>
        // The MD5 is that of the bytes that the registry was read from.
        ensures name { IfOk result (λ named.
            NamesRegistry (option_map (λ text. text.now) path.entry) bytes.now named.name) }
        ensures registry { IsReadFrom bytes.now result }
    {
        let registry = Registry::parse(alloc, bytes)?;
        let name = RegistryName {
            path,
            md5: Md5::digest(bytes),
        };
        Ok(NamedRegistry { registry, name })
    }
}

impl Display for RegistryName<'_> {
    ghost output = { λ name. Some (registry_text name) };

    fn fmt<W: Write>(&self, f: &mut Formatter<W>) -> fmt::Result {
        let digits = HashText::of(&HashValue::Md5(self.md5));
        write!(f, "{}, MD5 {}", Source(self.path), Shown(digits.as_slice()))
    }
}

/// Where a registry comes from. Prints the path of its file, or that it is the built-in one.
#[derive(Clone, Copy)]
struct Source<'a>(Option<&'a str>);

impl Display for Source<'_> {
    ghost output = { λ source. Some (source_text (option_map (λ text. text.now) source.0)) };

    fn fmt<W: Write>(&self, f: &mut Formatter<W>) -> fmt::Result {
        match self.0 {
            Some(path) => write!(f, "{}", Shown(path.as_bytes())),
            None => f.write_str("the built-in registry of everyday formats"),
        }
    }
}

/// The line on standard error that says which registry identifies the files.
#[derive(Clone, Copy)]
pub struct RegistryLine<'a>(pub RegistryName<'a>);

impl Display for RegistryLine<'_> {
    ghost output = { λ line. Some (registry_line line.0) };

    fn fmt<W: Write>(&self, f: &mut Formatter<W>) -> fmt::Result {
        writeln!(f, "registry: {}", self.0)
    }
}

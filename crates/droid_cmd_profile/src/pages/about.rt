//! The sentences in which a page says of what, when and by what it was made. Their words are those of `droid_report`.

ghost use Rattle.std.specs.Prelude.{Some, option_map};
ghost use Rattle.droid_cmd_profile.specs.Abouts.{about_text, hash_words, registry_words};

use droid_frame::HashKind;
use droid_report::texts;
use std::fmt;
use std::fmt::{Display, Formatter, Write};

/// What a page says of itself: prints its CSV, its time, its registry if that is known, its hash, and how it counts.
#[derive(Clone, Copy)]
pub(crate) struct About<'a> {
    /// When it was made, in UTC.
    pub moment: &'a str,
    /// The name of the CSV.
    pub name: &'a str,
    /// Which registry identified the files, if that is known.
    pub registry: Option<&'a str>,
    /// Which hash the CSV has.
    pub hash: HashKind,
}

impl Display for About<'_> {
    ghost output = { λ it.
        Some (about_text it.moment.now it.name.now (option_map (λ text. text.now) it.registry) it.hash) };

    #[tactic(auto, unfolding(crate::specs::Abouts::about_text))]
    fn fmt<W: Write>(&self, f: &mut Formatter<W>) -> fmt::Result {
        write!(
            f,
            "{}{}{}{}{}{}{}{}",
            texts::MADE_FROM,
            self.name,
            texts::MADE_AT,
            self.moment,
            texts::IN_UTC,
            RegistryWords(self.registry),
            HashWords(self.hash),
            texts::COUNTED_ONCE
        )
    }
}

/// Which registry identified the files, in words. Prints nothing if that is not known.
#[derive(Clone, Copy)]
struct RegistryWords<'a>(Option<&'a str>);

impl Display for RegistryWords<'_> {
    ghost output = { λ it. Some (registry_words (option_map (λ text. text.now) it.0)) };

    #[tactic(auto, unfolding(crate::specs::Abouts::registry_words))]
    fn fmt<W: Write>(&self, f: &mut Formatter<W>) -> fmt::Result {
        match self.0 {
            Some(registry) => write!(f, "{}{registry}{}", texts::REGISTRY, texts::REGISTRY_END),
            None => Ok(()),
        }
    }
}

/// Which hash a CSV has, in words.
#[derive(Clone, Copy)]
struct HashWords(HashKind);

impl Display for HashWords {
    ghost output = { λ it. Some (hash_words it.0) };

    fn fmt<W: Write>(&self, f: &mut Formatter<W>) -> fmt::Result {
        match self.0 {
            HashKind::Nothing => f.write_str(texts::NO_HASHES),
            HashKind::Md5 => f.write_str(texts::MD5_HASHES),
            HashKind::Sha256 => f.write_str(texts::SHA256_HASHES),
        }
    }
}

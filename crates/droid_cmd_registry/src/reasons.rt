//! Sentences that say why something is not in a registry. Their numbers are limits that the crates below keep: the
//! prover compares only the words, with `specs/Reasons.antt`. `registry_limits.py` of `tests/program/signatures` has
//! each sentence, and tests each number at its limit and one past it; docs/REGISTRY.md has the numbers too.

ghost use Rattle.std.specs.Prelude.{◌≡◌};
ghost use Rattle.droid_cmd_registry.specs.Reasons.{reason_text, why_text};

use droid_signature::Why;
use droid_signature_pattern::Reason;

/// Says why something is not in the registry, for the end of its line. A signature has a reason of its own.
#[tactic(auto, unfolding(crate::specs::Reasons::why_text))]
pub(crate) fn why_sentence(why: Why) -> &'static str
    ensures { result.now ≡ why_text why }
{
    match why {
        Why::NoPuid => "it has no PUID",
        Why::BadPuid => "its PUID is not of 1 to 32 ASCII letters, digits, / and -",
        Why::PuidTaken => "an earlier format has its PUID",
        Why::BadName => "it has no name, or one of more than 255 bytes",
        Why::LongNote => "its version or media type has more than 255 bytes",
        Why::BadExtension => "it is empty, has more than 64 bytes, or has a . or a /",
        Why::OverItself => "that is the format itself",
        Why::NoSuchFormat => "the registry has no format with that ID",
        Why::SeveralFormats => "several formats have that ID",
        Why::NoSuchSignature => "the file has no signature with that ID",
        Why::SeveralSignatures => "several signatures have that ID",
        Why::Unnamed => "no format names it",
        Why::NoSignatureLeft => "all its signatures, so that only its extensions find it",
        Why::Full => "the registry is full",
        Why::Signature(reason) => reason_sentence(reason),
    }
}

/// Says why a registry cannot hold a signature: what its pattern, offsets or positions have that a registry has not.
#[tactic(auto, unfolding(crate::specs::Reasons::reason_text))]
fn reason_sentence(reason: Reason) -> &'static str
    ensures { result.now ≡ reason_text reason }
{
    match reason {
        Reason::NoSequence => "it has no byte sequence",
        Reason::Reference => "its offsets count neither from the beginning nor from the end",
        Reason::NoSubsequence => "a byte sequence has no subsequence",
        Reason::SeveralFromEnd => "a byte sequence from the end has several subsequences",
        Reason::SubsequencePositions => "its subsequences are not in the order of their positions",
        Reason::FurtherUpperOffset => "a subsequence behind the first has an upper offset",
        Reason::NoUpperOffset => "an upper offset is missing",
        Reason::OffsetOrder => "an upper offset is less than the lower one",
        Reason::LargeOffset => "an offset is over 65,535",
        Reason::FragmentPositions => "the positions of its fragments leave one out",
        Reason::LargePosition => "a fragment has a position over 64",
        Reason::Text => "a text that a registry has no pattern for, as a bit mask",
        Reason::LongText => "a text of more than 65,536 bytes",
        Reason::LongRange => "a range of more than 16 bytes",
        Reason::ManyAlternatives => "more than 64 alternatives",
        Reason::LongPattern => "a pattern of more than 4,096 bytes",
        Reason::LongPatterns => "patterns of more than 16,384 bytes in all",
        Reason::GapAtEnd => "a gap at the end of a pattern",
    }
}

//! The printer of replies: the line of each kind.

ghost use Rattle.std.specs.Prelude.{◌≡◌, ◌++◌, IfOk, OnOk, string_bytes};
ghost use Rattle.droid_lines.specs.Printed.{after_commas, answer_line, detail_text, finished_text, following_bytes};
ghost use Rattle.droid_lines.specs.Printed.{hash_text, limit_text, method_text, puids_text, reply_text};

use droid_frame::{HashValue, Limit, Method, Refusal, Reply, Text, Texts};
use std::alloc::{AllocError, Global};

/// Prints the outcome of a line of a script: the reply to its request, or `bad line` for `None`; then a line feed, and
/// after it the bytes of a part of an export. Fails only if memory runs out.
#[tactic(auto, unfolding(crate::specs::Printed::answer_text, crate::specs::Printed::following_bytes))]
pub fn print_answer(alloc: Global, answer: &Option<Reply>) -> Result<Vec<u8>, AllocError>
    ensures { IfOk result (λ printed. printed.items ≡ answer_line answer.now) }
{
    match answer {
        Some(reply) => print_reply(alloc, reply),
        None => Ok(String::from_str(alloc, "bad line\n")?.into_bytes()),
    }
}

/// Prints a reply as [`print_answer`] does. Fails only if memory runs out.
#[tactic(auto, unfolding(crate::specs::Printed::answer_text))]
pub fn print_reply(alloc: Global, reply: &Reply) -> Result<Vec<u8>, AllocError>
    ensures { IfOk result (λ printed. printed.items ≡ answer_line (Some reply.now)) }
{
    let mut line = reply_text(alloc, reply)?;
    line.push('\n')?;
    let mut printed = line.into_bytes();
    append_part(&mut printed, reply)?;
    Ok(printed)
}

/// Appends the bytes of a part of an export, if the reply is one.
#[tactic(auto, unfolding(crate::specs::Printed::following_bytes))]
fn append_part(printed: &mut Vec<u8>, reply: &Reply) -> Result<(), AllocError>
    ensures { OnOk result (printed.new.items ≡ printed.old.items ++ following_bytes (Some reply.now)) }
{
    match reply {
        Reply::Part { bytes, .. } => printed.extend_from_slice(bytes.as_slice()),
        _ => Ok(()),
    }
}

/// Returns the line of a reply, without its line feed.
#[tactic(auto, unfolding(crate::specs::Printed::reply_text))]
fn reply_text(alloc: Global, reply: &Reply) -> Result<String, AllocError>
    ensures { IfOk result (λ text. string_bytes text ≡ reply_text reply.now) }
{
    match reply {
        Reply::Made { profile } => format!(in alloc; "made {profile}"),
        Reply::Node { id } => format!(in alloc; "node {id}"),
        Reply::Taken { held } => format!(in alloc; "taken {held}"),
        Reply::Finished {
            method,
            mismatch,
            hash,
            puids,
        } => finished_text(alloc, *method, *mismatch, hash, puids),
        Reply::Abandoned => format!(in alloc; "abandoned"),
        Reply::Progress { held, missing } => format!(in alloc; "progress {held} {missing}"),
        Reply::Part {
            as_of,
            total,
            bytes,
        } => {
            let length = bytes.len();
            format!(in alloc; "part {as_of} {total} {length}")
        }
        Reply::Refused(refusal) => {
            let number = refusal.number();
            let detail = detail_text(alloc, *refusal)?;
            format!(in alloc; "refused {number}{detail}")
        }
    }
}

/// Returns the line of a finished file: `finished METHOD MISMATCH HASH PUIDS`, without its line feed.
#[tactic(auto, unfolding(crate::specs::Printed::finished_text))]
fn finished_text(
    alloc: Global,
    method: Method,
    mismatch: bool,
    hash: &HashValue,
    puids: &Texts,
) -> Result<String, AllocError>
    ensures { IfOk result (λ text. string_bytes text ≡ finished_text method mismatch hash.now puids.now) }
{
    let method = method_text(method);
    let digits = hash_text(alloc, hash)?;
    let puids = puids_text(alloc, puids)?;
    format!(in alloc; "finished {method} {mismatch} {digits} {puids}")
}

/// Returns the word for how a file was identified. The criterion `method` reads these words.
fn method_text(method: Method) -> &'static str
    ensures { result.now ≡ method_text method }
{
    match method {
        Method::Unidentified => "none",
        Method::Signature => "Signature",
        Method::Extension => "Extension",
    }
}

/// Returns the hash in lower-case hexadecimal digits, or `-` if there is none.
fn hash_text(alloc: Global, hash: &HashValue) -> Result<String, AllocError>
    ensures { IfOk result (λ text. string_bytes text ≡ hash_text hash.now) }
{
    match hash {
        HashValue::Nothing => String::from_str(alloc, "-"),
        HashValue::Md5(digest) => hex::encode(alloc, digest.as_slice()),
        HashValue::Sha256(digest) => hex::encode(alloc, digest.as_slice()),
    }
}

/// Returns the identifiers with commas between them, or `-` if there is none.
fn puids_text(alloc: Global, puids: &Texts) -> Result<String, AllocError>
    ensures { IfOk result (λ text. string_bytes text ≡ puids_text puids.now) }
{
    let Some((first, others)) = puids.as_slice().split_first() else {
        return String::from_str(alloc, "-");
    };
    let mut text = String::from_str(alloc, first.as_str())?;
    append_after_commas(&mut text, others)?;
    Ok(text)
}

/// Appends each text after a comma.
fn append_after_commas(out: &mut String, texts: &[Text]) -> Result<(), AllocError>
    ensures { OnOk result (string_bytes out.new ≡ string_bytes out.old ++ after_commas texts.now) }
{
    for text in texts {
        out.push_str(",")?;
        out.push_str(text.as_str())?;
    }
    Ok(())
}

/// Returns what a refusal prints after its number: a space and a number or a word, or nothing.
fn detail_text(alloc: Global, refusal: Refusal) -> Result<String, AllocError>
    ensures { IfOk result (λ text. string_bytes text ≡ detail_text refusal) }
{
    match refusal {
        Refusal::TooFarAhead { missing } | Refusal::Incomplete { missing } => {
            format!(in alloc; " {missing}")
        }
        Refusal::LimitReached(which) => {
            let limit = limit_text(which);
            format!(in alloc; " {limit}")
        }
        _ => Ok(String::new(alloc)),
    }
}

/// Returns the word for the limit that was reached.
fn limit_text(limit: Limit) -> &'static str
    ensures { result.now ≡ limit_text limit }
{
    match limit {
        Limit::Profiles => "profiles",
        Limit::Nodes => "nodes",
        Limit::Unfinished => "unfinished",
    }
}

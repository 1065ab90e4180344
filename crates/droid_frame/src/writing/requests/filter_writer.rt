//! Writers of filters, as the body of an Export ends with one. After an error, which is out of memory, `out` may have
//! some of the bytes; `body_of`, which made it, drops it.

ghost use Rattle.std.specs.Prelude.{◌≡◌, ◌++◌, ◌∷◌, ◌<◌, ◌^◌, OnOk};
ghost use Rattle.droid_frame.specs.Fields.{u64_bytes};
ghost use Rattle.droid_frame.specs.Filters.{IsList, IsCriterion, IsFilter, ListFits, CriterionFits, FilterFits};
ghost use Rattle.droid_frame.specs.Filters.{list_bytes, criterion_bytes, filter_bytes};

use crate::criterion::Criterion;
use crate::filter::Filter;
use crate::texts::Texts;
use crate::writing::text_writer::append_texts;
use std::alloc::AllocError;

/// Appends the filter: whether a record must meet all criteria, their count, and each criterion.
pub(crate) fn append_filter(out: &mut Vec<u8>, filter: &Filter) -> Result<(), AllocError>
    requires { FilterFits filter.now }
    ensures added { OnOk result (out.new.items ≡ out.old.items ++ filter_bytes filter.now) }
    ensures spelled { OnOk result (IsFilter filter.now) }
{
    let criteria = filter.criteria.as_slice();
    out.push(u8::from(filter.all))?;
    out.push(criteria.len() as u8)?;
    for criterion in criteria {
        append_criterion(out, criterion)?;
    }
    Ok(())
}

/// Appends a criterion behind its tag, 1 to 7. `plain_at` and `tagged_at` in `reading/filters.rt` read the tags back;
/// the prover ties both to `criterion_bytes`.
fn append_criterion(out: &mut Vec<u8>, criterion: &Criterion) -> Result<(), AllocError>
    requires { CriterionFits criterion.now }
    ensures added { OnOk result (out.new.items ≡ out.old.items ++ criterion_bytes criterion.now) }
    ensures spelled { OnOk result (IsCriterion criterion.now) }
{
    match criterion {
        Criterion::MethodIs(method) => out.extend_from_slice(&[1, method.number()])?,
        Criterion::PuidIn(texts) => append_list(out, 2, texts)?,
        Criterion::ExtIn(texts) => append_list(out, 3, texts)?,
        Criterion::MismatchIs(mismatch) => out.extend_from_slice(&[4, u8::from(*mismatch)])?,
        Criterion::SizeAtLeast(size) => append_size(out, 5, *size)?,
        Criterion::SizeAtMost(size) => append_size(out, 6, *size)?,
        Criterion::KindIs(kind) => out.extend_from_slice(&[7, kind.number()])?,
    }
    Ok(())
}

/// Appends a criterion that is a list of texts: its tag, 2 or 3, the number of texts in one byte, and each text after
/// its length.
fn append_list(out: &mut Vec<u8>, tag: u8, texts: &Texts) -> Result<(), AllocError>
    requires { ListFits texts.now }
    ensures added { OnOk result (out.new.items ≡ out.old.items ++ tag ∷ list_bytes texts.now) }
    ensures spelled { OnOk result (IsList texts.now) }
{
    out.push(tag)?;
    out.push(texts.len() as u8)?;
    append_texts(out, texts)
}

/// Appends a criterion on the size: its tag, 5 or 6, and the number of bytes, eight bytes big-endian.
fn append_size(out: &mut Vec<u8>, tag: u8, size: u64) -> Result<(), AllocError>
    ensures added { OnOk result (out.new.items ≡ out.old.items ++ tag ∷ u64_bytes size) }
    ensures spelled { size < 2 ^ 64 }
{
    out.push(tag)?;
    out.extend_from_slice(&size.to_be_bytes())?;
    Ok(())
}

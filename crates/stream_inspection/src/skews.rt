//! What is told of the skew of the paths.
ghost use Rattle.std.specs.Prelude.{◌≡◌, ◌++◌, List, IfOk, OnOk};
ghost use Rattle.std.specs.Prelude.{option_to_list};
ghost use Rattle.stream_inspection.specs.Arrivals.{Arrival};
ghost use Rattle.stream_inspection.specs.Lines.{row_line};
ghost use Rattle.stream_inspection.specs.Skews.{AreProbes, IsOrderOf, skew_row, skews_in};
ghost use Rattle.stream_inspection.specs.declared.rows.Row.TheVariants.{Skew as SkewOf};

use crate::probes::ProbeTable;
use crate::rows::{Row, SkewRow};
use crate::text::{Form, put_row};
use recording_counts::TimestampCount;
use std::alloc::{AllocError, Allocator};

/// The skews of timestamps, as far as they are known, in order.
pub(crate) fn skews_of<A: Allocator>(
    alloc: A,
    counts: &[TimestampCount],
    probes: &ProbeTable<A>,
) -> Result<Vec<u128, A>, AllocError>
where
    A: Copy,
    ensures { IfOk result (λ skews. (arrivals : List Arrival) → AreProbes probes.now arrivals
        → IsOrderOf skews.items (skews_in arrivals counts.now)) }
{
    let mut skews = gather(alloc, counts, probes)?;
    skews.sort()?;
    Ok(skews)
}

/// The skews of timestamps, as far as they are known.
fn gather<A: Allocator + Copy>(
    alloc: A,
    counts: &[TimestampCount],
    probes: &ProbeTable<A>,
) -> Result<Vec<u128, A>, AllocError>
    ensures { IfOk result (λ skews. (arrivals : List Arrival) → AreProbes probes.now arrivals
        → skews.items ≡ skews_in arrivals counts.now) }
{
    let mut skews = Vec::new(alloc);
    for count in counts {
        add(&mut skews, probes.skew(&count.key))?;
    }
    Ok(skews)
}

/// Adds a skew, where it is known.
fn add<A: Allocator>(skews: &mut Vec<u128, A>, skew: Option<u128>) -> Result<(), AllocError>
    ensures { OnOk result (skews.new.items ≡ skews.old.items ++ option_to_list skew) }
{
    match skew {
        Some(skew) => {
            skews.push(skew)?;
            Ok(())
        }
        None => Ok(()),
    }
}

/// Puts the least, the middle and the greatest of skews that are in order.
pub(crate) fn put_skews<A: Allocator>(
    text: &mut Vec<u8, A>,
    form: Form,
    skews: &[u128],
) -> Result<(), AllocError>
    ensures { OnOk result (text.new.items ≡ text.old.items
        ++ row_line form (SkewOf (skew_row skews.now))) }
{
    put_row(text, form, Row::Skew(row_of(skews)))
}

/// The least, the middle and the greatest of skews that are in order.
fn row_of(skews: &[u128]) -> SkewRow
    ensures { result ≡ skew_row skews.now }
{
    let count = skews.len();
    let middle = count.saturating_sub(1) / 2;
    SkewRow {
        timestamps: count as u64,
        least: skews.first().copied(),
        middle: skews.get(middle).copied(),
        greatest: skews.last().copied(),
    }
}
